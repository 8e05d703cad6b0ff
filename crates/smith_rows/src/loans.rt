use smith_bytes::{Error, Unstructured, limited_str};
use std::test::Fail;

// Returns loans of the first bytes of `u`: a text, and two bytes.
fn take_loans<'a>(u: &mut Unstructured<'a>) -> Result<(&'a str, &'a [u8]), Error> {
    let name = limited_str(1000, u);
    Ok((name, u.bytes(2)?))
}

// Returns whether `u`, which has `cde` and one more byte, returns the expected draws.
fn draws_on(u: &mut Unstructured<'_>) -> bool {
    u.peek_bytes(3) == Some(b"cde".as_slice())
        && u.arbitrary::<u8>() == b'c'
        && u.bytes(3) == Err(Error::NotEnoughData)
        && u.peek_bytes(3).is_none()
        && u.len() == 2
        && !u.is_empty()
}

#[test]
fn what_is_lent_outlives_later_draws(rt: HostRuntime) -> Result<(), Fail> {
    for _ in 0..2 {
        let mut u = Unstructured::new(b"ab\xff\x09cde\x03");
        let (name, bytes) = take_loans(&mut u)?;
        assert!(rt; draws_on(&mut u));
        assert!(rt; name == "ab");
        assert!(rt; bytes == b"\xff\x09".as_slice());
    }
    Ok(())
}
