ghost use Rattle.std.specs.Prelude.{◌≡◌, ◌<◌, ◌≤◌, length, take, slice_index, string_bytes, IfOk};
ghost use Rattle.std.specs.Prelude.{IfErr};
ghost use Rattle.std.specs.Str.Lossy.{utf8_valid_len};
ghost use Rattle.smith_bytes.specs.Source.{KeepsPieces};
ghost use Rattle.smith_bytes.specs.Names.{text_at};

use crate::error::Error;
use crate::unstructured::Unstructured;
use std::alloc::Global;

/// Draws a string of at most `max_size` bytes. Draws a length, cuts it to `max_size`, and takes the
/// longest UTF-8 prefix of that many bytes.
///
/// The string borrows from the input and outlives the borrow of `u`.
///
/// # Examples
///
/// ```rust
/// let mut u = Unstructured::new(b"ab\xff\x03");
/// assert_eq!(rt; limited_str(1000, &mut u), "ab");
/// assert_eq!(rt; u.len(), 1);
/// ```
#[tactic(auto, unfolding(crate::specs::Names::text_at))]
pub fn limited_str<'a>(max_size: usize, u: &mut Unstructured<'a>) -> &'a str
    ensures exact { text_at max_size u.old ≡ (result.now, u.new) }
    ensures left { KeepsPieces u.old u.new }
{
    let size = u.arbitrary_len().min(max_size);
    let text = utf8_front(u.peek_bytes(size).unwrap());
    let _text = u.up_to(text.len());
    text
}

/// Draws a string of at most `max_size` bytes as [`limited_str`] does, and copies it into memory
/// from `alloc`.
///
/// # Examples
///
/// ```rust
/// let mut u = Unstructured::new(b"ab\x02");
/// assert_eq!(rt; limited_string(rt.alloc(), 1, &mut u)?.as_str(), "a");
/// ```
pub fn limited_string(
    alloc: Global,
    max_size: usize,
    u: &mut Unstructured<'_>,
) -> Result<String, Error>
    ensures exact { IfOk result (λ text. text_at max_size u.old ≡ (string_bytes text, u.new)) }
    ensures memory { IfErr result (λ e. e ≡ Error.Memory) }
    ensures left { KeepsPieces u.old u.new }
{
    Ok(limited_str(max_size, u).to_string(alloc)?)
}

/// The number of bytes that [`narrow_front`] reads before [`wide_front`] is tried.
const WINDOW: usize = 64;

/// The greatest number of bytes in a UTF-8 character.
const LONGEST_CHARACTER: usize = 4;

/// The lowest first byte of a character of several bytes. The other bytes of such a character are
/// lower.
const FIRST_OF_SEVERAL: u8 = 0xC0;

/// Returns the longest UTF-8 prefix of `bytes`.
///
/// Most drawn bytes are UTF-8 only for a short prefix, and [`wide_front`] always reads all bytes.
/// So it is called only if the UTF-8 prefix of the first [`WINDOW`] bytes ends in the last bytes of
/// the window, where a character may be cut.
fn utf8_front(bytes: &[u8]) -> &str
    ensures exact { result.now ≡ take (utf8_valid_len bytes.now) bytes.now }
    ensures size { length result.now ≡ utf8_valid_len bytes.now }
    ensures within { utf8_valid_len bytes.now ≤ length bytes.now }
{
    if bytes.len() <= WINDOW {
        return narrow_front(bytes);
    }
    let first = narrow_front(&bytes[..WINDOW]);
    if first.len() + LONGEST_CHARACTER <= WINDOW {
        return first;
    }
    wide_front(&bytes[..reach(bytes)])
}

/// Returns an upper bound of the longest UTF-8 prefix of `bytes`: the end, or the start of a last
/// character that is cut.
fn reach(bytes: &[u8]) -> usize
    ensures within { result ≤ length bytes.now }
    ensures most { utf8_valid_len bytes.now ≤ result }
{
    let last = last_start(bytes);
    last + narrow_front(&bytes[last..]).len()
}

/// Returns the start of the last character of several bytes if the end of `bytes` may cut it,
/// otherwise the length of `bytes`.
fn last_start(bytes: &[u8]) -> usize
    ensures within { result ≤ length bytes.now }
    ensures start { result < length bytes.now → FIRST_OF_SEVERAL ≤ slice_index bytes.now result }
{
    let rest = bytes.len().saturating_sub(LONGEST_CHARACTER - 1);
    match bytes[rest..].iter().rposition(|b| *b >= FIRST_OF_SEVERAL) {
        Some(at) => rest + at,
        None => bytes.len(),
    }
}

/// Returns the longest UTF-8 prefix of `bytes`. Uses wide instructions, which read all bytes.
fn wide_front(bytes: &[u8]) -> &str
    ensures exact { result.now ≡ take (utf8_valid_len bytes.now) bytes.now }
    ensures size { length result.now ≡ utf8_valid_len bytes.now }
    ensures within { utf8_valid_len bytes.now ≤ length bytes.now }
{
    match simdutf8::compat::from_utf8(bytes) {
        Ok(text) => text,
        Err(e) => simdutf8::compat::from_utf8(&bytes[..e.valid_up_to()]).unwrap(),
    }
}

/// Returns the longest UTF-8 prefix of `bytes`. Reads one character after another and nothing after
/// the prefix.
fn narrow_front(bytes: &[u8]) -> &str
    ensures exact { result.now ≡ take (utf8_valid_len bytes.now) bytes.now }
    ensures size { length result.now ≡ utf8_valid_len bytes.now }
    ensures within { utf8_valid_len bytes.now ≤ length bytes.now }
{
    match bytes.utf8_chunks().next() {
        Some(chunk) => chunk.valid(),
        None => "",
    }
}
