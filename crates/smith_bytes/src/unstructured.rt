ghost use Rattle.std.specs.Prelude.{◌≡◌, ◌≤◌, ◌<◌, ◌^◌, ◌↔◌, IsTrue, IsOk, IsErr, IfOk, IfErr};
ghost use Rattle.std.specs.Prelude.{OnOk, OnErr, Some, IsSome, IfSome, length, take, drop};
ghost use Rattle.std.specs.Range.{range_inclusive_start, range_inclusive_end};
ghost use Rattle.smith_bytes.specs.Source.{KeepsPieces};
ghost use Rattle.smith_bytes.specs.Draws.{whole_at, range_at, ratio_at, choose_at, length_size};
ghost use Rattle.smith_bytes.specs.Draws.{len_at};

use crate::arbitrary::{Arbitrary, Int};
use crate::digits::{
    count_digits, read_big_endian, read_little_endian, read_wide_big_endian,
    read_wide_little_endian,
};
use crate::error::Error;
use std::marker::Model;
use std::ops::RangeInclusive;

/// A source of bytes from which values are drawn. Clauses see the remaining bytes.
///
/// A draw past the end of the bytes reads zeros, so a draw never runs out of bytes.
///
/// # Examples
///
/// ```rust
/// use smith_bytes::Unstructured;
///
/// let mut u = Unstructured::new(&[1, 0x2c, 0x01, 9]);
/// assert!(rt; u.arbitrary::<bool>());
/// assert_eq!(rt; u.arbitrary::<u16>(), 300);
/// assert_eq!(rt; u.len(), 1);
/// ```
#[derive(Debug, Drop)]
pub struct Unstructured<'a> {
    bytes: &'a [u8],
}

impl<'a> Model for Unstructured<'a> {
    ghost use Rattle.std.specs.Prelude.{List, ℕ};

    ghost Value = { List ℕ };

    ghost view = { λ u. u.bytes.now };
}

impl<'a> Unstructured<'a> {
    /// Creates a source of the given bytes.
    ///
    /// # Examples
    ///
    /// ```rust
    /// let u = Unstructured::new(&[7, 8]);
    /// assert_eq!(rt; u.len(), 2);
    /// ```
    pub fn new(bytes: &'a [u8]) -> Self
        ensures { result ≡ bytes.now }
    {
        Unstructured { bytes }
    }

    /// Returns the number of remaining bytes.
    ///
    /// # Examples
    ///
    /// ```rust
    /// let mut u = Unstructured::new(&[1, 2, 3]);
    /// let _first = u.arbitrary::<u8>();
    /// assert_eq!(rt; u.len(), 2);
    /// ```
    pub fn len(&self) -> usize
        ensures { result ≡ length self.now }
    {
        self.bytes.len()
    }

    /// Returns `true` if no bytes remain.
    ///
    /// # Examples
    ///
    /// ```rust
    /// assert!(rt; Unstructured::new(&[]).is_empty());
    /// assert!(rt; !Unstructured::new(&[0]).is_empty());
    /// ```
    pub fn is_empty(&self) -> bool
        ensures { IsTrue result ↔ (length self.now ≡ 0) }
    {
        self.bytes.is_empty()
    }

    /// Draws a value of type `T` as defined by its implementation of [`Arbitrary`].
    ///
    /// # Examples
    ///
    /// ```rust
    /// let mut u = Unstructured::new(&[1, 2]);
    /// assert_eq!(rt; u.arbitrary::<u32>(), 513);
    /// assert_eq!(rt; u.arbitrary::<u32>(), 0);
    /// ```
    pub fn arbitrary<T: Arbitrary>(&mut self) -> T
        ensures exact { T.drawn self.old ≡ (result, self.new) }
        ensures left { KeepsPieces self.old self.new }
    {
        T::arbitrary(self)
    }

    /// Draws a number in `range`. Requires the start of `range` to be at most its end.
    ///
    /// # Examples
    ///
    /// ```rust
    /// let mut u = Unstructured::new(&[3, 232]);
    /// assert_eq!(rt; u.int_in_range(0u32..=1000), 1000);
    /// assert_eq!(rt; u.int_in_range(5u8..=9), 5);
    /// ```
    #[tactic(auto, unfolding(crate::specs::Draws::range_at))]
    pub fn int_in_range<T: Int>(&mut self, range: RangeInclusive<T>) -> T
        requires ordered { T.number (range_inclusive_start range)
            ≤ T.number (range_inclusive_end range) }
        ensures exact { range_at (T.number (range_inclusive_start range))
            (T.number (range_inclusive_end range)) self.old
            ≡ (T.number result, self.new) }
        ensures above { T.number (range_inclusive_start range) ≤ T.number result }
        ensures within { T.number result ≤ T.number (range_inclusive_end range) }
        ensures left { KeepsPieces self.old self.new }
    {
        let (start, end) = range.into_inner();
        let lowest = start.widen();
        T::narrow(lowest + self.offset(end.widen() - lowest), end)
    }

    /// Draws a bool that is `true` with probability `n` in `m`. Requires `n` to be at least 1 and
    /// at most `m`.
    ///
    /// # Examples
    ///
    /// ```rust
    /// let mut u = Unstructured::new(&[255, 1]);
    /// assert!(rt; u.ratio(1u8, 255));
    /// assert!(rt; !u.ratio(1u8, 255));
    /// ```
    #[tactic(auto, unfolding(crate::specs::Draws::range_at, crate::specs::Draws::ratio_at))]
    pub fn ratio<T: Int>(&mut self, n: T, m: T) -> bool
        requires some { 0 < T.number n }
        requires ordered { T.number n ≤ T.number m }
        ensures exact { ratio_at (T.number n) (T.number m) self.old ≡ (result, self.new) }
        ensures left { KeepsPieces self.old self.new }
    {
        1 + self.offset(m.widen() - 1) <= n.widen()
    }

    /// Draws an index of `items` and returns the item at that index.
    ///
    /// # Errors
    ///
    /// Returns [`Error::EmptyChoose`] if `items` is empty.
    ///
    /// # Examples
    ///
    /// ```rust
    /// let mut u = Unstructured::new(&[4]);
    /// assert_eq!(rt; u.choose(&[10, 20, 30]), Ok(&20));
    /// ```
    #[tactic(auto, unfolding(crate::specs::Draws::choose_at))]
    pub fn choose<'b, T>(&mut self, items: &'b [T]) -> Result<&'b T, Error>
        ensures exact { IfOk result (λ item.
            choose_at items.now self.old ≡ (Some item.now, self.new)) }
        ensures empty { IsErr result ↔ (length items.now ≡ 0) }
        ensures error { IfErr result (λ e. e ≡ Error.EmptyChoose) }
        ensures fault { OnErr result (self.new ≡ self.old) }
        ensures left { KeepsPieces self.old self.new }
    {
        if items.is_empty() {
            return Err(Error::EmptyChoose);
        }
        Ok(&items[self.int_in_range(0..=items.len() - 1)])
    }

    /// Takes the first `n` bytes. They borrow from the input and outlive the borrow of `self`.
    ///
    /// # Errors
    ///
    /// Returns [`Error::NotEnoughData`] if fewer than `n` bytes remain, and takes none.
    ///
    /// # Examples
    ///
    /// ```rust
    /// let mut u = Unstructured::new(&[1, 2, 3]);
    /// assert_eq!(rt; u.bytes(2), Ok([1, 2].as_slice()));
    /// assert_eq!(rt; u.bytes(2), Err(Error::NotEnoughData));
    /// assert_eq!(rt; u.len(), 1);
    /// ```
    pub fn bytes(&mut self, n: usize) -> Result<&'a [u8], Error>
        // The bytes taken.
        ensures enough { IsOk result ↔ (n ≤ length self.old) }
        ensures lent { IfOk result (λ piece. piece.now ≡ take n self.old) }
        ensures rest { OnOk result (self.new ≡ drop n self.old) }

        // Refusals and the source.
        ensures error { IfErr result (λ e. e ≡ Error.NotEnoughData) }
        ensures fault { OnErr result (self.new ≡ self.old) }
        ensures left { KeepsPieces self.old self.new }
    {
        if self.bytes.len() < n {
            return Err(Error::NotEnoughData);
        }
        Ok(self.up_to(n))
    }

    /// Returns the first `n` bytes without taking them, or `None` if fewer than `n` bytes remain.
    ///
    /// # Examples
    ///
    /// ```rust
    /// let u = Unstructured::new(&[1, 2, 3]);
    /// assert_eq!(rt; u.peek_bytes(2), Some([1, 2].as_slice()));
    /// assert_eq!(rt; u.peek_bytes(4), None);
    /// ```
    pub fn peek_bytes(&self, n: usize) -> Option<&'a [u8]>
        ensures enough { IsSome result ↔ (n ≤ length self.now) }
        ensures lent { IfSome result (λ piece. piece.now ≡ take n self.now) }
    {
        self.bytes.get(..n)
    }

    /// Draws a length from bytes at the end of the source. The length is at most the number of
    /// bytes that remain afterwards.
    ///
    /// # Examples
    ///
    /// ```rust
    /// let mut u = Unstructured::new(&[5, 6, 2]);
    /// assert_eq!(rt; u.arbitrary_len(), 2);
    /// assert_eq!(rt; u.len(), 2);
    /// ```
    #[tactic(auto, using(crate::proofs::PieceLemmas::keeps_take), unfolding(crate::specs::Draws::len_at))]
    pub fn arbitrary_len(&mut self) -> usize
        ensures exact { len_at self.old ≡ (result, self.new) }
        ensures within { result ≤ length self.new }
        ensures left { KeepsPieces self.old self.new }
    {
        let most = self.bytes.len() - size_of_length(self.bytes.len());
        let (rest, end) = self.bytes.split_at(most);
        self.bytes = rest;
        Unstructured { bytes: end }.int_in_range(0..=most)
    }

    /// Takes the first `n` bytes, or all bytes if fewer remain.
    #[tactic(auto, using(crate::proofs::PieceLemmas::keeps_drop))]
    pub(crate) fn up_to(&mut self, n: usize) -> &'a [u8]
        ensures taken { result.now ≡ take n self.old }
        ensures rest { self.new ≡ drop n self.old }
        ensures left { KeepsPieces self.old self.new }
    {
        let (piece, rest) = self.bytes.split_at(n.min(self.bytes.len()));
        self.bytes = rest;
        piece
    }

    /// Draws a number from one byte.
    #[tactic(auto, using(crate::proofs::PieceLemmas::keeps_drop), unfolding(crate::specs::Draws::whole_at))]
    pub(crate) fn byte(&mut self) -> u8
        ensures exact { whole_at 1 self.old ≡ (result, self.new) }
        ensures left { KeepsPieces self.old self.new }
    {
        match self.bytes {
            [first, rest @ ..] => {
                self.bytes = rest;
                *first
            }
            [] => 0,
        }
    }

    /// Draws a number from `n` bytes. Requires `n` to be at most 8.
    #[tactic(auto, using(crate::proofs::EndianLemmas::front_fits), unfolding(crate::specs::Draws::whole_at))]
    pub(crate) fn whole(&mut self, n: usize) -> u64
        requires { n ≤ 8 }
        ensures exact { whole_at n self.old ≡ (result, self.new) }
        ensures fits { result < 256 ^ n }
        ensures left { KeepsPieces self.old self.new }
    {
        read_little_endian(self.up_to(n))
    }

    /// Draws a number from sixteen bytes.
    #[tactic(auto, unfolding(crate::specs::Draws::whole_at))]
    pub(crate) fn wide(&mut self) -> u128
        ensures exact { whole_at 16 self.old ≡ (result, self.new) }
        ensures left { KeepsPieces self.old self.new }
    {
        read_wide_little_endian(self.up_to(16))
    }

    /// Draws a number that is at most `most`, from at most one byte.
    #[tactic(auto, unfolding(crate::specs::Draws::range_at, crate::specs::Draws::whole_at, crate::specs::Draws::digit_count))]
    fn byte_offset(&mut self, most: u8) -> u8
        ensures exact { range_at 0 most self.old ≡ (result, self.new) }
        ensures within { result ≤ most }
        ensures left { KeepsPieces self.old self.new }
    {
        if most == 0 {
            return 0;
        }
        (u16::from(self.byte()) % (u16::from(most) + 1)) as u8
    }

    /// Draws a number that is at most `most`.
    #[tactic(auto, unfolding(crate::specs::Draws::range_at))]
    fn offset(&mut self, most: u128) -> u128
        ensures exact { range_at 0 most self.old ≡ (result, self.new) }
        ensures within { result ≤ most }
        ensures left { KeepsPieces self.old self.new }
    {
        if most < 256 {
            return u128::from(self.byte_offset(most as u8));
        }
        let digits = self.up_to(count_digits(most));
        if most < u128::from(u64::MAX) {
            return u128::from(read_big_endian(digits) % (most as u64 + 1));
        }
        let drawn = read_wide_big_endian(digits);
        if most == u128::MAX {
            drawn
        } else {
            drawn % (most + 1)
        }
    }
}

/// Returns the number of bytes at the end of `n` bytes that encode a length.
fn size_of_length(n: usize) -> usize
    ensures exact { result ≡ length_size n }
    ensures within { result ≤ n }
{
    match n {
        0 => 0,
        1..=256 => 1,
        257..=65_537 => 2,
        65_538..=4_294_967_299 => 4,
        _ => 8,
    }
}
