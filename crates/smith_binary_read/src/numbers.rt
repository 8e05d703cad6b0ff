ghost use Rattle.std.specs.Prelude.{◌≡◌, ◌≤◌, ◌<◌, ◌^◌, nat_lt, nat_le, ◌+◌, ◌-◌, ◌*◌, ◌∷◌, IfOk, pos};
ghost use Rattle.std.specs.Prelude.{◌+ℤ◌, ◌*ℤ◌, negsuc, if◌then◌else◌, MatchOption, IfSome, Ok, Err};
ghost use Rattle.smith_binary.specs.Numbers.{FitsBits};
ghost use Rattle.smith_binary_read.specs.Readings.{Gives};
ghost use Rattle.smith_binary_read.specs.Numbers.{unsigned_at, signed_at, little_endian_at};
ghost use Rattle.smith_binary_read.specs.Numbers.{vector_at, lane_at, as_signed, integer_fault};

use crate::error::{ReadError, Reason};
use crate::reader::Reader;

// Returns whether `byte` fits `bits` bits.
fn fits(byte: u64, bits: u32) -> bool
    requires { byte < 128 }
    ensures { result ≡ nat_lt byte (2 ^ bits) }
{
    bits >= 7 || byte < 1 << bits
}

// Returns whether the negative integer whose last byte is `byte` fits `bits` bits and a sign.
fn fits_negative(byte: u64, bits: u32) -> bool
    requires { byte < 128 }
    ensures { result ≡ nat_le 128 (byte + 2 ^ bits) }
{
    bits >= 7 || byte + (1 << bits) >= 128
}

// Returns the integer of `bits` bits whose lowest seven bits are those of `byte`, below `high`.
fn above(high: i64, byte: u8, bits: u32) -> i64
    requires wide { 7 < bits }
    requires most { bits ≤ 64 }
    requires high { FitsBits (bits - 7) high }
    requires low { 128 ≤ byte }
    ensures value { result ≡ pos 128 *ℤ high +ℤ pos (byte - 128) }
    ensures fits { FitsBits bits result }
{
    128 * high + i64::from(byte - 128)
}

// Returns the integer with the bits `bits`.
fn with_bits(bits: u128) -> i128
    ensures { result ≡ as_signed bits }
{
    if bits < 1 << 127 {
        bits as i128
    } else {
        -1 - (u128::MAX - bits) as i128
    }
}

// Returns the signed integer of seven bits whose bits are those of `byte`.
fn short_signed(byte: u8) -> i32
    requires { byte < 128 }
    ensures { result ≡ (if nat_lt byte 64 then pos byte else negsuc (127 - byte)) }
{
    if byte < 64 {
        i32::from(byte)
    } else {
        i32::from(byte) - 128
    }
}

// Returns the number of four bytes, the least significant first.
fn number_of(a: u8, b: u8, c: u8, d: u8) -> u32
    ensures { result ≡ a + 256 * (b + 256 * (c + 256 * d)) }
{
    u32::from(a) + 256 * (u32::from(b) + 256 * (u32::from(c) + 256 * u32::from(d)))
}

impl<'a> Reader<'a> {
    // Reads the byte of an integer that has one byte. If the next byte is none, it reads nothing.
    #[inline(always)]
    fn read_short(&mut self) -> Option<u8>
        ensures { MatchOption result (self.new ≡ self.old)
            (λ byte. (byte < 128) × (self.old ≡ byte ∷ self.new)) }
    {
        match self.rest {
            [byte, rest @ ..] if *byte < 128 => {
                self.rest = rest;
                Some(*byte)
            }
            _ => None,
        }
    }

    // Returns the fault of an integer at the next byte.
    fn integer_fault(&self) -> ReadError
        ensures { result ≡ ReadError.Malformed (integer_fault self.now) }
    {
        match self.rest {
            [] => self.fault(Reason::UnexpectedEnd),
            [byte, ..] if *byte < 128 => self.fault(Reason::IntegerTooLarge),
            _ => self.fault(Reason::IntegerTooLong),
        }
    }

    // Reads an unsigned integer of `bits` bits. At a fault, it has read the bytes before it.
    #[tactic(auto, unfolding(crate::specs::Numbers::unsigned_at))]
    fn try_unsigned(&mut self, bits: u32) -> Option<u64>
        requires { bits ≤ 64 }
        ensures reads { MatchOption result (unsigned_at bits self.old ≡ Err (integer_fault self.new))
            (λ n. unsigned_at bits self.old ≡ Ok (n, self.new)) }
        ensures fits { IfSome result (λ n. n < 2 ^ bits) }
    {
        match self.rest {
            [] => None,
            [byte, rest @ ..] => {
                let byte = u64::from(*byte);
                if byte < 128 {
                    if !fits(byte, bits) {
                        return None;
                    }
                    self.rest = rest;
                    return Some(byte);
                }
                if bits <= 7 {
                    return None;
                }
                self.rest = rest;
                let high = self.try_unsigned(bits - 7)?;
                Some(128 * high + (byte - 128))
            }
        }
    }

    /// Reads an unsigned integer of `bits` bits in LEB128, which may have more bytes than needed
    /// (Integers).
    pub fn read_unsigned(&mut self, bits: u32) -> Result<u64, ReadError>
        requires { bits ≤ 64 }
        ensures reads { Gives result self.new (unsigned_at bits self.old) }
        ensures fits { IfOk result (λ n. n < 2 ^ bits) }
    {
        match self.try_unsigned(bits) {
            Some(number) => Ok(number),
            None => Err(self.integer_fault()),
        }
    }

    // Reads a signed integer of `bits` bits. At a fault, it has read the bytes before it.
    #[tactic(auto, unfolding(crate::specs::Numbers::signed_at))]
    fn try_signed(&mut self, bits: u32) -> Option<i64>
        requires some { 1 ≤ bits }
        requires most { bits ≤ 64 }
        ensures reads { MatchOption result (signed_at bits self.old ≡ Err (integer_fault self.new))
            (λ n. signed_at bits self.old ≡ Ok (n, self.new)) }
        ensures fits { IfSome result (FitsBits bits) }
    {
        match self.rest {
            [] => None,
            [byte, rest @ ..] => {
                let byte = *byte;
                if byte < 64 {
                    if !fits(u64::from(byte), bits - 1) {
                        return None;
                    }
                    self.rest = rest;
                    return Some(i64::from(byte));
                }
                if byte < 128 {
                    if !fits_negative(u64::from(byte), bits - 1) {
                        return None;
                    }
                    self.rest = rest;
                    return Some(i64::from(byte) - 128);
                }
                if bits <= 7 {
                    return None;
                }
                self.rest = rest;
                let high = self.try_signed(bits - 7)?;
                Some(above(high, byte, bits))
            }
        }
    }

    /// Reads a signed integer of `bits` bits in LEB128, which may have more bytes than needed
    /// (Integers).
    pub fn read_signed(&mut self, bits: u32) -> Result<i64, ReadError>
        requires some { 1 ≤ bits }
        requires most { bits ≤ 64 }
        ensures reads { Gives result self.new (signed_at bits self.old) }
        ensures fits { IfOk result (FitsBits bits) }
    {
        match self.try_signed(bits) {
            Some(number) => Ok(number),
            None => Err(self.integer_fault()),
        }
    }

    /// Reads a number of `count` bytes, the least significant first.
    #[tactic(auto, unfolding(crate::specs::Numbers::little_endian_at))]
    pub fn read_little_endian(&mut self, count: usize) -> Result<u128, ReadError>
        requires { count ≤ 16 }
        ensures reads { Gives result self.new (little_endian_at count self.old) }
        ensures fits { IfOk result (λ n. n < 256 ^ count) }
    {
        if count == 0 {
            return Ok(0);
        }
        let low = self.read_byte()?;
        let high = self.read_little_endian(count - 1)?;
        Ok(u128::from(low) + 256 * high)
    }

    /// Reads an unsigned integer of 32 bits (Integers).
    pub fn read_u32(&mut self) -> Result<u32, ReadError>
        ensures { Gives result self.new (unsigned_at 32 self.old) }
    {
        if let Some(byte) = self.read_short() {
            return Ok(u32::from(byte));
        }
        let number = self.read_unsigned(32)?;
        Ok(number as u32)
    }

    /// Reads an unsigned integer of 64 bits (Integers).
    pub fn read_u64(&mut self) -> Result<u64, ReadError>
        ensures { Gives result self.new (unsigned_at 64 self.old) }
    {
        if let Some(byte) = self.read_short() {
            return Ok(u64::from(byte));
        }
        self.read_unsigned(64)
    }

    /// Reads a signed integer of 32 bits (Integers).
    pub fn read_s32(&mut self) -> Result<i32, ReadError>
        ensures { Gives result self.new (signed_at 32 self.old) }
    {
        if let Some(byte) = self.read_short() {
            return Ok(short_signed(byte));
        }
        let number = self.read_signed(32)?;
        Ok(number as i32)
    }

    /// Reads a signed integer of 64 bits (Integers).
    pub fn read_s64(&mut self) -> Result<i64, ReadError>
        ensures { Gives result self.new (signed_at 64 self.old) }
    {
        if let Some(byte) = self.read_short() {
            return Ok(i64::from(short_signed(byte)));
        }
        self.read_signed(64)
    }

    /// Reads the bits of a 32-bit float (Floating-Point).
    pub fn read_f32(&mut self) -> Result<u32, ReadError>
        ensures { Gives result self.new (little_endian_at 4 self.old) }
    {
        match self.rest {
            [a, b, c, d, rest @ ..] => {
                self.rest = rest;
                Ok(number_of(*a, *b, *c, *d))
            }
            _ => {
                let bits = self.read_little_endian(4)?;
                Ok(bits as u32)
            }
        }
    }

    /// Reads the bits of a 64-bit float (Floating-Point).
    pub fn read_f64(&mut self) -> Result<u64, ReadError>
        ensures { Gives result self.new (little_endian_at 8 self.old) }
    {
        let low = self.read_f32()?;
        let high = self.read_f32()?;
        Ok(u64::from(low) + (u64::from(high) << 32))
    }

    /// Reads the bits of a 128-bit vector (Vector Instructions).
    #[tactic(auto, unfolding(crate::specs::Numbers::vector_at))]
    pub fn read_vector(&mut self) -> Result<i128, ReadError>
        ensures { Gives result self.new (vector_at self.old) }
    {
        let low = self.read_f64()?;
        let high = self.read_f64()?;
        Ok(with_bits(u128::from(low) + (u128::from(high) << 64)))
    }

    /// Reads the index of a lane (Vector Instructions).
    pub fn read_lane(&mut self) -> Result<u8, ReadError>
        ensures { Gives result self.new (lane_at self.old) }
    {
        match self.rest {
            [] => Err(self.fault(Reason::UnexpectedEnd)),
            [lane, rest @ ..] => {
                self.rest = rest;
                Ok(*lane)
            }
        }
    }
}
