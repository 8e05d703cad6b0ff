ghost use Rattle.std.specs.Prelude.{◌≡◌, ◌≤◌, ◌<◌, ◌^◌, length};
ghost use Rattle.smith_bytes.specs.Draws.{little_endian, big_endian, digit_count};

/// Returns the number of base-256 digits of `number`, which is 0 for zero.
pub(crate) fn count_digits(number: u128) -> usize
    ensures exact { result ≡ digit_count number }
    ensures within { result ≤ 16 }
    ensures few { number < 2 ^ 64 → result ≤ 8 }
{
    16 - number.leading_zeros() as usize / 8
}

/// Reads a number from at most eight base-256 digits, least significant first.
pub(crate) fn read_little_endian(digits: &[u8]) -> u64
    requires few { length digits.now ≤ 8 }
    ensures exact { result ≡ little_endian digits.now }
    ensures fits { result < 256 ^ length digits.now }
{
    let mut number = 0;
    for i in (0..digits.len()).rev() {
        number = 256 * number + u64::from(digits[i]);
    }
    number
}

/// Reads a number from at most sixteen base-256 digits, least significant first.
pub(crate) fn read_wide_little_endian(digits: &[u8]) -> u128
    requires few { length digits.now ≤ 16 }
    ensures exact { result ≡ little_endian digits.now }
{
    let (low, high) = digits.split_at(digits.len().min(8));
    (u128::from(read_little_endian(high)) << 64) + u128::from(read_little_endian(low))
}

/// Reads a number from at most eight base-256 digits, most significant first.
pub(crate) fn read_big_endian(digits: &[u8]) -> u64
    requires few { length digits.now ≤ 8 }
    ensures exact { result ≡ big_endian digits.now }
{
    let mut number = 0;
    for digit in digits {
        number = 256 * number + u64::from(*digit);
    }
    number
}

/// Reads a number from at most sixteen base-256 digits, most significant first.
pub(crate) fn read_wide_big_endian(digits: &[u8]) -> u128
    requires few { length digits.now ≤ 16 }
    ensures exact { result ≡ big_endian digits.now }
{
    let (high, low) = digits.split_at(digits.len().saturating_sub(8));
    (u128::from(read_big_endian(high)) << 64) + u128::from(read_big_endian(low))
}
