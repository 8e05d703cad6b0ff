ghost use Rattle.std.specs.Prelude.{◌≡◌, ℕ, ◌+◌, ◌*◌, ◌<◌, ◌^◌, pos, negsuc, OnOk, IfErr};
ghost use Rattle.smith_binary.specs.declared.error.EncodeError.TheVariants.{Memory};
ghost use Rattle.smith_binary.specs.Numbers.{IsSigned, FitsBits, IsLittleEndian, IsVector};
ghost use Rattle.smith_binary.specs.Numbers.{shortest_bytes};
ghost use Rattle.smith_binary.specs.Pieces.{Is, Writes};
ghost use Rattle.smith_binary.specs.Spelling.{Shortest, IsPadded, IsSignedIn, IsUnsignedIn};

use crate::error::EncodeError;
use crate::sink::Sink;

// Writes the signed integer `value`, which is not negative.
fn write_positive(value: u64, sink: &mut Sink) -> Result<(), EncodeError>
    ensures writes { OnOk result ((bits : ℕ) → FitsBits bits (pos value)
        → Writes (λ _. Shortest (IsSigned bits (pos value))) sink.old sink.new) }
    ensures memory { IfErr result (λ e. e ≡ Memory) }
{
    if value < 64 {
        return sink.push(value as u8);
    }
    sink.push((value % 128 + 128) as u8)?;
    write_positive(value / 128, sink)
}

// Writes the signed integer `-1 - value`.
fn write_negative(value: u64, sink: &mut Sink) -> Result<(), EncodeError>
    ensures writes { OnOk result ((bits : ℕ) → FitsBits bits (negsuc value)
        → Writes (λ _. Shortest (IsSigned bits (negsuc value))) sink.old sink.new) }
    ensures memory { IfErr result (λ e. e ≡ Memory) }
{
    if value < 64 {
        return sink.push((127 - value) as u8);
    }
    sink.push((255 - value % 128) as u8)?;
    write_negative(value / 128, sink)
}

// Writes `value` in `count` bytes, least significant byte first.
fn write_little_endian(value: u128, count: usize, sink: &mut Sink) -> Result<(), EncodeError>
    requires { value < 256 ^ count }
    ensures writes { OnOk result (Writes (λ _. IsLittleEndian count value) sink.old sink.new) }
    ensures memory { IfErr result (λ e. e ≡ Memory) }
{
    if count == 0 {
        return Ok(());
    }
    sink.push((value % 256) as u8)?;
    write_little_endian(value / 256, count - 1, sink)
}

// Writes the unsigned integer `value` in as few bytes as possible, and in no fewer than `least`.
fn write_padded(value: u64, least: u8, sink: &mut Sink) -> Result<(), EncodeError>
    ensures writes { OnOk result ((bits : ℕ) → value < 2 ^ bits → 7 * least < bits + 7
        → Writes (λ _. Shortest (IsPadded least bits value)) sink.old sink.new) }
    ensures memory { IfErr result (λ e. e ≡ Memory) }
{
    if value < 128 && least <= 1 {
        return sink.push(value as u8);
    }
    sink.push((value % 128 + 128) as u8)?;
    write_padded(value / 128, least.saturating_sub(1), sink)
}

impl Sink {
    /// Writes `value` in unsigned LEB128, in as few bytes as possible, whatever the least number of
    /// the sink is.
    pub fn write_shortest(&mut self, value: u32) -> Result<(), EncodeError>
        ensures writes { OnOk result (Writes (λ _. Is (shortest_bytes 5 value)) self.old self.new) }
        ensures memory { IfErr result (λ e. e ≡ Memory) }
    {
        write_padded(u64::from(value), 1, self)
    }

    /// Writes `value` in signed LEB128, in as few bytes as possible. The bytes spell it as an
    /// integer of any number of bits that it fits in.
    pub fn write_signed(&mut self, value: i64) -> Result<(), EncodeError>
        ensures writes { OnOk result ((bits : ℕ) → FitsBits bits value
            → Writes (λ _. Shortest (IsSigned bits value)) self.old self.new) }
        ensures memory { IfErr result (λ e. e ≡ Memory) }
    {
        if value >= 0 {
            write_positive(value as u64, self)
        } else {
            write_negative((-1 - value) as u64, self)
        }
    }

    /// Writes `value` as an unsigned integer of 32 bits.
    pub fn write_u32(&mut self, value: u32) -> Result<(), EncodeError>
        ensures writes { OnOk result (Writes (λ s. IsUnsignedIn s 32 value) self.old self.new) }
        ensures memory { IfErr result (λ e. e ≡ Memory) }
    {
        write_padded(u64::from(value), self.least_length(), self)
    }

    /// Writes `value` as an unsigned integer of 64 bits.
    pub fn write_u64(&mut self, value: u64) -> Result<(), EncodeError>
        ensures writes { OnOk result (Writes (λ s. IsUnsignedIn s 64 value) self.old self.new) }
        ensures memory { IfErr result (λ e. e ≡ Memory) }
    {
        write_padded(value, self.least_length(), self)
    }

    /// Writes the index `value` as a signed integer of 33 bits, the form in heap types.
    pub fn write_s33(&mut self, value: u32) -> Result<(), EncodeError>
        ensures writes { OnOk result (Writes (λ s. IsSignedIn s 33 (pos value)) self.old self.new) }
        ensures memory { IfErr result (λ e. e ≡ Memory) }
    {
        write_positive(u64::from(value), self)
    }

    /// Writes `value` as a signed integer of 32 bits.
    pub fn write_s32(&mut self, value: i32) -> Result<(), EncodeError>
        ensures writes { OnOk result (Writes (λ s. IsSignedIn s 32 value) self.old self.new) }
        ensures memory { IfErr result (λ e. e ≡ Memory) }
    {
        self.write_signed(i64::from(value))
    }

    /// Writes `value` as a signed integer of 64 bits.
    pub fn write_s64(&mut self, value: i64) -> Result<(), EncodeError>
        ensures writes { OnOk result (Writes (λ s. IsSignedIn s 64 value) self.old self.new) }
        ensures memory { IfErr result (λ e. e ≡ Memory) }
    {
        self.write_signed(value)
    }

    /// Writes the 32-bit float whose bits are `bits`.
    pub fn write_f32(&mut self, bits: u32) -> Result<(), EncodeError>
        ensures writes { OnOk result (Writes (λ _. IsLittleEndian 4 bits) self.old self.new) }
        ensures memory { IfErr result (λ e. e ≡ Memory) }
    {
        write_little_endian(u128::from(bits), 4, self)
    }

    /// Writes the 64-bit float whose bits are `bits`.
    pub fn write_f64(&mut self, bits: u64) -> Result<(), EncodeError>
        ensures writes { OnOk result (Writes (λ _. IsLittleEndian 8 bits) self.old self.new) }
        ensures memory { IfErr result (λ e. e ≡ Memory) }
    {
        write_little_endian(u128::from(bits), 8, self)
    }

    /// Writes the 128-bit vector whose bits are `bits`.
    pub fn write_vector(&mut self, bits: i128) -> Result<(), EncodeError>
        ensures writes { OnOk result (Writes (λ _. IsVector bits) self.old self.new) }
        ensures memory { IfErr result (λ e. e ≡ Memory) }
    {
        if bits >= 0 {
            write_little_endian(bits as u128, 16, self)
        } else {
            write_little_endian(u128::MAX - (-1 - bits) as u128, 16, self)
        }
    }
}
