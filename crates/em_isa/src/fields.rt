//! The fields of a word, read by shifts and masks.
ghost use Rattle.std.specs.Prelude.{◌≡◌, ◌+◌, ◌-◌, ◌*◌, ◌^◌, ◌<◌, ◌≤◌};
ghost use Rattle.em_isa.specs.Encoding.{IsImmediate, IsOffset, IsWithin, bits, twos_complement};

/// The bits of a number from `high` down to `low`, which the manual writes as `number[high:low]`: at most 31 of them.
#[inline]
pub fn bits_of(number: u32, high: u32, low: u32) -> u32
    requires order { low ≤ high }
    requires within { high < low + 31 }
    requires number { high < 32 }
    ensures { result ≡ bits high low number }
{
    number >> low & ((1 << (high + 1 - low)) - 1)
}

/// The number whose two's complement of `width` bits is `field`.
#[inline]
pub fn signed(field: u32, width: u32) -> i32
    requires some { 0 < width }
    requires few { width < 31 }
    requires field { field < 2 ^ width }
    ensures within { IsWithin (2 ^ (width - 1)) result }
    ensures bits { twos_complement width result ≡ field }
{
    let half = 1 << (width - 1);
    if field < half {
        field as i32
    } else {
        field as i32 - (1 << width)
    }
}

/// The two's complement of a number, of `width` bits.
#[inline]
pub fn unsigned(number: i32, width: u32) -> u32
    requires some { 0 < width }
    requires few { width < 32 }
    requires number { IsWithin (2 ^ (width - 1)) number }
    ensures { result ≡ twos_complement width number }
{
    number.cast_unsigned() & ((1 << width) - 1)
}

/// The opcode.
#[inline]
pub fn opcode(word: u32) -> u32
    ensures { result ≡ bits 6 0 word }
{
    bits_of(word, 6, 0)
}

/// The register that is written.
#[inline]
pub fn rd(word: u32) -> u8
    ensures { result ≡ bits 11 7 word }
{
    bits_of(word, 11, 7) as u8
}

/// The operation within the opcode's group.
#[inline]
pub fn funct3(word: u32) -> u8
    ensures { result ≡ bits 14 12 word }
{
    bits_of(word, 14, 12) as u8
}

/// The first register that is read.
#[inline]
pub fn rs1(word: u32) -> u8
    ensures { result ≡ bits 19 15 word }
{
    bits_of(word, 19, 15) as u8
}

/// The second register that is read.
#[inline]
pub fn rs2(word: u32) -> u8
    ensures { result ≡ bits 24 20 word }
{
    bits_of(word, 24, 20) as u8
}

/// The operation's upper seven bits.
#[inline]
pub fn funct7(word: u32) -> u32
    ensures { result ≡ bits 31 25 word }
{
    bits_of(word, 31, 25)
}

/// The immediate of format I.
#[inline]
pub fn i_immediate(word: u32) -> i32
    ensures within { IsImmediate result }
    ensures bits { twos_complement 12 result ≡ bits 31 20 word }
{
    signed(bits_of(word, 31, 20), 12)
}

/// The immediate of format S.
#[inline]
pub fn s_immediate(word: u32) -> i32
    ensures within { IsImmediate result }
    ensures high { bits 11 5 (twos_complement 12 result) ≡ bits 31 25 word }
    ensures low { bits 4 0 (twos_complement 12 result) ≡ bits 11 7 word }
{
    signed(bits_of(word, 31, 25) << 5 | bits_of(word, 11, 7), 12)
}

/// The two's complement, of 13 bits, of the offset of format B.
#[inline]
fn b_bits(word: u32) -> u32
    ensures { result ≡ bits 31 31 word * 2 ^ 12 + bits 7 7 word * 2 ^ 11
        + bits 30 25 word * 2 ^ 5 + bits 11 8 word * 2 ^ 1 }
{
    let high = bits_of(word, 31, 31) << 12 | bits_of(word, 7, 7) << 11;
    high | bits_of(word, 30, 25) << 5 | bits_of(word, 11, 8) << 1
}

/// The offset of format B.
#[inline]
pub fn b_offset(word: u32) -> i32
    ensures within { IsOffset 4096 result }
    ensures bit_12 { bits 12 12 (twos_complement 13 result) ≡ bits 31 31 word }
    ensures bit_11 { bits 11 11 (twos_complement 13 result) ≡ bits 7 7 word }
    ensures high { bits 10 5 (twos_complement 13 result) ≡ bits 30 25 word }
    ensures low { bits 4 1 (twos_complement 13 result) ≡ bits 11 8 word }
{
    signed(b_bits(word), 13)
}

/// The two's complement, of 21 bits, of the offset of format J.
#[inline]
fn j_bits(word: u32) -> u32
    ensures { result ≡ bits 31 31 word * 2 ^ 20 + bits 19 12 word * 2 ^ 12
        + bits 20 20 word * 2 ^ 11 + bits 30 21 word * 2 ^ 1 }
{
    let high = bits_of(word, 31, 31) << 20 | bits_of(word, 19, 12) << 12;
    high | bits_of(word, 20, 20) << 11 | bits_of(word, 30, 21) << 1
}

/// The offset of format J.
#[inline]
pub fn j_offset(word: u32) -> i32
    ensures within { IsOffset 1048576 result }
    ensures bit_20 { bits 20 20 (twos_complement 21 result) ≡ bits 31 31 word }
    ensures high { bits 19 12 (twos_complement 21 result) ≡ bits 19 12 word }
    ensures bit_11 { bits 11 11 (twos_complement 21 result) ≡ bits 20 20 word }
    ensures low { bits 10 1 (twos_complement 21 result) ≡ bits 30 21 word }
{
    signed(j_bits(word), 21)
}
