//! The code of `li`: the instructions that load a value into a register.
ghost use Rattle.std.specs.Prelude.{◌≡◌, ℕ, ◌<◌, ◌≤◌, map, length};
ghost use Rattle.em_isa.specs.Encoding.{Fits, word_of};
ghost use Rattle.em_asm.specs.Code.{loads, signed};
ghost use Rattle.em_asm.specs.Coding.{word_list};

use crate::words::Words;
use em_isa::{Instr, encode};

/// The value as a signed number.
fn signed_value(value: u32) -> i32
    ensures { result ≡ signed 32 value }
{
    value.cast_signed()
}

/// The low 12 bits of the value, as a signed number.
fn low_part(value: u32) -> i32
    ensures value { result ≡ Rattle.em_asm.specs.Code.low_part value }
{
    let low = (value % 4096) as i32;
    if low < 2048 { low } else { low - 4096 }
}

/// What is left of the value without its low part, divided by 2^12.
fn high_part(value: u32) -> u32
    ensures value { result ≡ Rattle.em_asm.specs.Code.high_part value }
{
    let high = value / 4096;
    if value % 4096 < 2048 {
        high
    } else {
        (high + 1) % (1 << 20)
    }
}

/// Whether the value, as a signed number, is an immediate of 12 bits.
fn is_short(value: u32) -> bool
    ensures { result ≡ Rattle.em_asm.specs.Code.is_short value }
{
    let value = signed_value(value);
    -2048 <= value && value <= 2047
}

/// `addi`, an addition of an immediate.
pub fn addition(rd: u8, rs1: u8, imm: i32) -> u32
    requires fits { Fits (Rattle.em_asm.specs.Code.adds rd rs1 imm) }
    ensures { result ≡ word_of (Rattle.em_asm.specs.Code.adds rd rs1 imm) }
{
    encode(&Instr::OpImm {
        op: 0,
        alt: false,
        rd,
        rs1,
        imm,
    })
}

/// The code words that load a value into a register.
pub fn load_words(rd: u8, value: u32) -> Words
    requires { rd < 32 }
    ensures words { word_list result ≡ map word_of (loads rd value) }
{
    if is_short(value) {
        return Words::One(addition(rd, 0, signed_value(value)));
    }
    let upper = encode(&Instr::Lui {
        rd,
        imm: high_part(value),
    });
    if value % 4096 == 0 {
        Words::One(upper)
    } else {
        Words::Two(upper, addition(rd, rd, low_part(value)))
    }
}

/// How many code words load a value.
pub fn load_size(value: u32) -> u32
    ensures size { (rd : ℕ) → result ≡ length (loads rd value) }
    ensures few { result ≤ 2 }
{
    if is_short(value) || value % 4096 == 0 {
        1
    } else {
        2
    }
}
