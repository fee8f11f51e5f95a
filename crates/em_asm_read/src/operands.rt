//! The operands of statements: registers, numbers, addresses and targets.
ghost use Rattle.std.specs.Option.{option_map};
ghost use Rattle.std.specs.Prelude.{◌≡◌, ℤ, pos, negsuc, ◌<◌, ◌≤ℤ◌, ◌-◌, ◌%◌, unsigned_abs, Some, Ok, IfOk, IfErr, IfSome, FitsSigned, length, take};
ghost use Rattle.std.specs.Int.{w128};
ghost use Rattle.em_base.specs.Number.{IsNumber};
ghost use Rattle.em_asm_read.specs.Faults.{FailsAs};
ghost use Rattle.em_asm_read.specs.Operands as spec;
ghost use Rattle.em_asm_read.specs.Fitting.{IsAimed};

use crate::faults::{Fault, LineFail};
use crate::items::Target;
use crate::labels::label;
use crate::registers::register;
use em_base::pieces::{after, before, has, has_blank, trim};
use em_base::{Name, read_number};
use std::alloc::Global;
use std::str;

/// The register that the text names.
fn named_register(text: &[u8]) -> Result<u8, Fault>
    ensures value { result ≡ spec.named_register text.now }
    ensures within { IfOk result (λ r. r < 32) }
{
    register(text).ok_or(Fault::Register)
}

/// The number that the bytes write.
fn number(digits: &[u8]) -> Option<i128>
    ensures spelled { IfSome result (IsNumber digits.now) }
    ensures exact { (z : ℤ) → IsNumber digits.now z → FitsSigned w128 z → result ≡ Some z }
{
    match str::from_utf8(digits) {
        Ok(text) => read_number(text),
        Err(_) => None,
    }
}

/// The number, where it is from `low` to `high`.
fn in_range(number: i128, low: i128, high: i128) -> Result<i128, Fault>
    ensures value { result ≡ spec.in_range low high number }
    ensures within { IfOk result (λ z. (low ≤ℤ z) × (z ≤ℤ high)) }
{
    if low <= number && number <= high {
        Ok(number)
    } else {
        Err(Fault::Number)
    }
}

/// The number that the text writes, from `low` to `high`.
fn ranged_number(text: &[u8], low: i128, high: i128) -> Result<i128, Fault>
    ensures value { result ≡ spec.ranged_number low high text.now }
    ensures within { IfOk result (λ z. (low ≤ℤ z) × (z ≤ℤ high)) }
{
    match number(text) {
        Some(found) => in_range(found, low, high),
        None => Err(Fault::Number),
    }
}

/// An operand that is a register.
pub fn register_operand(text: &[u8]) -> Result<u8, Fault>
    ensures value { result ≡ spec.register_operand text.now }
    ensures within { IfOk result (λ r. r < 32) }
{
    if has_blank(text) {
        return Err(Fault::Operands);
    }
    named_register(text)
}

/// An operand that is a number, from `low` to `high`.
pub fn number_operand(text: &[u8], low: i128, high: i128) -> Result<i128, Fault>
    ensures value { result ≡ spec.number_operand low high text.now }
    ensures within { IfOk result (λ z. (low ≤ℤ z) × (z ≤ℤ high)) }
{
    if has_blank(text) {
        return Err(Fault::Operands);
    }
    ranged_number(text, low, high)
}

/// What stands before the first opening parenthesis, and what stands between it and the closing one at the end, both
/// without the spaces and tabs around them.
fn split_address(text: &[u8]) -> Option<(&[u8], &[u8])>
    ensures { option_map (λ parts. (parts.0.now, parts.1.now)) result
        ≡ spec.address_parts text.now }
{
    if has(text, b'(') && text[text.len() - 1] == b')' {
        Some((
            trim(before(text, b'(')),
            trim(without_last(after(text, b'('))),
        ))
    } else {
        None
    }
}

/// The text without its last byte.
fn without_last(text: &[u8]) -> &[u8]
    ensures { result.now ≡ take (length text.now - 1) text.now }
{
    &text[..text.len().saturating_sub(1)]
}

/// An operand that is an address: an immediate of 12 bits, with a register in parentheses.
pub fn address_operand(text: &[u8]) -> Result<(i32, u8), Fault>
    ensures value { result ≡ spec.address_operand text.now }
    ensures within { IfOk result (λ found.
        (negsuc 2047 ≤ℤ found.0) × (found.0 ≤ℤ pos 2047) × (found.1 < 32)) }
{
    match split_address(text) {
        Some((number, register)) => address_in(number, register),
        None => Err(Fault::Operands),
    }
}

/// The immediate and the register of an address.
fn address_in(number: &[u8], register: &[u8]) -> Result<(i32, u8), Fault>
    ensures value { result ≡ spec.whole_address (number.now, register.now) }
    ensures within { IfOk result (λ found.
        (negsuc 2047 ≤ℤ found.0) × (found.0 ≤ℤ pos 2047) × (found.1 < 32)) }
{
    if has_blank(number) || has_blank(register) {
        return Err(Fault::Operands);
    }
    let imm = ranged_number(number, -2048, 2047)?;
    let rs1 = named_register(register)?;
    Ok((imm as i32, rs1))
}

/// The offset, where it is even.
fn even_offset(offset: i128) -> Result<i128, Fault>
    ensures value { result ≡ spec.even_offset offset }
    ensures even { IfOk result (λ z. (z ≡ offset) × (unsigned_abs z % 2 ≡ 0)) }
{
    if offset % 2 == 0 {
        Ok(offset)
    } else {
        Err(Fault::Number)
    }
}

/// Whether the text begins with a digit or a minus sign, as numbers do.
fn looks_numeric(text: &[u8]) -> bool
    ensures { result ≡ spec.looks_numeric text.now }
{
    match text.first() {
        Some(first) => first.is_ascii_digit() || *first == b'-',
        None => false,
    }
}

/// The offset that the text writes: an even number from `low` to `high`.
fn offset(text: &[u8], low: i32, high: i32) -> Result<i32, Fault>
    ensures value { result ≡ spec.offset low high text.now }
    ensures within { IfOk result (λ z. (low ≤ℤ z) × (z ≤ℤ high) × (unsigned_abs z % 2 ≡ 0)) }
{
    let offset = ranged_number(text, i128::from(low), i128::from(high))?;
    Ok(even_offset(offset)? as i32)
}

/// An operand that is a target: a label, or an even offset from `low` to `high`.
pub fn target_operand(alloc: Global, text: &[u8], low: i32, high: i32) -> Result<Target, LineFail>
    ensures value { IfOk result (λ target. spec.target_operand low high text.now ≡ Ok target) }
    ensures refused { IfErr result (FailsAs (spec.target_operand low high text.now)) }
    ensures fits { IfOk result (IsAimed low high) }
{
    if has_blank(text) {
        return Err(LineFail::from(Fault::Operands));
    }
    if let Some(name) = label(text) {
        return Ok(Target::Label(Name::new(alloc, name)?));
    }
    if looks_numeric(text) {
        return Ok(Target::Offset(offset(text, low, high)?));
    }
    Err(LineFail::from(Fault::Label))
}
