//! The code words of what a line says.
ghost use Rattle.std.specs.Prelude.{◌≡◌, ◌≤◌, ◌%◌, ◌++◌, unsigned_abs, length, All, IfOk, IfErr, OnOk, IfSome};
ghost use Rattle.em_isa.specs.Encoding.{IsOffset};
ghost use Rattle.em_base.specs.FirstFault.{AreClear, by_test};
ghost use Rattle.em_base.specs.Images.{address_of, most_words};
ghost use Rattle.em_asm_read.specs.Fitting.{ItemFits, LineFits, TargetFits};
ghost use Rattle.em_asm.specs.Code as spec;
ghost use Rattle.em_asm.specs.Image.{layout_fault, target_fault, code_words_of};
ghost use Rattle.em_asm.specs.Numbering.{AreNumbered, line_number_at};
ghost use Rattle.em_asm.specs.Coding.{AreAligned, FailsFirst, code_in, labels_in, word_list};

use crate::faults::Fault;
use crate::loads::{addition, load_size, load_words};
use crate::numbering::{Numbers, number_of_line};
use crate::words::Words;
use em_asm_read::{Item, Line, Target};
use em_base::{Fail, Items, NoMemory};
use em_isa::{Instr, encode};
use indexmap::IndexMap;
use std::alloc::Global;

/// How many code words an item has: two at most.
pub fn code_size(item: &Item) -> u32
    ensures size { result ≡ spec.size_of item.now }
    ensures few { result ≤ 2 }
{
    match item {
        Item::Nothing | Item::Word(_) => 0,
        Item::One(_) | Item::Branch { .. } | Item::Jal { .. } | Item::Raw(_) => 1,
        Item::Li { value, .. } => load_size(*value),
        Item::Wait(_) => 2,
    }
}

/// The offset, where it is at least `-half` and below `half`.
fn reaching(offset: i64, half: u32) -> Result<i32, Fault>
    requires small { half ≤ 1048576 }
    requires even { unsigned_abs offset % 2 ≡ 0 }
    ensures value { result ≡ spec.reaching half offset }
    ensures fits { IfOk result (IsOffset half) }
{
    if -i64::from(half) <= offset && offset < i64::from(half) {
        Ok(offset as i32)
    } else {
        Err(Fault::TargetTooFar)
    }
}

/// The offset from an instruction at an address to another address, where there is one.
fn between(address: Option<u32>, at: u32, half: u32) -> Result<i32, Fault>
    requires small { half ≤ 1048576 }
    requires at_aligned { at % 4 ≡ 0 }
    requires aligned { IfSome address (λ address. address % 4 ≡ 0) }
    ensures value { result ≡ spec.between half at address }
    ensures fits { IfOk result (IsOffset half) }
{
    match address {
        Some(address) => reaching(i64::from(address) - i64::from(at), half),
        None => Err(Fault::LabelMissing),
    }
}

/// The address of the label of this name.
fn address(labels: &IndexMap<&str, u32>, name: &str) -> Option<u32>
    requires aligned { AreAligned (labels_in labels.now.entries) }
    ensures value { result ≡ address_of (labels_in labels.now.entries) name.now }
    ensures aligned { IfSome result (λ address. address % 4 ≡ 0) }
{
    labels.get(name).copied()
}

/// The offset of a target from an instruction at an address.
fn aim(labels: &IndexMap<&str, u32>, target: &Target, at: u32, half: u32) -> Result<i32, Fault>
    requires small { half ≤ 1048576 }
    requires at_aligned { at % 4 ≡ 0 }
    requires aligned { AreAligned (labels_in labels.now.entries) }
    requires fits { TargetFits half target.now }
    ensures value { result ≡ spec.aim (labels_in labels.now.entries) half at target.now }
    ensures fits { IfOk result (IsOffset half) }
{
    match target {
        Target::Label(name) => between(address(labels, name.as_str()), at, half),
        Target::Offset(offset) => Ok(*offset),
    }
}

/// The code words of an item at an address.
pub fn code(labels: &IndexMap<&str, u32>, item: &Item, at: u32) -> Result<Words, Fault>
    requires fits { ItemFits item.now }
    requires at_aligned { at % 4 ≡ 0 }
    requires aligned { AreAligned (labels_in labels.now.entries) }
    ensures { code_in result ≡ spec.words_of_item (labels_in labels.now.entries) at item.now }
{
    match item {
        Item::Nothing | Item::Word(_) => Ok(Words::None),
        Item::One(instruction) => Ok(Words::One(encode(instruction))),
        Item::Branch {
            op,
            rs1,
            rs2,
            target,
        } => {
            let offset = aim(labels, target, at, 4096)?;
            Ok(Words::One(encode(&Instr::Branch {
                op: *op,
                rs1: *rs1,
                rs2: *rs2,
                offset,
            })))
        }
        Item::Jal { rd, target } => {
            let offset = aim(labels, target, at, 1048576)?;
            Ok(Words::One(encode(&Instr::Jal { rd: *rd, offset })))
        }
        Item::Li { rd, value } => Ok(load_words(*rd, *value)),
        Item::Wait(_) => Ok(Words::Two(addition(17, 0, 1), encode(&Instr::Ecall))),
        Item::Raw(word) => Ok(Words::One(*word)),
    }
}

/// Puts code words at the end.
fn put(alloc: Global, words: &mut Items<u32>, code: Words) -> Result<(), NoMemory>
    ensures { OnOk result (words.new ≡ words.old ++ word_list code) }
{
    match code {
        Words::None => Ok(()),
        Words::One(word) => words.push(alloc, word),
        Words::Two(first, second) => {
            words.push(alloc, first)?;
            words.push(alloc, second)
        }
    }
}

/// The code words of the lines, by the addresses of their labels. Refused with code 7 or 8 at the first line whose target
/// is missing or out of reach.
pub fn code_words(
    alloc: Global,
    lines: &[Line],
    numbers: Numbers<'_>,
    labels: &IndexMap<&str, u32>,
) -> Result<Items<u32>, Fail>
    requires numbered { AreNumbered numbers (length lines.now) }
    requires fits { All LineFits lines.now }
    requires room { AreClear (by_test layout_fault) lines.now (length lines.now) }
    requires aligned { AreAligned (labels_in labels.now.entries) }
    ensures words { let known = labels_in labels.now.entries in
        IfOk result (λ words. words ≡ code_words_of known lines.now) }
    ensures few { IfOk result (λ words. length words ≤ most_words) }
    ensures clear { let fault = target_fault (labels_in labels.now.entries) in
        OnOk result (AreClear (by_test fault) lines.now (length lines.now)) }
    ensures refused { let fault = target_fault (labels_in labels.now.entries) in
        IfErr result (FailsFirst fault (line_number_at numbers.entry) lines.now) }
{
    let mut words = Items::new(alloc);
    for (place, line) in lines.iter().enumerate() {
        let at = 4 * words.as_slice().len() as u32;
        match code(labels, &line.item, at) {
            Ok(code) => put(alloc, &mut words, code)?,
            Err(fault) => {
                return Err(Fail::Refused(fault.at(number_of_line(numbers, place))));
            }
        }
    }
    Ok(words)
}
