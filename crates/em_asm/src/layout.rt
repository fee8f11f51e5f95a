//! Where the labels of lines stand, and whether the lines have room.
ghost use Rattle.std.specs.Prelude.{◌≡◌, ◌<◌, ◌≤◌, ◌+◌, ◌*◌, ◌^◌, ◌++◌, ◌∷◌, [], false, Some, None, IfOk, IfErr, OnOk, length};
ghost use Rattle.em_base.specs.FirstFault.{AreClear, by_test};
ghost use Rattle.em_base.specs.Images.{most_words};
ghost use Rattle.em_asm.specs.Image.{is_known, label_at, labels_of, layout_fault, room_fault, shared_word};
ghost use Rattle.em_asm.specs.Numbering.{AreNumbered, line_number_at};
ghost use Rattle.em_asm.specs.Coding.{FailsFirst, labels_in};
ghost use Rattle.em_asm.specs.Code.{size_of};

use crate::coding;
use crate::faults::Fault;
use crate::numbering::{Numbers, number_of_line};
use em_asm_read::{Item, Line};
use em_base::{Fail, NoMemory};
use indexmap::IndexMap;
use std::alloc::Global;

/// The greatest number of code words, and of shared words.
const MOST_WORDS: u32 = 16384;

/// Puts a label at the end, with its address, and tells whether it was there already.
fn put_label<'a>(
    labels: &mut IndexMap<&'a str, u32>,
    name: &'a str,
    address: u32,
) -> Result<bool, NoMemory>
    ensures known { let before = labels_in labels.old.entries in
        IfOk result (λ known. known ≡ is_known before (Some name.entry.now)) }
    ensures put { let before = labels_in labels.old.entries in
        let after = labels_in labels.new.entries in
        IfOk result (λ known. known ≡ false → after ≡ before ++ (name.entry.now, address) ∷ []) }
{
    let old = labels.insert(name, address)?;
    Ok(old.is_some())
}

/// How many shared words an item has.
fn shared_size(item: &Item) -> u32
    ensures size { result ≡ length (shared_word item.now) }
    ensures few { result ≤ 1 }
{
    match item {
        Item::Word(_) => 1,
        _ => 0,
    }
}

/// Puts the label of a line at the end, where it has one, and tells whether it was there already.
fn put_line_label<'a>(
    labels: &mut IndexMap<&'a str, u32>,
    line: &'a Line,
    address: u32,
) -> Result<bool, NoMemory>
    ensures known { let before = labels_in labels.old.entries in
        IfOk result (λ known. known ≡ is_known before line.entry.now.label) }
    ensures put { let before = labels_in labels.old.entries in
        let after = labels_in labels.new.entries in
        IfOk result (λ known. known ≡ false → after ≡ before ++ label_at address line.entry.now.label) }
{
    match &line.label {
        Some(name) => put_label(labels, name.as_str(), address),
        None => Ok(false),
    }
}

/// How many code words and shared words stand before a line.
#[derive(Clone, Copy)]
struct Room {
    code: u32,
    shared: u32,
}

/// Puts the label of a line at the end and counts its words, and tells what is wrong with the line, given those before it.
fn place_line<'a>(
    labels: &mut IndexMap<&'a str, u32>,
    room: &mut Room,
    line: &'a Line,
) -> Result<Option<Fault>, NoMemory>
    requires code { room.old.code ≤ most_words }
    requires shared { room.old.shared ≤ most_words }
    ensures fault { let before = labels_in labels.old.entries in
        IfOk result (λ fault. fault ≡ room_fault before room.old.code room.old.shared line.entry.now) }
    ensures labels { let before = labels_in labels.old.entries in
        let after = labels_in labels.new.entries in
        IfOk result (λ fault. fault ≡ None
        → after ≡ before ++ label_at (4 * room.old.code) line.entry.now.label) }
    ensures code { IfOk result (λ fault. fault ≡ None
        → (room.new.code ≡ room.old.code + size_of line.entry.now.item) × (room.new.code ≤ most_words)) }
    ensures shared { let more = length (shared_word line.entry.now.item) in
        IfOk result (λ fault. fault ≡ None
        → (room.new.shared ≡ room.old.shared + more) × (room.new.shared ≤ most_words)) }
{
    if put_line_label(labels, line, 4 * room.code)? {
        return Ok(Some(Fault::LabelTwice));
    }
    room.code += coding::code_size(&line.item);
    room.shared += shared_size(&line.item);
    if room.code > MOST_WORDS {
        return Ok(Some(Fault::TooMuchCode));
    }
    if room.shared > MOST_WORDS {
        return Ok(Some(Fault::TooMuchShared));
    }
    Ok(None)
}

/// The labels of the lines with their addresses, in the order of their definition, where each line has room and no label
/// stands twice. Refused with code 6, 9 or 10 at the first line that is not so.
pub fn lay_out<'a>(
    alloc: Global,
    lines: &'a [Line],
    numbers: Numbers<'_>,
) -> Result<IndexMap<&'a str, u32>, Fail>
    requires { AreNumbered numbers (length lines.now) }
    ensures labels { IfOk result (λ labels. labels_in labels.entries ≡ labels_of lines.now) }
    ensures clear { OnOk result (AreClear (by_test layout_fault) lines.now (length lines.now)) }
    ensures refused { let number = line_number_at numbers.entry in
        IfErr result (FailsFirst layout_fault number lines.now) }
{
    let mut labels = IndexMap::new(alloc);
    let mut room = Room { code: 0, shared: 0 };
    for (place, line) in lines.iter().enumerate() {
        match place_line(&mut labels, &mut room, line)? {
            Some(fault) => {
                return Err(Fail::Refused(fault.at(number_of_line(numbers, place))));
            }
            None => {}
        }
    }
    Ok(labels)
}
