//! The image of a list of lines.
ghost use Rattle.std.specs.Prelude.{◌≡◌, ◌<◌, ◌≤◌, ◌+◌, ◌^◌, ◌++◌, All, IfOk, IfErr, OnOk, length};
ghost use Rattle.em_base.specs.FirstFault.{AreClear, by_test};
ghost use Rattle.em_base.specs.Images.{IsWhole, most_words};
ghost use Rattle.em_asm_read.specs.Fitting.{LineFits};
ghost use Rattle.em_asm.specs.Image.{IsAssemblyFail, IsImageOf, label_at, labels_of, layout_fault};
ghost use Rattle.em_asm.specs.Image.{shared_word, shared_words, wait_at, waits_of};
ghost use Rattle.em_asm.specs.Numbering.{AreNumbered, line_number_at};

use crate::coding::{code_size, code_words};
use crate::layout::lay_out;
use crate::numbering::{Numbers, number_of_line};
use em_asm_read::{Item, Line};
use em_base::{Fail, Image, Items, Name, NoMemory, Wait};
use std::alloc::Global;

/// The image of lines, of which the first is line `first` of the whole input, at most 2^31, and each other is the next.
/// Refused as [`assemble_numbered`] refuses them.
pub fn assemble(alloc: Global, lines: &[Line], first: u32) -> Result<Image, Fail>
    requires few { length lines.now < 2 ^ 31 }
    requires early { first ≤ 2 ^ 31 }
    requires fits { All LineFits lines.now }
    ensures image { IfOk result (IsImageOf (λ place. first + place) lines.now) }
    ensures whole { IfOk result IsWhole }
    ensures refused { IfErr result (IsAssemblyFail (λ place. first + place) lines.now) }
{
    assemble_numbered(alloc, lines, Numbers::Consecutive(first))
}

/// The image of lines with these numbers in the whole input.
///
/// Refused in two passes, of which the second is made only where the first refuses nothing. The first names the first line
/// whose label stands in an earlier line too (6), or that passes 16,384 code words (9) or shared words (10), in this order
/// where one line has several faults. The second names the first line that names a label which is in no line (7), or one
/// that is out of its instruction's reach (8). `NoMemory` where memory runs out.
pub fn assemble_numbered(alloc: Global, lines: &[Line], numbers: Numbers<'_>) -> Result<Image, Fail>
    requires numbered { AreNumbered numbers (length lines.now) }
    requires fits { All LineFits lines.now }
    ensures image { IfOk result (IsImageOf (line_number_at numbers.entry) lines.now) }
    ensures whole { IfOk result IsWhole }
    ensures refused { IfErr result (IsAssemblyFail (line_number_at numbers.entry) lines.now) }
{
    let labels = lay_out(alloc, lines, numbers)?;
    let words = code_words(alloc, lines, numbers, &labels)?;
    Ok(image_of(alloc, words, lines, numbers)?)
}

/// The image with these code words, and with the labels, shared words and waits of the lines.
fn image_of(
    alloc: Global,
    words: Items<u32>,
    lines: &[Line],
    numbers: Numbers<'_>,
) -> Result<Image, NoMemory>
    requires numbered { AreNumbered numbers (length lines.now) }
    requires room { AreClear (by_test layout_fault) lines.now (length lines.now) }
    requires words { length words ≤ most_words }
    ensures words { IfOk result (λ image. image.words ≡ words) }
    ensures shared { IfOk result (λ image. image.shared ≡ shared_words lines.now) }
    ensures waits { IfOk result (λ image.
        image.waits ≡ waits_of (line_number_at numbers.entry) lines.now) }
    ensures labels { IfOk result (λ image. image.labels ≡ labels_of lines.now) }
    ensures whole { IfOk result IsWhole }
{
    let mut image = Image {
        words,
        shared: Items::new(alloc),
        waits: Items::new(alloc),
        labels: Items::new(alloc),
    };
    let mut size = 0;
    for (place, line) in lines.iter().enumerate() {
        let number = number_of_line(numbers, place);
        list_line(alloc, &mut image, line, number, 4 * size)?;
        size += code_size(&line.item);
    }
    Ok(image)
}

/// Lists the label, the shared word and the `waitjob` of a line, by its number and by the address of the next code word.
fn list_line(
    alloc: Global,
    image: &mut Image,
    line: &Line,
    number: u32,
    at: u32,
) -> Result<(), NoMemory>
    requires { at ≤ 65536 }
    ensures words { image.new.words ≡ image.old.words }
    ensures shared { OnOk result
        (image.new.shared ≡ image.old.shared ++ shared_word line.now.item) }
    ensures waits { OnOk result
        (image.new.waits ≡ image.old.waits ++ wait_at number at line.now.item) }
    ensures labels { OnOk result
        (image.new.labels ≡ image.old.labels ++ label_at at line.now.label) }
{
    list_label(alloc, &mut image.labels, &line.label, at)?;
    list_shared(alloc, &mut image.shared, &line.item)?;
    list_wait(alloc, &mut image.waits, &line.item, number, at)
}

/// Lists a label with its address, where there is one.
fn list_label(
    alloc: Global,
    labels: &mut Items<(Name, u32)>,
    label: &Option<Name>,
    at: u32,
) -> Result<(), NoMemory>
    ensures { OnOk result (labels.new ≡ labels.old ++ label_at at label.now) }
{
    match label {
        Some(name) => {
            let name = Name::new(alloc, name.as_str())?;
            labels.push(alloc, (name, at))
        }
        None => Ok(()),
    }
}

/// Lists the word of a `.word`.
fn list_shared(alloc: Global, shared: &mut Items<u32>, item: &Item) -> Result<(), NoMemory>
    ensures { OnOk result (shared.new ≡ shared.old ++ shared_word item.now) }
{
    match item {
        Item::Word(word) => shared.push(alloc, *word),
        _ => Ok(()),
    }
}

/// Lists a `waitjob`, with the address of its call and its line.
fn list_wait(
    alloc: Global,
    waits: &mut Items<Wait>,
    item: &Item,
    line: u32,
    at: u32,
) -> Result<(), NoMemory>
    requires { at ≤ 65536 }
    ensures { OnOk result (waits.new ≡ waits.old ++ wait_at line at item.now) }
{
    match item {
        Item::Wait(hint) => waits.push(
            alloc,
            Wait {
                address: at + 4,
                line,
                hint: *hint,
            },
        ),
        _ => Ok(()),
    }
}
