//! The code part of a bundle: its image, and the entries of tasks in it.
ghost use Rattle.std.specs.Prelude.{◌≡◌, ◌<◌, ◌≤◌, ◌+◌, ◌^◌, ◌++◌, ◌∷◌, [], All, filter, length, map};
ghost use Rattle.std.specs.Prelude.{IfErr, IfOk, OnOk};
ghost use Rattle.std.specs.Str.Lines.{lines};
ghost use Rattle.em_base.specs.Apps as apps;
ghost use Rattle.em_base.specs.Images.{IsWhole};
ghost use Rattle.em_asm_read.specs.Fitting.{LineFits};
ghost use Rattle.em_bundle.specs.Code as spec;
ghost use Rattle.em_bundle.specs.Code.{IsCodeOf};
ghost use Rattle.em_bundle.specs.Walk.{AreStatements, IsCodeFail, IsMisreadFail};

use crate::texts::next_line;
use em_asm::{Numbers, assemble_numbered};
use em_asm_read::{Item, Line, one_meaning, read_line};
use em_base::{Fail, Image, Items, NoMemory, TaskRow};
use std::alloc::Global;

/// The lines of assembly that say something, with the number of each. The others aren't kept, since there may be millions of
/// them.
#[derive(Drop)]
struct Statements {
    lines: Items<Line>,
    numbers: Items<u32>,
}

/// Whether a line says something: it has a label or a statement.
fn speaks(line: &Line) -> bool
    ensures { result ≡ spec.speaks line.now }
{
    line.label.is_some() || !matches!(line.item, Item::Nothing)
}

/// Adds a line with its number, if it says something.
fn add_line(alloc: Global, to: &mut Statements, line: Line, number: u32) -> Result<(), NoMemory>
    ensures lines { OnOk result (to.new.lines ≡ to.old.lines ++ filter spec.speaks (line ∷ [])) }
    ensures numbers { OnOk result (to.new.numbers
        ≡ to.old.numbers ++ map (λ l. number) (filter spec.speaks (line ∷ []))) }
{
    if speaks(&line) {
        to.lines.push(alloc, line)?;
        to.numbers.push(alloc, number)?;
    }
    Ok(())
}

/// The statements of a text, whose first line is line `first` of the whole input. Refused as [`read_line`] refuses the first
/// line that it refuses.
fn read_statements(alloc: Global, text: &str, first: u32) -> Result<Statements, Fail>
    requires { first + length (lines text.now) < 2 ^ 32 }
    ensures read { IfOk result (AreStatements first (lines text.now)) }
    ensures fits { IfOk result (λ found. All LineFits found.lines) }
    ensures refused { IfErr result (IsMisreadFail first (lines text.now)) }
{
    // A line that says something has no fault, so the first line with a fault is the first that isn't read.
    one_meaning();
    let mut found = Statements {
        lines: Items::new(alloc),
        numbers: Items::new(alloc),
    };
    let mut rest = text;
    let mut number = first;
    'lines: while let Some((line, after)) = next_line(rest) {
        match read_line(alloc, line) {
            Ok(line) => add_line(alloc, &mut found, line, number)?,
            Err(fail) => return Err(fail.at(number)),
        }
        rest = after;
        number += 1;
    }
    Ok(found)
}

/// The image of a text of assembly, whose first line is line `first` of the whole input. Refused as [`read_line`] refuses the
/// first line that it refuses, and else as [`assemble_numbered`] refuses the lines.
pub fn read_code(alloc: Global, text: &str, first: u32) -> Result<Image, Fail>
    requires { first + length (lines text.now) < 2 ^ 32 }
    ensures image { IfOk result (IsCodeOf first (lines text.now)) }
    ensures whole { IfOk result IsWhole }
    ensures refused { IfErr result (IsCodeFail first (lines text.now)) }
{
    let found = read_statements(alloc, text, first)?;
    let numbers = Numbers::Each(found.numbers.as_slice());
    assemble_numbered(alloc, found.lines.as_slice(), numbers)
}

/// Whether each task starts at a label of the image.
pub fn have_entries(image: &Image, rows: &[TaskRow]) -> bool
    ensures { result ≡ apps.have_entries image.now rows.now }
{
    rows.iter()
        .all(|row| image.address_of(row.entry.as_str()).is_some())
}
