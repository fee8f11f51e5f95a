//! A line of assembly read.
ghost use Rattle.std.specs.Prelude.{◌≡◌, Ok, map, IfOk, IfErr};
ghost use Rattle.em_asm_read.specs.Fitting.{ItemFits, LineFits};
ghost use Rattle.em_asm_read.specs.Cutting.{labelled_parts, operands_in, parts_in, statement_in};
ghost use Rattle.em_asm_read.specs.Faults.{FailsAs};
ghost use Rattle.em_asm_read.specs.Lines.{IsLineFail, IsLine, meaning_of, statement_meaning};
ghost use Rattle.em_base.specs.Text.{texts_of, trimmed};

use crate::faults::{Fault, LineFail};
use crate::items::{Item, Line};
use crate::labels::label;
use crate::mnemonics::{Mnemonic, mnemonic_named};
use crate::statements::statement;
use em_base::Name;
use em_base::pieces::{after, before, has, skip_blanks, split_at_commas, split_word, trim};
use std::alloc::{AllocError, Global};

/// What a line of assembly says: `[label:] [statement] [# comment]`, as docs/FORMATS.md describes it.
///
/// Refused with the code of its first fault: the label is looked at first, then the mnemonic, then the count of operands,
/// then the operands from the left. `NoMemory` where memory could not be had.
pub fn read_line(alloc: Global, text: &str) -> Result<Line, LineFail>
    ensures read { IfOk result (IsLine text.now) }
    ensures refused { IfErr result (IsLineFail text.now) }
    ensures fits { IfOk result LineFits }
{
    read_trimmed_line(alloc, trim(before(text.as_bytes(), b'#')))
}

/// What a line says, by what stands before its comment, without the spaces and tabs around it.
fn read_trimmed_line(alloc: Global, code: &[u8]) -> Result<Line, LineFail>
    ensures read { IfOk result (λ line. meaning_of (parts_in code.now) ≡ Ok line) }
    ensures refused { IfErr result (FailsAs (meaning_of (parts_in code.now))) }
    ensures fits { IfOk result LineFits }
{
    if has(code, b':') {
        return labelled_line(alloc, before(code, b':'), skip_blanks(after(code, b':')));
    }
    let item = read_statement(alloc, false, code)?;
    Ok(Line { label: None, item })
}

/// What a line says that has a label, by what stands before the colon and what follows it.
fn labelled_line(alloc: Global, name: &[u8], rest: &[u8]) -> Result<Line, LineFail>
    ensures read { IfOk result (λ line. meaning_of (labelled_parts name.now rest.now) ≡ Ok line) }
    ensures refused { IfErr result (FailsAs (meaning_of (labelled_parts name.now rest.now))) }
    ensures fits { IfOk result LineFits }
{
    match label(name) {
        Some(name) => {
            let label = Name::new(alloc, name)?;
            let item = read_statement(alloc, true, rest)?;
            Ok(Line {
                label: Some(label),
                item,
            })
        }
        None => Err(LineFail::from(Fault::Label)),
    }
}

/// What a statement says, in a line with a label or in one without.
fn read_statement(alloc: Global, labelled: bool, text: &[u8]) -> Result<Item, LineFail>
    ensures read { IfOk result (λ item.
        statement_meaning labelled (statement_in text.now) ≡ Ok item) }
    ensures refused { IfErr result (FailsAs (statement_meaning labelled (statement_in text.now))) }
    ensures fits { IfOk result ItemFits }
{
    if text.is_empty() {
        return Ok(Item::Nothing);
    }
    let (word, rest) = split_word(text);
    let operands = split_operands(alloc, skip_blanks(rest))?;
    read_words(alloc, labelled, word, operands.as_slice())
}

/// What a statement says, by its mnemonic and its operands.
fn read_words(
    alloc: Global,
    labelled: bool,
    word: &[u8],
    operands: &[&[u8]],
) -> Result<Item, LineFail>
    ensures read { let texts = texts_of operands.now in
        let words = Some record { mnemonic = word.now; operands = texts } in
        IfOk result (λ item. statement_meaning labelled words ≡ Ok item) }
    ensures refused { let texts = texts_of operands.now in
        let words = Some record { mnemonic = word.now; operands = texts } in
        IfErr result (FailsAs (statement_meaning labelled words)) }
    ensures fits { IfOk result ItemFits }
{
    match mnemonic_named(word) {
        Some(mnemonic) => {
            if labelled && mnemonic == Mnemonic::Word {
                return Err(LineFail::from(Fault::Label));
            }
            statement(alloc, mnemonic, operands)
        }
        None => Err(LineFail::from(Fault::Mnemonic)),
    }
}

/// The operands, which stand between commas: none in an empty text.
fn split_operands<'a>(alloc: Global, text: &'a [u8]) -> Result<Vec<&'a [u8]>, AllocError>
    ensures { IfOk result (λ operands. texts_of operands.items ≡ operands_in text.now) }
{
    if text.is_empty() {
        return Ok(Vec::new(alloc));
    }
    trimmed_pieces(alloc, split_at_commas(alloc, text)?.as_slice())
}

/// The pieces without the spaces and tabs around them.
fn trimmed_pieces<'a>(alloc: Global, pieces: &[&'a [u8]]) -> Result<Vec<&'a [u8]>, AllocError>
    ensures { IfOk result (λ operands.
        texts_of operands.items ≡ map trimmed (texts_of pieces.now)) }
{
    pieces.iter().map(|piece| trim(*piece)).collect(alloc)
}
