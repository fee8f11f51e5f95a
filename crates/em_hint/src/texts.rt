//! The code text with its hints.
ghost use Rattle.std.specs.Prelude.{◌≡◌, ℕ, ◌<◌, ◌≤◌, ◌^◌, ◌==◌, nat_eq, ◌&&◌, is_some, if◌then◌else◌};
ghost use Rattle.std.specs.Prelude.{IfOk, OnOk, length, string_bytes};
ghost use Rattle.std.specs.Prelude as list;
ghost use Rattle.std.specs.HashMap.{get};
ghost use Rattle.std.specs.List.{IsDistinct};
ghost use Rattle.std.specs.Str.Lines.{lines};
ghost use Rattle.em_base.specs.Hints.{AreHintsRising};
ghost use Rattle.em_base.specs.Hints as hints;
ghost use Rattle.em_hint.specs.Lines.{HaveWaitLines, unwritten_in};
ghost use Rattle.em_hint.specs.Lines as spec;

use crate::lines::push_line;
use em_base::{HintMap, Image, NoMemory, SemId, Wait};
use std::alloc::Global;
use std::collections::HashMap;

/// The hint at an address in bytes: `None` exactly where the map has none there. The map's addresses rise, so it is a binary
/// search.
pub fn hint_at(map: &HintMap, address: u32) -> Option<SemId>
    requires { AreHintsRising 0 map.now.hints }
    ensures { result ≡ hints.hint_at map.now address }
{
    let hints = map.hints.as_slice();
    match hints.binary_search_by_key(&address, |hint| hint.0) {
        Ok(place) => Some(hints[place].1),
        Err(_) => None,
    }
}

/// The hint that is still to be written of a `waitjob`: none where one is written already.
fn unwritten(map: &HintMap, wait: &Wait) -> Option<SemId>
    requires { AreHintsRising 0 map.now.hints }
    ensures { result ≡ spec.unwritten map.now wait.now }
{
    match wait.hint {
        Some(_) => None,
        None => hint_at(map, wait.address),
    }
}

/// Puts down the hint of the line of a number, where there is one.
fn put_hint(due: &mut HashMap<u32, SemId>, number: u32, hint: Option<SemId>) -> Result<(), NoMemory>
    ensures { OnOk result ((other : ℕ) → get nat_eq due.new other
        ≡ (if is_some hint && (number == other) then hint else get nat_eq due.old other)) }
{
    if let Some(hint) = hint {
        due.insert(number, hint)?;
    }
    Ok(())
}

/// The hints that are still to be written, by the number of the line.
fn unwritten_hints(
    alloc: Global,
    map: &HintMap,
    waits: &[Wait],
) -> Result<HashMap<u32, SemId>, NoMemory>
    requires rising { AreHintsRising 0 map.now.hints }
    requires distinct { IsDistinct nat_eq (list.map (λ wait. wait.line) waits.now) }
    ensures { IfOk result (λ due. (number : ℕ)
        → get nat_eq due number ≡ unwritten_in map.now waits.now number) }
{
    let mut due = HashMap::new(alloc);
    for wait in waits {
        put_hint(&mut due, wait.line, unwritten(map, wait))?;
    }
    Ok(due)
}

/// The text of a code with its hints, whose first line is line `first` of the whole input: each of its lines with one line end,
/// and behind the word `waitjob` of a statement that has a hint, where none is written, a space and the hint's number. All else
/// stays as it is.
///
/// Each `waitjob` of the image has a line of its own in the text, which begins with that word, after its label where it has one.
/// Fails only where memory runs out.
pub fn hinted_text(
    alloc: Global,
    code_text: &str,
    first: u32,
    image: &Image,
    map: &HintMap,
) -> Result<String, NoMemory>
    requires few { length (lines code_text.now) < 2 ^ 31 }
    requires first { first ≤ 2 ^ 31 }
    requires rising { AreHintsRising 0 map.now.hints }
    requires lines { HaveWaitLines first (lines code_text.now) image.now.waits }
    ensures { let hinted = spec.hinted_text map.now image.now.waits first (lines code_text.now) in
        IfOk result (λ text. string_bytes text ≡ hinted) }
{
    let due = unwritten_hints(alloc, map, image.waits.as_slice())?;
    let mut text = String::with_capacity(alloc, code_text.len())?;
    let mut number = first;
    for line in code_text.lines() {
        push_line(&mut text, line, due.get(&number).copied())?;
        number += 1;
    }
    Ok(text)
}
