//! The parts of a bundle: the header lines, and the lines between them.
ghost use Rattle.std.specs.Prelude.{◌≡◌, ◌<◌, ◌≤◌, ◌+◌, ◌^◌, length, IfErr, IfOk};
ghost use Rattle.std.specs.Str.Lines.{lines};
ghost use Rattle.em_bundle.specs.Parts.{IsCut, IsUncut, is_header, line_at, parts_of};
ghost use Rattle.em_bundle.specs.Walk.{IsFront, IsHeaded, IsLastParted, IsLastUnparted, IsParted, IsPassed};
ghost use Rattle.em_bundle.specs.Walk.{IsUnparted, part_lines};

use crate::faults::Fault;
use crate::texts::next_line;
use em_base::Refusal;

/// The parts of a bundle, each as a slice of its text.
#[derive(Clone, Copy)]
pub struct Parts<'a> {
    /// The task table.
    pub table: &'a str,
    /// The code.
    pub code: &'a str,
    /// The number of the code's header line, counted from 1.
    pub code_line: u32,
    /// The script.
    pub script: &'a str,
    /// The number of the script's header line, counted from 1.
    pub script_line: u32,
    /// The schedule. It is empty where the bundle isn't to be replayed.
    pub schedule: &'a str,
    /// The number of the schedule's header line, counted from 1. Where the bundle isn't to be replayed, it is the number that a
    /// line after the bundle would have.
    pub schedule_line: u32,
}

/// What follows the lines before the first header line, which begins with `%`.
fn skip_to_header(text: &str) -> &str
    ensures passed { IsPassed text.entry.now result.now }
    ensures headed { IsHeaded (lines result.now) }
{
    let mut rest = text;
    'lines: while !rest.starts_with('%') {
        match next_line(rest) {
            Some((_, after)) => rest = after,
            None => break,
        }
    }
    rest
}

/// The lines of a text before the first header line, and what follows them.
fn split_at_header(text: &str) -> (&str, &str)
    ensures { IsFront (lines text.entry.now) (lines result.0.now) (lines result.1.now) }
{
    let rest = skip_to_header(text);
    text.split_at(text.len() - rest.len())
}

/// How many lines a text has.
fn line_count(text: &str) -> usize
    ensures { result ≡ length (lines text.now) }
{
    text.lines().count()
}

/// A part of a bundle, what follows it, and the number of the line that follows it.
#[derive(Clone, Copy)]
struct Part<'a> {
    text: &'a str,
    rest: &'a str,
    next: u32,
}

/// The part of a header with which the text is to begin, where the first line of the text has this number. Refused with 40 at
/// that line where the text is empty, and with 41 where the header is another.
fn next_part<'a>(text: &'a str, header: &str, number: u32) -> Result<Part<'a>, Refusal>
    requires { number + length (lines text.now) < 2 ^ 32 }
    ensures part { IfOk result (λ found.
        IsParted header.now (lines text.entry.now) (lines found.text.now) (lines found.rest.now)) }
    ensures next { IfOk result (λ found. found.next ≡ number + 1 + length (lines found.text.now)) }
    ensures refused { IfErr result (IsUnparted header.now number (lines text.entry.now)) }
{
    let Some((first, after)) = next_line(text) else {
        return Err(Fault::MissingPart.at(number));
    };
    if first != header {
        return Err(Fault::MisplacedHeader.at(number));
    }
    let (text, rest) = split_at_header(after);
    Ok(Part {
        text,
        rest,
        next: number + 1 + line_count(text) as u32,
    })
}

/// The schedule's part, found or refused as [`next_part`] does, where the bundle is to be replayed; else a part of no lines,
/// without a header.
fn last_part(text: &str, number: u32, replay: bool) -> Result<Part<'_>, Refusal>
    requires { number + length (lines text.now) < 2 ^ 32 }
    ensures part { IfOk result (λ found.
        IsLastParted replay (lines text.now) (lines found.text.now) (lines found.rest.now)) }
    ensures next { IfOk result (λ found.
        found.next + length (lines found.rest.now) ≡ number + length (lines text.now)) }
    ensures refused { IfErr result (IsLastUnparted replay number (lines text.now)) }
{
    if replay {
        next_part(text, "%schedule", number)
    } else {
        Ok(Part {
            text: "",
            rest: text,
            next: number,
        })
    }
}

/// Whether the first line is a header line.
fn is_headed(text: &str) -> bool
    ensures { result ≡ is_header (line_at (lines text.now) 0) }
{
    match next_line(text) {
        Some((line, _)) => line.starts_with('%'),
        None => false,
    }
}

/// The parts of a bundle, which has a schedule where it is to be replayed. Refused with 40 at line 1 where the first line is no
/// header line; else with 41 at the first header line that isn't the next one due; else with 40 at the number of lines plus 1,
/// where headers are due at the end.
pub fn cut(text: &str, replay: bool) -> Result<Parts<'_>, Refusal>
    requires { length (lines text.now) < 2 ^ 31 }
    ensures cut { IfOk result (λ parts. IsCut replay (lines text.entry.now)) }
    ensures parts { IfOk result (λ parts. part_lines parts ≡ parts_of (lines text.entry.now)) }
    ensures counted { IfOk result (λ parts. let count = length (lines text.entry.now) in
        (parts.code_line + length (lines parts.code.now) ≤ count)
        × (parts.script_line + length (lines parts.script.now) ≤ count)
        × (parts.schedule_line + length (lines parts.schedule.now) ≤ count + 1)) }
    ensures refused { IfErr result (IsUncut replay (lines text.entry.now)) }
{
    if !is_headed(text) {
        return Err(Fault::MissingPart.at(1));
    }
    let table = next_part(text, "%table", 1)?;
    let code = next_part(table.rest, "%code", table.next)?;
    let script = next_part(code.rest, "%script", code.next)?;
    let schedule = last_part(script.rest, script.next, replay)?;
    if next_line(schedule.rest).is_some() {
        return Err(Fault::MisplacedHeader.at(schedule.next));
    }
    Ok(Parts {
        table: table.text,
        code: code.text,
        code_line: table.next,
        script: script.text,
        script_line: code.next,
        schedule: schedule.text,
        schedule_line: script.next,
    })
}
