//! The lines that a text spells.
ghost use Rattle.std.specs.Prelude.{◌≡◌, ◌<◌, ◌^◌, ◌⊎◌, ℕ, List, length, IfOk, IfErr, MatchResult};
ghost use Rattle.std.specs.Str.Lines.{lines};
ghost use Rattle.em_trace.specs.declared.lines.Line.{Line as LineValue};
ghost use Rattle.em_trace.specs.Reading.{IsFormFault, IsTraceFail, IsTraceOf};
ghost use Rattle.em_trace.specs.Words as spec;
ghost use Rattle.em_trace.specs.Words.{line_of};

use crate::fails::TraceFail;
use crate::lines::Line;
use crate::words::{byte_of, code_of, count_of, cut, semaphore_of, word_of};
use em_base::{Items, MsgId, PortId, SemId, TaskId};
use std::alloc::Global;

/// The lines of a trace, one for each line of the text, in order. A text's line ends by LF, one CR right before the LF is
/// dropped, and the last line may lack its LF. Each must be exactly as `print_trace` prints it.
///
/// `Form` names the first line that is no line of a trace. `NoMemory` where memory runs out.
pub fn read_trace(alloc: Global, text: &str) -> Result<Items<Line>, TraceFail>
    requires { length (lines text.now) < 2 ^ 31 }
    ensures trace { IfOk result (IsTraceOf text.now) }
    ensures fault { IfErr result (IsTraceFail text.now) }
    ensures complete { (found : List LineValue) → IsTraceOf text.now found
        → MatchResult result (λ other. other ≡ found) (λ fail. fail ≡ TraceFail.NoMemory) }
    ensures refuses { (number : ℕ) → IsFormFault text.now number
        → MatchResult result (λ _. ⊥)
        (λ fail. (fail ≡ TraceFail.Form number) ⊎ (fail ≡ TraceFail.NoMemory)) }
{
    read_lines(alloc, text)
}

/// The lines of a trace, or what is wrong with the text.
fn read_lines(alloc: Global, text: &str) -> Result<Items<Line>, TraceFail>
    requires { length (lines text.now) < 2 ^ 31 }
    ensures trace { IfOk result (IsTraceOf text.now) }
    ensures fault { IfErr result (IsTraceFail text.now) }
{
    let mut found = Items::new(alloc);
    for (place, line) in text.lines().enumerate() {
        match read_line(line) {
            Some(line) => found.push(alloc, line)?,
            None => return Err(TraceFail::Form(place as u32 + 1)),
        }
    }
    Ok(found)
}

/// The line that a text spells.
fn read_line(text: &str) -> Option<Line>
    ensures { result ≡ line_of text.now }
{
    let (name, rest) = cut(text)?;
    let Some((first, rest)) = cut(rest) else {
        return line_of_one(name, rest);
    };
    let Some((second, rest)) = cut(rest) else {
        return line_of_two(name, first, rest);
    };
    let Some((third, rest)) = cut(rest) else {
        return line_of_three(name, first, second, rest);
    };
    match cut(rest) {
        Some(_) => None,
        None => line_of_four(name, first, second, third, rest),
    }
}

/// The line of a name and one word.
fn line_of_one(name: &str, first: &str) -> Option<Line>
    ensures { result ≡ spec.line_of_one name.now first.now }
{
    let task = TaskId(byte_of(first)?);
    match name {
        "exit" => Some(Line::Exited { task }),
        _ => None,
    }
}

/// The line of a name and two words.
fn line_of_two(name: &str, first: &str, second: &str) -> Option<Line>
    ensures { result ≡ spec.line_of_two name.now first.now second.now }
{
    let id = byte_of(first)?;
    let task = TaskId(id);
    match name {
        "drop" => Some(Line::Dropped {
            task,
            time: count_of(second)?,
        }),
        "end" => Some(Line::JobEnd {
            task,
            job: count_of(second)?,
        }),
        "acq" => Some(Line::Acq {
            task,
            sem: SemId(byte_of(second)?),
        }),
        "free" => Some(Line::Free {
            task,
            sem: SemId(byte_of(second)?),
        }),
        "gone" => Some(Line::Gone {
            port: PortId(id),
            value: word_of(second)?,
        }),
        _ => None,
    }
}

/// The line of a name and three words.
fn line_of_three(name: &str, first: &str, second: &str, third: &str) -> Option<Line>
    ensures { result ≡ spec.line_of_three name.now first.now second.now third.now }
{
    let task = TaskId(byte_of(first)?);
    match name {
        "sig" => Some(Line::Sig {
            task,
            to: TaskId(byte_of(second)?),
            job: count_of(third)?,
        }),
        "put" => Some(Line::Put {
            task,
            msg: MsgId(byte_of(second)?),
            number: count_of(third)?,
        }),
        "get" => Some(Line::Get {
            task,
            msg: MsgId(byte_of(second)?),
            number: count_of(third)?,
        }),
        "err" => Some(Line::Refused {
            task,
            call: word_of(second)?,
            code: code_of(third)?,
        }),
        _ => None,
    }
}

/// The line of a name and four words.
fn line_of_four(name: &str, first: &str, second: &str, third: &str, fourth: &str) -> Option<Line>
    ensures { result ≡ spec.line_of_four name.now first.now second.now third.now fourth.now }
{
    let task = TaskId(byte_of(first)?);
    match name {
        "rel" => Some(Line::Rel {
            task,
            job: count_of(second)?,
            time: count_of(third)?,
            word: word_of(fourth)?,
        }),
        "out" => Some(Line::Out {
            task,
            port: PortId(byte_of(second)?),
            word: word_of(third)?,
            value: word_of(fourth)?,
        }),
        "fault" => Some(Line::Faulted {
            task,
            cause: byte_of(second)?,
            pc: word_of(third)?,
            sem: semaphore_of(fourth)?,
        }),
        _ => None,
    }
}
