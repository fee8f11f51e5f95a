//! The text of a trace.
ghost use Rattle.std.specs.Prelude.{◌≡◌, ◌++◌, IfOk, OnOk, All, string_bytes};
ghost use Rattle.em_trace.specs.Printed.{HasCode, line_text, trace_text};

use crate::lines::Line;
use em_base::NoMemory;
use std::alloc::{AllocError, Global};
use std::fmt::Write;

/// The text of the lines, one after the other, each with a line feed at its end. The code of each refused call is from
/// -10 to -1. Fails only where memory runs out.
pub fn print_trace(alloc: Global, lines: &[Line]) -> Result<String, NoMemory>
    requires { All HasCode lines.now }
    ensures { IfOk result (λ text. string_bytes text ≡ trace_text lines.now) }
{
    let mut text = String::new(alloc);
    put_trace(&mut text, lines)?;
    Ok(text)
}

/// Puts the text of the lines at the end of a text. Fails only where memory runs out; then some of it may stand there.
pub fn put_trace(text: &mut String, lines: &[Line]) -> Result<(), NoMemory>
    ensures { OnOk result (string_bytes text.new ≡ string_bytes text.old ++ trace_text lines.now) }
{
    for line in lines {
        put_line(text, line)?;
        text.push('\n')?;
    }
    Ok(())
}

/// Puts the text of a line at the end, without a line feed.
fn put_line(text: &mut String, line: &Line) -> Result<(), AllocError>
    ensures { OnOk result (string_bytes text.new ≡ string_bytes text.old ++ line_text line.now) }
{
    match *line {
        Line::Rel {
            task,
            job,
            time,
            word,
        } => write!(text, "rel {} {job} {time} {word}", task.0),
        Line::Dropped { task, time } => write!(text, "drop {} {time}", task.0),
        Line::JobEnd { task, job } => write!(text, "end {} {job}", task.0),
        Line::Acq { task, sem } => write!(text, "acq {} {}", task.0, sem.0),
        Line::Free { task, sem } => write!(text, "free {} {}", task.0, sem.0),
        Line::Out {
            task,
            port,
            word,
            value,
        } => write!(text, "out {} {} {word} {value}", task.0, port.0),
        Line::Sig { task, to, job } => write!(text, "sig {} {} {job}", task.0, to.0),
        Line::Put { task, msg, number } => write!(text, "put {} {} {number}", task.0, msg.0),
        Line::Get { task, msg, number } => write!(text, "get {} {} {number}", task.0, msg.0),
        Line::Refused { task, call, code } => write!(text, "err {} {call} {code}", task.0),
        Line::Faulted {
            task,
            cause,
            pc,
            sem: None,
        } => write!(text, "fault {} {cause} {pc} -", task.0),
        Line::Faulted {
            task,
            cause,
            pc,
            sem: Some(sem),
        } => write!(text, "fault {} {cause} {pc} {}", task.0, sem.0),
        Line::Gone { port, value } => write!(text, "gone {} {value}", port.0),
        Line::Exited { task } => write!(text, "exit {}", task.0),
    }
}
