//! What a call of the program comes to, and how that differs from what it must come to.
ghost use Rattle.std.specs.Prelude.{◌≡◌, ◌↔◌, IsTrue};
ghost use Rattle.cases.specs.Ports.{AreAsExpected};

use em_base::{NoMemory, PortId};
use em_io::{MemSink, MemSource};
use em_ports::{CountPort, LatchPort, Port, Ports, SumPort};
use em_run::emeralds;
use std::alloc::{AllocError, Global};
use std::fmt::Write;

/// The most bytes of one read and of one write.
const PIECE: usize = 65_536;

/// The room for more bytes than are expected.
const SPARE: usize = 65_536;

/// How a call ends, what it writes, and what the ports show afterwards.
#[derive(Drop)]
pub struct Outcome {
    /// The number of its status.
    pub status: u8,
    /// The bytes that it writes.
    pub output: Vec<u8>,
    /// What the ports show: eight values with a space between them, each a number, or `none` where the port is unplugged. Empty
    /// where nothing is expected of them.
    pub ports: Vec<u8>,
}

/// What a call with the words, which stand between spaces, with the input and with eight ports that show 0 comes to: ports 0 to
/// 3 latch, 4 and 5 count, 6 and 7 sum. It may write `most` bytes and some more.
pub fn outcome_of(
    alloc: Global,
    words: &str,
    input: Vec<u8>,
    most: usize,
) -> Result<Outcome, NoMemory> {
    let mut list = Vec::new(alloc);
    for word in words.split_whitespace() {
        list.push(String::from_str(alloc, word)?)?;
    }
    let mut ports: Vec<Box<dyn Port>> = Vec::with_capacity(alloc, 8)?;
    ports.push(Box::new(alloc, LatchPort::new())?)?;
    ports.push(Box::new(alloc, LatchPort::new())?)?;
    ports.push(Box::new(alloc, LatchPort::new())?)?;
    ports.push(Box::new(alloc, LatchPort::new())?)?;
    ports.push(Box::new(alloc, CountPort::new())?)?;
    ports.push(Box::new(alloc, CountPort::new())?)?;
    ports.push(Box::new(alloc, SumPort::new())?)?;
    ports.push(Box::new(alloc, SumPort::new())?)?;
    let mut ports = Ports::new(alloc, ports)?;
    let mut src = MemSource::new(input, Vec::new(alloc), PIECE);
    let room = most.saturating_add(SPARE);
    let mut out = MemSink::new(alloc, room, Vec::new(alloc), PIECE)?;
    let status = emeralds(alloc, list.as_slice(), &mut src, &mut out, &mut ports);
    Ok(Outcome {
        status: status.number(),
        output: Vec::from_slice(alloc, out.written())?,
        ports: shown_by(alloc, &ports)?.into_bytes(),
    })
}

/// What each port shows, with a space between two of them.
fn shown_by(alloc: Global, ports: &Ports) -> Result<String, NoMemory> {
    let mut text = String::new(alloc);
    for port in 0..8u8 {
        if port > 0 {
            text.push(' ')?;
        }
        match ports.shown(PortId(port)) {
            Some(value) => write!(text, "{value}"),
            None => write!(text, "none"),
        }?;
    }
    Ok(text)
}

/// Whether an outcome is as expected: status, bytes, and the ports where something is expected of them.
pub fn is_same(found: &Outcome, expected: &Outcome) -> bool
    ensures { IsTrue result
        ↔ ((found.now.status ≡ expected.now.status)
        × (found.now.output.items ≡ expected.now.output.items)
        × AreAsExpected expected.now.ports.items found.now.ports.items) }
{
    found.status == expected.status
        && found.output.as_slice() == expected.output.as_slice()
        && are_as_expected(expected.ports.as_slice(), found.ports.as_slice())
}

/// Whether the ports show what is expected, if anything is.
fn are_as_expected(expected: &[u8], found: &[u8]) -> bool
    ensures { IsTrue result ↔ AreAsExpected expected.now found.now }
{
    expected.is_empty() || found == expected
}

/// What differs between two outcomes: each status, each first line that the other doesn't have there, and the ports where only
/// they differ.
pub fn difference(
    alloc: Global,
    found: &Outcome,
    expected: &Outcome,
) -> Result<String, AllocError> {
    let written = String::from_utf8_lossy(alloc, found.output.as_slice())?;
    let wanted = String::from_utf8_lossy(alloc, expected.output.as_slice())?;
    let (line, other) = first_apart(written.as_str(), wanted.as_str());
    let (line, other) = (line_text(alloc, line)?, line_text(alloc, other)?);
    let (status, number) = (found.status, expected.status);
    if status == number && found.output.as_slice() == expected.output.as_slice() {
        return ports_difference(alloc, found, expected);
    }
    format!(in alloc; "status {status}, {line} where status {number}, {other} is expected")
}

/// What each of two outcomes says of the ports.
fn ports_difference(
    alloc: Global,
    found: &Outcome,
    expected: &Outcome,
) -> Result<String, AllocError> {
    let shown = String::from_utf8_lossy(alloc, found.ports.as_slice())?;
    let wanted = String::from_utf8_lossy(alloc, expected.ports.as_slice())?;
    format!(in alloc; "the ports show {shown} where {wanted} is expected")
}

/// The first lines of two texts that differ, none where a text has ended or where no lines differ.
fn first_apart<'a>(found: &'a str, expected: &'a str) -> (Option<&'a str>, Option<&'a str>) {
    let mut others = expected.split('\n');
    for line in found.split('\n') {
        let other = others.next();
        if Some(line) != other {
            return (Some(line), other);
        }
    }
    (None, others.next())
}

/// A line between quotation marks, or a word for none.
fn line_text(alloc: Global, line: Option<&str>) -> Result<String, AllocError> {
    match line {
        Some(line) => format!(in alloc; "{line:?}"),
        None => String::from_str(alloc, "no further line"),
    }
}
