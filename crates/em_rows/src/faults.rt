//! Sources and sinks that hand over pieces and fail, inputs that are too long, and what was written so far.
ghost use Rattle.std.specs.Prelude.{◌≤◌};

use em_base::NoMemory;
use em_io::{MemSink, MemSource};
use em_ports::{LatchPort, Port, Ports};
use em_run::{Status, emeralds};
use std::alloc::{AllocError, Global};
use std::test::Fail;

/// A bundle of one task that puts a word to a port and exits.
const ONE_SHOT: &str =
    "%table\nhorizon = 1000\n[[task]]\nname = \"a\"\nentry = \"a\"\nkind = \"timer\"\nperiod = 1000\ndeadline = 1000\ncost = 900\n%code\na: li a7, 4\nli a0, 0\nli a1, 7\necall\nli a7, 8\necall\n%script\n";

/// What the run of the bundle writes.
const OUTPUT: &[u8] =
    b"%trace\nrel 0 1 0 0\nout 0 0 7 7\nexit 0\n%schedule\n0 rel 0 0 0\n6 end\n%end\nquiet clock 87 switches 1\n";

/// More than any test writes.
const ROOM: usize = 4096;

/// The status of a call with these words, which stand between spaces, and with eight ports that latch and show 0.
fn called(
    alloc: Global,
    words: &str,
    src: &mut MemSource,
    out: &mut MemSink,
) -> Result<Status, NoMemory> {
    let mut list = Vec::new(alloc);
    for word in words.split_whitespace() {
        list.push(String::from_str(alloc, word)?)?;
    }
    let mut ports: Vec<Box<dyn Port>> = Vec::with_capacity(alloc, 8)?;
    ports.push(Box::new(alloc, LatchPort::new())?)?;
    ports.push(Box::new(alloc, LatchPort::new())?)?;
    ports.push(Box::new(alloc, LatchPort::new())?)?;
    ports.push(Box::new(alloc, LatchPort::new())?)?;
    ports.push(Box::new(alloc, LatchPort::new())?)?;
    ports.push(Box::new(alloc, LatchPort::new())?)?;
    ports.push(Box::new(alloc, LatchPort::new())?)?;
    ports.push(Box::new(alloc, LatchPort::new())?)?;
    let mut ports = Ports::new(alloc, ports)?;
    Ok(emeralds(alloc, list.as_slice(), src, out, &mut ports))
}

/// A source of the bytes that hands over at most `piece` at a time and fails at the calls numbered in `fails`.
fn source(alloc: Global, bytes: &[u8], fails: &[u64], piece: usize) -> Result<MemSource, AllocError>
    requires { 1 ≤ piece }
{
    Ok(MemSource::new(
        Vec::from_slice(alloc, bytes)?,
        Vec::from_slice(alloc, fails)?,
        piece,
    ))
}

#[test]
fn pieces_of_any_size(rt: HostRuntime) -> Result<(), Fail> {
    let alloc = rt.alloc();
    for piece in [1usize, 7, 4096] {
        let mut src = source(alloc, ONE_SHOT.as_bytes(), &[], piece)?;
        let mut out = MemSink::new(alloc, ROOM, Vec::new(alloc), piece)?;
        assert_eq!(rt;
            called(alloc, "run", &mut src, &mut out)?,
            Status::Done,
            "{piece}"
        );
        assert_eq!(rt; out.written(), OUTPUT, "{piece}");
    }
    Ok(())
}

#[test]
fn each_failing_read(rt: HostRuntime) -> Result<(), Fail> {
    let alloc = rt.alloc();
    for call in 1..6u64 {
        let mut src = source(alloc, ONE_SHOT.as_bytes(), &[call], 10)?;
        let mut out = MemSink::new(alloc, ROOM, Vec::new(alloc), 4096)?;
        assert_eq!(rt;
            called(alloc, "run", &mut src, &mut out)?,
            Status::ReadFault,
            "{call}"
        );
        assert_eq!(rt; out.written(), b"error read\n".as_slice(), "{call}");
        assert_eq!(rt; src.faults(), 1, "{call}");
    }
    Ok(())
}

#[test]
fn failing_calls(rt: HostRuntime) -> Result<(), Fail> {
    let alloc = rt.alloc();
    // The number of the read and of the write that fails, 0 for none, and the most bytes of one write.
    for (shows, read, write, piece, written, status) in [
        (
            "the first read",
            1u64,
            0u64,
            4096usize,
            "error read\n",
            Status::ReadFault,
        ),
        ("the first write", 0, 1, 4096, "", Status::WriteFault),
        (
            "the third write",
            0,
            3,
            10,
            "%trace\nrel 0 1 0 0\no",
            Status::WriteFault,
        ),
        ("both at the first", 1, 1, 4096, "", Status::WriteFault),
    ] {
        let mut src = source(alloc, ONE_SHOT.as_bytes(), &[read], 4096)?;
        let mut out = MemSink::new(alloc, ROOM, Vec::from_slice(alloc, &[write])?, piece)?;
        let found = called(alloc, "run", &mut src, &mut out)?;
        assert_eq!(rt; found, status, "{shows}");
        assert_eq!(rt; out.written(), written.as_bytes(), "{shows}");
    }
    Ok(())
}

#[test]
fn no_words_read_nothing(rt: HostRuntime) -> Result<(), Fail> {
    let alloc = rt.alloc();
    let mut src = source(alloc, ONE_SHOT.as_bytes(), &[1], 4096)?;
    let mut out = MemSink::new(alloc, ROOM, Vec::new(alloc), 4096)?;
    assert_eq!(rt; called(alloc, "", &mut src, &mut out)?, Status::Usage);
    assert_eq!(rt; out.written(), b"error usage\n".as_slice());
    assert_eq!(rt; src.faults(), 0);
    Ok(())
}

#[test]
fn one_byte_too_many(rt: HostRuntime) -> Result<(), Fail> {
    let alloc = rt.alloc();
    for (length, text, status) in [
        (
            16_777_216usize,
            b"error 40 line 1\n".as_slice(),
            Status::Malformed,
        ),
        (16_777_217, b"error too long\n".as_slice(), Status::TooLong),
    ] {
        let bytes = vec![in alloc; b'#'; length]?;
        let mut src = source(alloc, bytes.as_slice(), &[], 65_536)?;
        let mut out = MemSink::new(alloc, ROOM, Vec::new(alloc), 4096)?;
        assert_eq!(rt;
            called(alloc, "run", &mut src, &mut out)?,
            status,
            "{length}"
        );
        assert_eq!(rt; out.written(), text, "{length}");
    }
    Ok(())
}
