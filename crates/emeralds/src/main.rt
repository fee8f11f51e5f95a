//! The program: its words, standard input, standard output and eight ports are handed to the top call, whose status it ends
//! with.
#![tactic(auto)]

ghost use Rattle.std.specs.Prelude.{◌≡◌, drop};

use em_base::NoMemory;
use em_io::{Sink, StdSink, StdSource, write_all};
use em_ports::{CountPort, LatchPort, Port, Ports, SumPort};
use em_run::{OUT_OF_MEMORY, Status, emeralds};
use std::alloc::Global;
use std::io::{self, ErrorKind};
use std::process::ExitCode;
use std::rt::Env;

fn main(rt: HostRuntime) -> ExitCode {
    let mut out = StdSink::new(io::writer(&rt));
    let status = match words(&rt) {
        Ok(words) => match called(&rt, after_name(words.as_slice()), &mut out) {
            Ok(status) => status,
            Err(NoMemory) => without_memory(&mut out),
        },
        Err(_) => without_memory(&mut out),
    };
    ExitCode::from(status.number())
}

/// The status of the top call with these words, standard input, this sink and eight ports that show 0: 0 to 3 latch, 4 and 5
/// count, 6 and 7 sum. `NoMemory` where memory for the ports could not be had.
fn called<K: Sink>(rt: &HostRuntime, words: &[String], out: &mut K) -> Result<Status, NoMemory> {
    let alloc = rt.alloc();
    let mut ports: Vec<Box<dyn Port>> = Vec::with_capacity(alloc, 8)?;
    ports.push(Box::new(alloc, LatchPort::new())?)?;
    ports.push(Box::new(alloc, LatchPort::new())?)?;
    ports.push(Box::new(alloc, LatchPort::new())?)?;
    ports.push(Box::new(alloc, LatchPort::new())?)?;
    ports.push(Box::new(alloc, CountPort::new())?)?;
    ports.push(Box::new(alloc, CountPort::new())?)?;
    ports.push(Box::new(alloc, SumPort::new())?)?;
    ports.push(Box::new(alloc, SumPort::new())?)?;
    let mut ports = Ports::new(alloc, ports)?;
    let mut src = StdSource::new(rt.reader());
    Ok(emeralds(alloc, words, &mut src, out, &mut ports))
}

/// The status where memory could not be had, once that was written.
fn without_memory<K: Sink>(out: &mut K) -> Status {
    match write_all(out, OUT_OF_MEMORY.as_bytes()) {
        Ok(()) => Status::NoMemory,
        Err(_) => Status::WriteFault,
    }
}

/// The words of the program, with its name. Words that the system can't give as text are as good as none, which the top call
/// refuses; the only error is want of memory.
fn words<R: Env + Alloc<A = Global>>(rt: &R) -> io::Result<Vec<String>> {
    match std::env::args(rt) {
        Ok(words) => Ok(words.collect(rt.alloc())?),
        Err(error) if error.kind() == ErrorKind::OutOfMemory => Err(error),
        Err(_) => Ok(Vec::new(rt.alloc())),
    }
}

/// The words after the first, which is the program's name.
fn after_name(words: &[String]) -> &[String]
    ensures { result.now ≡ drop 1 words.entry.now }
{
    words.get(1..).unwrap_or(&[])
}
