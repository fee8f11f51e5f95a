//! Runs cases: calls of the program with what they must write, which stand in TOML files. Its words are the names of the files.
//! It writes a line for each case that differs, which says how, and last how many cases were compared and how many of them
//! differ; its status is 1 where one does. A file or a case that can't be read counts as one that differs.
//!
//! The files of cases stand in `data/`, beside the bundles and outputs that they name: `rt run -- data/*.toml` runs them all.
//! In the gate the program runs in that folder, and `args` has their names. Its `stdout` has the number of all cases, so that
//! none is lost silently: it changes with each case that is added.
//!
//! A file has an array of tables `[[case]]`, with these keys. A key but `shows` may also stand at the head of the file; it then
//! holds for each case that doesn't have it.
//!
//! | Key | Meaning | Left out |
//! |---|---|---|
//! | `shows` | what the case shows, its name in this file | refused |
//! | `words` | the words after the program's name, between spaces | `run` |
//! | `input` | the bytes that are read | there is `base` |
//! | `base` | the name of a file that has the bytes that are read | there is `input` |
//! | `put.N` | what stands in the place of line N of `base`, with a line end after it if it has none | the line stays |
//! | `after` | bytes behind the input | none |
//! | `status` | the number of the status | refused |
//! | `output` | the bytes that must be written | there is `same_as` |
//! | `same_as` | the name of a file that has them | there is `output` |
//! | `ports` | what the eight ports show afterwards, between spaces: each a number, or `none` where it is unplugged | not compared |
//!
//! Each call is given eight ports of its own, all showing 0: 0 to 3 latch, 4 and 5 count, 6 and 7 sum.
//!
//! Bytes are a piece or an array of pieces. A piece is a text, the number of a byte, or `{ text = "..", times = N }` for a text
//! that stands several times.
#![tactic(auto)]

mod bytes;
mod faults;
mod outcomes;
mod reading;
mod running;

use running::{Tally, run_file};
use std::process::ExitCode;

fn main(rt: HostRuntime) -> anyhow::Result<ExitCode> {
    let mut tally = Tally::new();
    for file in std::env::args(&rt)?.skip(1) {
        run_file(&rt, file.as_str(), &mut tally)?;
    }
    println!(rt; "{tally}")?;
    Ok(ExitCode::from(u8::from(tally.has_differing())))
}
