//! The cases of a file, run one after the other.
ghost use Rattle.std.specs.Prelude.{◌≡◌, ◌≤◌, ◌<◌, ◌+◌, ◌^◌, ◌↔◌, IsTrue};

use crate::faults::{Fault, Wrong};
use crate::outcomes::{difference, is_same, outcome_of};
use crate::reading::{Case, Keys, read_case};
use std::alloc::Global;
use std::collections::BTreeSet;
use std::rt::Files;
use std::{fmt, fs, io};
use toml::{Table, Value};

/// How many cases were compared, and how many of them differ.
#[derive(Clone, Copy, Debug, PartialEq, Eq)]
pub struct Tally {
    compared: u64,
    differing: u64,
}

impl Tally {
    /// No cases so far.
    pub fn new() -> Tally {
        Tally {
            compared: 0,
            differing: 0,
        }
    }

    /// Counts a case. The counts stand still at 2^64 - 1, so that a case that differs is never lost.
    fn count(&mut self, differs: bool)
        ensures compared { self.old.compared + 1 < 2 ^ 64
            → self.new.compared ≡ self.old.compared + 1 }
        ensures differing { IsTrue differs → 0 < self.new.differing }
        ensures grows { self.old.differing ≤ self.new.differing }
    {
        self.compared = self.compared.saturating_add(1);
        if differs {
            self.differing = self.differing.saturating_add(1);
        }
    }

    /// Whether a case differs.
    pub fn has_differing(&self) -> bool
        ensures { IsTrue result ↔ (0 < self.now.differing) }
    {
        self.differing != 0
    }
}

impl fmt::Display for Tally {
    fn fmt<W: fmt::Write>(&self, f: &mut fmt::Formatter<W>) -> fmt::Result {
        write!(f, "{} cases, {} differ", self.compared, self.differing)
    }
}

/// A file of cases: its keys other than `case`, which hold for each case that doesn't have them, and the cases.
#[derive(Drop)]
struct CaseFile {
    shared: Table,
    cases: Vec<Value>,
}

/// Runs the cases of a file, and prints a line for each that differs or isn't of the form. A file that isn't of the form
/// counts as a case that differs.
pub fn run_file<R: Files + Print + Alloc<A = Global>>(
    rt: &R,
    file: &str,
    tally: &mut Tally,
) -> io::Result<()> {
    match read_file(rt, file) {
        Ok(found) => run_cases(rt, file, &found, tally),
        Err(fault) => {
            tally.count(true);
            println!(rt; "{file}: {fault}")
        }
    }
}

/// Reads a file of cases.
fn read_file<R: Files + Alloc<A = Global>>(rt: &R, file: &str) -> Result<CaseFile, Fault> {
    let Ok(text) = fs::read_to_string(rt, file) else {
        return Err(Fault::NoFile);
    };
    let mut shared = toml::table_from_str(rt.alloc(), text.as_str()).map_err(|_| Fault::NoToml)?;
    match shared.remove("case") {
        Some(Value::Array(cases)) => Ok(CaseFile { shared, cases }),
        _ => Err(Fault::NoCases),
    }
}

/// Runs the cases of a file, each by the name that it has there.
fn run_cases<R: Files + Print + Alloc<A = Global>>(
    rt: &R,
    file: &str,
    found: &CaseFile,
    tally: &mut Tally,
) -> io::Result<()> {
    let mut names = BTreeSet::new(rt.alloc());
    for case in found.cases.as_slice() {
        let keys = Keys::new(case, &found.shared, file);
        let name = keys.name();
        let result = if names.insert(name)? {
            run_case(rt, keys)
        } else {
            Err(Wrong::NoCase(Fault::Twice))
        };
        tally.count(result.is_err());
        if let Err(wrong) = result {
            println!(rt; "{file}: {name}: {wrong}")?;
        }
    }
    Ok(())
}

/// Runs the case of the keys.
fn run_case<R: Files + Alloc<A = Global>>(rt: &R, keys: Keys<'_>) -> Result<(), Wrong> {
    let alloc = rt.alloc();
    let Case {
        words,
        input,
        expected,
    } = read_case(rt, keys)?;
    let found = outcome_of(alloc, words, input, expected.output.len())?;
    if is_same(&found, &expected) {
        Ok(())
    } else {
        Err(Wrong::Differs(difference(alloc, &found, &expected)?))
    }
}
