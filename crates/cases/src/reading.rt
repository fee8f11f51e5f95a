//! One case, read from its keys.

use crate::bytes::bytes_of;
use crate::faults::Fault;
use crate::outcomes::Outcome;
use std::alloc::Global;
use std::fs;
use std::path::Path;
use std::rt::Files;
use toml::{Table, Value};

/// The keys of a case. All but the first may be given by its file, for the cases that don't have them.
const KEYS: [&str; 10] = [
    "shows", "words", "input", "base", "put", "after", "status", "output", "same_as", "ports",
];

/// A case: what a call of the program is given, and what it must come to.
#[derive(Drop)]
pub struct Case<'a> {
    /// The words, between spaces.
    pub words: &'a str,
    /// The bytes that are read.
    pub input: Vec<u8>,
    /// What the call must come to.
    pub expected: Outcome,
}

/// A case as it stands in its file, the keys that its file gives to all of its cases, and the file's name.
#[derive(Clone, Copy, Debug)]
pub struct Keys<'a> {
    case: &'a Value,
    shared: &'a Table,
    file: &'a str,
}

impl<'a> Keys<'a> {
    /// The keys of a case in a file.
    pub fn new(case: &'a Value, shared: &'a Table, file: &'a str) -> Keys<'a> {
        Keys { case, shared, file }
    }

    /// The name of the case, which is what it shows; empty where it has none.
    pub fn name(self) -> &'a str {
        self.case.get("shows").and_then(Value::as_str).unwrap_or("")
    }

    /// The value at a key of the case, or else of its file.
    fn value(self, key: &str) -> Option<&'a Value> {
        match self.case.get(key) {
            Some(value) => Some(value),
            None => self.shared.get(key),
        }
    }

    /// The text at a key, where there is one.
    fn text(self, key: &'static str) -> Result<Option<&'a str>, Fault> {
        match self.value(key) {
            Some(Value::String(text)) => Ok(Some(text.as_str())),
            Some(_) => Err(Fault::WrongValue(key)),
            None => Ok(None),
        }
    }

    /// The status that is expected.
    fn status(self) -> Result<u8, Fault> {
        let Some(value) = self.value("status") else {
            return Err(Fault::Missing("status"));
        };
        match value.as_integer() {
            Some(number) => u8::try_from(number).map_err(|_| Fault::WrongValue("status")),
            None => Err(Fault::WrongValue("status")),
        }
    }

    /// The bytes of a file that stands beside the file of the case and that a key names.
    fn bytes_beside<R: Files + Alloc<A = Global>>(
        self,
        rt: &R,
        key: &'static str,
        name: &str,
    ) -> Result<Vec<u8>, Fault> {
        let path = Path::new(self.file).with_file_name(rt.alloc(), name)?;
        fs::read(rt, path).map_err(|_| Fault::Unreadable(key))
    }

    /// Refuses a case that is no table, has no name of its own, or has a key that is none of a case.
    fn check(self) -> Result<(), Fault> {
        let Some(own) = self.case.as_table() else {
            return Err(Fault::NoTable);
        };
        if self.name().is_empty() || self.shared.contains_key("shows") {
            return Err(Fault::WrongValue("shows"));
        }
        if has_only_known(own) && has_only_known(self.shared) {
            Ok(())
        } else {
            Err(Fault::Unknown)
        }
    }
}

/// Whether each key is one of a case.
fn has_only_known(table: &Table) -> bool {
    table.keys().all(|key| is_known(key.as_str()))
}

/// Whether a key is one of a case.
fn is_known(key: &str) -> bool {
    KEYS.iter().any(|known| key == *known)
}

/// The case of the keys. Files that it names are read.
pub fn read_case<'a, R: Files + Alloc<A = Global>>(
    rt: &R,
    keys: Keys<'a>,
) -> Result<Case<'a>, Fault> {
    keys.check()?;
    Ok(Case {
        words: keys.text("words")?.unwrap_or("run"),
        input: input(rt, keys)?,
        expected: Outcome {
            status: keys.status()?,
            output: output(rt, keys)?,
            ports: match keys.text("ports")? {
                Some(text) => Vec::from_slice(rt.alloc(), text.as_bytes())?,
                None => Vec::new(rt.alloc()),
            },
        },
    })
}

/// The bytes that are read: those of `input`, or of the file `base` with the lines of `put`, and those of `after`.
fn input<R: Files + Alloc<A = Global>>(rt: &R, keys: Keys<'_>) -> Result<Vec<u8>, Fault> {
    let alloc = rt.alloc();
    let mut bytes = match (keys.value("input"), keys.text("base")?) {
        (Some(value), None) => bytes_of(alloc, "input", value)?,
        (None, Some(name)) => {
            let bytes = keys.bytes_beside(rt, "base", name)?;
            let Ok(text) = str::from_utf8(bytes.as_slice()) else {
                return Err(Fault::Unreadable("base"));
            };
            put_lines(alloc, text, keys.value("put"))?
        }
        (Some(_), Some(_)) => return Err(Fault::Both("input", "base")),
        (None, None) => return Err(Fault::Missing("input")),
    };
    if let Some(value) = keys.value("after") {
        bytes.extend_from_slice(bytes_of(alloc, "after", value)?.as_slice())?;
    }
    Ok(bytes)
}

/// The text, with other lines in the place of those whose numbers are keys of `put`.
fn put_lines(alloc: Global, text: &str, put: Option<&Value>) -> Result<Vec<u8>, Fault> {
    let none = Table::new(alloc);
    let lines = match put {
        Some(Value::Table(lines)) => lines,
        Some(_) => return Err(Fault::WrongValue("put")),
        None => &none,
    };
    let mut bytes = Vec::new(alloc);
    let mut used = 0usize;
    for (number, line) in (1..usize::MAX).zip(text.lines()) {
        let key = format!(in alloc; "{number}")?;
        match lines.get(key.as_str()) {
            Some(value) => {
                bytes.extend_from_slice(whole_lines(alloc, value)?.as_slice())?;
                used = used.saturating_add(1);
            }
            None => {
                bytes.extend_from_slice(line.as_bytes())?;
                bytes.push(b'\n')?;
            }
        }
    }
    if used == lines.len() {
        Ok(bytes)
    } else {
        Err(Fault::WrongValue("put"))
    }
}

/// What is put in the place of a line: it ends with a line end, which is added where it has none.
fn whole_lines(alloc: Global, value: &Value) -> Result<Vec<u8>, Fault> {
    let mut bytes = bytes_of(alloc, "put", value)?;
    if bytes.last() != Some(&b'\n') {
        bytes.push(b'\n')?;
    }
    Ok(bytes)
}

/// The bytes that must be written: those of `output`, or of the file `same_as`.
fn output<R: Files + Alloc<A = Global>>(rt: &R, keys: Keys<'_>) -> Result<Vec<u8>, Fault> {
    match (keys.value("output"), keys.text("same_as")?) {
        (Some(value), None) => bytes_of(rt.alloc(), "output", value),
        (None, Some(name)) => keys.bytes_beside(rt, "same_as", name),
        (Some(_), Some(_)) => Err(Fault::Both("output", "same_as")),
        (None, None) => Err(Fault::Missing("output")),
    }
}
