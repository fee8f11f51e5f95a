//! What may be wrong with a bundle beside its parts.
ghost use Rattle.std.specs.Prelude.{◌≡◌};
ghost use Rattle.em_bundle.specs.Faults.{refusal_at};

use em_base::Refusal;

/// What is wrong with a bundle beside its table, its lines of code and its script.
#[derive(Clone, Copy, Debug, PartialEq, Eq)]
pub enum Fault {
    /// The buffer of a message would have to keep more than 64 values.
    TooDeep,
    /// A part is missing, or the first line is no header line.
    MissingPart,
    /// A header line isn't the next one that is due.
    MisplacedHeader,
    /// The entry of a task is no label of the code.
    MissingEntry,
    /// The bytes are no UTF-8.
    NotUtf8,
}

impl Fault {
    /// The refusal that names the fault at a line, counted from 1 over the whole input. Its code is the one of the table of
    /// codes in docs/FORMATS.md.
    pub fn at(self, line: u32) -> Refusal
        ensures { result ≡ refusal_at self line }
    {
        let code = match self {
            Fault::TooDeep => 28,
            Fault::MissingPart => 40,
            Fault::MisplacedHeader => 41,
            Fault::MissingEntry => 42,
            Fault::NotUtf8 => 43,
        };
        Refusal { code, line }
    }
}
