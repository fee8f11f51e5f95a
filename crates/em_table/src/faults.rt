//! Why a table is refused.
ghost use Rattle.std.specs.Prelude.{◌≡◌};
ghost use Rattle.em_base.specs.declared.refusals.Fail.TheVariants.{Refused};
ghost use Rattle.em_table.specs.Faults.{code_of, refusal_of};

use em_base::{Fail, Refusal};

/// What is wrong with a table.
#[derive(Clone, Copy, Debug, PartialEq, Eq)]
pub enum Fault {
    /// The text is no TOML.
    NoToml,
    /// A key that is required isn't there.
    Missing,
    /// A value is of another kind than its key asks.
    WrongKind,
    /// A value is out of its key's range.
    OutOfRange,
    /// A key is none that its group has, or a name is that of no task.
    Unknown,
    /// A name, an interrupt line, a semaphore or a reader stands twice.
    Twice,
    /// A background task writes or reads a message.
    Background,
    /// The periods cause more releases than there may be.
    TooManyReleases,
}

impl Fault {
    /// The refusal of a line with this fault, by the line's number in the whole input. Its code is the one of the table of
    /// codes in docs/FORMATS.md.
    pub fn at(self, line: u32) -> Refusal
        ensures { result ≡ record { code = code_of self; line = line } }
    {
        let code = match self {
            Fault::NoToml => 20,
            Fault::Missing => 21,
            Fault::WrongKind => 22,
            Fault::OutOfRange => 23,
            Fault::Unknown => 24,
            Fault::Twice => 25,
            Fault::Background => 26,
            Fault::TooManyReleases => 27,
        };
        Refusal { code, line }
    }
}

/// Every fault of a table is refused at line 1.
impl From<Fault> for Fail {
    ghost from_gives = { λ fault fail. fail ≡ Refused (refusal_of fault) };

    fn from(fault: Fault) -> Fail {
        Fail::Refused(fault.at(1))
    }
}
