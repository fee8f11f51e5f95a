//! Why a script is refused.
ghost use Rattle.std.specs.Prelude.{◌≡◌};
ghost use Rattle.em_script.specs.Script.{code_of};

use em_base::Refusal;

/// What is wrong with a line of a script.
#[derive(Clone, Copy, Debug, PartialEq, Eq)]
pub enum Fault {
    /// It is no line of a script.
    Form,
    /// Its time is below that of the event before it.
    TimeFalls,
    /// No task has its interrupt line.
    NoTask,
    /// It is one event more than there may be.
    TooMany,
}

impl Fault {
    /// The refusal of a line with this fault, by the line's number in the whole input. Its code is the one of the table of
    /// codes in docs/FORMATS.md.
    pub fn at(self, line: u32) -> Refusal
        ensures { result ≡ record { code = code_of self; line = line } }
    {
        let code = match self {
            Fault::Form => 30,
            Fault::TimeFalls => 31,
            Fault::NoTask => 32,
            Fault::TooMany => 33,
        };
        Refusal { code, line }
    }
}
