//! How a call of the program ends.
ghost use Rattle.std.specs.Prelude.{◌≡◌};
ghost use Rattle.em_run.specs.Statuses.{exit_number};

/// What is written where memory could not be had.
pub const OUT_OF_MEMORY: &str = "error memory\n";

/// How a call of the program ends. Each but [`Status::WriteFault`] has its text, which was then written whole.
#[derive(Clone, Copy, Debug, PartialEq, Eq)]
pub enum Status {
    /// The command was carried out and its output written.
    Done,
    /// The words are no command.
    Usage,
    /// The source failed.
    ReadFault,
    /// The sink failed; the first part of the text that was due may have been written.
    WriteFault,
    /// The input is longer than the limit.
    TooLong,
    /// The input is refused, at a line that the text names.
    Malformed,
    /// The command was carried out and its output written; the run ended where a reader was overtaken.
    Lapped,
    /// The schedule asked for a step where no task was selected; the line that says so was written.
    Misfit,
    /// Memory could not be had.
    NoMemory,
}

impl Status {
    /// The number with which the program ends.
    pub fn number(self) -> u8
        ensures { result ≡ exit_number self }
    {
        match self {
            Status::Done => 0,
            Status::Usage => 1,
            Status::ReadFault => 2,
            Status::WriteFault => 3,
            Status::TooLong => 4,
            Status::Malformed => 5,
            Status::Lapped => 7,
            Status::Misfit => 8,
            Status::NoMemory => 9,
        }
    }
}
