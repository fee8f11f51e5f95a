//! What may be wrong with a line of a schedule.
ghost use Rattle.std.specs.Prelude.{◌≡◌};
ghost use Rattle.em_trace.specs.ScheduleFaults.{refusal_at};

use em_base::Refusal;

/// What is wrong with a line of a schedule.
#[derive(Clone, Copy, Debug, PartialEq, Eq)]
pub enum Fault {
    /// It is no line that may stand there, or the last line is missing.
    Form,
    /// Its count is below that of the line before it.
    CountFalls,
    /// Its task or its port isn't there.
    NotThere,
}

impl Fault {
    /// The refusal of a line with this fault, by the line's number in the whole input.
    pub fn at(self, line: u32) -> Refusal
        ensures { result ≡ refusal_at line self }
    {
        let code = match self {
            Fault::Form => 50,
            Fault::CountFalls => 51,
            Fault::NotThere => 52,
        };
        Refusal { code, line }
    }
}
