//! Why lines have no image.
ghost use Rattle.std.specs.Prelude.{◌≡◌};
ghost use Rattle.em_asm.specs.Image.{code_of};

use em_base::Refusal;

/// What is wrong with a line among others.
#[derive(Clone, Copy, Debug, PartialEq, Eq)]
pub enum Fault {
    /// Its label stands in an earlier line too.
    LabelTwice,
    /// The label that it names is in no line.
    LabelMissing,
    /// The label that it names is out of its instruction's reach.
    TargetTooFar,
    /// It passes the greatest number of code words.
    TooMuchCode,
    /// It passes the greatest number of shared words.
    TooMuchShared,
}

impl Fault {
    /// The refusal of a line with this fault, by the line's number in the whole input. Its code is the one of the table of
    /// codes in docs/FORMATS.md.
    pub fn at(self, line: u32) -> Refusal
        ensures { result ≡ record { code = code_of self; line = line } }
    {
        let code = match self {
            Fault::LabelTwice => 6,
            Fault::LabelMissing => 7,
            Fault::TargetTooFar => 8,
            Fault::TooMuchCode => 9,
            Fault::TooMuchShared => 10,
        };
        Refusal { code, line }
    }
}
