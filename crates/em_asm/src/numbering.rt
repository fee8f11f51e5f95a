//! The numbers of lines in the whole input.
ghost use Rattle.std.specs.Prelude.{◌≡◌, ◌<◌, ◌+◌};
ghost use Rattle.em_asm.specs.Numbering.{AreNumbered, line_number_at};

/// The numbers of lines in the whole input, by the lines' places in a list.
#[derive(Clone, Copy, Debug)]
pub enum Numbers<'a> {
    /// The lines follow each other, and the first has this number.
    Consecutive(u32),
    /// The number of each line, in order.
    Each(&'a [u32]),
}

/// The number of the line at a place, counted from 0.
pub(crate) fn number_of_line(numbers: Numbers<'_>, place: usize) -> u32
    requires { AreNumbered numbers (place + 1) }
    ensures { result ≡ line_number_at numbers.entry place }
{
    match numbers {
        Numbers::Consecutive(first) => first + place as u32,
        Numbers::Each(numbers) => numbers[place],
    }
}
