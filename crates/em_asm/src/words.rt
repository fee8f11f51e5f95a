//! The code words of one line.

/// The code words of one line: two at most.
#[derive(Clone, Copy, Debug, PartialEq, Eq)]
pub enum Words {
    None,
    One(u32),
    Two(u32, u32),
}
