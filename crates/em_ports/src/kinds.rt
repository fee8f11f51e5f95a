//! The kinds of port.

/// What a port makes of the words that are put to it.
#[derive(Clone, Copy, Debug, PartialEq, Eq)]
pub enum PortKind {
    /// It counts the words, modulo 2^32.
    Count,
    /// It shows the last word.
    Latch,
    /// It shows their sum, modulo 2^32.
    Sum,
}
