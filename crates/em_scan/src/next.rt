//! What comes after an address in a private walk.

use em_base::SemId;

/// What comes after an address in a private walk. Addresses are in bytes.
#[derive(Clone, Copy, Debug, PartialEq, Eq)]
pub enum Next {
    /// Nothing: there is the acquire of this semaphore.
    Takes(SemId),
    /// Nothing: no code is there, or an instruction that isn't private.
    Stops,
    /// This address.
    Goes(u32),
    /// These two, the sides of a branch: the address that follows, and the target.
    Forks(u32, u32),
}
