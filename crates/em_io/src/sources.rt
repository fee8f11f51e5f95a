//! What gives bytes, and reading all of them up to the limit of an input.
ghost use Rattle.std.specs.Prelude.{◌≡◌, ◌≢◌, ℕ, ◌+◌, ◌<◌, ◌≤◌, List, length, take, Option, IfOk, OnOk, OnErr};
ghost use Rattle.em_io.specs.Bytes.{input_limit, Rose, then_left, IsAtEnd, Took};
ghost use Rattle.em_io.specs.declared.sources.ReadError.TheVariants.{NoMemory, ReadFault};

use std::alloc::{AllocError, Global};
use thiserror::Error;

/// The longest input, in bytes: 16 MiB.
pub const INPUT_LIMIT: usize = 16_777_216;

/// The most bytes that one read is asked for: 64 KiB.
const PIECE: usize = 65_536;

/// A read or a write failed, and the count of faults of its source or sink says so.
#[derive(Clone, Copy, Debug, PartialEq, Eq, Error)]
#[error("the transfer failed")]
pub struct Failed;

/// Why an input was not read to its end.
#[derive(Clone, Copy, Debug, PartialEq, Eq, Error)]
pub enum ReadError {
    /// A read failed.
    #[error("a read failed")]
    ReadFault,
    /// The input is longer than [`INPUT_LIMIT`].
    #[error("the input is too long")]
    TooLong,
    /// Memory ran out.
    #[error("memory ran out")]
    NoMemory,
}

impl From<Failed> for ReadError {
    ghost from_gives = { λ _ error. error ≡ ReadFault };

    fn from(_error: Failed) -> ReadError {
        ReadError::ReadFault
    }
}

impl From<AllocError> for ReadError {
    ghost from_gives = { λ _ error. error ≡ NoMemory };

    fn from(_error: AllocError) -> ReadError {
        ReadError::NoMemory
    }
}

/// What gives bytes, from its first to its end.
pub trait Source {
    /// The bytes that are left, or none where the source does not tell them.
    ghost left: { Self → Option (List ℕ) };

    /// How many reads failed. The count never falls, and stands still at 2^64 - 1.
    ghost faults: { Self → ℕ };

    /// Takes the next bytes to the front of `buf` and answers how many they are. For a `buf` that is not empty, 0 says
    /// that the source is at its end. `Failed` takes nothing and raises the count of faults.
    fn read(&mut self, buf: &mut [u8]) -> Result<usize, Failed>
        ensures count { IfOk result (λ k. k ≤ length buf.old) }
        ensures len { length buf.new ≡ length buf.old }
        ensures gives { IfOk result (λ k. left self.old
            ≡ then_left (take k buf.new) (left self.new)) }
        ensures end { IfOk result (λ k. k ≡ 0 → 0 < length buf.old → IsAtEnd (left self.new)) }

        // A read that fails takes nothing, and is counted.
        ensures unread { OnErr result (left self.new ≡ left self.old) }
        ensures cause { OnErr result (Rose (faults self.old) (faults self.new)) }
        ensures grows { faults self.old ≤ faults self.new };
}

/// Reads all that is left of a source.
///
/// `ReadFault` comes only where a read failed and was counted, `TooLong` exactly where more than [`INPUT_LIMIT`] bytes
/// were read (one more is then taken, and no further one), and `NoMemory` where the bytes could not be kept. After any
/// of them the bytes that were read are gone.
pub fn read_all<S: Source>(alloc: Global, src: &mut S) -> Result<Vec<u8>, ReadError>
    ensures all { IfOk result (λ bytes. S.left src.old ≡ then_left bytes.items (S.left src.new)) }
    ensures end { OnOk result (IsAtEnd (S.left src.new)) }
    ensures within { IfOk result (λ bytes. length bytes.items ≤ input_limit) }

    // Each other answer, by its cause.
    ensures fault { result ≡ Err ReadError.ReadFault → Rose (S.faults src.old) (S.faults src.new) }
    ensures too_long { result ≡ Err ReadError.TooLong
        → Took (λ n. n ≡ input_limit + 1) (S.left src.old) (S.left src.new) }
    ensures short { result ≢ Err ReadError.TooLong
        → Took (λ n. n ≤ input_limit) (S.left src.old) (S.left src.new) }

    ensures grows { S.faults src.old ≤ S.faults src.new }
{
    let mut bytes = Vec::new(alloc);
    let mut buf = [0u8; PIECE];
    loop {
        // One byte past the limit is asked for, so that a longer input is told from one that ends there.
        let room = INPUT_LIMIT - bytes.len();
        let asked = PIECE.min(room + 1);
        let count = src.read(&mut buf[..asked])?;
        if count == 0 {
            return Ok(bytes);
        }
        if count > room {
            return Err(ReadError::TooLong);
        }
        bytes.extend_from_slice(&buf[..count])?;
    }
}
