//! What takes bytes, and writing all of some bytes.
ghost use Rattle.std.specs.Prelude.{◌≡◌, ℕ, ◌<◌, ◌≤◌, List, length, take, Option, IfOk, OnOk, OnErr};
ghost use Rattle.em_io.specs.Bytes.{Rose, and_then};

use crate::sources::Failed;

/// What takes bytes and keeps their order.
pub trait Sink {
    /// The bytes that were written, or none where the sink does not tell them.
    ghost written: { Self → Option (List ℕ) };

    /// How many writes failed. The count never falls, and stands still at 2^64 - 1.
    ghost faults: { Self → ℕ };

    /// Appends the first of the bytes and answers how many it took: at least one, where there is one. `Failed` appends
    /// nothing and raises the count of faults.
    fn write(&mut self, bytes: &[u8]) -> Result<usize, Failed>
        ensures count { IfOk result (λ k. k ≤ length bytes.now) }
        ensures some { IfOk result (λ k. 0 < length bytes.now → 0 < k) }
        ensures takes { IfOk result (λ k. written self.new
            ≡ and_then (written self.old) (take k bytes.now)) }

        // A write that fails appends nothing, and is counted.
        ensures unwritten { OnErr result (written self.new ≡ written self.old) }
        ensures cause { OnErr result (Rose (faults self.old) (faults self.new)) }
        ensures grows { faults self.old ≤ faults self.new };
}

/// Writes all of the bytes. Each write is offered all that is left of them.
///
/// `Failed` comes only where a write failed and was counted, and then the first of the bytes, as many as were taken
/// before it, were appended.
pub fn write_all<K: Sink>(out: &mut K, bytes: &[u8]) -> Result<(), Failed>
    ensures all { OnOk result (K.written out.new ≡ and_then (K.written out.old) bytes.now) }
    ensures part { OnErr result ((n : ℕ) × (n ≤ length bytes.now)
        × (K.written out.new ≡ and_then (K.written out.old) (take n bytes.now))) }
    ensures cause { OnErr result (Rose (K.faults out.old) (K.faults out.new)) }
    ensures grows { K.faults out.old ≤ K.faults out.new }
{
    let mut done = 0;
    while done < bytes.len() {
        done += out.write(&bytes[done..])?;
    }
    Ok(())
}
