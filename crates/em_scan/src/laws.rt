//! Laws of hints.
ghost use Rattle.std.specs.Prelude.{◌≡◌, ◌⊎◌, ◌<◌, ◌≤◌, ◌^◌, ℕ, All, List, length};
ghost use Rattle.em_base.specs.declared.ids.SemId.{SemId};
ghost use Rattle.em_hart.specs.Hart.{Memory, Registers, own_base};
ghost use Rattle.em_scan.specs.Followed.{IsAtAcquire, RunsTo};
ghost use Rattle.em_scan.specs.Hint.{IsHint, most_members};

/// A call has one hint or none: two hints of it are one, and there is a hint or there is none. A hint is one of the semaphores that
/// there are.
pub fn one_hint()
    ensures same { (code : List ℕ) (after sems own : ℕ) (one other : SemId)
        → IsHint code after sems own one → IsHint code after sems own other → one ≡ other }
    ensures decided { (code : List ℕ) (after sems own : ℕ)
        → ((s : SemId) × IsHint code after sems own s)
        ⊎ ((s : SemId) → IsHint code after sems own s → ⊥) }
    ensures below { (code : List ℕ) (after sems own : ℕ) (s : SemId)
        → IsHint code after sems own s → s.0 < sems }
{}

/// What a hint is to the machine. A task whose program counter is at the address `after` comes to the acquire of its hint, whatever
/// its registers and its windows hold: by at most 32 instructions, each of which is carried out and changes its registers alone.
pub fn followed_hint()
    ensures { (code : List ℕ) (after sems own : ℕ) (s : SemId)
        → IsHint code after sems own s → All (λ word. word < 2 ^ 32) code
        → (registers : Registers) (memory shared : Memory)
        → registers.pc ≡ after → length registers.values ≡ 32
        → memory.base ≡ own_base → length memory.bytes ≡ own
        → (n : ℕ) × (last : Registers) × (n ≤ most_members)
        × RunsTo n code memory shared registers last
        × IsAtAcquire code memory shared s last }
{}
