//! The scan.
ghost use Rattle.std.specs.Prelude.{◌≡◌, ◌≤◌, ◌↔◌, length, Some};
ghost use Rattle.em_base.specs.declared.ids.SemId.{SemId as SemIdValue};
ghost use Rattle.em_scan.specs.Computed.{agreed, hint_from};
ghost use Rattle.em_scan.specs.Hint.{IsHint};
ghost use Rattle.em_scan.specs.Private.{learned, next};

use crate::instructions::{Bounds, is_inside_code, learned_of, next_of};
use crate::known::Known;
use crate::next::Next;
use em_base::SemId;
use em_isa::decode;

/// The most instructions of a walk before its acquire.
const MOST_MEMBERS: u32 = 32;

/// The most branches among them.
const MOST_BRANCHES: u32 = 6;

/// What comes after the address `x`, and what is known then.
fn look(code: &[u32], bounds: Bounds, x: u32, known: &Known) -> (Next, Known)
    requires { length code.now ≤ 16384 }
    ensures next { result.0 ≡ next code.now bounds.sems bounds.own x known.now.values }
    ensures known { result.1.values ≡ learned code.now x known.now.values }
{
    if !is_inside_code(code, x) {
        return (Next::Stops, *known);
    }
    match decode(code[(x / 4) as usize]) {
        Some(i) => (
            next_of(code, bounds, known, x, &i),
            learned_of(known, x, &i),
        ),
        None => (Next::Stops, *known),
    }
}

/// What both say.
fn agreed_on(a: Option<SemId>, b: Option<SemId>) -> Option<SemId>
    ensures { result ≡ agreed a b }
{
    match (a, b) {
        (Some(a), Some(b)) => if a.0 == b.0 { Some(a) } else { None },
        _ => None,
    }
}

/// What all ways from `x` say, with so many members and branches left.
fn follow(
    code: &[u32],
    bounds: Bounds,
    left: u32,
    most: u32,
    x: u32,
    known: &Known,
) -> Option<SemId>
    requires { length code.now ≤ 16384 }
    ensures { let comes = next code.now bounds.sems bounds.own in
        result ≡ hint_from comes (learned code.now) left most x known.now.values }
{
    let (next, after) = look(code, bounds, x, known);
    match next {
        Next::Takes(s) => Some(s),
        Next::Stops => None,
        Next::Goes(y) => if left == 0 {
            None
        } else {
            follow(code, bounds, left - 1, most, y, &after)
        },
        Next::Forks(y, z) => if left == 0 || most == 0 {
            None
        } else {
            agreed_on(
                follow(code, bounds, left - 1, most - 1, y, &after),
                follow(code, bounds, left - 1, most - 1, z, &after),
            )
        },
    }
}

/// The hint of the `ecall` before the address `after`: the semaphore that a task takes next from there, whichever way it goes,
/// where it takes each way alone. There are `sems` semaphores, and the own window has `own` bytes.
///
/// A way goes on while its instructions are private: they compute from registers, load a word that is known to stand in the own
/// window, are a `fence`, or jump or branch forward inside the code. The hint is `s` exactly where every way, through either side
/// of each branch, comes to an `ecall` with a7 known to be 2 and a0 known to be `s`, after at most 32 instructions of which at
/// most 6 are branches. A register is known where what it is computed from is known; at first x0 alone is. This rule is this
/// project's own.
pub fn scan(code: &[u32], after: u32, sems: u8, own: u32) -> Option<SemId>
    requires { length code.now ≤ 16384 }
    ensures { (s : SemIdValue) → (result ≡ Some s) ↔ IsHint code.now after sems own s }
{
    let bounds = Bounds { sems, own };
    follow(
        code,
        bounds,
        MOST_MEMBERS,
        MOST_BRANCHES,
        after,
        &Known::nothing(),
    )
}
