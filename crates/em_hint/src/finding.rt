//! The hints of an image.
ghost use Rattle.std.specs.Prelude.{◌≡◌, ◌++◌, ℕ, false, true, Some, IfOk, IfErr, OnOk};
ghost use Rattle.em_base.specs.Hints.{AreHints};
ghost use Rattle.em_base.specs.Images.{IsWhole};
ghost use Rattle.em_hint.specs.Hints.{AreImageHints, AreRight, HasEach, IsHintFail, entry};

use crate::laws::sound_map;
use em_base::{Fail, HintMap, Image, Items, NoMemory, Refusal, SemId, Wait};
use em_scan::scan;
use std::alloc::Global;

/// The code of the refusal of a hint that is written wrong.
const WRONG_HINT: u16 = 11;

/// Whether a number is written beside the `waitjob` that isn't what was found.
fn is_wrong(wait: &Wait, found: Option<SemId>) -> bool
    ensures right { result ≡ false → (written : ℕ) → wait.now.hint ≡ Some written
        → found ≡ Some (record { 0 = written }) }
    ensures wrong { result ≡ true → (written : ℕ) × (wait.now.hint ≡ Some written)
        × (found ≡ Some (record { 0 = written }) → ⊥) }
{
    match (wait.hint, found) {
        (Some(written), Some(s)) => written != u32::from(s.0),
        (Some(_), None) => true,
        (None, _) => false,
    }
}

/// Puts a hint at the end, where there is one.
fn add_hint(
    alloc: Global,
    hints: &mut Items<(u32, SemId)>,
    address: u32,
    found: Option<SemId>,
) -> Result<(), NoMemory>
    ensures { OnOk result (hints.new ≡ hints.old ++ entry address found) }
{
    if let Some(s) = found {
        hints.push(alloc, (address, s))?;
    }
    Ok(())
}

/// The hints of the `waitjob` statements of an image: for each after which the task takes one semaphore next, whichever way it
/// goes, that semaphore, as [`scan`] finds it. There are `sems` semaphores, and the own window has `own` bytes. Whether a hint is
/// written makes no difference to the map.
///
/// Refused with 11 at the line of the first `waitjob` beside which a number is written that isn't its hint, so also where it has
/// none. `NoMemory` where memory runs out.
pub fn hints(alloc: Global, image: &Image, sems: u8, own: u32) -> Result<HintMap, Fail>
    requires { IsWhole image.now }
    ensures hints { IfOk result (AreImageHints image.now sems own) }
    ensures right { OnOk result (AreRight image.now.words sems own image.now.waits) }
    ensures refused { IfErr result (IsHintFail image.now sems own) }

    // What that says of the map: the hint of each `waitjob` stands in it at its address, and nothing else does.
    ensures each { IfOk result (HasEach image.now.words sems own image.now.waits) }
    ensures valid { IfOk result (AreHints sems image.now.waits) }
{
    sound_map();
    let mut found = Items::new(alloc);
    for wait in image.waits.as_slice() {
        let hint = scan(
            image.words.as_slice(),
            wait.address.wrapping_add(4),
            sems,
            own,
        );
        if is_wrong(wait, hint) {
            return Err(Fail::Refused(Refusal {
                code: WRONG_HINT,
                line: wait.line,
            }));
        }
        add_hint(alloc, &mut found, wait.address, hint)?;
    }
    Ok(HintMap { hints: found })
}
