//! Laws of the hints of an image.
ghost use Rattle.std.specs.Prelude.{◌≡◌, ◌⊎◌, ℕ, List};
ghost use Rattle.em_base.specs.declared.apps.HintMap.{HintMap};
ghost use Rattle.em_base.specs.declared.ids.SemId.{SemId};
ghost use Rattle.em_base.specs.declared.images.Image.{Image};
ghost use Rattle.em_base.specs.declared.images.Wait.{Wait};
ghost use Rattle.em_base.specs.declared.refusals.Refusal.{Refusal};
ghost use Rattle.em_base.specs.Hints.{AreHints};
ghost use Rattle.em_base.specs.Images.{IsWhole};
ghost use Rattle.em_hint.specs.Hints.{AreHintsOf, AreImageHints, AreRight, HasEach, IsMishinted};

use em_scan::one_hint;

/// An image has one map of hints; and the hints that are written beside its `waitjob` statements are right, or are refused with
/// one refusal, and never both.
pub fn one_map()
    ensures some { (code : List ℕ) (sems own : ℕ) (waits : List Wait)
        → (hints : List (ℕ × SemId)) × AreHintsOf code sems own waits hints }
    ensures same { (code : List ℕ) (sems own : ℕ) (waits : List Wait) (one other : List (ℕ × SemId))
        → AreHintsOf code sems own waits one → AreHintsOf code sems own waits other → one ≡ other }
    ensures decided { (code : List ℕ) (sems own : ℕ) (waits : List Wait)
        → AreRight code sems own waits
        ⊎ ((refusal : Refusal) × IsMishinted code sems own waits refusal) }
    ensures refusal { (code : List ℕ) (sems own : ℕ) (waits : List Wait) (one other : Refusal)
        → IsMishinted code sems own waits one → IsMishinted code sems own waits other
        → one ≡ other }
    ensures either { (code : List ℕ) (sems own : ℕ) (waits : List Wait) (refusal : Refusal)
        → AreRight code sems own waits → IsMishinted code sems own waits refusal → ⊥ }
{
    one_hint();
}

/// The map of a whole image has the hint of each `waitjob` at its address, and nothing else.
pub fn sound_map()
    ensures each { (image : Image) (sems own : ℕ) (map : HintMap) → IsWhole image
        → AreImageHints image sems own map → HasEach image.words sems own image.waits map }
    ensures valid { (image : Image) (sems own : ℕ) (map : HintMap) → IsWhole image
        → AreImageHints image sems own map → AreHints sems image.waits map }
{
    one_hint();
}
