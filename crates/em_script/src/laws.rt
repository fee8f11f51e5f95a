//! Laws of scripts.
ghost use Rattle.std.specs.Prelude.{◌≡◌, ◌⊎◌, ℕ, All, List};
ghost use Rattle.em_base.specs.declared.events.Timed.{Timed};
ghost use Rattle.em_base.specs.declared.refusals.Refusal.{Refusal};
ghost use Rattle.em_base.specs.declared.tables.TaskRow.{TaskRow};
ghost use Rattle.em_script.specs.Script.{HasWords, IsScriptRefused, IsScriptOf};

/// Lines are a script of one list of events, or are refused with one refusal: one of these, and never both.
pub fn one_script()
    ensures events { (rows : List TaskRow) (lines : List (List ℕ)) (one other : List Timed)
        → IsScriptOf rows lines one → IsScriptOf rows lines other → one ≡ other }
    ensures refusal { (first : ℕ) (rows : List TaskRow) (lines : List (List ℕ))
        (one other : Refusal)
        → IsScriptRefused first rows lines one → IsScriptRefused first rows lines other → one ≡ other }
    ensures either { (first : ℕ) (rows : List TaskRow) (lines : List (List ℕ))
        (events : List Timed) (refusal : Refusal)
        → IsScriptOf rows lines events → IsScriptRefused first rows lines refusal → ⊥ }
    ensures some { (first : ℕ) (rows : List TaskRow) (lines : List (List ℕ))
        → ((events : List Timed) × IsScriptOf rows lines events)
        ⊎ ((refusal : Refusal) × IsScriptRefused first rows lines refusal) }
{}

/// The releases of a script arrive at times of 32 bits, with words of 32 bits.
pub fn in_words()
    ensures { (rows : List TaskRow) (lines : List (List ℕ)) (events : List Timed)
        → IsScriptOf rows lines events → All HasWords events }
{}
