//! Laws of the assembly language, which each line keeps.
ghost use Rattle.std.specs.Prelude.{◌≡◌, ◌⊎◌, ℕ, List};
ghost use Rattle.em_asm_read.specs.declared.items.Line.{Line};
ghost use Rattle.em_asm_read.specs.Lines.{IsFaulty, IsLine};

/// Each text is a line that says one thing, or is a line with one first fault, and never both.
pub fn one_meaning()
    ensures some { (text : List ℕ)
        → ((line : Line) × IsLine text line) ⊎ ((code : ℕ) × IsFaulty text code) }
    ensures line { (text : List ℕ) (one other : Line)
        → IsLine text one → IsLine text other → one ≡ other }
    ensures fault { (text : List ℕ) (one other : ℕ)
        → IsFaulty text one → IsFaulty text other → one ≡ other }
    ensures either { (text : List ℕ) (line : Line) (code : ℕ)
        → IsLine text line → IsFaulty text code → ⊥ }
{}
