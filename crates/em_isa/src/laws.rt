//! The law of words: a word is that of one instruction at most.
ghost use Rattle.std.specs.Prelude.{◌≡◌, ◌⊎◌, ℕ};
ghost use Rattle.em_isa.specs.declared.instructions.Instr.{Instr};
ghost use Rattle.em_isa.specs.Encoding.{Fits, word_of};

/// A word is that of one instruction, or of none: two whose fields fit have two words, and for each word there is an
/// instruction whose word it is, or there is none.
pub fn one_instruction()
    ensures same { (one other : Instr) → Fits one → Fits other → word_of one ≡ word_of other
        → one ≡ other }
    ensures decided { (word : ℕ) → ((i : Instr) × Fits i × (word_of i ≡ word))
        ⊎ ((i : Instr) → Fits i → word_of i ≡ word → ⊥) }
{}
