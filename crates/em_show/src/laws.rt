//! The laws of texts: what is written reads back, a word has one text, and code words have one listing.
ghost use Rattle.std.specs.Prelude.{◌≡◌, ◌≢◌, ◌<◌, ◌^◌, ℕ, List, slice_index};
ghost use Rattle.em_isa.specs.declared.instructions.Instr.{Instr};
ghost use Rattle.em_isa.specs.Encoding.{Fits, word_of};
ghost use Rattle.em_show.specs.Back.{ReadsBack};
ghost use Rattle.em_show.specs.Listing.{IsListing, IsTextOf};
ghost use Rattle.em_show.specs.Show.{text_of};

use em_isa::one_instruction;

/// What is written reads back: the text of an instruction is a line of one statement, whose code word is the instruction's,
/// and so is the text that a listing has for a word. No such text begins with `%`, as headers of an input do.
pub fn reads_back()
    ensures instruction { (i : Instr) → Fits i → ReadsBack (text_of i) (word_of i) }
    ensures word { (word : ℕ) (text : List ℕ) → word < 2 ^ 32 → IsTextOf word text
        → ReadsBack text word }
    ensures no_header { (word : ℕ) (text : List ℕ) → IsTextOf word text
        → slice_index text 0 ≢ 37 }
{}

/// A code word has one text.
pub fn one_text()
    ensures { (word : ℕ) (one other : List ℕ) → IsTextOf word one → IsTextOf word other
        → one ≡ other }
{
    one_instruction();
}

/// Code words have one listing: there is one, and no other.
pub fn one_listing()
    ensures some { (words : List ℕ) → (text : List ℕ) × IsListing words text }
    ensures same { (words one other : List ℕ) → IsListing words one → IsListing words other
        → one ≡ other }
{
    one_instruction();
}
