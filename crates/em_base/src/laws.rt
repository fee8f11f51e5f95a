//! Laws of texts that each reader of numbers keeps.
ghost use Rattle.std.specs.Prelude.{◌≡◌, ◌↔◌, ℕ, ℤ, List, Some};
ghost use Rattle.em_base.specs.Number.{IsNumber, written_number};

/// The number that a text writes is the one that the function of the text finds, and there is none exactly where none is
/// found.
pub fn written_numbers()
    ensures { (text : List ℕ) (z : ℤ) → IsNumber text z ↔ (written_number text ≡ Some z) }
{}
