//! Laws of the images of lines.
ghost use Rattle.std.specs.Prelude.{◌≡◌, ◌⊎◌, ◌<◌, ◌+◌, ◌*◌, ◌%◌, ◌^◌, ℕ, List};
ghost use Rattle.em_isa.specs.Encoding.{twos_complement};
ghost use Rattle.em_base.specs.declared.images.Image.{Image};
ghost use Rattle.em_base.specs.declared.refusals.Refusal.{Refusal};
ghost use Rattle.em_asm_read.specs.declared.items.Line.{Line};
ghost use Rattle.em_asm.specs.Code.{high_part, low_part};
ghost use Rattle.em_asm.specs.Image.{IsImageOf, IsAssemblyRefused};

/// What `li` comes to loads the value: its upper part shifted left by 12, and its low part added, modulo 2^32.
pub fn loads_value()
    ensures { (value : ℕ) → value < 2 ^ 32
        → (high_part value * 2 ^ 12 + twos_complement 32 (low_part value)) % 2 ^ 32 ≡ value }
{}

/// Lines have one image or are refused with one refusal, and never both, however they are numbered.
pub fn one_image()
    ensures some { (number : ℕ → ℕ) (lines : List Line)
        → ((image : Image) × IsImageOf number lines image)
        ⊎ ((refusal : Refusal) × IsAssemblyRefused number lines refusal) }
    ensures image { (number : ℕ → ℕ) (lines : List Line) (one other : Image)
        → IsImageOf number lines one → IsImageOf number lines other → one ≡ other }
    ensures refusal { (number : ℕ → ℕ) (lines : List Line) (one other : Refusal)
        → IsAssemblyRefused number lines one → IsAssemblyRefused number lines other → one ≡ other }
    ensures either { (number : ℕ → ℕ) (lines : List Line) (image : Image) (refusal : Refusal)
        → IsImageOf number lines image → IsAssemblyRefused number lines refusal → ⊥ }
{}
