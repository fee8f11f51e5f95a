//! Sets of numbers below 32, as the bits of a number.
ghost use Rattle.std.specs.Prelude.{◌≡◌, ℕ, ◌<◌, ◌||◌, ◌==◌, ◌^◌};
ghost use Rattle.em_gate.specs.Calls as spec;

/// Whether bit `i` is set; `i` is below 32.
pub(crate) fn has_bit(bits: u32, i: u8) -> bool
    requires { i < 32 }
    ensures { result ≡ spec.has_bit bits i }
{
    bits >> i & 1 == 1
}

/// The bits with bit `i` set, and all others as they are; `i` is below 32.
pub fn with_bit(bits: u32, i: u8) -> u32
    requires { i < 32 }
    ensures bits { (j : ℕ) → spec.has_bit result j ≡ ((j == i) || spec.has_bit bits j) }
    ensures within { (k : ℕ) → i < k → bits < 2 ^ k → result < 2 ^ k }
{
    bits | 1 << i
}
