//! How much of memory a load or a store touches.
ghost use Rattle.std.specs.Prelude.{◌≡◌, ◌*◌, ◌%◌, ◌^◌, ◌<◌, ◌==◌};
ghost use Rattle.em_hart.specs.Fields as spec;
ghost use Rattle.em_hart.specs.Widths.{bytes_in};

/// How much of memory an access touches.
#[derive(Clone, Copy, Debug, PartialEq, Eq)]
pub(crate) enum Width {
    /// One byte.
    Byte,
    /// Two bytes.
    Half,
    /// Four bytes.
    Word,
}

impl Width {
    /// How many bytes it is: 1, 2 or 4.
    pub(crate) fn bytes(self) -> u32
        ensures { result ≡ bytes_in self }
    {
        match self {
            Width::Byte => 1,
            Width::Half => 2,
            Width::Word => 4,
        }
    }

    /// Whether an address is a multiple of the width.
    pub(crate) fn is_aligned(self, address: u32) -> bool
        ensures { result ≡ (address % bytes_in self == 0) }
    {
        match self {
            Width::Byte => true,
            Width::Half => address % 2 == 0,
            Width::Word => address % 4 == 0,
        }
    }

    /// A number of this width with its sign bit copied into all bits above it.
    pub(crate) fn sign_extended(self, number: u32) -> u32
        requires { number < 2 ^ (8 * bytes_in self) }
        ensures { result ≡ spec.sign_extended (8 * bytes_in self) number }
    {
        match self {
            Width::Byte if number >= 0x80 => number + 0xffff_ff00,
            Width::Half if number >= 0x8000 => number + 0xffff_0000,
            _ => number,
        }
    }
}
