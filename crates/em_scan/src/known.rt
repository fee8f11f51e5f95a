//! What is known of the registers along a walk.
ghost use Rattle.std.specs.Prelude.{◌≡◌, ◌<◌, is_some};
ghost use Rattle.em_scan.specs.Known as spec;
ghost use Rattle.em_scan.specs.Private.{value_known};

/// What is known of the registers x0 to x31: the value of each where it is known. x0 is known to be 0 whatever stands there.
#[derive(Clone, Copy)]
pub(crate) struct Known {
    pub(crate) values: [Option<u32>; 32],
}

impl Known {
    /// No register is known but x0.
    pub(crate) fn nothing() -> Known
        ensures { result.values ≡ spec.nothing_known }
    {
        Known { values: [None; 32] }
    }

    /// What register `r` holds, where that is known; `r` is below 32.
    pub(crate) fn of(&self, r: u8) -> Option<u32>
        requires { r < 32 }
        ensures { result ≡ spec.known_of self.now.values r }
    {
        if r == 0 {
            Some(0)
        } else {
            self.values[usize::from(r)]
        }
    }

    /// Whether it is known what register `r` holds; `r` is below 32.
    pub(crate) fn has(&self, r: u8) -> bool
        requires { r < 32 }
        ensures { result ≡ is_some (spec.known_of self.now.values r) }
    {
        self.of(r).is_some()
    }

    /// What register `r` holds, and 0 where that isn't known; `r` is below 32.
    pub(crate) fn value(&self, r: u8) -> u32
        requires { r < 32 }
        ensures { result ≡ value_known self.now.values r }
    {
        self.of(r).unwrap_or(0)
    }

    /// The same after register `r` was written, which is below 32, with a value that is known or isn't.
    pub(crate) fn with(self, r: u8, value: Option<u32>) -> Known
        requires { r < 32 }
        ensures { result.values ≡ spec.with_known self.values r value }
    {
        if r == 0 {
            return self;
        }
        let mut values = self.values;
        values[usize::from(r)] = value;
        Known { values }
    }
}
