//! What a port is, and one for each kind.
ghost use Rattle.std.specs.Prelude.{◌≡◌, ℕ};
ghost use Rattle.em_ports.specs.declared.kinds.PortKind.{PortKind};
ghost use Rattle.em_ports.specs.declared.kinds.PortKind.TheVariants.{Count, Latch, Sum};
ghost use Rattle.em_ports.specs.Ports.{next_value};

use crate::kinds::PortKind;

/// A port: it is of a kind, shows a value and takes words. Whoever builds the machine makes its ports and hands them over
/// in boxes.
pub trait Port: Drop {
    /// The kind.
    ghost kind_of: { Self → PortKind };

    /// The value that it shows.
    ghost shown_value: { Self → ℕ };

    /// The kind. It stays as long as the port is there.
    fn kind(&self) -> PortKind
        ensures { result ≡ kind_of self.now };

    /// The value that it shows now.
    fn shown(&self) -> u32
        ensures { result ≡ shown_value self.now };

    /// Takes a word. The value that it then shows is that of its kind: one more, the word, or the sum with it, modulo
    /// 2^32. It can't fail.
    fn put(&mut self, w: u32)
        ensures kind { kind_of self.new ≡ kind_of self.old }
        ensures value { shown_value self.new
            ≡ next_value (kind_of self.old) (shown_value self.old) w };
}

/// A port that shows how many words were put to it, modulo 2^32.
#[derive(Drop)]
pub struct CountPort {
    count: u32,
}

impl CountPort {
    /// A port that shows 0.
    pub fn new() -> Self
        ensures kind { ⟦<CountPort as Port>⟧.kind_of result ≡ Count }
        ensures value { ⟦<CountPort as Port>⟧.shown_value result ≡ 0 }
    {
        CountPort { count: 0 }
    }
}

impl Port for CountPort {
    ghost kind_of = { λ _. Count };

    ghost shown_value = { λ port. port.count };

    fn kind(&self) -> PortKind {
        PortKind::Count
    }

    fn shown(&self) -> u32 {
        self.count
    }

    fn put(&mut self, _w: u32) {
        self.count = self.count.wrapping_add(1);
    }
}

/// A port that shows the last word that was put to it.
#[derive(Drop)]
pub struct LatchPort {
    word: u32,
}

impl LatchPort {
    /// A port that shows 0.
    pub fn new() -> Self
        ensures kind { ⟦<LatchPort as Port>⟧.kind_of result ≡ Latch }
        ensures value { ⟦<LatchPort as Port>⟧.shown_value result ≡ 0 }
    {
        LatchPort { word: 0 }
    }
}

impl Port for LatchPort {
    ghost kind_of = { λ _. Latch };

    ghost shown_value = { λ port. port.word };

    fn kind(&self) -> PortKind {
        PortKind::Latch
    }

    fn shown(&self) -> u32 {
        self.word
    }

    fn put(&mut self, w: u32) {
        self.word = w;
    }
}

/// A port that shows the sum of the words that were put to it, modulo 2^32.
#[derive(Drop)]
pub struct SumPort {
    sum: u32,
}

impl SumPort {
    /// A port that shows 0.
    pub fn new() -> Self
        ensures kind { ⟦<SumPort as Port>⟧.kind_of result ≡ Sum }
        ensures value { ⟦<SumPort as Port>⟧.shown_value result ≡ 0 }
    {
        SumPort { sum: 0 }
    }
}

impl Port for SumPort {
    ghost kind_of = { λ _. Sum };

    ghost shown_value = { λ port. port.sum };

    fn kind(&self) -> PortKind {
        PortKind::Sum
    }

    fn shown(&self) -> u32 {
        self.sum
    }

    fn put(&mut self, w: u32) {
        self.sum = self.sum.wrapping_add(w);
    }
}
