//! The registers of a hart, with its program counter.
ghost use Rattle.std.specs.Prelude.{◌≡◌, ◌≢◌, ℕ, ◌<◌, ◌==◌, replicate, if◌then◌else◌};
ghost use Rattle.em_hart.specs.Hart.{register, with_register, with_pc};

use std::marker::Model;

/// The registers x0 to x31 and the program counter. Contracts see it as the list of the values and the pc.
#[derive(Drop)]
pub struct Regs {
    values: [u32; 32],
    pc: u32,
}

impl Model for Regs {
    ghost use Rattle.std.specs.Prelude.{◌≡◌, slice_index};
    ghost use Rattle.em_hart.specs.Hart.{Registers};

    ghost Value = { Registers };

    ghost view = { λ a. record { values = a.values; pc = a.pc } };

    ghost invariant = { λ a. slice_index a.values 0 ≡ 0 };
}

impl Regs {
    /// Every register is 0, and the program counter is `pc`.
    pub fn new(pc: u32) -> Regs
        ensures { result ≡ record { values = replicate 32 0; pc = pc } }
    {
        Regs {
            values: [0; 32],
            pc,
        }
    }

    /// What register `r` holds, which is 0 for x0; `r` is below 32.
    pub fn get(&self, r: u8) -> u32
        requires { r < 32 }
        ensures { result ≡ register self.now r }
    {
        self.values[usize::from(r)]
    }

    /// Puts a value into register `r`, which is below 32. A value for x0 is dropped.
    pub fn set(&mut self, r: u8, v: u32)
        requires { r < 32 }
        ensures whole { self.new ≡ with_register self.old r v }
        ensures written { register self.new r ≡ (if r == 0 then 0 else v) }
        ensures others { (q : ℕ) → q ≢ r → register self.new q ≡ register self.old q }
        ensures pc { self.new.pc ≡ self.old.pc }
    {
        if r != 0 {
            self.values[usize::from(r)] = v;
        }
    }

    /// The program counter.
    pub fn pc(&self) -> u32
        ensures { result ≡ self.now.pc }
    {
        self.pc
    }

    /// Moves the program counter, and nothing else.
    pub fn jump(&mut self, pc: u32)
        ensures { self.new ≡ with_pc self.old pc }
    {
        self.pc = pc;
    }
}
