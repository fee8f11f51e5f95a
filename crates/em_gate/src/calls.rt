//! The kernel calls, and which one the registers ask for.
ghost use Rattle.std.specs.Prelude.{◌≡◌, ◌<◌, ◌↔◌, ◌⊎◌};
ghost use Rattle.em_gate.specs.Calls.{call_number, call_of};
ghost use Rattle.em_gate.specs.declared.calls.Call.TheVariants.{Unknown};

use em_hart::Regs;

/// A kernel call with its operands, as the registers have them.
#[derive(Clone, Copy, Debug, PartialEq, Eq)]
pub enum Call {
    /// The job is done: the next pending one begins, or the task sleeps.
    WaitJob,
    /// The task takes a semaphore of this number, or waits for it.
    Acquire(u32),
    /// The task frees a semaphore of this number.
    Release(u32),
    /// A port takes a word.
    Out { port: u32, word: u32 },
    /// A message gets a value, from this address of the own window on.
    Write { msg: u32, at: u32 },
    /// The newest value of a message goes to this address of the own window.
    Read { msg: u32, at: u32 },
    /// A background task is given a job with this word.
    Signal { task: u32, word: u32 },
    /// The task ends.
    Exit,
    /// The number in a7 is no call.
    Unknown(u32),
}

/// What the refusal of a call rests on beside the table.
#[derive(Clone, Copy, Debug, PartialEq, Eq)]
pub struct Facts {
    /// Bit s says that the task owns semaphore s.
    pub owned: u32,
    /// Bit p says that port p is plugged in.
    pub plugged: u8,
    /// Bit u says that task u is stopped or has as many pending releases as there may be.
    pub full: u32,
}

/// The call that the registers ask for: its number is in a7, its operands are in a0 and a1. It is `Unknown`, with the
/// number, exactly where that is none of 1 to 8.
pub fn read_call(regs: &Regs) -> Call
    ensures call { result ≡ call_of regs.now }
    ensures unknown { let number = call_number regs.now in
        (result ≡ Unknown number) ↔ ((number ≡ 0) ⊎ (8 < number)) }
{
    let a = regs.get(10);
    let b = regs.get(11);
    match regs.get(17) {
        1 => Call::WaitJob,
        2 => Call::Acquire(a),
        3 => Call::Release(a),
        4 => Call::Out { port: a, word: b },
        5 => Call::Write { msg: a, at: b },
        6 => Call::Read { msg: a, at: b },
        7 => Call::Signal { task: a, word: b },
        8 => Call::Exit,
        number => Call::Unknown(number),
    }
}
