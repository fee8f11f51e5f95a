//! How an instruction ends: what it writes to its destination, and where the program goes on.
ghost use Rattle.std.specs.Prelude.{◌≡◌, ◌<◌};
ghost use Rattle.em_hart.specs.Hart.{Memory, with_register};
ghost use Rattle.em_hart.specs.Effect.{sum};
ghost use Rattle.em_hart.specs.Instruction.{next_registers, transfer_outcome};
ghost use Rattle.em_hart.specs.Steps.{Reports};

use crate::answers::{Class, MISALIGNED_TARGET, Stepped};
use crate::registers::Regs;

/// Goes on with the instruction that follows.
pub(crate) fn go_on(regs: &mut Regs, class: Class) -> Stepped
    ensures answer { result ≡ Stepped.Ran class }
    ensures whole { regs.new ≡ next_registers regs.old }
{
    let next = regs.pc().wrapping_add(4);
    regs.jump(next);
    Stepped::Ran(class)
}

/// Writes the destination, and goes on with the instruction that follows.
pub(crate) fn write_and_go_on(regs: &mut Regs, rd: u8, v: u32, class: Class) -> Stepped
    requires { rd < 32 }
    ensures answer { result ≡ Stepped.Ran class }
    ensures whole { regs.new ≡ next_registers (with_register regs.old rd v) }
{
    regs.set(rd, v);
    go_on(regs, class)
}

/// Takes a transfer.
pub(crate) fn transfer(regs: &mut Regs, target: u32) -> Stepped
    ensures { (own shared : Memory)
        → Reports result (transfer_outcome target regs.old own shared)
        regs.old own shared regs.new own shared }
{
    if target % 4 != 0 {
        return Stepped::Fault(MISALIGNED_TARGET);
    }
    regs.jump(target);
    Stepped::Ran(Class::Plain)
}

/// Takes a transfer, and keeps the address of the instruction that follows in the destination.
pub(crate) fn jump_and_link(regs: &mut Regs, rd: u8, target: u32) -> Stepped
    requires { rd < 32 }
    ensures { (own shared : Memory)
        → let linked = with_register regs.old rd (sum regs.old.pc 4) in
        Reports result (transfer_outcome target linked own shared)
        regs.old own shared regs.new own shared }
{
    if target % 4 != 0 {
        return Stepped::Fault(MISALIGNED_TARGET);
    }
    let next = regs.pc().wrapping_add(4);
    regs.set(rd, next);
    regs.jump(target);
    Stepped::Ran(Class::Plain)
}
