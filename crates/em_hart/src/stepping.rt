//! One step of the machine: the word at the program counter, carried out.
ghost use Rattle.std.specs.Prelude.{◌≡◌, ◌<◌, ◌≤◌, length};
ghost use Rattle.em_isa.specs.Encoding.{Fits};
ghost use Rattle.em_hart.specs.Instruction.{exec};
ghost use Rattle.em_hart.specs.Decoded.{exec_instr, rd_of, rs1_of, rs2_of};
ghost use Rattle.em_hart.specs.Hart.{own_base, register, shared_base};
ghost use Rattle.em_hart.specs.Steps.{Reports};

use crate::accesses::{load, store};
use crate::answers::{BREAKPOINT, Class, NO_INSTRUCTION, OUTSIDE_CODE, Stepped};
use crate::moves::{go_on, jump_and_link, transfer, write_and_go_on};
use crate::operations::{branch_condition, value};
use crate::registers::Regs;
use crate::windows::Window;
use em_isa::{Instr, decode};

/// Carries out the code word at the program counter. `code` stands from address 0, `own` from [`crate::OWN_BASE`] and
/// `shared` from [`crate::SHARED_BASE`]. A call or a fault leaves everything as it was.
///
/// Faults are tested in this order: the program counter, the word, then what the instruction itself asks: the target of a
/// transfer that is taken, or the alignment of an access before its windows, or a breakpoint.
pub fn step(regs: &mut Regs, own: &mut Window, shared: &mut Window, code: &[u32]) -> Stepped
    requires code { length code.now ≤ 16384 }
    requires own { own.old.base ≡ own_base }
    requires shared { shared.old.base ≡ shared_base }
    ensures step { Reports result (exec regs.old own.old shared.old code.now)
        regs.old own.old shared.old regs.new own.new shared.new }

    // Each window stays where it is, and keeps its length.
    ensures own_base { own.new.base ≡ own.old.base }
    ensures own_length { length own.new.bytes ≡ length own.old.bytes }
    ensures shared_base { shared.new.base ≡ shared.old.base }
    ensures shared_length { length shared.new.bytes ≡ length shared.old.bytes }
{
    let pc = regs.pc();
    let place = (pc / 4) as usize;
    if pc % 4 != 0 || place >= code.len() {
        return Stepped::Fault(OUTSIDE_CODE);
    }
    match decode(code[place]) {
        Some(i) => carry_out(&i, regs, own, shared),
        None => Stepped::Fault(NO_INSTRUCTION),
    }
}

/// The destination, and what the first and the second register hold that are read; 0 for each where there is none.
fn operands(i: &Instr, regs: &Regs) -> (u8, u32, u32)
    requires { Fits i.now }
    ensures register { result.0 < 32 }
    ensures rd { result.0 ≡ rd_of i.now }
    ensures a { result.1 ≡ register regs.now (rs1_of i.now) }
    ensures b { result.2 ≡ register regs.now (rs2_of i.now) }
{
    match *i {
        Instr::Lui { rd, .. } | Instr::Auipc { rd, .. } | Instr::Jal { rd, .. } => (rd, 0, 0),
        Instr::Jalr { rd, rs1, .. } | Instr::Load { rd, rs1, .. } | Instr::OpImm { rd, rs1, .. } =>
            { (rd, regs.get(rs1), 0) }
        Instr::Branch { rs1, rs2, .. } | Instr::Store { rs1, rs2, .. } => {
            (0, regs.get(rs1), regs.get(rs2))
        }
        Instr::Op { rd, rs1, rs2, .. } => (rd, regs.get(rs1), regs.get(rs2)),
        Instr::Fence { .. } | Instr::Ecall | Instr::Ebreak => (0, 0, 0),
    }
}

/// Carries out an instruction.
fn carry_out(i: &Instr, regs: &mut Regs, own: &mut Window, shared: &mut Window) -> Stepped
    requires { Fits i.now }
    ensures step { Reports result (exec_instr i.now regs.old own.old shared.old)
        regs.old own.old shared.old regs.new own.new shared.new }
    ensures own_base { own.new.base ≡ own.old.base }
    ensures own_length { length own.new.bytes ≡ length own.old.bytes }
    ensures shared_base { shared.new.base ≡ shared.old.base }
    ensures shared_length { length shared.new.bytes ≡ length shared.old.bytes }
{
    let pc = regs.pc();
    let (rd, a, b) = operands(i, regs);
    match *i {
        Instr::Jal { offset, .. } => {
            jump_and_link(regs, rd, pc.wrapping_add(offset.cast_unsigned()))
        }
        Instr::Jalr { imm, .. } => {
            jump_and_link(regs, rd, a.wrapping_add(imm.cast_unsigned()) & 0xffff_fffe)
        }
        Instr::Branch { op, offset, .. } => {
            if branch_condition(op, a, b) {
                transfer(regs, pc.wrapping_add(offset.cast_unsigned()))
            } else {
                go_on(regs, Class::Plain)
            }
        }
        Instr::Load { op, imm, .. } => {
            load(
                op,
                rd,
                a.wrapping_add(imm.cast_unsigned()),
                regs,
                own,
                shared,
            )
        }
        Instr::Store { op, imm, .. } => {
            store(
                op,
                a.wrapping_add(imm.cast_unsigned()),
                b,
                regs,
                own,
                shared,
            )
        }
        Instr::Ecall => Stepped::Call,
        Instr::Ebreak => Stepped::Fault(BREAKPOINT),
        _ => match value(i, pc, a, b) {
            Some(v) => write_and_go_on(regs, rd, v, Class::Plain),
            None => go_on(regs, Class::Plain),
        },
    }
}
