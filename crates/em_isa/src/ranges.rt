//! Which fields an instruction may have.
ghost use Rattle.std.specs.Prelude.{IsTrue, ◌↔◌, ◌<ℤ◌, ◌≤ℤ◌, pos, unsigned_abs};
ghost use Rattle.std.specs.Bool.{MatchBool};
ghost use Rattle.em_isa.specs.Encoding.{Fits, IsImmediate, IsOffset, IsShiftAmount, is_shift};

use crate::instructions::Instr;

/// Whether each field of the instruction is in its range: registers below 32, `op` a funct3 of its group, immediates
/// and offsets as [`Instr`] says, and `alt` only where it tells two instructions apart.
pub fn fits(i: &Instr) -> bool
    ensures { IsTrue result ↔ Fits i.now }
{
    match *i {
        Instr::Lui { rd, imm } => rd < 32 && imm < 1 << 20,
        Instr::Auipc { rd, imm } => rd < 32 && imm < 1 << 20,
        Instr::Jal { rd, offset } => rd < 32 && is_offset(offset, 1 << 20),
        Instr::Jalr { rd, rs1, imm } => rd < 32 && rs1 < 32 && is_immediate(imm),
        Instr::Branch {
            op,
            rs1,
            rs2,
            offset,
        } => matches!(op, 0 | 1 | 4..=7) && rs1 < 32 && rs2 < 32 && is_offset(offset, 1 << 12),
        Instr::Load { op, rd, rs1, imm } => {
            matches!(op, 0 | 1 | 2 | 4 | 5) && rd < 32 && rs1 < 32 && is_immediate(imm)
        }
        Instr::Store { op, rs1, rs2, imm } => {
            op < 3 && rs1 < 32 && rs2 < 32 && is_immediate(imm)
        }
        Instr::OpImm {
            op,
            alt,
            rd,
            rs1,
            imm,
        } => op < 8 && (!alt || op == 5) && rd < 32 && rs1 < 32 && is_operand(op, imm),
        Instr::Op {
            op,
            alt,
            rd,
            rs1,
            rs2,
        } => op < 8 && (!alt || op == 0 || op == 5) && rd < 32 && rs1 < 32 && rs2 < 32,
        Instr::Fence { rd, rs1, imm } => rd < 32 && rs1 < 32 && is_immediate(imm),
        Instr::Ecall | Instr::Ebreak => true,
    }
}

/// Whether the number fits an immediate of 12 bits.
fn is_immediate(imm: i32) -> bool
    ensures { IsTrue result ↔ IsImmediate imm }
{
    -2048 <= imm && imm < 2048
}

/// Whether the number is even, at least `-half` and below `half`.
fn is_offset(offset: i32, half: i32) -> bool
    requires positive { pos 0 <ℤ half }
    requires small { half ≤ℤ pos 1048576 }
    ensures { IsTrue result ↔ IsOffset (unsigned_abs half) offset }
{
    -half <= offset && offset < half && offset % 2 == 0
}

/// Whether the number may be the immediate of this operation.
fn is_operand(op: u8, imm: i32) -> bool
    ensures { IsTrue result ↔ MatchBool (is_shift op) (IsShiftAmount imm) (IsImmediate imm) }
{
    if op == 1 || op == 5 {
        0 <= imm && imm < 32
    } else {
        is_immediate(imm)
    }
}
