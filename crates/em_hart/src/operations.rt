//! What instructions compute from registers.
ghost use Rattle.std.specs.Prelude.{◌≡◌, ◌<◌};
ghost use Rattle.em_isa.specs.Encoding.{Fits, word_of};
ghost use Rattle.em_hart.specs.Instruction.{written_value};
ghost use Rattle.em_hart.specs.Decoded as spec;

use em_isa::Instr;

/// The value that an OP, OP-IMM, LUI, AUIPC or JAL at the address `pc` writes to its destination, where rs1 holds `a` and
/// rs2 holds `b`, before x0 is kept at 0. For a JAL that is the address of the next instruction, whatever its target.
/// `None` exactly for every other instruction.
#[tactic(auto, using(crate::proofs::OutcomeOfWord::value_of_word), unfolding(crate::specs::Instruction::value_of))]
pub fn value(i: &Instr, pc: u32, a: u32, b: u32) -> Option<u32>
    requires { Fits i.now }
    ensures { result ≡ written_value (word_of i.now) pc a b }
{
    match *i {
        Instr::Lui { imm, .. } => Some(imm << 12),
        Instr::Auipc { imm, .. } => Some(pc.wrapping_add(imm << 12)),
        Instr::Jal { .. } => Some(pc.wrapping_add(4)),
        Instr::OpImm { op, alt, imm, .. } => Some(operation_value(op, alt, a, imm.cast_unsigned())),
        Instr::Op { op, alt, .. } => Some(operation_value(op, alt, a, b)),
        _ => None,
    }
}

/// The value of an OP or OP-IMM with this funct3; `alt` tells sub from add and sra from srl.
#[tactic(auto, using(crate::proofs::Signs::low_five), unfolding(crate::specs::Decoded::operation_value))]
pub(crate) fn operation_value(op: u8, alt: bool, a: u32, b: u32) -> u32
    requires { op < 8 }
    ensures { result ≡ spec.operation_value op alt a b }
{
    let amount = b & 31;
    match op {
        0 if alt => a.wrapping_sub(b),
        0 => a.wrapping_add(b),
        1 => a << amount,
        2 => u32::from(a.cast_signed() < b.cast_signed()),
        3 => u32::from(a < b),
        4 => a ^ b,
        5 if alt => (a.cast_signed() >> amount).cast_unsigned(),
        5 => a >> amount,
        6 => a | b,
        _ => a & b,
    }
}

/// Whether the branch with this funct3 is taken.
#[tactic(auto, using(crate::proofs::Signs::not_below), unfolding(crate::specs::Decoded::branch_condition))]
pub(crate) fn branch_condition(op: u8, a: u32, b: u32) -> bool
    requires { op < 8 }
    ensures { result ≡ spec.branch_condition op a b }
{
    match op {
        0 => a == b,
        1 => a != b,
        4 => a.cast_signed() < b.cast_signed(),
        5 => a.cast_signed() >= b.cast_signed(),
        6 => a < b,
        _ => a >= b,
    }
}
