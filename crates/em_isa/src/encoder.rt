//! Instructions put together into words.
ghost use Rattle.std.specs.Prelude.{◌≡◌, ◌+◌, ◌*◌, ◌<◌, ◌^◌};
ghost use Rattle.em_isa.specs.Encoding.{Fits, b_format, bits, i_format, j_format, operation_kind, r_format, s_format, shift_kind, u_format, word_of};

use crate::fields::{bits_of, unsigned};
use crate::instructions::Instr;
use crate::opcodes::{AUIPC, BRANCH, JAL, JALR, LOAD, LUI, MISC_MEM, OP, OP_IMM, STORE, SYSTEM};

/// The word of an instruction whose fields fit, which [`crate::fits`] tells.
pub fn encode(i: &Instr) -> u32
    requires { Fits i.now }
    ensures { result ≡ word_of i.now }
{
    match *i {
        Instr::Lui { rd, imm } => u_word(imm, rd, LUI),
        Instr::Auipc { rd, imm } => u_word(imm, rd, AUIPC),
        Instr::Jal { rd, offset } => j_word(unsigned(offset, 21), rd, JAL),
        Instr::Jalr { rd, rs1, imm } => i_word(unsigned(imm, 12), rs1, 0, rd, JALR),
        Instr::Branch {
            op,
            rs1,
            rs2,
            offset,
        } => b_word(unsigned(offset, 13), rs2, rs1, op, BRANCH),
        Instr::Load { op, rd, rs1, imm } => i_word(unsigned(imm, 12), rs1, op, rd, LOAD),
        Instr::Store { op, rs1, rs2, imm } => s_word(unsigned(imm, 12), rs2, rs1, op, STORE),
        Instr::OpImm {
            op,
            alt,
            rd,
            rs1,
            imm,
        } => i_word(shift_bits(alt) | unsigned(imm, 12), rs1, op, rd, OP_IMM),
        Instr::Op {
            op,
            alt,
            rd,
            rs1,
            rs2,
        } => r_word(
            operation_bits(alt),
            u32::from(rs2),
            rs1,
            op,
            u32::from(rd),
            OP,
        ),
        Instr::Fence { rd, rs1, imm } => i_word(unsigned(imm, 12), rs1, 0, rd, MISC_MEM),
        Instr::Ecall => i_word(0, 0, 0, 0, SYSTEM),
        Instr::Ebreak => i_word(1, 0, 0, 0, SYSTEM),
    }
}

/// The bits that tell `srai` from `srli`, as a part of the immediate.
fn shift_bits(alt: bool) -> u32
    ensures { result ≡ shift_kind alt }
{
    if alt { 0b010_0000 << 5 } else { 0 }
}

/// The bits that tell `sub` and `sra` from `add` and `srl`, as a funct7.
fn operation_bits(alt: bool) -> u32
    ensures { result ≡ operation_kind alt }
{
    if alt { 0b010_0000 } else { 0 }
}

/// A word of format R.
fn r_word(funct7: u32, rs2: u32, rs1: u8, funct3: u8, rd: u32, opcode: u32) -> u32
    requires funct7 { funct7 < 2 ^ 7 }
    requires rs2 { rs2 < 2 ^ 5 }
    requires rs1 { rs1 < 2 ^ 5 }
    requires funct3 { funct3 < 2 ^ 3 }
    requires rd { rd < 2 ^ 5 }
    requires opcode { opcode < 2 ^ 7 }
    ensures { result ≡ r_format funct7 rs2 rs1 funct3 rd opcode }
{
    let high = funct7 << 25 | rs2 << 20 | u32::from(rs1) << 15;
    high | u32::from(funct3) << 12 | rd << 7 | opcode
}

/// A word of format I.
fn i_word(imm: u32, rs1: u8, funct3: u8, rd: u8, opcode: u32) -> u32
    requires imm { imm < 2 ^ 12 }
    requires rs1 { rs1 < 2 ^ 5 }
    requires funct3 { funct3 < 2 ^ 3 }
    requires rd { rd < 2 ^ 5 }
    requires opcode { opcode < 2 ^ 7 }
    ensures { result ≡ i_format imm rs1 funct3 rd opcode }
{
    let high = imm << 20 | u32::from(rs1) << 15;
    high | u32::from(funct3) << 12 | u32::from(rd) << 7 | opcode
}

/// A word of format S.
fn s_word(imm: u32, rs2: u8, rs1: u8, funct3: u8, opcode: u32) -> u32
    requires imm { imm < 2 ^ 12 }
    requires rs2 { rs2 < 2 ^ 5 }
    requires rs1 { rs1 < 2 ^ 5 }
    requires funct3 { funct3 < 2 ^ 3 }
    requires opcode { opcode < 2 ^ 7 }
    ensures { result ≡ s_format imm rs2 rs1 funct3 opcode }
{
    let high = bits_of(imm, 11, 5);
    let low = bits_of(imm, 4, 0);
    r_word(high, u32::from(rs2), rs1, funct3, low, opcode)
}

/// A word of format B.
fn b_word(imm: u32, rs2: u8, rs1: u8, funct3: u8, opcode: u32) -> u32
    requires imm { imm < 2 ^ 13 }
    requires rs2 { rs2 < 2 ^ 5 }
    requires rs1 { rs1 < 2 ^ 5 }
    requires funct3 { funct3 < 2 ^ 3 }
    requires opcode { opcode < 2 ^ 7 }
    ensures { result ≡ b_format imm rs2 rs1 funct3 opcode }
{
    let high = bits_of(imm, 12, 12) << 6 | bits_of(imm, 10, 5);
    let low = bits_of(imm, 4, 1) << 1 | bits_of(imm, 11, 11);
    r_word(high, u32::from(rs2), rs1, funct3, low, opcode)
}

/// A word of format U, whose immediate is given without its 12 zeros.
fn u_word(imm: u32, rd: u8, opcode: u32) -> u32
    requires imm { imm < 2 ^ 20 }
    requires rd { rd < 2 ^ 5 }
    requires opcode { opcode < 2 ^ 7 }
    ensures { result ≡ u_format imm rd opcode }
{
    imm << 12 | u32::from(rd) << 7 | opcode
}

/// A word of format J.
fn j_word(imm: u32, rd: u8, opcode: u32) -> u32
    requires imm { imm < 2 ^ 21 }
    requires rd { rd < 2 ^ 5 }
    requires opcode { opcode < 2 ^ 7 }
    ensures { result ≡ j_format imm rd opcode }
{
    u_word(j_bits(imm), rd, opcode)
}

/// The immediate of format J as it stands in the upper 20 bits of a word.
fn j_bits(imm: u32) -> u32
    ensures { result ≡ bits 20 20 imm * 2 ^ 19 + bits 10 1 imm * 2 ^ 9
        + bits 11 11 imm * 2 ^ 8 + bits 19 12 imm }
{
    let high = bits_of(imm, 20, 20) << 19 | bits_of(imm, 10, 1) << 9;
    high | bits_of(imm, 11, 11) << 8 | bits_of(imm, 19, 12)
}
