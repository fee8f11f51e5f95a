//! The instruction of a word, for each group of one opcode.
ghost use Rattle.std.specs.Prelude.{◌≡◌, IsTrue, Some};
ghost use Rattle.em_isa.specs.Encoding.{Decodes, bits, is_shift};

use crate::fields::{
    b_offset, bits_of, funct3, funct7, i_immediate, j_offset, rd, rs1, rs2, s_immediate,
};
use crate::instructions::Instr;

/// The bits that tell `sub`, `sra` and `srai` from `add`, `srl` and `srli`, in the place of funct7.
const ALTERNATE: u32 = 0b010_0000;

/// The `lui` of a word with its opcode.
pub fn lui(word: u32) -> Instr
    requires { bits 6 0 word ≡ 0b0110111 }
    ensures { Decodes word (Some result) }
{
    Instr::Lui {
        rd: rd(word),
        imm: bits_of(word, 31, 12),
    }
}

/// The `auipc` of a word with its opcode.
pub fn auipc(word: u32) -> Instr
    requires { bits 6 0 word ≡ 0b0010111 }
    ensures { Decodes word (Some result) }
{
    Instr::Auipc {
        rd: rd(word),
        imm: bits_of(word, 31, 12),
    }
}

/// The `jal` of a word with its opcode.
pub fn jal(word: u32) -> Instr
    requires { bits 6 0 word ≡ 0b1101111 }
    ensures { Decodes word (Some result) }
{
    Instr::Jal {
        rd: rd(word),
        offset: j_offset(word),
    }
}

/// The `jalr` of a word with its opcode.
pub fn jalr(word: u32) -> Option<Instr>
    requires { bits 6 0 word ≡ 0b1100111 }
    ensures { Decodes word result }
{
    if funct3(word) != 0 {
        return None;
    }
    Some(Instr::Jalr {
        rd: rd(word),
        rs1: rs1(word),
        imm: i_immediate(word),
    })
}

/// The branch of a word with the opcode of branches.
pub fn branch(word: u32) -> Option<Instr>
    requires { bits 6 0 word ≡ 0b1100011 }
    ensures { Decodes word result }
{
    let op = funct3(word);
    if op == 2 || op == 3 {
        return None;
    }
    Some(Instr::Branch {
        op,
        rs1: rs1(word),
        rs2: rs2(word),
        offset: b_offset(word),
    })
}

/// The load of a word with the opcode of loads.
pub fn load(word: u32) -> Option<Instr>
    requires { bits 6 0 word ≡ 0b0000011 }
    ensures { Decodes word result }
{
    let op = funct3(word);
    if op == 3 || op > 5 {
        return None;
    }
    Some(Instr::Load {
        op,
        rd: rd(word),
        rs1: rs1(word),
        imm: i_immediate(word),
    })
}

/// The store of a word with the opcode of stores.
pub fn store(word: u32) -> Option<Instr>
    requires { bits 6 0 word ≡ 0b0100011 }
    ensures { Decodes word result }
{
    let op = funct3(word);
    if op > 2 {
        return None;
    }
    Some(Instr::Store {
        op,
        rs1: rs1(word),
        rs2: rs2(word),
        imm: s_immediate(word),
    })
}

/// The operation with an immediate of a word with its opcode.
pub fn op_imm(word: u32) -> Option<Instr>
    requires { bits 6 0 word ≡ 0b0010011 }
    ensures { Decodes word result }
{
    let op = funct3(word);
    if op == 1 || op == 5 {
        return shift(word);
    }
    Some(Instr::OpImm {
        op,
        alt: false,
        rd: rd(word),
        rs1: rs1(word),
        imm: i_immediate(word),
    })
}

/// The shift by an immediate of a word with its opcode and the funct3 of a shift.
fn shift(word: u32) -> Option<Instr>
    requires opcode { bits 6 0 word ≡ 0b0010011 }
    requires operation { IsTrue (is_shift (bits 14 12 word)) }
    ensures { Decodes word result }
{
    let op = funct3(word);
    let alt = match funct7(word) {
        0 => false,
        ALTERNATE if op == 5 => true,
        _ => return None,
    };
    Some(Instr::OpImm {
        op,
        alt,
        rd: rd(word),
        rs1: rs1(word),
        imm: bits_of(word, 24, 20) as i32,
    })
}

/// The operation on registers of a word with its opcode.
pub fn op(word: u32) -> Option<Instr>
    requires { bits 6 0 word ≡ 0b0110011 }
    ensures { Decodes word result }
{
    let op = funct3(word);
    let alt = match funct7(word) {
        0 => false,
        ALTERNATE if op == 0 || op == 5 => true,
        _ => return None,
    };
    Some(Instr::Op {
        op,
        alt,
        rd: rd(word),
        rs1: rs1(word),
        rs2: rs2(word),
    })
}

/// The fence of a word with its opcode.
pub fn fence(word: u32) -> Option<Instr>
    requires { bits 6 0 word ≡ 0b0001111 }
    ensures { Decodes word result }
{
    if funct3(word) != 0 {
        return None;
    }
    Some(Instr::Fence {
        rd: rd(word),
        rs1: rs1(word),
        imm: i_immediate(word),
    })
}

/// The `ecall` or `ebreak` of a word with their opcode.
pub fn system(word: u32) -> Option<Instr>
    requires { bits 6 0 word ≡ 0b1110011 }
    ensures { Decodes word result }
{
    match word {
        0x0000_0073 => Some(Instr::Ecall),
        0x0010_0073 => Some(Instr::Ebreak),
        _ => None,
    }
}
