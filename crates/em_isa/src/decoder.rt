//! Words taken apart into instructions.
ghost use Rattle.std.specs.Prelude.{◌≡◌, IfSome, Some};
ghost use Rattle.em_isa.specs.Encoding.{Fits, word_of};
ghost use Rattle.em_isa.specs.declared.instructions.Instr.{Instr};

use crate::fields::opcode;
use crate::groups::{auipc, branch, fence, jal, jalr, load, lui, op, op_imm, store, system};
use crate::instructions::Instr;
use crate::opcodes::{AUIPC, BRANCH, JAL, JALR, LOAD, LUI, MISC_MEM, OP, OP_IMM, STORE, SYSTEM};

/// The instruction of a word, and `None` exactly where no instruction of RV32I has the word.
///
/// It is the inverse of [`crate::encode`]: the word of what it answers is `word`, and the word of each instruction
/// whose fields fit gives that instruction back. Every word with the opcode of `fence` and a funct3 of 0 is a fence.
/// Of the words with the opcode of `ecall` and `ebreak`, their own two alone are instructions.
pub fn decode(word: u32) -> Option<Instr>
    ensures sound { IfSome result (λ i. Fits i × (word_of i ≡ word)) }
    ensures complete { (i : Instr) → Fits i → word_of i ≡ word → result ≡ Some i }
{
    match opcode(word) {
        LUI => Some(lui(word)),
        AUIPC => Some(auipc(word)),
        JAL => Some(jal(word)),
        JALR => jalr(word),
        BRANCH => branch(word),
        LOAD => load(word),
        STORE => store(word),
        OP_IMM => op_imm(word),
        OP => op(word),
        MISC_MEM => fence(word),
        SYSTEM => system(word),
        _ => None,
    }
}
