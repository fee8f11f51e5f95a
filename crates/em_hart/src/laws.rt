//! The laws of words: what the word of an instruction does, by the instruction's fields.
ghost use Rattle.std.specs.Prelude.{◌≡◌, ◌<◌, ◌*◌, ◌^◌, ℕ, ℤ, false};
ghost use Rattle.em_isa.specs.declared.instructions.Instr.{Instr};
ghost use Rattle.em_isa.specs.declared.instructions.Instr.TheVariants.{Lui, OpImm};
ghost use Rattle.em_isa.specs.Encoding.{Fits, twos_complement, word_of};
ghost use Rattle.em_hart.specs.Decoded.{exec_instr};
ghost use Rattle.em_hart.specs.Effect.{sum};
ghost use Rattle.em_hart.specs.Hart.{Memory, Registers, register, with_register};
ghost use Rattle.em_hart.specs.Instruction.{Ran, next_registers, word_outcome};

use crate::answers::Class;

/// The word of an instruction does what the instruction does by its fields. A `lui` puts its immediate, shifted left by
/// 12, into its destination, and an `addi` the sum of a register and its immediate modulo 2^32; both go on with the next
/// instruction, and change nothing else.
pub fn carries_out()
    ensures fields { (i : Instr) → Fits i → (registers : Registers) (own shared : Memory)
        → word_outcome (word_of i) registers own shared ≡ exec_instr i registers own shared }
    ensures upper { (rd imm : ℕ) → rd < 32 → imm < 2 ^ 20
        → (registers : Registers) (own shared : Memory)
        → let after = with_register registers rd (imm * 2 ^ 12) in
        word_outcome (word_of (Lui rd imm)) registers own shared
        ≡ Ran Class.Plain (next_registers after) own shared }
    ensures addition { (rd rs1 : ℕ) (imm : ℤ) → Fits (OpImm 0 false rd rs1 imm)
        → (registers : Registers) (own shared : Memory)
        → let value = sum (register registers rs1) (twos_complement 32 imm) in
        word_outcome (word_of (OpImm 0 false rd rs1 imm)) registers own shared
        ≡ Ran Class.Plain (next_registers (with_register registers rd value)) own shared }
{}
