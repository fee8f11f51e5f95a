//! Statements, by their mnemonics and their operands.
ghost use Rattle.std.specs.Prelude.{◌≡◌, ◌<◌, ◌^◌, Ok, IfOk, IfErr};
ghost use Rattle.std.specs.Bool.{MatchBool};
ghost use Rattle.em_base.specs.Text.{texts_of};
ghost use Rattle.em_isa.specs.Encoding.{Fits, IsImmediate, IsShiftAmount, is_shift};
ghost use Rattle.em_asm_read.specs.Faults.{FailsAs};
ghost use Rattle.em_asm_read.specs.Fitting.{ItemFits, MnemonicFits};
ghost use Rattle.em_asm_read.specs.Statements as spec;

use crate::faults::{Fault, LineFail};
use crate::items::Item;
use crate::mnemonics::Mnemonic;
use crate::operands::{address_operand, number_operand, register_operand, target_operand};
use em_isa::Instr;
use std::alloc::Global;

/// The fence of every access: its word is 0x0ff0000f.
const WHOLE_FENCE: Instr = Instr::Fence {
    rd: 0,
    rs1: 0,
    imm: 255,
};

/// `addi x0, x0, 0`, which `nop` stands for.
const NO_OPERATION: Instr = Instr::OpImm {
    op: 0,
    alt: false,
    rd: 0,
    rs1: 0,
    imm: 0,
};

/// `jalr x0, 0(ra)`, which `ret` stands for.
const RETURN: Instr = Instr::Jalr {
    rd: 0,
    rs1: 1,
    imm: 0,
};

/// An operation over two registers: `rd, rs1, rs2`.
fn operation(op: u8, alt: bool, operands: &[&[u8]]) -> Result<Instr, Fault>
    requires { MnemonicFits (Mnemonic.Operation op alt) }
    ensures value { result ≡ spec.operation op alt (texts_of operands.now) }
    ensures fits { IfOk result Fits }
{
    let [rd, rs1, rs2] = operands else {
        return Err(Fault::Operands);
    };
    Ok(Instr::Op {
        op,
        alt,
        rd: register_operand(rd)?,
        rs1: register_operand(rs1)?,
        rs2: register_operand(rs2)?,
    })
}

/// The immediate of an operation: a shift amount, or a number of 12 bits.
fn immediate_operand(op: u8, text: &[u8]) -> Result<i128, Fault>
    ensures value { result ≡ spec.immediate_operand op text.now }
    ensures within { IfOk result (λ z. MatchBool (is_shift op) (IsShiftAmount z) (IsImmediate z)) }
{
    if op == 1 || op == 5 {
        number_operand(text, 0, 31)
    } else {
        number_operand(text, -2048, 2047)
    }
}

/// An operation over a register and an immediate: `rd, rs1, imm`.
fn immediate(op: u8, alt: bool, operands: &[&[u8]]) -> Result<Instr, Fault>
    requires { MnemonicFits (Mnemonic.Immediate op alt) }
    ensures value { result ≡ spec.immediate op alt (texts_of operands.now) }
    ensures fits { IfOk result Fits }
{
    let [rd, rs1, imm] = operands else {
        return Err(Fault::Operands);
    };
    Ok(Instr::OpImm {
        op,
        alt,
        rd: register_operand(rd)?,
        rs1: register_operand(rs1)?,
        imm: immediate_operand(op, imm)? as i32,
    })
}

/// A load: `rd, imm(rs1)`.
fn load(op: u8, operands: &[&[u8]]) -> Result<Instr, Fault>
    requires { MnemonicFits (Mnemonic.Load op) }
    ensures value { result ≡ spec.load op (texts_of operands.now) }
    ensures fits { IfOk result Fits }
{
    let [rd, address] = operands else {
        return Err(Fault::Operands);
    };
    let rd = register_operand(rd)?;
    let (imm, rs1) = address_operand(address)?;
    Ok(Instr::Load { op, rd, rs1, imm })
}

/// A store: `rs2, imm(rs1)`.
fn store(op: u8, operands: &[&[u8]]) -> Result<Instr, Fault>
    requires { MnemonicFits (Mnemonic.Store op) }
    ensures value { result ≡ spec.store op (texts_of operands.now) }
    ensures fits { IfOk result Fits }
{
    let [rs2, address] = operands else {
        return Err(Fault::Operands);
    };
    let rs2 = register_operand(rs2)?;
    let (imm, rs1) = address_operand(address)?;
    Ok(Instr::Store { op, rs1, rs2, imm })
}

/// `jalr`: `rd, imm(rs1)`.
fn jump_register(operands: &[&[u8]]) -> Result<Instr, Fault>
    ensures value { result ≡ spec.jump_register (texts_of operands.now) }
    ensures fits { IfOk result Fits }
{
    let [rd, address] = operands else {
        return Err(Fault::Operands);
    };
    let rd = register_operand(rd)?;
    let (imm, rs1) = address_operand(address)?;
    Ok(Instr::Jalr { rd, rs1, imm })
}

/// The operands of `lui` and `auipc`: `rd, n`, with an n below 2^20.
fn upper(operands: &[&[u8]]) -> Result<(u8, u32), Fault>
    ensures value { result ≡ spec.upper (texts_of operands.now) }
    ensures within { IfOk result (λ found. (found.0 < 32) × (found.1 < 2 ^ 20)) }
{
    let [rd, n] = operands else {
        return Err(Fault::Operands);
    };
    let rd = register_operand(rd)?;
    let imm = number_operand(n, 0, 1048575)?;
    Ok((rd, imm as u32))
}

/// `lui`.
fn load_upper(operands: &[&[u8]]) -> Result<Instr, Fault>
    ensures value { result ≡ spec.load_upper (texts_of operands.now) }
    ensures fits { IfOk result Fits }
{
    let (rd, imm) = upper(operands)?;
    Ok(Instr::Lui { rd, imm })
}

/// `auipc`.
fn add_upper(operands: &[&[u8]]) -> Result<Instr, Fault>
    ensures value { result ≡ spec.add_upper (texts_of operands.now) }
    ensures fits { IfOk result Fits }
{
    let (rd, imm) = upper(operands)?;
    Ok(Instr::Auipc { rd, imm })
}

/// `mv`: `rd, rs`, an addition of 0.
fn copy(operands: &[&[u8]]) -> Result<Instr, Fault>
    ensures value { result ≡ spec.copy (texts_of operands.now) }
    ensures fits { IfOk result Fits }
{
    let [rd, rs] = operands else {
        return Err(Fault::Operands);
    };
    let rd = register_operand(rd)?;
    let rs1 = register_operand(rs)?;
    Ok(Instr::OpImm {
        op: 0,
        alt: false,
        rd,
        rs1,
        imm: 0,
    })
}

/// An instruction without operands.
fn alone(instruction: Instr, operands: &[&[u8]]) -> Result<Instr, Fault>
    requires { Fits instruction }
    ensures value { result ≡ spec.alone instruction (texts_of operands.now) }
    ensures fits { IfOk result Fits }
{
    if operands.is_empty() {
        Ok(instruction)
    } else {
        Err(Fault::Operands)
    }
}

/// A branch: `rs1, rs2, target`.
fn branch(alloc: Global, op: u8, operands: &[&[u8]]) -> Result<Item, LineFail>
    requires { MnemonicFits (Mnemonic.Branch op) }
    ensures value { IfOk result (λ item. spec.branch op (texts_of operands.now) ≡ Ok item) }
    ensures refused { IfErr result (FailsAs (spec.branch op (texts_of operands.now))) }
    ensures fits { IfOk result ItemFits }
{
    let [rs1, rs2, target] = operands else {
        return Err(LineFail::from(Fault::Operands));
    };
    let rs1 = register_operand(rs1)?;
    let rs2 = register_operand(rs2)?;
    let target = target_operand(alloc, target, -4096, 4094)?;
    Ok(Item::Branch {
        op,
        rs1,
        rs2,
        target,
    })
}

/// `jal`: `rd, target`.
fn jump(alloc: Global, operands: &[&[u8]]) -> Result<Item, LineFail>
    ensures value { IfOk result (λ item. spec.jump (texts_of operands.now) ≡ Ok item) }
    ensures refused { IfErr result (FailsAs (spec.jump (texts_of operands.now))) }
    ensures fits { IfOk result ItemFits }
{
    let [rd, target] = operands else {
        return Err(LineFail::from(Fault::Operands));
    };
    let rd = register_operand(rd)?;
    let target = target_operand(alloc, target, -1048576, 1048574)?;
    Ok(Item::Jal { rd, target })
}

/// `j`: `target`, a jump that keeps no address.
fn plain_jump(alloc: Global, operands: &[&[u8]]) -> Result<Item, LineFail>
    ensures value { IfOk result (λ item. spec.plain_jump (texts_of operands.now) ≡ Ok item) }
    ensures refused { IfErr result (FailsAs (spec.plain_jump (texts_of operands.now))) }
    ensures fits { IfOk result ItemFits }
{
    let [target] = operands else {
        return Err(LineFail::from(Fault::Operands));
    };
    let target = target_operand(alloc, target, -1048576, 1048574)?;
    Ok(Item::Jal { rd: 0, target })
}

/// A number of 32 bits, signed or unsigned, modulo 2^32.
fn word_operand(text: &[u8]) -> Result<u32, Fault>
    ensures value { result ≡ spec.word_operand text.now }
{
    let number = number_operand(text, -2147483648, 4294967295)?;
    if number < 0 {
        Ok((number as i32).cast_unsigned())
    } else {
        Ok(number as u32)
    }
}

/// A number of 32 bits without a sign.
fn unsigned_operand(text: &[u8]) -> Result<u32, Fault>
    ensures value { result ≡ spec.unsigned_operand text.now }
{
    let number = number_operand(text, 0, 4294967295)?;
    Ok(number as u32)
}

/// `li`: `rd, n`.
fn load_number(operands: &[&[u8]]) -> Result<Item, Fault>
    ensures value { result ≡ spec.load_number (texts_of operands.now) }
    ensures fits { IfOk result ItemFits }
{
    let [rd, n] = operands else {
        return Err(Fault::Operands);
    };
    let rd = register_operand(rd)?;
    let value = word_operand(n)?;
    Ok(Item::Li { rd, value })
}

/// `waitjob`: a semaphore, or nothing.
fn wait(operands: &[&[u8]]) -> Result<Item, Fault>
    ensures value { result ≡ spec.wait (texts_of operands.now) }
    ensures fits { IfOk result ItemFits }
{
    match operands {
        [] => Ok(Item::Wait(None)),
        [semaphore] => Ok(Item::Wait(Some(unsigned_operand(semaphore)?))),
        _ => Err(Fault::Operands),
    }
}

/// `.code`: a number.
fn raw(operands: &[&[u8]]) -> Result<Item, Fault>
    ensures value { result ≡ spec.raw (texts_of operands.now) }
    ensures fits { IfOk result ItemFits }
{
    let [n] = operands else {
        return Err(Fault::Operands);
    };
    Ok(Item::Raw(unsigned_operand(n)?))
}

/// `.word`: a number.
fn shared_word(operands: &[&[u8]]) -> Result<Item, Fault>
    ensures value { result ≡ spec.shared_word (texts_of operands.now) }
    ensures fits { IfOk result ItemFits }
{
    let [n] = operands else {
        return Err(Fault::Operands);
    };
    Ok(Item::Word(word_operand(n)?))
}

/// The item of one instruction.
fn one(instruction: Result<Instr, Fault>) -> Result<Item, LineFail>
    requires { IfOk instruction Fits }
    ensures value { IfOk result (λ item. spec.one instruction ≡ Ok item) }
    ensures refused { IfErr result (FailsAs (spec.one instruction)) }
    ensures fits { IfOk result ItemFits }
{
    Ok(Item::One(instruction?))
}

/// The item, or the failure of its line.
fn item_or_fail(item: Result<Item, Fault>) -> Result<Item, LineFail>
    requires { IfOk item ItemFits }
    ensures value { IfOk result (λ found. item ≡ Ok found) }
    ensures refused { IfErr result (FailsAs item) }
    ensures fits { IfOk result ItemFits }
{
    Ok(item?)
}

/// What a statement says, by its mnemonic and its operands. Refused as [`crate::read_line`] refuses them.
pub fn statement(alloc: Global, mnemonic: Mnemonic, operands: &[&[u8]]) -> Result<Item, LineFail>
    requires { MnemonicFits mnemonic }
    ensures value { let texts = texts_of operands.now in
        IfOk result (λ item. spec.statement mnemonic texts ≡ Ok item) }
    ensures refused { IfErr result (FailsAs (spec.statement mnemonic (texts_of operands.now))) }
    ensures fits { IfOk result ItemFits }
{
    match mnemonic {
        Mnemonic::Operation { op, alt } => one(operation(op, alt, operands)),
        Mnemonic::Immediate { op, alt } => one(immediate(op, alt, operands)),
        Mnemonic::Load { op } => one(load(op, operands)),
        Mnemonic::Store { op } => one(store(op, operands)),
        Mnemonic::Branch { op } => branch(alloc, op, operands),
        Mnemonic::Jal => jump(alloc, operands),
        Mnemonic::Jalr => one(jump_register(operands)),
        Mnemonic::Lui => one(load_upper(operands)),
        Mnemonic::Auipc => one(add_upper(operands)),
        Mnemonic::Fence => one(alone(WHOLE_FENCE, operands)),
        Mnemonic::Ecall => one(alone(Instr::Ecall, operands)),
        Mnemonic::Ebreak => one(alone(Instr::Ebreak, operands)),
        Mnemonic::Nop => one(alone(NO_OPERATION, operands)),
        Mnemonic::Mv => one(copy(operands)),
        Mnemonic::J => plain_jump(alloc, operands),
        Mnemonic::Ret => one(alone(RETURN, operands)),
        Mnemonic::Li => item_or_fail(load_number(operands)),
        Mnemonic::WaitJob => item_or_fail(wait(operands)),
        Mnemonic::Code => item_or_fail(raw(operands)),
        Mnemonic::Word => item_or_fail(shared_word(operands)),
    }
}
