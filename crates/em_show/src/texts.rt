//! Instructions as text.
ghost use Rattle.std.specs.Prelude.{◌≡◌, ◌++◌, [], ◌∷◌, IfOk, OnOk, string_bytes};
ghost use Rattle.em_isa.specs.Encoding.{Fits, word_of};
ghost use Rattle.em_show.specs.Back.{ReadsBack};
ghost use Rattle.em_show.specs.Show.{address_text, hexadecimal, raw_text, register_text, statement_text, text_of};

use crate::laws::reads_back;
use crate::names::{branch_name, immediate_name, load_name, operation_name, store_name};
use em_base::NoMemory;
use em_isa::{Instr, encode};
use std::alloc::Global;
use std::fmt::Write;

/// The text of an instruction, with registers as `x0` to `x31`, and immediates and offsets in decimal. A fence with other
/// fields than those of `fence` is `.code 0x` and its word in 8 digits. Its only refusal is `NoMemory`.
pub fn show(alloc: Global, i: &Instr) -> Result<String, NoMemory>
    requires { Fits i.now }
    ensures text { IfOk result (λ text. string_bytes text ≡ text_of i.now) }
    ensures back { IfOk result (λ text. ReadsBack (string_bytes text) (word_of i.now)) }
{
    reads_back();
    let mut text = String::new(alloc);
    put_instruction(&mut text, i)?;
    Ok(text)
}

/// Puts the text of an instruction at the end.
pub(crate) fn put_instruction(text: &mut String, i: &Instr) -> Result<(), NoMemory>
    requires { Fits i.now }
    ensures { OnOk result (string_bytes text.new ≡ string_bytes text.old ++ text_of i.now) }
{
    match *i {
        Instr::Lui { rd, imm } => write!(text, "lui x{rd}, {imm}")?,
        Instr::Auipc { rd, imm } => write!(text, "auipc x{rd}, {imm}")?,
        Instr::Jal { rd, offset } => write!(text, "jal x{rd}, {offset}")?,
        Instr::Jalr { rd, rs1, imm } => put_access(text, "jalr", rd, imm, rs1)?,
        Instr::Branch {
            op,
            rs1,
            rs2,
            offset,
        } => write!(text, "{} x{rs1}, x{rs2}, {offset}", branch_name(op))?,
        Instr::Load { op, rd, rs1, imm } => put_access(text, load_name(op), rd, imm, rs1)?,
        Instr::Store { op, rs1, rs2, imm } => put_access(text, store_name(op), rs2, imm, rs1)?,
        Instr::OpImm {
            op,
            alt,
            rd,
            rs1,
            imm,
        } => write!(text, "{} x{rd}, x{rs1}, {imm}", immediate_name(op, alt))?,
        Instr::Op {
            op,
            alt,
            rd,
            rs1,
            rs2,
        } => write!(text, "{} x{rd}, x{rs1}, x{rs2}", operation_name(op, alt))?,
        Instr::Fence { rd, rs1, imm } => put_fence(text, rd, rs1, imm)?,
        Instr::Ecall => write!(text, "ecall")?,
        Instr::Ebreak => write!(text, "ebreak")?,
    }
    Ok(())
}

/// Puts a mnemonic, a register and an address at the end, which is a base and what is added to it.
fn put_access(text: &mut String, name: &str, r: u8, imm: i32, base: u8) -> Result<(), NoMemory>
    ensures { let operands = register_text r ∷ address_text imm base ∷ [] in
        OnOk result (string_bytes text.new ≡ string_bytes text.old ++ statement_text name.now operands) }
{
    write!(text, "{name} x{r}, {imm}(x{base})")?;
    Ok(())
}

/// Puts a fence at the end: by its name where it has the fields of `fence`, and else as its word.
fn put_fence(text: &mut String, rd: u8, rs1: u8, imm: i32) -> Result<(), NoMemory>
    requires { Fits (Instr.Fence rd rs1 imm) }
    ensures { let fence = text_of (Instr.Fence rd rs1 imm) in
        OnOk result (string_bytes text.new ≡ string_bytes text.old ++ fence) }
{
    if rd == 0 && rs1 == 0 && imm == 255 {
        write!(text, "fence")?;
        return Ok(());
    }
    put_raw(text, encode(&Instr::Fence { rd, rs1, imm }))
}

/// Puts a code word at the end as a number.
pub(crate) fn put_raw(text: &mut String, word: u32) -> Result<(), NoMemory>
    ensures { OnOk result (string_bytes text.new ≡ string_bytes text.old ++ raw_text word) }
{
    write!(text, ".code 0x")?;
    put_hexadecimal(text, word)
}

/// Puts a number at the end in 8 hexadecimal digits, in lower case.
pub(crate) fn put_hexadecimal(text: &mut String, number: u32) -> Result<(), NoMemory>
    ensures { OnOk result (string_bytes text.new
        ≡ string_bytes text.old ++ hexadecimal number) }
{
    write!(text, "{number:08x}")?;
    Ok(())
}
