//! Lines with what they say, worked out by hand.

use crate::{Item, Line, LineFail, Target, read_line};
use em_isa::Instr;
use std::alloc::Global;
use std::test::Fail;

/// The one instruction that a line without a label says.
fn one(alloc: Global, text: &str) -> Option<Instr> {
    match read_line(alloc, text) {
        Ok(
            Line {
                label: None,
                item: Item::One(instruction),
            },
        ) => Some(instruction),
        _ => None,
    }
}

#[test]
fn blanks_stand_around_operands(rt: HostRuntime) {
    let want = Instr::Load {
        op: 2,
        rd: 10,
        rs1: 11,
        imm: 16,
    };
    assert_eq!(rt; one(rt.alloc(), "\tlw a0 ,\t0x10 ( a1\t) # x"), Some(want));
}

/// The label of a line, and whether it says `beq a0, a1` with the label as its target.
fn names_itself(line: &Line, name: &str) -> bool {
    match (&line.label, &line.item) {
        (
            Some(label),
            Item::Branch {
                op: 0,
                rs1: 10,
                rs2: 11,
                target: Target::Label(target),
            },
        ) => label.as_str() == name && target.as_str() == name,
        _ => false,
    }
}

#[test]
fn labels_are_copied(rt: HostRuntime) -> Result<(), Fail> {
    let line = read_line(rt.alloc(), " .L9_:beq a0, a1, .L9_")?;
    assert!(rt; names_itself(&line, ".L9_"));
    Ok(())
}

/// The code with which a line is refused: 0 where it is read or memory runs out.
fn code_of(alloc: Global, text: &str) -> u16 {
    match read_line(alloc, text) {
        Err(LineFail::Code(code)) => code,
        _ => 0,
    }
}

#[test]
fn the_first_fault_is_reported(rt: HostRuntime) {
    let alloc = rt.alloc();
    for (text, want) in [
        ("a-b: foo", 5),
        ("foo q9, 4294967296", 1),
        ("add x1, x2", 2),
        ("addi q9, a0 a1, 5", 3),
        ("addi a0, a0, 2048", 4),
    ] {
        assert_eq!(rt; code_of(alloc, text), want, "{text}");
    }
}
