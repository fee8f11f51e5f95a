//! The words of GNU as with the texts that its disassembler has for them, in this project's form. Four fences, which are
//! written as their words, have a text of this project's own.

use crate::{listing, show};
use em_base::{Image, Items, NoMemory};
use em_isa::decode;
use std::alloc::Global;
use std::process::Abort;
use std::test::Fail;

/// Instructions: the word, and its text.
const SHOWN: [(u32, &str); 46] = [
    (0x80000537, "lui x10, 524288"),
    (0xffffff97, "auipc x31, 1048575"),
    (0x800000ef, "jal x1, -1048576"),
    (0x7ffff06f, "jal x0, 1048574"),
    (0x800280e7, "jalr x1, -2048(x5)"),
    (0x80628063, "beq x5, x6, -4096"),
    (0x7ff01fe3, "bne x0, x31, 4094"),
    (0x00b54163, "blt x10, x11, 2"),
    (0xfeb55fe3, "bge x10, x11, -2"),
    (0x0020e463, "bltu x1, x2, 8"),
    (0x00117063, "bgeu x2, x1, 0"),
    (0x00020183, "lb x3, 0(x4)"),
    (0xfff21183, "lh x3, -1(x4)"),
    (0x7ff22183, "lw x3, 2047(x4)"),
    (0x00124183, "lbu x3, 1(x4)"),
    (0x00225183, "lhu x3, 2(x4)"),
    (0x81f08023, "sb x31, -2048(x1)"),
    (0xfe901fa3, "sh x9, -1(x0)"),
    (0x00512623, "sw x5, 12(x2)"),
    (0x7ff00513, "addi x10, x0, 2047"),
    (0x00000013, "addi x0, x0, 0"),
    (0x01f41393, "slli x7, x8, 31"),
    (0x80042393, "slti x7, x8, -2048"),
    (0xfff43393, "sltiu x7, x8, -1"),
    (0xfff44393, "xori x7, x8, -1"),
    (0x00045393, "srli x7, x8, 0"),
    (0x40145393, "srai x7, x8, 1"),
    (0x0ff46393, "ori x7, x8, 255"),
    (0x06447393, "andi x7, x8, 100"),
    (0x003100b3, "add x1, x2, x3"),
    (0x403100b3, "sub x1, x2, x3"),
    (0x00629233, "sll x4, x5, x6"),
    (0x0062a233, "slt x4, x5, x6"),
    (0x0062b233, "sltu x4, x5, x6"),
    (0x009443b3, "xor x7, x8, x9"),
    (0x00c5d533, "srl x10, x11, x12"),
    (0x40f756b3, "sra x13, x14, x15"),
    (0x0128e833, "or x16, x17, x18"),
    (0x01ea79b3, "and x19, x20, x30"),
    (0x0ff0000f, "fence"),
    (0x0330000f, ".code 0x0330000f"),
    (0x8330000f, ".code 0x8330000f"),
    (0x0ff0008f, ".code 0x0ff0008f"),
    (0x0ff0800f, ".code 0x0ff0800f"),
    (0x00000073, "ecall"),
    (0x00100073, "ebreak"),
];

/// The word is an instruction, and this is its text.
fn expect(rt: &impl Abort, alloc: Global, word: u32, text: &str) -> Result<(), Fail> {
    match decode(word) {
        Some(instruction) => {
            assert_eq!(rt; show(alloc, &instruction)?.as_str(), text, "{word}");
        }
        None => assert!(rt; false, "{word}"),
    }
    Ok(())
}

#[test]
fn instructions_have_their_texts(rt: HostRuntime) -> Result<(), Fail> {
    let alloc = rt.alloc();
    for (word, text) in SHOWN {
        expect(&rt, alloc, word, text)?;
    }
    Ok(())
}

/// The listing of three code words.
fn listing_of_three(
    alloc: Global,
    first: u32,
    second: u32,
    third: u32,
) -> Result<String, NoMemory> {
    let mut words = Items::new(alloc);
    words.push(alloc, first)?;
    words.push(alloc, second)?;
    words.push(alloc, third)?;
    listing(
        alloc,
        &Image {
            words,
            shared: Items::new(alloc),
            waits: Items::new(alloc),
            labels: Items::new(alloc),
        },
    )
}

#[test]
fn words_of_no_instruction_are_listed_as_numbers(rt: HostRuntime) -> Result<(), Fail> {
    let alloc = rt.alloc();
    // The second is a word of an extension, and the third is reserved: neither is an instruction of RV32I.
    assert_eq!(rt;
        listing_of_three(alloc, 0x00a00513, 0x02c58533, 0xffffffff)?.as_str(),
        "00000000: 00a00513 addi x10, x0, 10\n00000004: 02c58533 .code 0x02c58533\n00000008: ffffffff .code 0xffffffff\n"
    );
    Ok(())
}
