//! The words of GNU as, and words that are no instruction.

use crate::{Instr, decode, encode, fits};
use std::process::Abort;

// One row a line: the variants with their fields in order.

fn lui(rd: u8, imm: u32) -> Instr {
    Instr::Lui { rd, imm }
}

fn auipc(rd: u8, imm: u32) -> Instr {
    Instr::Auipc { rd, imm }
}

fn jal(rd: u8, offset: i32) -> Instr {
    Instr::Jal { rd, offset }
}

fn jalr(rd: u8, rs1: u8, imm: i32) -> Instr {
    Instr::Jalr { rd, rs1, imm }
}

fn branch(op: u8, rs1: u8, rs2: u8, offset: i32) -> Instr {
    Instr::Branch {
        op,
        rs1,
        rs2,
        offset,
    }
}

fn load(op: u8, rd: u8, rs1: u8, imm: i32) -> Instr {
    Instr::Load { op, rd, rs1, imm }
}

fn store(op: u8, rs1: u8, rs2: u8, imm: i32) -> Instr {
    Instr::Store { op, rs1, rs2, imm }
}

fn op_imm(op: u8, alt: bool, rd: u8, rs1: u8, imm: i32) -> Instr {
    Instr::OpImm {
        op,
        alt,
        rd,
        rs1,
        imm,
    }
}

fn op(op: u8, alt: bool, rd: u8, rs1: u8, rs2: u8) -> Instr {
    Instr::Op {
        op,
        alt,
        rd,
        rs1,
        rs2,
    }
}

fn fence(rd: u8, rs1: u8, imm: i32) -> Instr {
    Instr::Fence { rd, rs1, imm }
}

/// The word is decoded as the instruction, which fits and is encoded as the word.
fn expect(rt: &impl Abort, word: u32, i: &Instr) {
    assert_eq!(rt; decode(word), Some(*i), "{word:#010x}");
    assert!(rt; fits(i), "{word:#010x}");
    assert_eq!(rt; encode(i), word, "{word:#010x}");
}

/// The words that GNU as (binutils 2.40, `-march=rv32i`) gives for the text beside them.
#[test]
fn words_of_transfers_and_accesses_are_those_of_the_assembler(rt: HostRuntime) {
    for (word, i) in [
        (0x0000_00b7, lui(1, 0)), // lui x1, 0
        (0xffff_ffb7, lui(31, 0xfffff)), // lui x31, 0xfffff
        (0x1234_5297, auipc(5, 0x12345)), // auipc x5, 0x12345
        (0x7fff_f06f, jal(0, 1048574)), // jal x0, .+1048574
        (0x8000_00ef, jal(1, -1048576)), // jal x1, .-1048576
        (0xffff_ffef, jal(31, -2)), // jal x31, .-2
        (0x0010_00ef, jal(1, 2048)), // jal x1, .+2048
        (0x0000_10ef, jal(1, 4096)), // jal x1, .+4096
        (0x0001_00e7, jalr(1, 2, 0)), // jalr x1, 0(x2)
        (0x800f_0fe7, jalr(31, 30, -2048)), // jalr x31, -2048(x30)
        (0x7ff0_8067, jalr(0, 1, 2047)), // jalr x0, 2047(x1)
        (0x7e20_8fe3, branch(0, 1, 2, 4094)), // beq x1, x2, .+4094
        (0x81ef_9063, branch(1, 31, 30, -4096)), // bne x31, x30, .-4096
        (0xfe41_cfe3, branch(4, 3, 4, -2)), // blt x3, x4, .-2
        (0x0062_d0e3, branch(5, 5, 6, 2048)), // bge x5, x6, .+2048
        (0x0083_ef63, branch(6, 7, 8, 30)), // bltu x7, x8, .+30
        (0xfea4_f0e3, branch(7, 9, 10, -32)), // bgeu x9, x10, .-32
        (0xfff1_0083, load(0, 1, 2, -1)), // lb x1, -1(x2)
        (0x7ff2_1183, load(1, 3, 4, 2047)), // lh x3, 2047(x4)
        (0x800f_af83, load(2, 31, 31, -2048)), // lw x31, -2048(x31)
        (0x0003_4283, load(4, 5, 6, 0)), // lbu x5, 0(x6)
        (0x0204_5383, load(5, 7, 8, 32)), // lhu x7, 32(x8)
        (0xfe11_0fa3, store(0, 2, 1, -1)), // sb x1, -1(x2)
        (0x7fff_1fa3, store(1, 30, 31, 2047)), // sh x31, 2047(x30)
        (0x8053_2023, store(2, 6, 5, -2048)), // sw x5, -2048(x6)
        (0x0053_2fa3, store(2, 6, 5, 31)), // sw x5, 31(x6)
    ] {
        expect(&rt, word, &i);
    }
}

/// The same. Of the last two fences the text gives each field, since GNU as has no mnemonic for them.
#[test]
fn words_of_operations_are_those_of_the_assembler(rt: HostRuntime) {
    for (word, i) in [
        (0xfff1_0093, op_imm(0, false, 1, 2, -1)), // addi x1, x2, -1
        (0x0000_0013, op_imm(0, false, 0, 0, 0)), // addi x0, x0, 0
        (0x8002_2193, op_imm(2, false, 3, 4, -2048)), // slti x3, x4, -2048
        (0x7ff3_3293, op_imm(3, false, 5, 6, 2047)), // sltiu x5, x6, 2047
        (0xfff4_4393, op_imm(4, false, 7, 8, -1)), // xori x7, x8, -1
        (0x4005_6493, op_imm(6, false, 9, 10, 1024)), // ori x9, x10, 1024
        (0x0ff6_7593, op_imm(7, false, 11, 12, 255)), // andi x11, x12, 255
        (0x0001_1093, op_imm(1, false, 1, 2, 0)), // slli x1, x2, 0
        (0x01f1_1093, op_imm(1, false, 1, 2, 31)), // slli x1, x2, 31
        (0x01f2_5193, op_imm(5, false, 3, 4, 31)), // srli x3, x4, 31
        (0x41f3_5293, op_imm(5, true, 5, 6, 31)), // srai x5, x6, 31
        (0x4003_5293, op_imm(5, true, 5, 6, 0)), // srai x5, x6, 0
        (0x0031_00b3, op(0, false, 1, 2, 3)), // add x1, x2, x3
        (0x4062_8233, op(0, true, 4, 5, 6)), // sub x4, x5, x6
        (0x0094_13b3, op(1, false, 7, 8, 9)), // sll x7, x8, x9
        (0x00c5_a533, op(2, false, 10, 11, 12)), // slt x10, x11, x12
        (0x00f7_36b3, op(3, false, 13, 14, 15)), // sltu x13, x14, x15
        (0x0128_c833, op(4, false, 16, 17, 18)), // xor x16, x17, x18
        (0x015a_59b3, op(5, false, 19, 20, 21)), // srl x19, x20, x21
        (0x418b_db33, op(5, true, 22, 23, 24)), // sra x22, x23, x24
        (0x01bd_6cb3, op(6, false, 25, 26, 27)), // or x25, x26, x27
        (0x01fe_fe33, op(7, false, 28, 29, 31)), // and x28, x29, x31
        (0x0ff0_000f, fence(0, 0, 255)), // fence
        (0x8330_000f, fence(0, 0, -1997)), // fence.tso
        (0x0310_000f, fence(0, 0, 49)), // fence rw, w
        (0x0000_0073, Instr::Ecall), // ecall
        (0x0010_0073, Instr::Ebreak), // ebreak
        (0xffff_0f8f, fence(31, 30, -1)), // .insn i 0x0f, 0, x31, x30, -1
        (0x7ff1_008f, fence(1, 2, 2047)), // .insn i 0x0f, 0, x1, x2, 2047
    ] {
        expect(&rt, word, &i);
    }
}

#[test]
fn other_words_are_no_instruction(rt: HostRuntime) {
    for word in [
        0x0000_0000, // all bits 0
        0xffff_ffff, // all bits 1
        0x0000_0001, // a compressed word
        0x0000_001b, // addiw of RV64I
        0x0000_1067, // opcode of jalr, funct3 1
        0x0000_2063, // opcode of branches, funct3 2
        0x0000_3063, // opcode of branches, funct3 3
        0x0000_3003, // ld of RV64I
        0x0000_6003, // lwu of RV64I
        0x0000_7003, // opcode of loads, funct3 7
        0x0000_3023, // sd of RV64I
        0x0000_7023, // opcode of stores, funct3 7
        0x0201_1093, // slli by 32 of RV64I
        0x41f1_1093, // slli with the upper bits of srai
        0x0201_5093, // srli by 32 of RV64I
        0x4201_5093, // srai by 32 of RV64I
        0x8001_5093, // srli with bit 31
        0x0231_00b3, // mul of RV32M
        0x4031_10b3, // sll with the funct7 of sra
        0x4031_70b3, // and with the funct7 of sub
        0x8031_00b3, // add with bit 31
        0x0000_100f, // fence.i of Zifencei
        0x3000_1073, // csrrw of Zicsr
        0x0020_0073, // uret
        0x3020_0073, // mret
        0x1050_0073, // wfi
        0x0000_00f3, // ecall with rd 1
        0x0010_8073, // ebreak with rs1 1
    ] {
        assert_eq!(rt; decode(word), None, "{word:#010x}");
    }
}

#[test]
fn fields_out_of_range_do_not_fit(rt: HostRuntime) {
    for i in [
        lui(32, 0),
        auipc(0, 0x100000),
        jal(0, 1048576),
        jal(0, -1048578),
        jal(0, 1),
        jalr(0, 32, 0),
        jalr(0, 0, 2048),
        branch(2, 0, 0, 0),
        branch(0, 0, 0, -4097),
        branch(0, 0, 0, 4096),
        load(3, 0, 0, 0),
        store(3, 0, 0, 0),
        store(0, 0, 32, 0),
        op_imm(5, false, 0, 0, 32),
        op_imm(1, false, 0, 0, -1),
        op_imm(1, true, 0, 0, 1),
        op_imm(8, false, 0, 0, 0),
        op(7, true, 0, 0, 0),
        fence(0, 0, -2049),
    ] {
        assert!(rt; !fits(&i), "{i:?}");
    }
}
