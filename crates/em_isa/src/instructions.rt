//! The instructions of RV32I, taken apart into their fields.

/// An instruction of RV32I, as its fields.
///
/// `rd` is the register that is written, and `rs1` and `rs2` are those that are read, each from 0 to 31; `op` is the
/// instruction's funct3. Immediates and offsets are the numbers that they stand for, with their sign; offsets are in
/// bytes, from the address of the instruction itself. The sections named are those of the RISC-V unprivileged manual's
/// chapter "RV32I Base Integer Instruction Set". [`crate::fits`] tells whether each field is in its range.
#[derive(Clone, Copy, Debug, PartialEq, Eq)]
pub enum Instr {
    /// `lui` ("Integer Register-Immediate Instructions"): writes `imm`, which is below 2^20, shifted left by 12.
    Lui {
        rd: u8,
        imm: u32,
    },
    /// `auipc` ("Integer Register-Immediate Instructions"): writes its own address plus `imm`, which is below 2^20,
    /// shifted left by 12.
    Auipc {
        rd: u8,
        imm: u32,
    },
    /// `jal` ("Unconditional Jumps").
    Jal {
        rd: u8,
        /// Even, from -1048576 to 1048574.
        offset: i32,
    },
    /// `jalr` ("Unconditional Jumps"): goes to `rs1` plus `imm`, with bit 0 cleared.
    Jalr {
        rd: u8,
        rs1: u8,
        /// From -2048 to 2047.
        imm: i32,
    },
    /// `beq`, `bne`, `blt`, `bge`, `bltu` and `bgeu`, with an `op` of 0, 1, 4, 5, 6 and 7 ("Conditional Branches").
    Branch {
        op: u8,
        rs1: u8,
        rs2: u8,
        /// Even, from -4096 to 4094.
        offset: i32,
    },
    /// `lb`, `lh`, `lw`, `lbu` and `lhu`, with an `op` of 0, 1, 2, 4 and 5 ("Load and Store Instructions").
    Load {
        op: u8,
        rd: u8,
        rs1: u8,
        /// From -2048 to 2047.
        imm: i32,
    },
    /// `sb`, `sh` and `sw`, with an `op` of 0, 1 and 2 ("Load and Store Instructions").
    Store {
        op: u8,
        rs1: u8,
        rs2: u8,
        /// From -2048 to 2047.
        imm: i32,
    },
    /// `addi`, `slli`, `slti`, `sltiu`, `xori`, `srli` and `srai`, `ori` and `andi`, with an `op` of 0 to 7 ("Integer
    /// Register-Immediate Instructions").
    OpImm {
        op: u8,
        /// Tells `srai`, where it is true, from `srli`; false with every other `op`.
        alt: bool,
        rd: u8,
        rs1: u8,
        /// From 0 to 31 for the shifts, and from -2048 to 2047 for the others.
        imm: i32,
    },
    /// `add` and `sub`, `sll`, `slt`, `sltu`, `xor`, `srl` and `sra`, `or` and `and`, with an `op` of 0 to 7 ("Integer
    /// Register-Register Operations").
    Op {
        op: u8,
        /// Tells `sub` from `add` and `sra` from `srl`, where it is true; false with every other `op`.
        alt: bool,
        rd: u8,
        rs1: u8,
        rs2: u8,
    },
    /// `fence` ("Memory Ordering Instructions"): the fields say which accesses are ordered, and are all kept.
    Fence {
        rd: u8,
        rs1: u8,
        /// The mode and the two sets of accesses, as one signed number: from -2048 to 2047.
        imm: i32,
    },
    /// `ecall` ("Environment Call and Breakpoints").
    Ecall,
    /// `ebreak` ("Environment Call and Breakpoints").
    Ebreak,
}
