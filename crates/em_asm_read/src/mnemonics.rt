//! The mnemonics of statements.
ghost use Rattle.std.specs.Prelude.{◌≡◌, map, IfSome};
ghost use Rattle.em_asm_read.specs.Fitting.{MnemonicFits};
ghost use Rattle.em_asm_read.specs.Mnemonics.{among, mnemonic_of};

/// What a mnemonic is. `op` and `alt` are the fields of the instruction that it stands for.
#[derive(Clone, Copy, Debug, PartialEq, Eq)]
pub enum Mnemonic {
    /// An operation over two registers, as `add`.
    Operation {
        /// Which operation.
        op: u8,
        /// Tells `sub` from `add` and `sra` from `srl`, where it is true.
        alt: bool,
    },
    /// An operation over a register and an immediate, as `addi`.
    Immediate {
        /// Which operation.
        op: u8,
        /// Tells `srai` from `srli`, where it is true.
        alt: bool,
    },
    /// A load, as `lw`.
    Load {
        /// Which width, and whether the sign is extended.
        op: u8,
    },
    /// A store, as `sw`.
    Store {
        /// Which width.
        op: u8,
    },
    /// A branch, as `beq`.
    Branch {
        /// Which comparison.
        op: u8,
    },
    /// `jal`.
    Jal,
    /// `jalr`.
    Jalr,
    /// `lui`.
    Lui,
    /// `auipc`.
    Auipc,
    /// `fence`.
    Fence,
    /// `ecall`.
    Ecall,
    /// `ebreak`.
    Ebreak,
    /// `nop`, which does nothing.
    Nop,
    /// `mv`, which copies a register.
    Mv,
    /// `j`, a jump that keeps no address.
    J,
    /// `ret`, a jump to the address in ra.
    Ret,
    /// `li`, which loads a number.
    Li,
    /// `waitjob`, the kernel call of that name.
    WaitJob,
    /// `.code`, a code word.
    Code,
    /// `.word`, a word of the shared window.
    Word,
}

/// Each mnemonic with its name.
const MNEMONICS: [(&str, Mnemonic); 48] = [
    ("add", Mnemonic::Operation { op: 0, alt: false }),
    ("sub", Mnemonic::Operation { op: 0, alt: true }),
    ("sll", Mnemonic::Operation { op: 1, alt: false }),
    ("slt", Mnemonic::Operation { op: 2, alt: false }),
    ("sltu", Mnemonic::Operation { op: 3, alt: false }),
    ("xor", Mnemonic::Operation { op: 4, alt: false }),
    ("srl", Mnemonic::Operation { op: 5, alt: false }),
    ("sra", Mnemonic::Operation { op: 5, alt: true }),
    ("or", Mnemonic::Operation { op: 6, alt: false }),
    ("and", Mnemonic::Operation { op: 7, alt: false }),
    ("addi", Mnemonic::Immediate { op: 0, alt: false }),
    ("slli", Mnemonic::Immediate { op: 1, alt: false }),
    ("slti", Mnemonic::Immediate { op: 2, alt: false }),
    ("sltiu", Mnemonic::Immediate { op: 3, alt: false }),
    ("xori", Mnemonic::Immediate { op: 4, alt: false }),
    ("srli", Mnemonic::Immediate { op: 5, alt: false }),
    ("srai", Mnemonic::Immediate { op: 5, alt: true }),
    ("ori", Mnemonic::Immediate { op: 6, alt: false }),
    ("andi", Mnemonic::Immediate { op: 7, alt: false }),
    ("lb", Mnemonic::Load { op: 0 }),
    ("lh", Mnemonic::Load { op: 1 }),
    ("lw", Mnemonic::Load { op: 2 }),
    ("lbu", Mnemonic::Load { op: 4 }),
    ("lhu", Mnemonic::Load { op: 5 }),
    ("sb", Mnemonic::Store { op: 0 }),
    ("sh", Mnemonic::Store { op: 1 }),
    ("sw", Mnemonic::Store { op: 2 }),
    ("beq", Mnemonic::Branch { op: 0 }),
    ("bne", Mnemonic::Branch { op: 1 }),
    ("blt", Mnemonic::Branch { op: 4 }),
    ("bge", Mnemonic::Branch { op: 5 }),
    ("bltu", Mnemonic::Branch { op: 6 }),
    ("bgeu", Mnemonic::Branch { op: 7 }),
    ("jal", Mnemonic::Jal),
    ("jalr", Mnemonic::Jalr),
    ("lui", Mnemonic::Lui),
    ("auipc", Mnemonic::Auipc),
    ("fence", Mnemonic::Fence),
    ("ecall", Mnemonic::Ecall),
    ("ebreak", Mnemonic::Ebreak),
    ("nop", Mnemonic::Nop),
    ("mv", Mnemonic::Mv),
    ("j", Mnemonic::J),
    ("ret", Mnemonic::Ret),
    ("li", Mnemonic::Li),
    ("waitjob", Mnemonic::WaitJob),
    (".code", Mnemonic::Code),
    (".word", Mnemonic::Word),
];

/// The mnemonic that the text is.
pub fn mnemonic_named(text: &[u8]) -> Option<Mnemonic>
    ensures value { result ≡ mnemonic_of text.now }
    ensures fits { IfSome result MnemonicFits }
{
    mnemonic_among(&MNEMONICS, text)
}

/// The first of the mnemonics whose name the text is.
fn mnemonic_among(rows: &[(&str, Mnemonic)], text: &[u8]) -> Option<Mnemonic>
    ensures { result ≡ among text.now (map (λ row. (row.0.now, row.1)) rows.now) }
{
    for row in rows {
        if row.0.as_bytes() == text {
            return Some(row.1);
        }
    }
    None
}
