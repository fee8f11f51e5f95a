//! Words and what they come to, by hand from the manual.

ghost use Rattle.std.specs.Prelude.{◌≡◌, length, IfOk};
ghost use Rattle.em_hart.specs.Hart.{own_base, shared_base};

use crate::{Class, OWN_BASE, Regs, SHARED_BASE, Stepped, Window, step, value};
use em_base::NoMemory;
use em_isa::decode;
use std::alloc::Global;
use std::process::Abort;
use std::test::Fail;

const PLAIN: Stepped = Stepped::Ran(Class::Plain);

const MEMORY: Stepped = Stepped::Ran(Class::Memory);

/// The words with which the own window of 12 bytes begins.
const OWN: [u32; 2] = [0x8483_8281, 0x0403_0201];

/// The word of the shared window.
const SHARED: [u32; 1] = [0xdead_beef];

/// What x2 holds before a store.
const STORED: u32 = 0x1234_5678;

/// The text of a word at the address 8, the word, x1 and x2; then x3.
const COMPUTED: [(&str, u32, u32, u32, u32); 45] = [
    ("add x3, x1, x2", 0x0020_81b3, 5, 0xffff_ffff, 4),
    ("add x3, x1, x2", 0x0020_81b3, 0x7fff_ffff, 1, 0x8000_0000),
    ("sub x3, x1, x2", 0x4020_81b3, 3, 5, 0xffff_fffe),
    ("sll x3, x1, x2", 0x0020_91b3, 5, 0, 5),
    ("sll x3, x1, x2", 0x0020_91b3, 3, 0x1f, 0x8000_0000),
    ("sll x3, x1, x2", 0x0020_91b3, 3, 0x21, 6),
    ("slt x3, x1, x2", 0x0020_a1b3, 0xffff_ffff, 0, 1),
    ("slt x3, x1, x2", 0x0020_a1b3, 0x8000_0000, 0x7fff_ffff, 1),
    ("slt x3, x1, x2", 0x0020_a1b3, 0x7fff_ffff, 0x8000_0000, 0),
    ("slt x3, x1, x2", 0x0020_a1b3, 0x8000_0000, 0x8000_0000, 0),
    ("sltu x3, x1, x2", 0x0020_b1b3, 0xffff_ffff, 0, 0),
    ("sltu x3, x1, x2", 0x0020_b1b3, 0x7fff_ffff, 0x8000_0000, 1),
    ("xor x3, x1, x2", 0x0020_c1b3, 0xff00, 0xff0, 0xf0f0),
    ("srl x3, x1, x2", 0x0020_d1b3, 0x8000_0000, 0x1f, 1),
    ("srl x3, x1, x2", 0x0020_d1b3, 0x81, 0x20, 0x81),
    (
        "sra x3, x1, x2",
        0x4020_d1b3,
        0x8000_0000,
        0x1f,
        0xffff_ffff,
    ),
    ("sra x3, x1, x2", 0x4020_d1b3, 0x8000_0000, 4, 0xf800_0000),
    ("sra x3, x1, x2", 0x4020_d1b3, 0x7fff_ffff, 0x1f, 0),
    (
        "sra x3, x1, x2",
        0x4020_d1b3,
        0x8000_0001,
        0x20,
        0x8000_0001,
    ),
    ("or x3, x1, x2", 0x0020_e1b3, 0xff00, 0xff0, 0xfff0),
    ("and x3, x1, x2", 0x0020_f1b3, 0xff00, 0xff0, 0xf00),
    ("addi x3, x1, -1", 0xfff0_8193, 0, 0, 0xffff_ffff),
    ("addi x3, x1, 2047", 0x7ff0_8193, 1, 0, 0x800),
    ("addi x3, x1, -2048", 0x8000_8193, 0, 0, 0xffff_f800),
    ("slti x3, x1, -1", 0xfff0_a193, 0xffff_fffe, 0, 1),
    ("slti x3, x1, -1", 0xfff0_a193, 0, 0, 0),
    ("slti x3, x1, 0", 0xa193, 0x8000_0000, 0, 1),
    ("sltiu x3, x1, -1", 0xfff0_b193, 0xffff_fffe, 0, 1),
    ("sltiu x3, x1, -1", 0xfff0_b193, 0xffff_ffff, 0, 0),
    ("sltiu x3, x1, 1", 0x0010_b193, 0, 0, 1),
    ("xori x3, x1, -1", 0xfff0_c193, 0x0f0f_0f0f, 0, 0xf0f0_f0f0),
    ("ori x3, x1, 2032", 0x7f00_e193, 0xf, 0, 0x7ff),
    ("andi x3, x1, -16", 0xff00_f193, 0x1234_5678, 0, 0x1234_5670),
    ("slli x3, x1, 0", 0x9193, 0x1234_5678, 0, 0x1234_5678),
    ("slli x3, x1, 31", 0x01f0_9193, 3, 0, 0x8000_0000),
    ("srli x3, x1, 0", 0xd193, 0x8000_0001, 0, 0x8000_0001),
    ("srli x3, x1, 31", 0x01f0_d193, 0x8000_0000, 0, 1),
    ("srai x3, x1, 0", 0x4000_d193, 0x8000_0001, 0, 0x8000_0001),
    ("srai x3, x1, 31", 0x41f0_d193, 0x8000_0000, 0, 0xffff_ffff),
    ("srai x3, x1, 1", 0x4010_d193, 0x4000_0000, 0, 0x2000_0000),
    ("lui x3, 0xfffff", 0xffff_f1b7, 0, 0, 0xffff_f000),
    ("lui x3, 1", 0x11b7, 0, 0, 0x1000),
    ("auipc x3, 1", 0x1197, 0, 0, 0x1008),
    ("addi x0, x1, 5", 0x0050_8013, 9, 0, 0x33),
    ("fence", 0x0ff0_000f, 0, 0, 0x33),
];

/// The text of a word at the address 8, the word, x1 and x2; then x3, which was 0x33, and the pc.
const TRANSFERS: [(&str, u32, u32, u32, u32, u32); 22] = [
    ("jal x3, 16", 0x0100_01ef, 0, 0, 0xc, 0x18),
    ("jal x3, -8", 0xff9f_f1ef, 0, 0, 0xc, 0),
    ("jal x3, -16", 0xff1f_f1ef, 0, 0, 0xc, 0xffff_fff8),
    ("jal x0, 16", 0x0100_006f, 0, 0, 0x33, 0x18),
    ("jalr x3, 3(x1)", 0x0030_81e7, 0x101, 0, 0xc, 0x104),
    ("jalr x3, 5(x1)", 0x0050_81e7, 0xffff_ffff, 0, 0xc, 4),
    ("jalr x3, -4(x1)", 0xffc0_81e7, 0x20, 0, 0xc, 0x1c),
    ("beq x1, x2, -8", 0xfe20_8ce3, 6, 6, 0x33, 0),
    ("beq x1, x2, -8", 0xfe20_8ce3, 6, 7, 0x33, 0xc),
    ("beq x1, x2, 6", 0x0020_8363, 6, 7, 0x33, 0xc),
    ("bne x1, x2, 16", 0x0020_9863, 6, 7, 0x33, 0x18),
    ("bne x1, x2, 16", 0x0020_9863, 6, 6, 0x33, 0xc),
    ("blt x1, x2, 16", 0x0020_c863, 0xffff_ffff, 0, 0x33, 0x18),
    ("blt x1, x2, 16", 0x0020_c863, 0, 0xffff_ffff, 0x33, 0xc),
    ("blt x1, x2, 16", 0x0020_c863, 0x8000_0000, 1, 0x33, 0x18),
    ("bge x1, x2, 16", 0x0020_d863, 5, 5, 0x33, 0x18),
    ("bge x1, x2, 16", 0x0020_d863, 0xffff_ffff, 0, 0x33, 0xc),
    ("bltu x1, x2, 16", 0x0020_e863, 0, 0xffff_ffff, 0x33, 0x18),
    ("bltu x1, x2, 16", 0x0020_e863, 0xffff_ffff, 0, 0x33, 0xc),
    ("bgeu x1, x2, 16", 0x0020_f863, 0xffff_ffff, 0, 0x33, 0x18),
    ("bgeu x1, x2, 16", 0x0020_f863, 7, 8, 0x33, 0xc),
    ("bgeu x1, x2, 16", 0x0020_f863, 8, 8, 0x33, 0x18),
];

/// The text of a load, its word and x1; then x3, which was 0x33.
const LOADS: [(&str, u32, u32, u32); 12] = [
    ("lb x3, 0(x1)", 0x8183, 0x1000_0000, 0xffff_ff81),
    ("lb x3, 4(x1)", 0x0040_8183, 0x1000_0000, 1),
    ("lb x3, 11(x1)", 0x00b0_8183, 0x1000_0000, 0),
    ("lbu x3, 0(x1)", 0xc183, 0x1000_0000, 0x81),
    ("lh x3, 0(x1)", 0x9183, 0x1000_0000, 0xffff_8281),
    ("lh x3, 4(x1)", 0x0040_9183, 0x1000_0000, 0x201),
    ("lhu x3, 2(x1)", 0x0020_d183, 0x1000_0000, 0x8483),
    ("lw x3, 0(x1)", 0xa183, 0x1000_0000, 0x8483_8281),
    ("lw x3, -4(x1)", 0xffc0_a183, 0x1000_0008, 0x0403_0201),
    ("lw x3, 8(x1)", 0x0080_a183, 0x1000_0000, 0),
    ("lw x3, 0(x1)", 0xa183, 0x2000_0000, 0xdead_beef),
    ("lw x0, 0(x1)", 0xa003, 0x1000_0000, 0x33),
];

/// The text of a store, its word and x1; then the place of the word that changes, 0 to 2 in the own window or 3 for the
/// shared one, and that word.
const STORES: [(&str, u32, u32, usize, u32); 9] = [
    ("sb x2, 0(x1)", 0x0020_8023, 0x1000_0000, 0, 0x8483_8278),
    ("sb x2, 3(x1)", 0x0020_81a3, 0x1000_0000, 0, 0x7883_8281),
    ("sb x2, 11(x1)", 0x0020_85a3, 0x1000_0000, 2, 0x7800_0000),
    ("sh x2, 2(x1)", 0x0020_9123, 0x1000_0000, 0, 0x5678_8281),
    ("sh x2, 10(x1)", 0x0020_9523, 0x1000_0000, 2, 0x5678_0000),
    ("sw x2, 4(x1)", 0x0020_a223, 0x1000_0000, 1, 0x1234_5678),
    ("sw x2, -4(x1)", 0xfe20_ae23, 0x1000_000c, 2, 0x1234_5678),
    ("sw x2, 0(x1)", 0x0020_a023, 0x2000_0000, 3, 0x1234_5678),
    ("sb x2, 1(x1)", 0x0020_80a3, 0x2000_0000, 3, 0xdead_78ef),
];

/// The text of a word at the address 8, the word, x1 and x2; then the cause.
const FAULTS: [(&str, u32, u32, u32, u8); 22] = [
    ("jal x3, 2", 0x0020_01ef, 0, 0, 1),
    ("jalr x3, 3(x1)", 0x0030_81e7, 0x100, 0, 1),
    ("beq x1, x2, 6", 0x0020_8363, 6, 6, 1),
    ("lb x3, 12(x1)", 0x00c0_8183, 0x1000_0000, 0, 5),
    ("lb x3, -1(x1)", 0xfff0_8183, 0x1000_0000, 0, 5),
    ("lh x3, 1(x1)", 0x0010_9183, 0x1000_0000, 0, 4),
    ("lw x3, 12(x1)", 0x00c0_a183, 0x1000_0000, 0, 5),
    ("lw x3, 14(x1)", 0x00e0_a183, 0x1000_0000, 0, 4),
    ("lw x3, 2(x1)", 0x0020_a183, 0x1000_0000, 0, 4),
    ("lw x3, 4(x1)", 0x0040_a183, 0x2000_0000, 0, 5),
    ("lw x3, 0(x1)", 0xa183, 0, 0, 5),
    ("lw x3, -4(x1)", 0xffc0_a183, 0, 0, 5),
    ("sb x2, 12(x1)", 0x0020_8623, 0x1000_0000, 1, 5),
    ("sh x2, 3(x1)", 0x0020_91a3, 0x1000_0000, 1, 4),
    ("sw x2, 12(x1)", 0x0020_a623, 0x1000_0000, 1, 5),
    ("sw x2, 13(x1)", 0x0020_a6a3, 0x1000_0000, 1, 4),
    ("fence.i", 0x100f, 0, 0, 3),
    ("ebreak", 0x0010_0073, 0, 0, 6),
    ("mul x3, x1, x2", 0x0220_81b3, 2, 3, 3),
    ("slli with funct7 1", 0x0210_9193, 1, 0, 3),
    ("a word of zeros", 0, 0, 0, 3),
    ("a word of ones", 0xffff_ffff, 0, 0, 3),
];

/// The text of a word, the word and its address; then the answer, x3, which was 0x33, and the pc.
const PLACES: [(&str, u32, u32, Stepped, u32, u32); 6] = [
    ("ecall", 0x73, 8, Stepped::Call, 0x33, 8),
    ("auipc x3, 0xfffff", 0xffff_f197, 0x1004, PLAIN, 4, 0x1008),
    ("nop", 0x13, 0x1ffc, PLAIN, 0x33, 0x2000),
    ("nop", 0x13, 0x2000, Stepped::Fault(2), 0x33, 0x2000),
    ("nop", 0x13, 10, Stepped::Fault(2), 0x33, 10),
    (
        "nop",
        0x13,
        0xffff_fffc,
        Stepped::Fault(2),
        0x33,
        0xffff_fffc,
    ),
];

/// The text of a word, the word, its address, a and b; then the value that it writes.
const VALUES: [(&str, u32, u32, u32, u32, Option<u32>); 8] = [
    ("addi x0, x1, 5", 0x0050_8013, 8, 9, 0, Some(14)),
    ("sub x3, x1, x2", 0x4020_81b3, 8, 3, 5, Some(0xffff_fffe)),
    ("lui x3, 1", 0x0000_11b7, 8, 0, 0, Some(0x1000)),
    ("auipc x3, 0xfffff", 0xffff_f197, 0x1004, 0, 0, Some(4)),
    ("jal x3, 2", 0x0020_01ef, 8, 0, 0, Some(12)),
    ("jalr x3, 3(x1)", 0x0030_81e7, 8, 0x101, 0, None),
    ("beq x1, x2, -8", 0xfe20_8ce3, 8, 6, 6, None),
    ("lw x3, 8(x1)", 0x0080_a183, 8, 0x1000_0000, 0, None),
];

/// A word among the 2,048 words of a code that has `nop` elsewhere, what stands before it, and what stands after it.
#[derive(Clone, Copy)]
struct Case {
    text: &'static str,
    pc: u32,
    word: u32,
    x1: u32,
    x2: u32,
    answer: Stepped,
    x3: u32,
    next: u32,
}

/// A machine with these registers and x3 = 0x33, and its two windows.
fn machine(alloc: Global, pc: u32, x1: u32, x2: u32) -> Result<(Regs, Window, Window), NoMemory>
    ensures { IfOk result (λ m. (m.1.base ≡ own_base) × (length m.1.bytes ≡ 12)
        × (m.2.base ≡ shared_base) × (length m.2.bytes ≡ 4)) }
{
    let mut regs = Regs::new(pc);
    regs.set(1, x1);
    regs.set(2, x2);
    regs.set(3, 0x33);
    let own = Window::new(alloc, OWN_BASE, &OWN, 12)?;
    let shared = Window::new(alloc, SHARED_BASE, &SHARED, 4)?;
    Ok((regs, own, shared))
}

/// After the word there are the answer, x3 and the pc, and no window has changed.
fn expect(rt: &impl Abort, alloc: Global, case: &Case) -> Result<(), Fail> {
    let text = case.text;
    let (mut regs, mut own, mut shared) = machine(alloc, case.pc, case.x1, case.x2)?;
    let mut code = vec![in alloc; 0x13; 2048]?;
    let place = (case.pc / 4) as usize;
    if place < code.len() {
        code[place] = case.word;
    }
    assert_eq!(rt; code.len(), 2048);
    let answer = step(&mut regs, &mut own, &mut shared, &code);
    assert_eq!(rt; answer, case.answer, "{text}");
    assert_eq!(rt; regs.get(3), case.x3, "{text}");
    assert_eq!(rt; regs.pc(), case.next, "{text}");
    assert_eq!(rt; regs.get(0), 0, "{text}");
    assert_eq!(rt; own.word_at(0), OWN[0], "{text}");
    assert_eq!(rt; shared.word_at(0), SHARED[0], "{text}");
    Ok(())
}

/// A word at the address 8 that changes nothing, until its case says more.
fn at_8(text: &'static str, word: u32, x1: u32, x2: u32, answer: Stepped) -> Case {
    Case {
        text,
        pc: 8,
        word,
        x1,
        x2,
        answer,
        x3: 0x33,
        next: 8,
    }
}

/// The store changes the word at the place alone, 0 to 2 in the own window or 3 for the shared one.
fn expect_store(
    rt: &impl Abort,
    alloc: Global,
    text: &str,
    word: u32,
    x1: u32,
    place: usize,
    changed: u32,
) -> Result<(), Fail> {
    let mut words = [OWN[0], OWN[1], 0, SHARED[0]];
    assert!(rt; place < 4);
    words[place] = changed;
    let (mut regs, mut own, mut shared) = machine(alloc, 0, x1, STORED)?;
    let answer = step(&mut regs, &mut own, &mut shared, &[word]);
    assert_eq!(rt; answer, MEMORY, "{text}");
    assert_eq!(rt; regs.pc(), 4, "{text}");
    assert_eq!(rt; own.word_at(0), words[0], "{text}");
    assert_eq!(rt; own.word_at(1), words[1], "{text}");
    assert_eq!(rt; own.word_at(2), words[2], "{text}");
    assert_eq!(rt; shared.word_at(0), words[3], "{text}");
    Ok(())
}

#[test]
fn each_computation_and_transfer_with_its_edges(rt: HostRuntime) -> Result<(), Fail> {
    for (text, word, x1, x2, x3) in COMPUTED {
        let mut case = at_8(text, word, x1, x2, PLAIN);
        case.x3 = x3;
        case.next = 12;
        expect(&rt, rt.alloc(), &case)?;
    }
    for (text, word, x1, x2, x3, next) in TRANSFERS {
        let mut case = at_8(text, word, x1, x2, PLAIN);
        case.x3 = x3;
        case.next = next;
        expect(&rt, rt.alloc(), &case)?;
    }
    for (text, word, pc, a, b, wanted) in VALUES {
        let Some(i) = decode(word) else {
            panic!(rt; "{text}");
        };
        assert_eq!(rt; value(&i, pc, a, b), wanted, "{text}");
    }
    Ok(())
}

#[test]
fn each_load_and_store_with_its_edges(rt: HostRuntime) -> Result<(), Fail> {
    for (text, word, x1, x3) in LOADS {
        let mut case = at_8(text, word, x1, 0, MEMORY);
        case.x3 = x3;
        case.next = 12;
        expect(&rt, rt.alloc(), &case)?;
    }
    for (text, word, x1, place, changed) in STORES {
        expect_store(&rt, rt.alloc(), text, word, x1, place, changed)?;
    }
    Ok(())
}

#[test]
fn each_fault_and_the_ends_of_the_code(rt: HostRuntime) -> Result<(), Fail> {
    for (text, word, x1, x2, cause) in FAULTS {
        let case = at_8(text, word, x1, x2, Stepped::Fault(cause));
        expect(&rt, rt.alloc(), &case)?;
    }
    for (text, word, pc, answer, x3, next) in PLACES {
        let mut case = at_8(text, word, 0, 0, answer);
        case.pc = pc;
        case.x3 = x3;
        case.next = next;
        expect(&rt, rt.alloc(), &case)?;
    }
    Ok(())
}

#[test]
fn a_window_and_a_pc_are_set(rt: HostRuntime) -> Result<(), Fail> {
    let (mut regs, mut own, _) = machine(rt.alloc(), 8, 0, 0)?;
    own.set_word(1, STORED);
    regs.jump(20);
    assert_eq!(rt; own.word_at(0), OWN[0]);
    assert_eq!(rt; own.word_at(1), STORED);
    assert_eq!(rt; own.word_at(2), 0);
    assert_eq!(rt; own.length(), 12);
    assert_eq!(rt; regs.pc(), 20);
    Ok(())
}
