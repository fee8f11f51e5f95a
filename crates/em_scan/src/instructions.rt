//! What an instruction is in a private walk: what comes after it, and what it makes known.
ghost use Rattle.std.specs.Prelude.{◌≡◌, ◌<◌, ◌≤◌, ℕ, List, Option, None, is_some, length, if◌then◌else◌};
ghost use Rattle.em_isa.specs.Encoding.{Fits};
ghost use Rattle.em_hart.specs.Decoded as fields;
ghost use Rattle.em_hart.specs.Effect.{loads, sum};
ghost use Rattle.em_hart.specs.Instruction as hart;
ghost use Rattle.em_hart.specs.Widths.{bytes_in};
ghost use Rattle.em_scan.specs.Computed.{are_known, effect_at};
ghost use Rattle.em_scan.specs.Computed as spec_of;
ghost use Rattle.em_scan.specs.Known.{Known as KnownValues};
ghost use Rattle.em_scan.specs.Private as spec;

use crate::known::Known;
use crate::next::Next;
use em_base::SemId;
use em_hart::{OWN_BASE, value};
use em_isa::Instr;

/// How many semaphores there are, and how many bytes the own window has.
#[derive(Clone, Copy)]
pub(crate) struct Bounds {
    pub(crate) sems: u8,
    pub(crate) own: u32,
}

/// The number of acquire among the kernel's calls.
const ACQUIRE: u32 = 2;

/// Whether an address is inside the code.
pub(crate) fn is_inside_code(code: &[u32], address: u32) -> bool
    requires { length code.now ≤ 16384 }
    ensures { result ≡ hart.is_inside_code code.now address }
{
    address % 4 == 0 && (address as usize) < 4 * code.len()
}

/// Whether a transfer at `x` goes forward, to a place inside the code.
fn is_ahead(code: &[u32], x: u32, target: u32) -> bool
    requires { length code.now ≤ 16384 }
    ensures { result ≡ spec.is_ahead code.now x target }
{
    x < target && is_inside_code(code, target)
}

/// How many bytes the load with this funct3 reads.
#[tactic(auto, unfolding(em_hart::specs::Decoded::width_of))]
fn load_size(op: u8) -> u32
    ensures size { result ≡ bytes_in (fields.width_of op) }
    ensures some { 0 < result }
    ensures few { result ≤ 4 }
{
    match op % 4 {
        0 => 1,
        1 => 2,
        _ => 4,
    }
}

/// Whether the `n` bytes from an address on are inside an own window of `own` bytes.
fn is_inside_own(own: u32, n: u32, address: u32) -> bool
    requires { n ≤ 4 }
    ensures { result ≡ spec.is_inside_own own n address }
{
    OWN_BASE <= address && u64::from(address) + u64::from(n) <= u64::from(OWN_BASE) + u64::from(own)
}

/// What a call is whose a7 and a0 are known so.
fn acquire(sems: u8, number: Option<u32>, s: Option<u32>) -> Next
    ensures { result ≡ spec.acquire sems number s }
{
    let (Some(number), Some(s)) = (number, s) else {
        return Next::Stops;
    };
    if number == ACQUIRE && s < u32::from(sems) {
        Next::Takes(SemId(s as u8))
    } else {
        Next::Stops
    }
}

/// What comes after a jump from `x`.
fn after_jump(code: &[u32], x: u32, target: u32) -> Next
    requires { length code.now ≤ 16384 }
    ensures { result ≡ (if spec.is_ahead code.now x target then Next.Goes target else Next.Stops) }
{
    if is_ahead(code, x, target) {
        Next::Goes(target)
    } else {
        Next::Stops
    }
}

/// What comes after a branch at `x`.
fn after_branch(code: &[u32], x: u32, target: u32) -> Next
    requires { length code.now ≤ 16384 }
    ensures { let forks = Next.Forks (sum x 4) target in
        result ≡ (if spec.is_ahead code.now x target then forks else Next.Stops) }
{
    if is_ahead(code, x, target) {
        Next::Forks(x.wrapping_add(4), target)
    } else {
        Next::Stops
    }
}

/// What comes after a load at `x` with this funct3 and this address, by whether its rs1 is known.
#[tactic(auto, unfolding(crate::specs::Private::next_by))]
fn after_load(bounds: Bounds, x: u32, op: u8, is_known: bool, address: u32) -> Next
    ensures { let size = bytes_in (fields.width_of op) in
        (code : List ℕ) (known : KnownValues) (first : Option ℕ) → is_some first ≡ is_known
        → result ≡ spec.next_by code bounds.sems bounds.own known x first
        (loads (fields.is_signed op) size address) }
{
    let size = load_size(op);
    if is_known && address % size == 0 && is_inside_own(bounds.own, size, address) {
        Next::Goes(x.wrapping_add(4))
    } else {
        Next::Stops
    }
}

/// What comes after an instruction at `x`.
#[tactic(auto, unfolding(crate::specs::Private::next_by))]
pub(crate) fn next_of(code: &[u32], bounds: Bounds, known: &Known, x: u32, i: &Instr) -> Next
    requires code { length code.now ≤ 16384 }
    requires fits { Fits i.now }
    ensures { result ≡ spec_of.next_of code.now bounds.sems bounds.own known.now.values x i.now }
{
    let follows = x.wrapping_add(4);
    match *i {
        Instr::Lui { .. } | Instr::Auipc { .. } => Next::Goes(follows),
        Instr::OpImm { .. } | Instr::Op { .. } => Next::Goes(follows),
        Instr::Fence { .. } => Next::Goes(follows),
        Instr::Jal { offset, .. } => after_jump(code, x, x.wrapping_add(offset.cast_unsigned())),
        Instr::Branch { offset, .. } => after_branch(
            code,
            x,
            x.wrapping_add(offset.cast_unsigned()),
        ),
        Instr::Load { op, rs1, imm, .. } => {
            let address = known.value(rs1).wrapping_add(imm.cast_unsigned());
            after_load(bounds, x, op, known.has(rs1), address)
        }
        Instr::Ecall => acquire(bounds.sems, known.of(17), known.of(10)),
        Instr::Jalr { .. } | Instr::Store { .. } | Instr::Ebreak => Next::Stops,
    }
}

/// The value that an instruction at `x` writes, where it is computed from registers that are known.
#[tactic(auto, using(em_hart::proofs::OutcomeOfWord::value_of_word), unfolding(em_hart::specs::Instruction::value_of))]
fn value_of(known: &Known, x: u32, i: &Instr) -> Option<u32>
    requires { Fits i.now }
    ensures { let value = hart.value_of (effect_at known.now.values x i.now) in
        result ≡ (if are_known known.now.values i.now then value else None) }
{
    match *i {
        Instr::Op { rs1, rs2, .. } => match (known.of(rs1), known.of(rs2)) {
            (Some(a), Some(b)) => value(i, x, a, b),
            _ => None,
        },
        Instr::OpImm { rs1, .. } => match known.of(rs1) {
            Some(a) => value(i, x, a, 0),
            None => None,
        },
        _ => value(i, x, 0, 0),
    }
}

/// What is known after an instruction at `x`.
#[tactic(auto, unfolding(crate::specs::Private::learned_by, em_hart::specs::Instruction::value_of))]
pub(crate) fn learned_of(known: &Known, x: u32, i: &Instr) -> Known
    requires { Fits i.now }
    ensures { result.values ≡ spec_of.learned_of known.now.values x i.now }
{
    match *i {
        Instr::Lui { rd, .. }
        | Instr::Auipc { rd, .. }
        | Instr::Jal { rd, .. }
        | Instr::OpImm { rd, .. }
        | Instr::Op { rd, .. } => known.with(rd, value_of(known, x, i)),
        Instr::Load { rd, .. } => known.with(rd, None),
        _ => *known,
    }
}
