//! Which calls are refused, and with which code.

ghost use Rattle.std.specs.Prelude.{◌≡◌, ◌==◌, ◌<◌, ◌≤ℤ◌, ℕ, negsuc, length, slice_get, IfSome};
ghost use Rattle.std.specs.List.{list_any, range_with_len};
ghost use Rattle.em_base.specs.declared.tables.Table.{Table as TableValue};
ghost use Rattle.em_base.specs.Tables.{IsTable};
ghost use Rattle.em_gate.specs.declared.calls.Call.TheVariants.{WaitJob, Acquire, Release, Out, Write, Read, Signal, Exit};
ghost use Rattle.em_gate.specs.Calls as spec;
ghost use Rattle.em_gate.specs.Calls.{Known, known_by, has_bit as has};

use crate::calls::{Call, Facts};
use crate::masks::has_bit;
use em_base::{Kind, Table, TaskId, TaskRow};
use em_hart::OWN_BASE;

/// The number is no call.
const E_CALL: i8 = -1;

/// There is no semaphore, port, message or task of this number.
const E_ARG: i8 = -2;

/// The task doesn't declare that it uses the semaphore.
const E_USE: i8 = -3;

/// The task owns a semaphore and may not take another.
const E_NEST: i8 = -4;

/// The task doesn't own the semaphore.
const E_OWNER: i8 = -5;

/// The task owns a semaphore.
const E_HELD: i8 = -6;

/// The port is unplugged.
const E_PORT: i8 = -7;

/// The address isn't a multiple of 4, or the words aren't wholly in the own window.
const E_ADDR: i8 = -8;

/// The other task takes no release.
const E_FULL: i8 = -9;

/// The task isn't the writer, or not a reader, of the message; or the other task isn't a background task.
const E_ROLE: i8 = -10;

/// The number of ports.
const PORTS: u32 = 8;

/// The code of the first refusal of a call by the task `t` of the table, where these are the facts that it rests on: from -10
/// to -1. `None` exactly where the call isn't refused. Nothing else about the tasks, the semaphores and the ports counts.
pub fn refusal(call: &Call, table: &Table, t: TaskId, facts: &Facts) -> Option<i8>
    requires table { IsTable table.now }
    requires exists { t.0 < length table.now.tasks }
    ensures first { result ≡ spec.refusal call.now table.now t.0 (known_by facts.now) }
    ensures code { IfSome result (λ code. (negsuc 9 ≤ℤ code) × (code ≤ℤ negsuc 0)) }
{
    match *call {
        Call::WaitJob | Call::Exit => held_refusal(facts),
        Call::Acquire(s) => acquire_refusal(s, table, t, facts),
        Call::Release(s) => release_refusal(s, table, facts),
        Call::Out { port, .. } => out_refusal(port, facts),
        Call::Write { msg, at } => write_refusal(msg, at, table, t),
        Call::Read { msg, at } => read_refusal(msg, at, table, t),
        Call::Signal { task, .. } => signal_refusal(task, table, facts),
        Call::Unknown(_) => Some(E_CALL),
    }
}

/// The refusal of waitjob and exit.
#[tactic(auto, unfolding(crate::specs::Calls::refusal_tests))]
fn held_refusal(facts: &Facts) -> Option<i8>
    ensures waitjob { (table : TableValue) → (t : ℕ)
        → result ≡ spec.refusal WaitJob table t (known_by facts.now) }
    ensures exit { (table : TableValue) → (t : ℕ)
        → result ≡ spec.refusal Exit table t (known_by facts.now) }
{
    if owns_any(facts.owned) {
        Some(E_HELD)
    } else {
        None
    }
}

/// The refusal of an acquire of semaphore `s`.
#[tactic(auto, unfolding(crate::specs::Calls::refusal_tests))]
fn acquire_refusal(s: u32, table: &Table, t: TaskId, facts: &Facts) -> Option<i8>
    requires { IsTable table.now }
    ensures { result ≡ spec.refusal (Acquire s) table.now t.0 (known_by facts.now) }
{
    if s >= u32::from(table.semaphores) {
        Some(E_ARG)
    } else if !uses(table.tasks.as_slice(), t, s) {
        Some(E_USE)
    } else if owns_any(facts.owned) {
        Some(E_NEST)
    } else {
        None
    }
}

/// The refusal of a release of semaphore `s`.
#[tactic(auto, unfolding(crate::specs::Calls::refusal_tests))]
fn release_refusal(s: u32, table: &Table, facts: &Facts) -> Option<i8>
    requires { IsTable table.now }
    ensures { (t : ℕ) → result ≡ spec.refusal (Release s) table.now t (known_by facts.now) }
{
    if s >= u32::from(table.semaphores) {
        Some(E_ARG)
    } else if !has_bit(facts.owned, s as u8) {
        Some(E_OWNER)
    } else {
        None
    }
}

/// The refusal of a word for a port.
#[tactic(auto, unfolding(crate::specs::Calls::refusal_tests))]
fn out_refusal(port: u32, facts: &Facts) -> Option<i8>
    ensures { (table : TableValue) → (t word : ℕ)
        → result ≡ spec.refusal (Out port word) table t (known_by facts.now) }
{
    if port >= PORTS {
        Some(E_ARG)
    } else if !has_bit(u32::from(facts.plugged), port as u8) {
        Some(E_PORT)
    } else {
        None
    }
}

/// The refusal of a write of message `m` from an address on.
#[tactic(auto, unfolding(crate::specs::Calls::refusal_tests))]
fn write_refusal(m: u32, at: u32, table: &Table, t: TaskId) -> Option<i8>
    ensures { (known : Known) → result ≡ spec.refusal (Write m at) table.now t.0 known }
{
    match table.messages.as_slice().get(m as usize) {
        None => Some(E_ARG),
        Some(message) if message.writer != t => Some(E_ROLE),
        Some(message) if !is_in_own(table.own, message.words, at) => Some(E_ADDR),
        Some(_) => None,
    }
}

/// The refusal of a read of message `m` to an address.
#[tactic(auto, unfolding(crate::specs::Calls::refusal_tests))]
fn read_refusal(m: u32, at: u32, table: &Table, t: TaskId) -> Option<i8>
    ensures { (known : Known) → result ≡ spec.refusal (Read m at) table.now t.0 known }
{
    match table.messages.as_slice().get(m as usize) {
        None => Some(E_ARG),
        Some(message) if !message.readers.as_slice().contains(&t) => Some(E_ROLE),
        Some(message) if !is_in_own(table.own, message.words, at) => Some(E_ADDR),
        Some(_) => None,
    }
}

/// The refusal of a signal to task `u`.
#[tactic(auto, unfolding(crate::specs::Calls::refusal_tests))]
fn signal_refusal(u: u32, table: &Table, facts: &Facts) -> Option<i8>
    requires { IsTable table.now }
    ensures { (t word : ℕ)
        → result ≡ spec.refusal (Signal u word) table.now t (known_by facts.now) }
{
    match table.tasks.as_slice().get(u as usize) {
        None => Some(E_ARG),
        Some(row) if row.kind != Kind::Background => Some(E_ROLE),
        Some(_) if has_bit(facts.full, u as u8) => Some(E_FULL),
        Some(_) => None,
    }
}

/// Whether one of the semaphores is owned.
fn owns_any(owned: u32) -> bool
    ensures { result ≡ list_any (has owned) (range_with_len 0 32) }
{
    owned != 0
}

/// Whether a task declares that it uses semaphore `s`.
fn uses(rows: &[TaskRow], t: TaskId, s: u32) -> bool
    ensures { result ≡ spec.has_use (slice_get rows.now t.0) s }
{
    match rows.get(usize::from(t.0)) {
        Some(row) => has_use(row, s),
        None => false,
    }
}

/// Whether a task of the table declares that it uses semaphore `s`.
fn has_use(row: &TaskRow, s: u32) -> bool
    ensures { result ≡ list_any (λ sem. sem.0 == s) row.now.uses }
{
    row.uses.as_slice().iter().any(|sem| u32::from(sem.0) == s)
}

/// Whether an address is a multiple of 4, and so many words from there on are wholly in an own window of that many bytes.
fn is_in_own(own: u32, words: u8, at: u32) -> bool
    ensures { result ≡ spec.is_in_own own words at }
{
    at % 4 == 0 && at >= OWN_BASE && at - OWN_BASE + 4 * u32::from(words) <= own
}
