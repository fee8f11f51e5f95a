//! What the refusal of a call rests on: sets of numbers as bits.
ghost use Rattle.std.specs.Prelude.{◌≡◌, ℕ, ◌==◌, ◌&&◌, ◌||◌, ◌<◌, ◌≤◌, ◌^◌, length, is_some};
ghost use Rattle.em_base.specs.Selection.{is_task, owner_at};
ghost use Rattle.em_ports.specs.Ports.{port_at};
ghost use Rattle.em_gate.specs.Calls.{has_bit};
ghost use Rattle.em_gate.specs.State.{task_at};
ghost use Rattle.em_gate.specs.Tasks.{is_full};
ghost use Rattle.em_system.specs.Held.{tasks_of};

use em_base::{PortId, Status, TaskId};
use em_gate::with_bit;
use em_ports::{Ports, Seen};
use em_threads::Threads;

/// The most pending releases of a task.
const MOST_PENDING: u8 = 8;

/// The bits, with bit `i` too where it is to be set.
fn with_bit_if(bits: u32, i: u8, set: bool) -> u32
    requires { i < 32 }
    ensures bits { (j : ℕ) → has_bit result j ≡ ((set && (j == i)) || has_bit bits j) }
    ensures within { (k : ℕ) → i < k → bits < 2 ^ k → result < 2 ^ k }
{
    if set { with_bit(bits, i) } else { bits }
}

/// The semaphores that a task owns, as bits.
pub(crate) fn owned_bits(owners: &[Option<TaskId>], t: TaskId) -> u32
    requires { length owners.now ≤ 32 }
    ensures { (s : ℕ) → has_bit result s ≡ is_task t.0 (owner_at owners.now s) }
{
    let mut bits = 0;
    for s in 0..owners.len() as u8 {
        bits = with_bit_if(bits, s, owners[usize::from(s)] == Some(t));
    }
    bits
}

/// The ports that are plugged in, as bits.
pub(crate) fn plugged_bits(ports: &Ports) -> u8
    ensures { let seen = ⟦<Ports as Seen>⟧.seen_as in
        (p : ℕ) → has_bit result p ≡ is_some (port_at (seen ports.now) p) }
{
    let mut bits = 0;
    for p in 0..8u8 {
        bits = with_bit_if(bits, p, is_plugged(ports, PortId(p)));
    }
    bits as u8
}

/// Whether a port is plugged in.
#[tactic(auto, using(crate::proofs::Stands::shown_where_plugged))]
fn is_plugged(ports: &Ports, p: PortId) -> bool
    requires { p.0 < 8 }
    ensures { let seen = ⟦<Ports as Seen>⟧.seen_as in
        result ≡ is_some (port_at (seen ports.now) p.0) }
{
    ports.shown(p).is_some()
}

/// The tasks that take no release, as bits.
pub(crate) fn full_bits(threads: &Threads) -> u32
    requires { length threads.now ≤ 32 }
    ensures { (u : ℕ) → has_bit result u ≡ is_full (task_at (tasks_of threads.now) u) }
{
    let mut bits = 0;
    for u in 0..threads.count() as u8 {
        bits = with_bit_if(bits, u, takes_none(threads, TaskId(u)));
    }
    bits
}

/// Whether a task takes no release: it is stopped, or has as many pending as there may be.
#[tactic(auto, using(crate::proofs::Stands::task_of_thread))]
pub(crate) fn takes_none(threads: &Threads, u: TaskId) -> bool
    requires exists { u.0 < length threads.now }
    ensures { result ≡ is_full (task_at (tasks_of threads.now) u.0) }
{
    threads.status(u) == Status::Stopped || threads.pending(u) >= MOST_PENDING
}
