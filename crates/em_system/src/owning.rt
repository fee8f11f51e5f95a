//! What tasks own: sets of semaphores, and the tasks that wait for them.
ghost use Rattle.std.specs.Prelude.{◌≡◌, ℕ, ◌==◌, ◌<◌, ◌≤◌, length, map};
ghost use Rattle.em_base.specs.Selection.{is_task, owner_at};
ghost use Rattle.em_gate.specs.Effects.{without, woken};
ghost use Rattle.em_threads.specs.Threads.{changed, with_task};
ghost use Rattle.em_system.specs.Held.{has_flag, woken_threads};

use em_base::{SemId, Status, TaskId};
use em_threads::Threads;

/// A set of semaphores, by flags.
pub(crate) type Semaphores = [bool; 32];

/// The set of one semaphore.
pub(crate) fn only(s: SemId) -> Semaphores
    requires { s.0 < 32 }
    ensures { (r : ℕ) → has_flag result r ≡ (r == s.0) }
{
    let mut flags = [false; 32];
    flags[usize::from(s.0)] = true;
    flags
}

/// The semaphores that a task owns.
pub(crate) fn owned_by(owners: &[Option<TaskId>], t: TaskId) -> Semaphores
    requires { length owners.now ≤ 32 }
    ensures { (r : ℕ) → has_flag result r ≡ is_task t.0 (owner_at owners.now r) }
{
    let mut flags = [false; 32];
    for s in 0..owners.len() {
        flags[s] = owners[s] == Some(t);
    }
    flags
}

/// Takes from a task what it owns.
pub(crate) fn disown(owners: &mut [Option<TaskId>], t: TaskId)
    ensures owners { owners.new ≡ map (without t.0) owners.old }
    ensures count { length owners.new ≡ length owners.old }
{
    for s in 0..owners.len() {
        owners[s] = owner_without(owners[s], t);
    }
}

/// An owner, or none where it is the task.
fn owner_without(owner: Option<TaskId>, t: TaskId) -> Option<TaskId>
    ensures { result ≡ without t.0 owner }
{
    match owner {
        Some(u) => if u.0 == t.0 { None } else { Some(u) },
        None => None,
    }
}

/// Wakes the tasks that wait for any of these semaphores.
pub(crate) fn wake(threads: &mut Threads, freed: &Semaphores)
    requires { length threads.old ≤ 32 }
    ensures { threads.new ≡ woken_threads (has_flag freed.now) threads.old }
{
    for u in 0..threads.count() as u8 {
        wake_one(threads, TaskId(u), freed);
    }
}

/// Wakes a task, if it waits for any of these semaphores.
fn wake_one(threads: &mut Threads, u: TaskId, freed: &Semaphores)
    requires { u.0 < length threads.old }
    ensures { threads.new ≡ changed (with_task (woken (has_flag freed.now))) u.0 threads.old }
{
    if let Status::Waits(s) = threads.status(u) {
        if has(freed, s) {
            threads.awake(u);
        }
    }
}

/// Whether a semaphore is in the set.
fn has(set: &Semaphores, s: SemId) -> bool
    ensures { result ≡ has_flag set.now s.0 }
{
    match set.get(usize::from(s.0)) {
        Some(flag) => *flag,
        None => false,
    }
}
