//! The selected task, found anew from what selection sees of each task.
ghost use Rattle.std.specs.Prelude.{◌≡◌, ◌≢◌, ℕ, ◌+◌, ◌^◌, ◌<◌, ◌≤◌, List, length, Option, None, Some, IfSome};
ghost use Rattle.std.specs.Option.{option_map};
ghost use Rattle.em_base.specs.declared.jobs.Key.{Key as TaskKey};
ghost use Rattle.em_base.specs.Selection as spec;
ghost use Rattle.em_system.specs.Standings.{number_of, scene_from};

use em_base::{Key, TaskId};

/// What selection sees of a task.
#[derive(Clone, Copy, Debug)]
pub(crate) struct Standing {
    /// Its own key.
    pub key: Key,
    /// Whether it is awake or waits.
    pub active: bool,
    /// Whether it is awake and stopped by nothing.
    pub ready: bool,
    /// The task that stops it.
    pub next: Option<TaskId>,
}

/// What of a task's key doesn't change.
#[derive(Clone, Copy, Debug)]
pub(crate) struct Rank {
    /// Its level.
    pub level: u16,
    /// The time after its release by which its job is to be done, in cycles.
    pub deadline: Option<u32>,
}

/// A task that was found, with the key by which it was.
type Found = Option<(u8, Key)>;

/// The selected task: of those that are ready, the one of the least effective key. No chain of owners is longer than `depth`.
pub(crate) fn select(standings: &[Standing], depth: u8) -> Option<u8>
    requires few { length standings.now ≤ 32 }
    ensures { let scene = scene_from depth standings.now in result ≡ spec.selected scene }
{
    let mut best: Found = None;
    let mut t = standings.len() as u8;
    while t > 0 {
        t -= 1;
        if standings[usize::from(t)].ready {
            best = better(best, t, effective_key(standings, depth, t));
        }
    }
    task_of(best)
}

/// The effective key of a task: the least among its own and those of the active tasks that it holds up.
pub(crate) fn effective_key(standings: &[Standing], depth: u8, t: u8) -> Key
    requires few { length standings.now ≤ 32 }
    requires exists { t < length standings.now }
    ensures { let scene = scene_from depth standings.now in result ≡ spec.effective_key scene t }
{
    let mut best: Found = None;
    let mut u = standings.len() as u8;
    while u > 0 {
        u -= 1;
        if counts_for(standings, depth, t, u) {
            best = better(best, u, standings[usize::from(u)].key);
        }
    }
    key_of(best, standings[usize::from(t)].key)
}

/// Whether a task counts for the task `t`: it is `t`, or an active task that `t` holds up.
fn counts_for(standings: &[Standing], depth: u8, t: u8, u: u8) -> bool
    requires exists { u < length standings.now }
    ensures { let scene = scene_from depth standings.now in result ≡ spec.counts_for scene t u }
{
    u == t || standings[usize::from(u)].active && holds_up(standings, depth, t, u)
}

/// Whether the task `t` holds up the task `u`, along a chain of at most so many owners.
fn holds_up(standings: &[Standing], depth: u8, t: u8, u: u8) -> bool
    ensures { let scene = scene_from depth standings.now in
        result ≡ spec.holds_up depth scene.next t u }
{
    if depth == 0 {
        return false;
    }
    match next(standings, u) {
        None => false,
        Some(TaskId(v)) => v == t || holds_up(standings, depth - 1, t, v),
    }
}

/// The task that stops a task.
fn next(standings: &[Standing], u: u8) -> Option<TaskId>
    ensures { let scene = scene_from 0 standings.now in number_of result ≡ scene.next u }
{
    match standings.get(usize::from(u)) {
        Some(standing) => standing.next,
        None => None,
    }
}

/// The better of what was found and one more task: the one of the lesser key.
fn better(best: Found, t: u8, key: Key) -> Found
    ensures { (keys : ℕ → TaskKey) (found : Option ℕ)
        → best ≡ option_map (λ u. (u, keys u)) found → key ≡ keys t
        → result ≡ Some (let u = spec.more_urgent keys t found in (u, keys u)) }
{
    match best {
        Some((u, other)) if other < key => Some((u, other)),
        _ => Some((t, key)),
    }
}

/// The task that was found.
fn task_of(best: Found) -> Option<u8>
    ensures { result ≡ option_map (λ found. found.0) best }
{
    match best {
        Some((t, _)) => Some(t),
        None => None,
    }
}

/// The key of the task that was found, or another.
fn key_of(best: Found, other: Key) -> Key
    ensures { (keys : ℕ → TaskKey) (found : Option ℕ)
        → best ≡ option_map (λ u. (u, keys u)) found
        → result ≡ spec.key_or keys other found }
{
    match best {
        Some((_, key)) => key,
        None => other,
    }
}
