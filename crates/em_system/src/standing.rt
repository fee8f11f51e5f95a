//! What selection sees of each task.
ghost use Rattle.std.specs.Prelude.{◌≡◌, ℕ, ◌+◌, ◌^◌, ◌<◌, ◌≤◌, List, length, IfSome};
ghost use Rattle.em_base.specs.Keys as keys;
ghost use Rattle.em_base.specs.Selection as spec;
ghost use Rattle.em_threads.specs.Threads.{thread_at};
ghost use Rattle.em_system.specs.Standings as standings_spec;
ghost use Rattle.em_system.specs.Standings.{rank_at, ranked_key, standing_at, standing_of, stop_of};

use crate::selection::{Rank, Standing};
use em_base::{Job, Key, SemId, Status, TaskId};
use em_threads::Threads;

/// Looks at each task anew.
pub(crate) fn look(
    standings: &mut [Standing],
    threads: &Threads,
    ranks: &[Rank],
    owners: &[Option<TaskId>],
)
    requires few { length threads.now ≤ 32 }
    requires all { length standings.old ≡ length threads.now }
    requires ranked { length ranks.now ≡ length threads.now }
    requires early { (t : ℕ) → t < length threads.now
        → IfSome (thread_at threads.now t).task.job (λ job. job.arrival < 2 ^ 63) }
    ensures each { (t : ℕ) → t < length threads.now → standing_at standings.new t
        ≡ standing_of (rank_at ranks.now t) owners.now t (thread_at threads.now t) }
    ensures count { length standings.new ≡ length standings.old }
{
    for t in 0..threads.count() as u8 {
        standings[usize::from(t)] = standing(threads, ranks[usize::from(t)], owners, TaskId(t));
    }
}

/// What selection sees of a task.
fn standing(threads: &Threads, rank: Rank, owners: &[Option<TaskId>], t: TaskId) -> Standing
    requires exists { t.0 < length threads.now }
    requires early { IfSome (thread_at threads.now t.0).task.job (λ job. job.arrival < 2 ^ 63) }
    ensures { result ≡ standing_of rank owners.now t.0 (thread_at threads.now t.0) }
{
    let status = threads.status(t);
    let stop = stopper(owners, t, threads.promise(t), status);
    Standing {
        key: key(rank, t, threads.job(t)),
        active: is_active(status),
        ready: status == Status::Awake && stop.is_none(),
        next: stopping(owners, stop),
    }
}

/// The key of a task with this current job.
pub(crate) fn key(rank: Rank, t: TaskId, job: Option<Job>) -> Key
    requires early { IfSome job (λ job. job.arrival < 2 ^ 63) }
    ensures { result ≡ ranked_key rank t.0 job }
{
    Key {
        level: rank.level,
        deadline: due_time(rank.deadline, job),
        id: t.0,
    }
}

/// The time by which a job is to be done: 0 where there is no job or no deadline.
fn due_time(deadline: Option<u32>, job: Option<Job>) -> u64
    requires early { IfSome job (λ job. job.arrival < 2 ^ 63) }
    ensures { result ≡ keys.due_time deadline job }
{
    match (deadline, job) {
        (Some(deadline), Some(job)) => job.arrival + u64::from(deadline),
        _ => 0,
    }
}

/// Whether a task has a job that isn't over: it is awake or waits.
fn is_active(status: Status) -> bool
    ensures { result ≡ spec.is_active status }
{
    matches!(status, Status::Awake | Status::Waits(_))
}

/// The semaphore that stops a task: the one that it waits for, or the promised one where another task owns it.
pub(crate) fn stopper(
    owners: &[Option<TaskId>],
    t: TaskId,
    promise: Option<SemId>,
    status: Status,
) -> Option<SemId>
    ensures { result ≡ spec.stopper owners.now t.0 promise status }
{
    match status {
        Status::Waits(s) => Some(s),
        Status::Awake => stopped_by_promise(owners, t, promise),
        Status::Asleep | Status::Stopped => None,
    }
}

/// The promised semaphore, where another task owns it.
fn stopped_by_promise(owners: &[Option<TaskId>], t: TaskId, promise: Option<SemId>) -> Option<SemId>
    ensures { result ≡ spec.stopped_by_promise owners.now t.0 promise }
{
    let s = promise?;
    match owner(owners, s) {
        Some(u) if u.0 != t.0 => Some(s),
        _ => None,
    }
}

/// The owner of a semaphore.
fn owner(owners: &[Option<TaskId>], s: SemId) -> Option<TaskId>
    ensures { result ≡ spec.owner_at owners.now s.0 }
{
    match owners.get(usize::from(s.0)) {
        Some(owner) => *owner,
        None => None,
    }
}

/// The owner of what stops a task.
fn stopping(owners: &[Option<TaskId>], stop: Option<SemId>) -> Option<TaskId>
    ensures { result ≡ standings_spec.stopping owners.now stop }
{
    match stop {
        Some(s) => owner(owners, s),
        None => None,
    }
}
