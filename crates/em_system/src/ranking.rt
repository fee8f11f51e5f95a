//! What of the tasks' keys doesn't change: their levels and their deadlines.
ghost use Rattle.std.specs.Prelude.{◌≡◌, ◌≤◌, ◌<◌, ℕ, length, IfOk};
ghost use Rattle.std.specs.List.{count_by};
ghost use Rattle.em_base.specs.Keys as spec;
ghost use Rattle.em_system.specs.Standings.{rank_of, ranks_of};

use crate::selection::Rank;
use em_base::{NoMemory, TaskRow};
use std::alloc::Global;

/// The ranks of all tasks, by their numbers.
pub(crate) fn ranks(alloc: Global, rows: &[TaskRow]) -> Result<Vec<Rank>, NoMemory>
    requires { length rows.now ≤ 32 }
    ensures { IfOk result (λ ranks. ranks.items ≡ ranks_of rows.now) }
{
    let mut ranks = Vec::with_capacity(alloc, rows.len())?;
    for (t, row) in rows.iter().enumerate() {
        ranks.push(Rank {
            level: level(rows, t as u8, row),
            deadline: row.deadline,
        })?;
    }
    Ok(ranks)
}

/// The level of a task: its band; or 100 and its place among the tasks with a deadline and no band, by shorter period, from 1;
/// or, without a deadline, 1000 and its number.
fn level(rows: &[TaskRow], t: u8, row: &TaskRow) -> u16
    requires { length rows.now ≤ 32 }
    ensures { result ≡ spec.level rows.now (t, row.now) }
{
    match row.band {
        Some(band) => u16::from(band),
        None if row.deadline.is_some() => 100 + rank(rows, t, row),
        None => 1000 + u16::from(t),
    }
}

/// The place of a task among those with a deadline and no band, by shorter period, from 1.
fn rank(rows: &[TaskRow], t: u8, row: &TaskRow) -> u16
    requires { length rows.now ≤ 32 }
    ensures rank { result ≡ spec.rank rows.now (t, row.now) }
    ensures within { result ≤ 33 }
{
    1 + count_before(rows, t, row) as u16
}

/// How many of these tasks come before a task.
fn count_before(rows: &[TaskRow], t: u8, row: &TaskRow) -> usize
    ensures count { let is_before = spec.is_ranked_before (t, row.now) in
        result ≡ count_by is_before (spec.numbered rows.now) }
    ensures few { result ≤ length rows.now }
{
    rows.iter()
        .enumerate()
        .filter(|(u, other)| is_before(*u, other, t, row))
        .count()
}

/// Whether a task comes before another in the order of periods.
fn is_before(u: usize, other: &TaskRow, t: u8, row: &TaskRow) -> bool
    ensures { result ≡ spec.is_ranked_before (t, row.now) (u, other.now) }
{
    let (period, its) = (other.period.unwrap_or(0), row.period.unwrap_or(0));
    other.band.is_none()
        && other.deadline.is_some()
        && (period < its || period == its && u < usize::from(t))
}
