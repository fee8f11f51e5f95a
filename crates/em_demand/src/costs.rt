//! What the kernel's own work costs.
ghost use Rattle.std.specs.Prelude.{◌≡◌, ◌≤◌, length};
ghost use Rattle.em_base.specs.Tables.{IsFrom, IsTable};
ghost use Rattle.em_demand.specs.Charges as spec;

use em_base::{Charges, Table, TaskRow};

/// What the kernel's own work costs in cycles, for the tasks of a table: a call 21 to 52, the delivery of a release 31 to 62,
/// a switch 10 to 46.
pub fn charges(table: &Table) -> Charges
    requires { IsTable table.now }
    ensures charges { result ≡ spec.charges_of table.now }
    ensures call { IsFrom 21 52 result.call }
    ensures release { IsFrom 31 62 result.release }
    ensures switch { IsFrom 10 46 result.switch }
{
    let rows = table.tasks.as_slice();
    let count = rows.len() as u64;
    Charges {
        call: 20 + count,
        release: 30 + count,
        switch: 10 + band_count(rows) + fullest_band(rows),
    }
}

/// One more than the greatest band in use, 0 where none is.
#[tactic(auto, using(crate::proofs::Greatest::greatest_by_fold))]
fn band_count(rows: &[TaskRow]) -> u64
    ensures { result ≡ spec.band_count rows.now }
{
    rows.iter().fold(0, |most, row| most.max(bands_up_to(row)))
}

/// One more than the band of a task, 0 where it has none.
fn bands_up_to(row: &TaskRow) -> u64
    ensures { result ≡ spec.bands_up_to row.now.band }
{
    row.band.map_or(0, |band| 1 + u64::from(band))
}

/// How many tasks are in the fullest band, 0 where none is in use.
fn fullest_band(rows: &[TaskRow]) -> u64
    ensures count { result ≡ spec.fullest_band rows.now }
    ensures few { result ≤ length rows.now }
{
    in_band(rows, 0)
        .max(in_band(rows, 1))
        .max(in_band(rows, 2))
        .max(in_band(rows, 3))
}

/// How many tasks are in a band.
fn in_band(rows: &[TaskRow], band: u8) -> u64
    ensures count { result ≡ spec.in_band rows.now band }
    ensures few { result ≤ length rows.now }
{
    rows.iter().filter(|row| row.band == Some(band)).count() as u64
}
