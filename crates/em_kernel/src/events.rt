//! The events of an application, in order of time.
ghost use Rattle.std.specs.Prelude.{◌≡◌, ◌<◌, ◌≤◌, ◌++◌, nat_lt, length, map, filter, Some, All, IfOk, IfSome, OnOk};
ghost use Rattle.em_base.specs.Apps.{IsApp};
ghost use Rattle.em_base.specs.Tables.{IsTable, SuitsKind, releases_of};
ghost use Rattle.em_gate.specs.Events.{events_of, releases_by, timer_release, timer_releases, timer_times};
ghost use Rattle.em_system.specs.Possible.{IsPossible};

use em_base::{App, Event, Kind, NoMemory, Table, TaskId, TaskRow, Timed};
use std::alloc::Global;

/// A timer's release of a task at a time.
fn release_at(task: TaskId, time: u64) -> Timed
    ensures { result ≡ timer_release task.0 time }
{
    Timed {
        time,
        event: Event::Release {
            task,
            time,
            word: 0,
        },
    }
}

/// How many releases the period of a task causes below a horizon, at most.
fn releases(row: &TaskRow, horizon: u32) -> usize
    requires period { IfSome row.now.period (λ period. 0 < period) }
    ensures releases { result ≡ releases_of horizon row.now }
{
    match row.period {
        Some(period) => horizon.div_ceil(period) as usize,
        None => 0,
    }
}

/// As many events as an application has, or more: those that the periods of its tasks cause from time 0 on, and those of its
/// script. There are at most 300,000.
pub fn most_events(app: &App) -> usize
    requires app { IsApp app.now }
    ensures enough { length (events_of app.now) ≤ result }
    ensures few { result ≤ 300000 }
{
    let mut most = app.script.as_slice().len();
    for row in app.table.tasks.as_slice() {
        most += releases(row, app.table.horizon);
    }
    most
}

/// Puts at the end the releases of a task by a timer with this phase and this period, below the horizon.
fn push_times(
    events: &mut Vec<Timed>,
    task: TaskId,
    phase: u32,
    period: u32,
    horizon: u32,
) -> Result<(), NoMemory>
    requires { 0 < period }
    ensures { let times = timer_times horizon phase (Some period) in
        OnOk result (events.new.items ≡ events.old.items ++ map (timer_release task.0) times) }
{
    let count = horizon.saturating_sub(phase).div_ceil(period);
    for k in 0..count {
        let time = u64::from(phase) + u64::from(k) * u64::from(period);
        events.push(release_at(task, time))?;
    }
    Ok(())
}

/// Puts at the end the releases of a task by its timer, if it has one, below the horizon.
fn push_timer(
    events: &mut Vec<Timed>,
    task: TaskId,
    row: &TaskRow,
    horizon: u32,
) -> Result<(), NoMemory>
    requires { SuitsKind row.now.kind row.now }
    ensures { let releases = releases_by row.now.kind horizon (task.0, row.now) in
        OnOk result (events.new.items ≡ events.old.items ++ releases) }
{
    match row.kind {
        Kind::Timer => match row.period {
            Some(period) => push_times(events, task, row.phase, period, horizon),
            None => Ok(()),
        },
        Kind::Line => Ok(()),
        Kind::Background => Ok(()),
    }
}

/// Puts at the end the releases by timers below the horizon, task by task.
fn push_timers(events: &mut Vec<Timed>, table: &Table) -> Result<(), NoMemory>
    requires { IsTable table.now }
    ensures { OnOk result (events.new.items ≡ events.old.items ++ timer_releases table.now) }
{
    for (place, row) in table.tasks.as_slice().iter().enumerate() {
        push_timer(events, TaskId(place as u8), row, table.horizon)?;
    }
    Ok(())
}

/// Puts at the end the events of a script below the horizon, in their order.
fn push_script(events: &mut Vec<Timed>, script: &[Timed], horizon: u32) -> Result<(), NoMemory>
    ensures { let early = filter (λ event. nat_lt event.time horizon) script.now in
        OnOk result (events.new.items ≡ events.old.items ++ early) }
{
    for event in script {
        if event.time < u64::from(horizon) {
            events.push(*event)?;
        }
    }
    Ok(())
}

/// The events of an application below its horizon, in order of time. At one time the timers' releases come first, by the number of the
/// task, then the script's events in their order. There are at most 300,000. `NoMemory` where memory can't be had.
pub(crate) fn events(alloc: Global, app: &App) -> Result<Vec<Timed>, NoMemory>
    requires { IsApp app.now }
    ensures exact { IfOk result (λ events. events.items ≡ events_of app.now) }
    ensures few { IfOk result (λ events. length events.items ≤ 300000) }
    ensures early { let horizon = app.now.table.horizon in
        IfOk result (λ events. All (λ event. event.time < horizon) events.items) }
    ensures possible { let tasks = length app.now.table.tasks in
        IfOk result (λ events. All (λ event. IsPossible tasks event.event) events.items) }
{
    let mut events = Vec::new(alloc);
    push_timers(&mut events, &app.table)?;
    push_script(&mut events, app.script.as_slice(), app.table.horizon)?;
    events.sort_by_key(|event| event.time)?;
    Ok(events)
}

#[cfg(test)]
mod tests {
    use super::{push_script, push_times, release_at};
    use em_base::{Event, PortId, TaskId, Timed};
    use std::test::Fail;

    #[test]
    fn events_below_the_horizon_are_put(rt: HostRuntime) -> Result<(), Fail> {
        let unplugged = |time| Timed {
            time,
            event: Event::Unplug(PortId(2)),
        };
        let mut events = Vec::new(rt.alloc());
        push_times(&mut events, TaskId(3), 5, 10, 25)?;
        push_script(&mut events, &[unplugged(24), unplugged(25)], 25)?;
        let expected = [
            release_at(TaskId(3), 5),
            release_at(TaskId(3), 15),
            unplugged(24),
        ];
        assert!(rt; events.as_slice() == expected.as_slice(), "{events:?}");
        Ok(())
    }
}
