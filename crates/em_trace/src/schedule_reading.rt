//! The schedule that a text spells.
ghost use Rattle.std.specs.Prelude.{◌≡◌, ◌<◌, ◌+◌, ◌^◌, ◌++◌, ◌⊎◌, length, IfOk, IfErr, MatchResult, OnOk};
ghost use Rattle.std.specs.Str.Lines.{lines};
ghost use Rattle.em_base.specs.declared.events.Schedule.{Schedule as ScheduleValue};
ghost use Rattle.em_base.specs.declared.refusals.Refusal.{Refusal};
ghost use Rattle.em_trace.specs.ScheduleFaults.{IsScheduleFail, IsScheduleRefused};
ghost use Rattle.em_trace.specs.ScheduleWords as spec;
ghost use Rattle.em_trace.specs.Schedules.{IsScheduleOf};

use crate::schedule_faults::Fault;
use crate::schedule_lines::{Next, next_of};
use em_base::{Event, Fail, Items, NoMemory, Schedule, Table};
use std::alloc::Global;

/// The schedule that the lines of a text spell, for a table's tasks. Each line must be exactly as `print_schedule` prints it; a
/// line ends by LF, one CR right before the LF is dropped, and the last line may lack its LF. `first` is the number of the
/// text's first line in the whole input. In the schedule the counts don't fall and are at most 100,000,000, each task is one of
/// the table's, by its place from 0, each port is below 8, and each time, in cycles, has 32 bits, as each word has.
///
/// Refused at the first line that is wrong, with the first of these codes that holds: 50 where it is no line of a schedule, or
/// stands after the last line, or its count is above 100,000,000, or its time or word is above 4,294,967,295; 51 where its count
/// is below that of the line before it; 52 where T is no task's number, however great it is, or P isn't below 8. Where the last
/// line is missing, that is 50 at the number that a line after the text would have. `NoMemory` where memory runs out.
pub fn read_schedule(alloc: Global, text: &str, first: u32, table: &Table) -> Result<Schedule, Fail>
    requires { first + length (lines text.now) < 2 ^ 32 }
    ensures schedule { IfOk result (IsScheduleOf (length table.now.tasks) (lines text.now)) }
    ensures refused { IfErr result
        (IsScheduleFail first (length table.now.tasks) (lines text.now)) }
    ensures complete { (s : ScheduleValue)
        → IsScheduleOf (length table.now.tasks) (lines text.now) s
        → MatchResult result (λ found. found ≡ s) (λ fail. fail ≡ Fail.NoMemory) }
    ensures refuses { (refusal : Refusal)
        → IsScheduleRefused first (length table.now.tasks) (lines text.now) refusal
        → MatchResult result (λ _. ⊥)
        (λ fail. (fail ≡ Fail.Refused refusal) ⊎ (fail ≡ Fail.NoMemory)) }
{
    read_lines(alloc, text, first, table.tasks.as_slice().len())
}

/// The schedule of the lines of a text, for so many tasks.
pub(crate) fn read_lines(
    alloc: Global,
    text: &str,
    first: u32,
    tasks: usize,
) -> Result<Schedule, Fail>
    requires { first + length (lines text.now) < 2 ^ 32 }
    ensures schedule { IfOk result (IsScheduleOf tasks (lines text.now)) }
    ensures refused { IfErr result (IsScheduleFail first tasks (lines text.now)) }
{
    let mut events = Items::new(alloc);
    let mut number = first;
    let mut least = 0;
    let mut last = None;
    for line in text.lines() {
        match next_after(tasks, least, last, line) {
            Ok(next) => {
                put_next(alloc, &mut events, next)?;
                least = count_after(next);
                last = last_in(next);
                number += 1;
            }
            Err(fault) => return Err(Fail::Refused(fault.at(number))),
        }
    }
    match last {
        Some(last) => Ok(Schedule { events, last }),
        None => Err(Fail::Refused(Fault::Form.at(number))),
    }
}

/// What a line adds, or what is wrong with it. After the last line, of which `last` is the count, there is to be none.
fn next_after(tasks: usize, least: u64, last: Option<u64>, line: &str) -> Result<Next, Fault>
    ensures { result ≡ spec.next_after tasks least last line.now }
{
    match last {
        Some(_) => Err(Fault::Form),
        None => next_of(tasks, least, line),
    }
}

/// Puts the event at the end, if one is added.
fn put_next(alloc: Global, events: &mut Items<(u64, Event)>, next: Next) -> Result<(), NoMemory>
    ensures { OnOk result (events.new ≡ events.old ++ spec.events_in next) }
{
    match next {
        Next::Happens(count, event) => events.push(alloc, (count, event)),
        Next::Ends(_) => Ok(()),
    }
}

/// The count of the line.
fn count_after(next: Next) -> u64
    ensures { result ≡ spec.count_after next }
{
    match next {
        Next::Happens(count, _) => count,
        Next::Ends(last) => last,
    }
}

/// The number of steps in all, where the line is the last one.
fn last_in(next: Next) -> Option<u64>
    ensures { result ≡ spec.last_in next }
{
    match next {
        Next::Happens(_, _) => None,
        Next::Ends(last) => Some(last),
    }
}
