//! The application that the bytes of a bundle stand for.
ghost use Rattle.std.specs.Prelude.{◌≡◌, ◌⊎◌, ◌<◌, ◌≤◌, ◌^◌, ◌+◌, true, false, is_some, length};
ghost use Rattle.std.specs.Prelude.{IfErr, IfOk, IfSome, MatchResult, string_bytes};
ghost use Rattle.std.specs.Str.Lines.{lines};
ghost use Rattle.em_base.specs.declared.apps.App.{App as AppValue};
ghost use Rattle.em_base.specs.declared.refusals.Refusal.{Refusal as RefusalValue};
ghost use Rattle.em_base.specs.Apps as apps;
ghost use Rattle.em_base.specs.Apps.{IsApp};
ghost use Rattle.em_base.specs.Events.{AreEarly, IsScript};
ghost use Rattle.em_base.specs.Images.{IsWhole};
ghost use Rattle.em_base.specs.Tables.{IsTable};
ghost use Rattle.em_admit.specs.Depth.{AreShallow};
ghost use Rattle.em_hint.specs.Lines.{HaveWaitLines};
ghost use Rattle.em_trace.specs.ScheduleFaults.{IsScheduleFail};
ghost use Rattle.em_trace.specs.Schedules.{IsSchedule};
ghost use Rattle.em_bundle.specs.Application.{HasDeepBuffer, IsApplicationFor, IsApplicationOf, IsBundleFail};
ghost use Rattle.em_bundle.specs.Application.{IsBundleRefusedFor, IsCoded, IsImageFail, IsPartsFail};
ghost use Rattle.em_bundle.specs.Application.{IsScheduled, IsTableFail, IsTabled};
ghost use Rattle.em_bundle.specs.Walk.{part_lines};

use crate::code::{have_entries, read_code};
use crate::faults::Fault;
use crate::laws::{one_application, sound_application};
use crate::parts::{Parts, cut};
use crate::texts::{line_of, with_line_feeds};
use em_admit::depth;
use em_base::{App, Fail, Image, MsgId, Name, Schedule, Table};
use em_hint::hints;
use em_script::read_script;
use em_table::read_table;
use em_trace::read_schedule;
use std::alloc::Global;
use std::str;

/// The most values that the buffer of a message may have to keep.
const MOST_VALUES: u128 = 64;

/// The table of a bundle, in which no buffer of a message is too deep.
fn load_table(alloc: Global, parts: &Parts<'_>) -> Result<Table, Fail>
    requires { length (lines parts.now.table.now) < 2 ^ 31 }
    ensures table { IfOk result (IsTabled (part_lines parts.now)) }
    ensures valid { IfOk result IsTable }
    ensures shallow { IfOk result AreShallow }
    ensures refused { IfErr result (IsTableFail (part_lines parts.now)) }
{
    let text = with_line_feeds(alloc, parts.table)?;
    let table = read_table(alloc, text.as_str())?;
    if is_too_deep(&table) {
        return Err(Fail::Refused(Fault::TooDeep.at(1)));
    }
    Ok(table)
}

/// Whether the buffer of a message would have to keep more than 64 values.
fn is_too_deep(table: &Table) -> bool
    requires { IsTable table.now }
    ensures deep { result ≡ true → HasDeepBuffer table.now }
    ensures shallow { result ≡ false → AreShallow table.now }
{
    for m in 0..table.messages.as_slice().len() {
        if depth(table, MsgId(m as u8)) > MOST_VALUES {
            return true;
        }
    }
    false
}

/// The image of a bundle, in which each task of its table has its entry.
fn load_code(alloc: Global, parts: &Parts<'_>, table: &Table) -> Result<Image, Fail>
    requires { parts.now.code_line + 1 + length (lines parts.now.code.now) < 2 ^ 32 }
    ensures image { IfOk result (IsCoded (part_lines parts.now)) }
    ensures whole { IfOk result IsWhole }
    ensures entries { IfOk result (λ image. apps.have_entries image table.now.tasks ≡ true) }
    ensures refused { IfErr result (IsImageFail (part_lines parts.now) table.now) }
{
    let image = read_code(alloc, parts.code, parts.code_line + 1)?;
    if !have_entries(&image, table.tasks.as_slice()) {
        return Err(Fail::Refused(Fault::MissingEntry.at(parts.code_line)));
    }
    Ok(image)
}

/// The schedule of a bundle for the tasks of its table, where it is to be replayed.
fn load_schedule(
    alloc: Global,
    parts: &Parts<'_>,
    table: &Table,
    replay: bool,
) -> Result<Option<Schedule>, Fail>
    requires { parts.now.schedule_line + 1 + length (lines parts.now.schedule.now) < 2 ^ 32 }
    ensures schedule { IfOk result (IsScheduled replay (part_lines parts.now) table.now) }
    ensures refused { IfErr result (λ fail. (replay ≡ true)
        × IsScheduleFail (parts.now.schedule_line + 1) (length table.now.tasks)
        (lines parts.now.schedule.now) fail) }
{
    if !replay {
        return Ok(None);
    }
    let schedule = read_schedule(alloc, parts.schedule, parts.schedule_line + 1, table)?;
    Ok(Some(schedule))
}

/// The application of the parts of a bundle.
fn load_parts(alloc: Global, parts: &Parts<'_>, replay: bool) -> Result<App, Fail>
    requires table { length (lines parts.now.table.now) < 2 ^ 31 }
    requires code { parts.now.code_line + 1 + length (lines parts.now.code.now) < 2 ^ 31 + 1 }
    requires script { parts.now.script_line + 1 + length (lines parts.now.script.now) < 2 ^ 32 }
    requires schedule { let count = length (lines parts.now.schedule.now) in
        parts.now.schedule_line + 1 + count < 2 ^ 32 }
    ensures app { IfOk result (IsApplicationOf replay (part_lines parts.now)) }
    ensures valid { IfOk result IsApp }
    ensures early { IfOk result (λ app. AreEarly app.script) }
    ensures few { IfOk result (λ app. app.code_line + length (lines app.code_text) < 2 ^ 31) }
    ensures refused { IfErr result (IsPartsFail replay (part_lines parts.now)) }
{
    let table = load_table(alloc, parts)?;
    let image = load_code(alloc, parts, &table)?;
    let hints = hints(alloc, &image, table.semaphores, table.own)?;
    let script = read_script(alloc, parts.script, parts.script_line + 1, &table)?;
    let schedule = load_schedule(alloc, parts, &table, replay)?;
    let code_text = Name::from(with_line_feeds(alloc, parts.code)?);
    Ok(App {
        table,
        code_text,
        code_line: parts.code_line,
        image,
        hints,
        script,
        schedule,
    })
}

/// The application of a bundle by its text.
fn load_text(alloc: Global, text: &str, replay: bool) -> Result<App, Fail>
    requires { length (lines text.now) < 2 ^ 31 }
    ensures app { IfOk result (IsApplicationFor replay text.now) }
    ensures valid { IfOk result IsApp }
    ensures early { IfOk result (λ app. AreEarly app.script) }
    ensures few { IfOk result (λ app. app.code_line + length (lines app.code_text) < 2 ^ 31) }
    ensures refused { IfErr result (IsBundleFail replay text.now) }
{
    match cut(text, replay) {
        Ok(parts) => load_parts(alloc, &parts, replay),
        Err(refusal) => Err(Fail::Refused(refusal)),
    }
}

/// The application of a bundle by its bytes.
fn load_bytes(alloc: Global, bytes: &[u8], replay: bool) -> Result<App, Fail>
    requires { length (lines bytes.now) < 2 ^ 31 }
    ensures app { IfOk result (IsApplicationFor replay bytes.now) }
    ensures valid { IfOk result IsApp }
    ensures early { IfOk result (λ app. AreEarly app.script) }
    ensures few { IfOk result (λ app. app.code_line + length (lines app.code_text) < 2 ^ 31) }
    ensures refused { IfErr result (IsBundleFail replay bytes.now) }
{
    match str::from_utf8(bytes) {
        Ok(text) => load_text(alloc, text, replay),
        Err(error) => {
            let line = line_of(bytes, error.valid_up_to());
            Err(Fail::Refused(Fault::NotUtf8.at(line)))
        }
    }
}

/// The application that the bytes of a bundle stand for, by the formats in docs/FORMATS.md. `replay` says whether it is to be
/// replayed: the bundle then has a schedule as its last part, and otherwise it has none.
///
/// Bytes that are no bundle are refused with the first of these codes, each at its line in the whole input:
///
/// * 43: the bytes are no UTF-8;
/// * 40, 41: the first line is no header line (40), a header line isn't the next one due (41), headers are due at the end (40);
/// * 20 to 27: the table is refused, as [`read_table`] refuses it; then 28 where the buffer of a message would have to keep more
///   than 64 values;
/// * 1 to 10: the code is refused, as [`em_asm_read::read_line`] and [`em_asm::assemble_numbered`] refuse it;
/// * 42: the entry of a task is no label of the code;
/// * 11: a semaphore stands beside a `waitjob` that isn't its hint, as [`hints`] finds it;
/// * 30 to 33: the script is refused, as [`read_script`] refuses it;
/// * 50 to 52: with `replay`, the schedule is refused, as [`read_schedule`] refuses it.
///
/// `NoMemory` where memory runs out.
pub fn load(alloc: Global, bytes: &[u8], replay: bool) -> Result<App, Fail>
    requires { length (lines bytes.now) < 2 ^ 31 }

    // What is answered is the application of the bytes, or their refusal.
    ensures app { IfOk result (IsApplicationFor replay bytes.now) }
    ensures refused { IfErr result (IsBundleFail replay bytes.now) }

    // Where there is an application, or a refusal, it is answered, unless memory runs out.
    ensures complete { (app : AppValue) → IsApplicationFor replay bytes.now app
        → MatchResult result (λ found. found ≡ app) (λ fail. fail ≡ Fail.NoMemory) }
    ensures refuses { (refusal : RefusalValue) → IsBundleRefusedFor replay bytes.now refusal
        → MatchResult result (λ _. ⊥)
        (λ fail. (fail ≡ Fail.Refused refusal) ⊎ (fail ≡ Fail.NoMemory)) }

    // What holds of each application that is answered.
    ensures valid { IfOk result IsApp }
    ensures early { IfOk result (λ app. AreEarly app.script) }

    // Each `waitjob` has a line of its own in the code text, which begins with that word, and the numbers of these lines are
    // small.
    ensures waits { IfOk result (λ app. let texts = lines app.code_text in
        HaveWaitLines (app.code_line + 1) texts app.image.waits) }
    ensures few { IfOk result (λ app. app.code_line + length (lines app.code_text) < 2 ^ 31) }

    // It has a schedule exactly with `replay`, and this is one for as many tasks as its table has.
    ensures scheduled { IfOk result (λ app. is_some app.schedule ≡ replay) }
    ensures schedule { IfOk result
        (λ app. IfSome app.schedule (IsSchedule (length app.table.tasks))) }
{
    one_application();
    sound_application();
    load_bytes(alloc, bytes, replay)
}
