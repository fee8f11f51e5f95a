//! What a command writes of an application, and how it ends: the parts of a run, or the listing of the code.
ghost use Rattle.std.specs.Prelude.{◌≡◌, ◌⊎◌, ◌++◌, ◌+◌, ◌<◌, ◌^◌, [], codes, length, true, IfOk, OnOk, Some};
ghost use Rattle.std.specs.Prelude.{string_bytes};
ghost use Rattle.std.specs.Str.Lines.{lines};
ghost use Rattle.em_admit.specs.Depth.{AreShallow};
ghost use Rattle.em_base.specs.Apps.{IsApp};
ghost use Rattle.em_show.specs.Listing.{IsListing};
ghost use Rattle.em_trace.specs.Printed.{trace_text};
ghost use Rattle.em_trace.specs.Schedules.{IsSchedule, schedule_text};
ghost use Rattle.em_hint.specs.Lines.{HaveWaitLines, hinted_text};
ghost use Rattle.em_plain.specs.Answers.{ArePartWay as ArePlainPart};
ghost use Rattle.em_plain.specs.Runs.{plain_run, state_of};
ghost use Rattle.em_run.specs.Output.{IsBenchOutput, IsOutput, IsPartOf, IsReplay, IsReplayOutput, IsReplayPart};
ghost use Rattle.em_run.specs.Output.{IsRunOutput, HasSchedule, is_replay, status_by};
ghost use Rattle.em_run.specs.Unhinted as spec_of;
ghost use Rattle.em_run.specs.Runs as spec;
ghost use Rattle.em_run.specs.Runs.{ArePartWay, cause_text, end_text, end_word, parts_text};

use crate::commands::Command;
use crate::running::{Run, run_app};
use crate::status::Status;
use em_base::{App, HintMap, Items, NoMemory, Schedule};
use em_kernel::End;
use em_plain::{PlainFail, PlainRun};
use em_ports::{Ports, Seen};
use em_show::listing;
use em_trace::{Line, print_schedule, put_trace};
use std::alloc::Global;
use std::fmt::Write;

/// What a command came to.
#[derive(Drop)]
pub struct Output {
    /// The status.
    pub status: Status,
    /// The text that it writes.
    pub text: String,
}

/// The output of a command on an application, with these ports handed in. What is run is the unhinted source. `NoMemory` where
/// memory runs out; the ports are then as they were, or where the command runs the application those after some number of its
/// steps.
pub fn output_of(
    alloc: Global,
    command: Command,
    app: App,
    ports: &mut Ports,
) -> Result<Output, NoMemory>
    requires app { IsApp app }
    requires shallow { AreShallow app.table }
    requires few { app.code_line + length (lines app.code_text) < 2 ^ 31 }
    requires waits { HaveWaitLines (app.code_line + 1) (lines app.code_text) app.image.waits }
    requires schedule { is_replay command ≡ true → HasSchedule app }
    ensures output { let seen = ⟦<Ports as Seen>⟧.seen_as in
        let Is = IsOutput command app (seen ports.old) in IfOk result (λ output.
        Is output.status (string_bytes output.text) (seen ports.new)) }
    ensures left { let seen = ⟦<Ports as Seen>⟧.seen_as in (seen ports.new ≡ seen ports.old)
        ⊎ IsPartOf command app (seen ports.old) (seen ports.new) }
{
    match command {
        Command::Run | Command::Trial => run_output(alloc, &unhinted(alloc, app), ports),
        Command::Replay => replay_output(alloc, &unhinted(alloc, app), ports),
        Command::List => list_output(alloc, &app),
        Command::Hint => hint_output(alloc, &app),
        Command::Bench(n) => bench_output(alloc, n, &unhinted(alloc, app), ports),
    }
}

/// The unhinted source of an application: the same application with no hint anywhere.
fn unhinted(alloc: Global, mut app: App) -> App
    ensures { result ≡ spec_of.unhinted app }
{
    app.hints = HintMap {
        hints: Items::new(alloc),
    };
    app
}

/// The output of a hinted text.
fn hint_output(alloc: Global, app: &App) -> Result<Output, NoMemory>
    requires app { IsApp app.now }
    requires few { app.now.code_line + length (lines app.now.code_text) < 2 ^ 31 }
    requires waits { let texts = lines app.now.code_text in
        HaveWaitLines (app.now.code_line + 1) texts app.now.image.waits }
    ensures status { IfOk result (λ output. output.status ≡ Status.Done) }
    ensures text { let texts = lines app.now.code_text in
        let first = app.now.code_line + 1 in
        let hinted = hinted_text app.now.hints app.now.image.waits first texts in
        IfOk result (λ output. string_bytes output.text ≡ hinted) }
{
    let first = app.code_line + 1;
    let text = em_hint::hinted_text(alloc, app.code_text.as_str(), first, &app.image, &app.hints)?;
    Ok(Output {
        status: Status::Done,
        text,
    })
}

/// The output of a listing.
fn list_output(alloc: Global, app: &App) -> Result<Output, NoMemory>
    requires { IsApp app.now }
    ensures status { IfOk result (λ output. output.status ≡ Status.Done) }
    ensures text { let words = app.now.image.words in
        IfOk result (λ output. IsListing words (string_bytes output.text)) }
{
    let text = listing(alloc, &app.image)?;
    Ok(Output {
        status: Status::Done,
        text,
    })
}

/// The output of a run.
fn run_output(alloc: Global, app: &App, ports: &mut Ports) -> Result<Output, NoMemory>
    requires app { IsApp app.now }
    requires shallow { AreShallow app.now.table }
    requires hints { app.now.hints.hints ≡ [] }
    ensures output { let seen = ⟦<Ports as Seen>⟧.seen_as in
        let Is = IsRunOutput app.now (seen ports.old) in IfOk result (λ output.
        Is output.status (string_bytes output.text) (seen ports.new)) }
    ensures part { let seen = ⟦<Ports as Seen>⟧.seen_as in
        ArePartWay app.now (seen ports.old) (seen ports.new) }
{
    let run = run_app(alloc, app, ports)?;
    Ok(Output {
        status: status_of(run.end),
        text: text_of(alloc, &run)?,
    })
}

/// The output of a bench of a number: a line of what its workload comes to.
fn bench_output(alloc: Global, n: u32, app: &App, ports: &mut Ports) -> Result<Output, NoMemory>
    requires app { IsApp app.now }
    requires shallow { AreShallow app.now.table }
    requires hints { app.now.hints.hints ≡ [] }
    ensures output { let seen = ⟦<Ports as Seen>⟧.seen_as in
        let Is = IsBenchOutput n app.now (seen ports.old) in IfOk result (λ output.
        Is output.status (string_bytes output.text) (seen ports.new)) }
    ensures part { let seen = ⟦<Ports as Seen>⟧.seen_as in
        ArePartWay app.now (seen ports.old) (seen ports.new) }
{
    let run = run_app(alloc, app, ports)?;
    let lines = run.lines.as_slice().len();
    let clock = run.clock;
    let switches = run.switches;
    Ok(Output {
        status: status_of(run.end),
        text: format!(in alloc; "bench {n} lines {lines} clock {clock} switches {switches}\n")?,
    })
}

/// The output of a replay under the schedule that the application has.
fn replay_output(alloc: Global, app: &App, ports: &mut Ports) -> Result<Output, NoMemory>
    requires app { IsApp app.now }
    requires hints { app.now.hints.hints ≡ [] }
    requires schedule { HasSchedule app.now }
    ensures output { let seen = ⟦<Ports as Seen>⟧.seen_as in
        let Is = IsReplayOutput app.now (seen ports.old) in IfOk result (λ output.
        Is output.status (string_bytes output.text) (seen ports.new)) }
    ensures part { let seen = ⟦<Ports as Seen>⟧.seen_as in
        IsReplayPart app.now (seen ports.old) (seen ports.new) }
{
    match &app.schedule {
        Some(schedule) => replay_under(alloc, app, schedule, ports),
        None => Err(NoMemory),
    }
}

/// The output of a replay under a schedule.
fn replay_under(
    alloc: Global,
    app: &App,
    schedule: &Schedule,
    ports: &mut Ports,
) -> Result<Output, NoMemory>
    requires app { IsApp app.now }
    requires hints { app.now.hints.hints ≡ [] }
    requires schedule { IsSchedule (length app.now.table.tasks) schedule.now }
    ensures output { let seen = ⟦<Ports as Seen>⟧.seen_as in
        let Is = IsReplay (plain_run app.now (seen ports.old) schedule.now) in
        IfOk result (λ output. Is output.status (string_bytes output.text)) }
    ensures ports { let seen = ⟦<Ports as Seen>⟧.seen_as in
        let stop = state_of (plain_run app.now (seen ports.old) schedule.now) in
        IfOk result (λ _. seen ports.new ≡ stop.ports) }
    ensures part { let seen = ⟦<Ports as Seen>⟧.seen_as in
        ArePlainPart app.now schedule.now (seen ports.old) (seen ports.new) }
{
    match em_plain::run(alloc, app, schedule, ports) {
        Ok(run) => Ok(Output {
            status: Status::Done,
            text: replay_text(alloc, &run)?,
        }),
        Err(PlainFail::Misfit(count)) => Ok(Output {
            status: Status::Misfit,
            text: format!(in alloc; "misfit {count}\n")?,
        }),
        Err(PlainFail::NoMemory) => Err(NoMemory),
    }
}

/// The text of a plain run: its trace and its end, each under its header line.
fn replay_text(alloc: Global, run: &PlainRun) -> Result<String, NoMemory>
    ensures { let word = end_word run.now.full in
        IfOk result (λ text. string_bytes text ≡ spec.replay_text run.now.lines word run.now.count) }
{
    let word = if run.full { "lines" } else { "replayed" };
    let count = run.count;
    let mut text = trace_part(alloc, run.lines.as_slice())?;
    write!(text, "%end\n{word} {count}\n")?;
    Ok(text)
}

/// The text of a trace, under its header line.
fn trace_part(alloc: Global, lines: &[Line]) -> Result<String, NoMemory>
    ensures { let part = codes "%trace\n" ++ trace_text lines.now in
        IfOk result (λ text. string_bytes text ≡ part) }
{
    let mut text = String::from_str(alloc, "%trace\n")?;
    put_trace(&mut text, lines)?;
    Ok(text)
}

/// Puts a schedule at the end of a text, under its header line.
fn put_schedule(alloc: Global, text: &mut String, schedule: &Schedule) -> Result<(), NoMemory>
    ensures { let part = codes "%schedule\n" ++ schedule_text schedule.now in
        OnOk result (string_bytes text.new ≡ string_bytes text.old ++ part) }
{
    let lines = print_schedule(alloc, schedule)?;
    text.push_str("%schedule\n")?;
    text.push_str(lines.as_str())?;
    Ok(())
}

/// The status of a run, by how it ended.
fn status_of(end: End) -> Status
    ensures { result ≡ status_by end }
{
    match end {
        End::Horizon | End::Quiet | End::Lines => Status::Done,
        End::Lapped { .. } => Status::Lapped,
    }
}

/// The text of a run: its trace, its schedule and its end, each under its header line.
fn text_of(alloc: Global, run: &Run) -> Result<String, NoMemory>
    ensures { let parts = parts_text run.now.lines run.now.schedule in
        let whole = parts (end_text (Some run.now.end) run.now.clock run.now.switches) in
        IfOk result (λ text. string_bytes text ≡ whole) }
{
    let mut text = trace_part(alloc, run.lines.as_slice())?;
    put_schedule(alloc, &mut text, &run.schedule)?;
    text.push_str("%end\n")?;
    put_end(&mut text, run)?;
    Ok(text)
}

/// Puts the line of the end of a run at the end of a text.
fn put_end(text: &mut String, run: &Run) -> Result<(), NoMemory>
    ensures { let line = end_text (Some run.now.end) run.now.clock run.now.switches in
        OnOk result (string_bytes text.new ≡ string_bytes text.old ++ line) }
{
    let clock = run.clock;
    let switches = run.switches;
    put_cause(text, run.end)?;
    write!(text, " clock {clock} switches {switches}\n")?;
    Ok(())
}

/// Puts the words for how a run ended at the end of a text.
fn put_cause(text: &mut String, end: End) -> Result<(), NoMemory>
    ensures { OnOk result (string_bytes text.new ≡ string_bytes text.old ++ cause_text end) }
{
    match end {
        End::Horizon => write!(text, "horizon"),
        End::Quiet => write!(text, "quiet"),
        End::Lines => write!(text, "lines"),
        End::Lapped { msg, noted, begun } => write!(text, "lapped {} {noted} {begun}", msg.0),
    }?;
    Ok(())
}
