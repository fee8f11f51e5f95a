//! The tasks of a table.
ghost use Rattle.std.specs.Prelude.{◌≡◌, ◌≤◌, IfErr, IfOk, IfSome, None, Some, codes, map};
ghost use Rattle.std.specs.List.{list_all};
ghost use Rattle.toml.specs.Data.{get_member};
ghost use Rattle.toml.specs.View.{table_view};
ghost use Rattle.em_base.specs.Tables.{is_name_byte};
ghost use Rattle.em_base.specs.Text.{texts_of};
ghost use Rattle.em_table.specs.Faults.{first_of};
ghost use Rattle.em_table.specs.Reading.{Gives, GivesOrFails, GivesSeen, GivesText, IsCountsOf, IsHeadingOf, IsPlacesOf, IsTimesOf, groups_of, numbers_of};
ghost use Rattle.em_table.specs.Tests as spec;
ghost use Rattle.em_table.specs.Tests.{counts_faults, deadline_fault, deadline_of, heading_faults, is_kind, kind_of, period_at, places_faults, row_of};
ghost use Rattle.em_table.specs.Tests.{task_fault, task_faults, task_keys, times_faults, uses_faults, uses_of};
ghost use Rattle.em_table.specs.Values.{text_at, text_fault};

use crate::faults::Fault;
use crate::keys::{LONGEST, Need, has_only, number, text, value_at};
use crate::lists::semaphores_at;
use crate::repeats::has_repeat;
use em_base::{Fail, Items, Kind, Name, SemId, TaskRow};
use std::alloc::Global;
use toml::Table;

/// The keys of a timer task.
const TIMER_KEYS: [&str; 11] = [
    "name", "entry", "kind", "period", "phase", "deadline", "cost", "section", "writes", "uses",
    "band",
];

/// The keys of a line task.
const LINE_KEYS: [&str; 11] = [
    "name", "entry", "kind", "period", "deadline", "cost", "section", "writes", "uses", "line",
    "band",
];

/// The keys of a background task with a line.
const LINED_KEYS: [&str; 7] = ["name", "entry", "kind", "period", "section", "uses", "line"];

/// The keys of a background task without a line.
const UNLINED_KEYS: [&str; 5] = ["name", "entry", "kind", "section", "uses"];

/// Whether the byte may stand in a task's name: a letter, a digit, `_` or `-`.
fn may_stand_in_name(byte: u8) -> bool
    ensures { result ≡ is_name_byte byte }
{
    byte == b'_' || byte == b'-' || byte.is_ascii_alphanumeric()
}

/// Whether all bytes may stand in a task's name.
fn has_name_bytes(name: &[u8]) -> bool
    ensures { result ≡ list_all is_name_byte name.now }
{
    name.iter().all(|byte| may_stand_in_name(*byte))
}

/// Whether the text may be a task's name.
fn is_task_name(name: &str) -> bool
    ensures { result ≡ spec.is_task_name name.now }
{
    1 <= name.len() && name.len() <= 32 && has_name_bytes(name.as_bytes())
}

/// Whether the text may be a task's entry.
fn is_entry(entry: &str) -> bool
    ensures { result ≡ spec.is_entry entry.now }
{
    1 <= entry.len() && entry.len() <= 64
}

/// The kind of this name.
fn kind_named(name: &str) -> Option<Kind>
    ensures { result ≡ spec.kind_named name.now }
{
    if name == "timer" {
        Some(Kind::Timer)
    } else if name == "line" {
        Some(Kind::Line)
    } else if name == "background" {
        Some(Kind::Background)
    } else {
        None
    }
}

/// The name of a task.
fn name_of(task: &Table) -> Result<&str, Fault>
    ensures { let value = get_member (codes "name") (table_view task.now) in
        GivesText result (text_fault spec.is_task_name value) (text_at value) }
{
    let name = text(task, "name")?;
    if is_task_name(name) {
        Ok(name)
    } else {
        Err(Fault::OutOfRange)
    }
}

/// The entry of a task.
fn entry_of(task: &Table) -> Result<&str, Fault>
    ensures { let value = get_member (codes "entry") (table_view task.now) in
        GivesText result (text_fault spec.is_entry value) (text_at value) }
{
    let entry = text(task, "entry")?;
    if is_entry(entry) {
        Ok(entry)
    } else {
        Err(Fault::OutOfRange)
    }
}

/// The kind of a task.
fn read_kind(task: &Table) -> Result<Kind, Fault>
    ensures { let group = table_view task.now in
        Gives result (text_fault is_kind (get_member (codes "kind") group)) (kind_of group) }
{
    let name = text(task, "kind")?;
    kind_named(name).ok_or(Fault::OutOfRange)
}

/// How a task of a kind has a key of the tasks with deadlines.
fn with_deadlines(need: Need, kind: Kind) -> Need
    ensures { result ≡ spec.with_deadlines need kind }
{
    match kind {
        Kind::Timer | Kind::Line => need,
        Kind::Background => Need::Foreign,
    }
}

/// How a task of a kind has a period, with a line or without one.
fn period_need(kind: Kind, lined: bool) -> Need
    ensures { result ≡ spec.period_need kind lined }
{
    match kind {
        Kind::Timer | Kind::Line => Need::Required,
        Kind::Background => if lined { Need::Required } else { Need::Foreign },
    }
}

/// How a task of a kind has a phase.
fn phase_need(kind: Kind) -> Need
    ensures { result ≡ spec.phase_need kind }
{
    match kind {
        Kind::Timer => Need::Optional,
        Kind::Line | Kind::Background => Need::Foreign,
    }
}

/// How a task of a kind has an interrupt line.
fn line_need(kind: Kind) -> Need
    ensures { result ≡ spec.line_need kind }
{
    match kind {
        Kind::Timer => Need::Foreign,
        Kind::Line => Need::Required,
        Kind::Background => Need::Optional,
    }
}

/// Whether the key `line` stands in a task.
fn has_line(task: &Table) -> bool
    ensures { result ≡ spec.has_line (table_view task.now) }
{
    value_at(task, "line").is_some()
}

/// The keys of a task of a kind, with a line or without one.
fn keys_of(kind: Kind, lined: bool) -> &'static [&'static str]
    ensures { texts_of result.now ≡ task_keys kind lined }
{
    match kind {
        Kind::Timer => &TIMER_KEYS,
        Kind::Line => &LINE_KEYS,
        Kind::Background => if lined { &LINED_KEYS } else { &UNLINED_KEYS },
    }
}

/// What a task is.
#[derive(Clone, Copy)]
struct Heading<'a> {
    name: &'a str,
    entry: &'a str,
    kind: Kind,
}

/// What a task is.
fn read_heading(task: &Table) -> Result<Heading<'_>, Fault>
    ensures ok { let group = table_view task.now in
        IfOk result
        (λ heading. (first_of (heading_faults group) ≡ None) × IsHeadingOf heading group) }
    ensures refused { let group = table_view task.now in
        IfErr result (λ fault. first_of (heading_faults group) ≡ Some fault) }
{
    let name = name_of(task)?;
    let entry = entry_of(task)?;
    let kind = read_kind(task)?;
    Ok(Heading { name, entry, kind })
}

/// The times of a task, in cycles.
#[derive(Clone, Copy)]
struct Times {
    period: Option<u32>,
    phase: u32,
    deadline: Option<u32>,
    cost: Option<u32>,
}

/// The deadline of a task of a kind with this period.
fn read_deadline(task: &Table, kind: Kind, period: Option<u32>) -> Result<Option<u32>, Fault>
    requires kind { kind ≡ kind_of (table_view task.now) }
    requires period { period ≡ period_at (table_view task.now) }
    ensures { let group = table_view task.now in
        Gives result (deadline_fault group) (deadline_of group) }
{
    let need = with_deadlines(Need::Required, kind);
    number(task, "deadline", need, 1, period.unwrap_or(0), 1)
}

/// The times of a task of a kind.
fn read_times(task: &Table, kind: Kind) -> Result<Times, Fault>
    requires { kind ≡ kind_of (table_view task.now) }
    ensures ok { let group = table_view task.now in
        IfOk result (λ times. (first_of (times_faults group) ≡ None) × IsTimesOf times group) }
    ensures refused { let group = table_view task.now in
        IfErr result (λ fault. first_of (times_faults group) ≡ Some fault) }
{
    let period = number(
        task,
        "period",
        period_need(kind, has_line(task)),
        1,
        LONGEST,
        1,
    )?;
    let phase = number(task, "phase", phase_need(kind), 0, LONGEST, 1)?;
    let deadline = read_deadline(task, kind, period)?;
    let cost = number(
        task,
        "cost",
        with_deadlines(Need::Required, kind),
        1,
        LONGEST,
        1,
    )?;
    Ok(Times {
        period,
        phase: phase.unwrap_or(0),
        deadline,
        cost,
    })
}

/// How long a task's sections are, in cycles, and how often it writes.
#[derive(Clone, Copy)]
struct Counts {
    section: u32,
    writes: u32,
}

/// How long the sections of a task of a kind are, and how often it writes.
fn read_counts(task: &Table, kind: Kind) -> Result<Counts, Fault>
    requires { kind ≡ kind_of (table_view task.now) }
    ensures ok { let group = table_view task.now in
        IfOk result (λ counts. (first_of (counts_faults group) ≡ None) × IsCountsOf counts group) }
    ensures refused { let group = table_view task.now in
        IfErr result (λ fault. first_of (counts_faults group) ≡ Some fault) }
{
    let section = number(task, "section", Need::Optional, 0, LONGEST, 1)?;
    let writes = number(
        task,
        "writes",
        with_deadlines(Need::Optional, kind),
        0,
        64,
        1,
    )?;
    Ok(Counts {
        section: section.unwrap_or(0),
        writes: writes.unwrap_or(0),
    })
}

/// The semaphores that a task uses, each of them once.
fn read_uses(alloc: Global, task: &Table, semaphores: u8) -> Result<Items<SemId>, Fail>
    ensures { let group = table_view task.now in
        GivesSeen numbers_of result (first_of (uses_faults semaphores group)) (uses_of group) }
{
    let uses = semaphores_at(alloc, task, "uses", semaphores)?;
    if has_repeat(uses.as_slice()) {
        return Err(Fault::Twice.into());
    }
    Ok(uses)
}

/// A number that is at most 255 in the width of its field.
fn narrow(number: Option<u32>) -> Option<u8>
    requires { IfSome number (λ n. n ≤ 255) }
    ensures { result ≡ number }
{
    match number {
        Some(number) => Some(number as u8),
        None => None,
    }
}

/// Where a task is served: its interrupt line and its band.
#[derive(Clone, Copy)]
struct Places {
    line: Option<u8>,
    band: Option<u8>,
}

/// The interrupt line and the band of a task of a kind, which has no other keys than its kind has.
fn read_places(task: &Table, kind: Kind) -> Result<Places, Fault>
    requires { kind ≡ kind_of (table_view task.now) }
    ensures ok { let group = table_view task.now in
        IfOk result (λ places. (first_of (places_faults group) ≡ None) × IsPlacesOf places group) }
    ensures refused { let group = table_view task.now in
        IfErr result (λ fault. first_of (places_faults group) ≡ Some fault) }
{
    let line = number(task, "line", line_need(kind), 0, 31, 1)?;
    let band = number(task, "band", with_deadlines(Need::Optional, kind), 0, 3, 1)?;
    if !has_only(task, keys_of(kind, has_line(task))) {
        return Err(Fault::Unknown);
    }
    Ok(Places {
        line: narrow(line),
        band: narrow(band),
    })
}

/// A task, or the first fault in its keys.
fn read_task(alloc: Global, task: &Table, semaphores: u8) -> Result<TaskRow, Fail>
    ensures { let group = table_view task.now in
        GivesOrFails result (first_of (task_faults semaphores group)) (row_of group) }
{
    let heading = read_heading(task)?;
    let times = read_times(task, heading.kind)?;
    let counts = read_counts(task, heading.kind)?;
    let uses = read_uses(alloc, task, semaphores)?;
    let places = read_places(task, heading.kind)?;
    Ok(TaskRow {
        name: Name::new(alloc, heading.name)?,
        entry: Name::new(alloc, heading.entry)?,
        kind: heading.kind,
        period: times.period,
        phase: times.phase,
        deadline: times.deadline,
        cost: times.cost,
        section: counts.section,
        writes: counts.writes,
        uses,
        line: places.line,
        band: places.band,
    })
}

/// The tasks, or the first fault in one of them.
pub fn read_tasks(alloc: Global, tasks: &[&Table], semaphores: u8) -> Result<Items<TaskRow>, Fail>
    ensures { let groups = groups_of tasks.now in
        GivesOrFails result (first_of (map (task_fault semaphores) groups)) (map row_of groups) }
{
    let mut rows = Items::new(alloc);
    for task in tasks {
        let row = read_task(alloc, *task, semaphores)?;
        rows.push(alloc, row)?;
    }
    Ok(rows)
}
