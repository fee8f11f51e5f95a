//! The text of a workload.
ghost use Rattle.std.specs.Prelude.{◌≡◌, ◌++◌, OnOk, string_bytes};
ghost use Rattle.em_gen.specs.Workload.{band_text, code_text, free_text, program_text, script_text};
ghost use Rattle.em_gen.specs.Workload.{table_text, take_text, timer_text, work_text};

use crate::draws::{MOST_ROUNDS, Task};
use std::alloc::AllocError;
use std::fmt::Write;

/// How many semaphores there are; each task uses one.
const SEMAPHORES: u32 = 4;

/// How many ports there are; each task writes to one.
const PORTS: u32 = 8;

/// How many tasks have a band: the first ones.
const IN_BANDS: u32 = 8;

/// How many tasks are in a band.
const IN_BAND: u32 = 4;

/// The number of the task in the background, which stands last.
const BACKGROUND: u32 = 15;

/// How many releases the script has.
const RELEASES: u32 = 100;

/// How far two releases of the script lie apart in cycles.
const RELEASE_STEP: u32 = 50_000;

/// The head of the table: its horizon, and how many semaphores there are.
const HEAD: &str = "%table
horizon = 5000000
semaphores = 4
";

/// The lines of the task in the background.
const BACKGROUND_LINES: &str = "[[task]]
name = \"t15\"
entry = \"t15\"
kind = \"background\"
period = 50000
section = 300
uses = [3]
line = 0
";

/// Puts the table at the end of a text. Fails only where memory runs out; then some of it may stand there.
pub(crate) fn put_table(text: &mut String, timers: &[Task]) -> Result<(), AllocError>
    ensures { OnOk result (string_bytes text.new ≡ string_bytes text.old ++ table_text timers.now) }
{
    text.push_str(HEAD)?;
    for task in timers {
        put_timer(text, task)?;
    }
    text.push_str(BACKGROUND_LINES)?;
    Ok(())
}

/// Puts the lines of a task with a timer at the end of a text.
fn put_timer(text: &mut String, task: &Task) -> Result<(), AllocError>
    ensures { OnOk result (string_bytes text.new ≡ string_bytes text.old ++ timer_text task.now) }
{
    let Task { number, period, .. } = *task;
    let semaphore = number % SEMAPHORES;
    write!(
        text,
        "[[task]]
name = \"t{number}\"
entry = \"t{number}\"
kind = \"timer\"
period = {period}
deadline = {period}
cost = 400
section = 300
uses = [{semaphore}]
"
    )?;
    put_band(text, number)
}

/// Puts the line of a task's band at the end of a text, where it has one.
fn put_band(text: &mut String, number: u32) -> Result<(), AllocError>
    ensures { OnOk result (string_bytes text.new ≡ string_bytes text.old ++ band_text number) }
{
    if number < IN_BANDS {
        writeln!(text, "band = {}", number / IN_BAND)?;
    }
    Ok(())
}

/// Puts the code at the end of a text. Fails only where memory runs out; then some of it may stand there.
pub(crate) fn put_code(text: &mut String, timers: &[Task]) -> Result<(), AllocError>
    ensures { OnOk result (string_bytes text.new ≡ string_bytes text.old ++ code_text timers.now) }
{
    text.push_str("%code\n")?;
    for task in timers {
        put_program(text, task.number, task.rounds)?;
    }
    put_program(text, BACKGROUND, MOST_ROUNDS)
}

/// Puts the code of a task at the end of a text: it counts so many rounds down in each job, under its semaphore.
fn put_program(text: &mut String, number: u32, rounds: u32) -> Result<(), AllocError>
    ensures { let added = program_text number rounds in
        OnOk result (string_bytes text.new ≡ string_bytes text.old ++ added) }
{
    put_take(text, number)?;
    put_work(text, number, rounds)?;
    put_free(text, number)
}

/// Puts the lines at the end by which a task waits for a job and takes its semaphore.
fn put_take(text: &mut String, number: u32) -> Result<(), AllocError>
    ensures { OnOk result (string_bytes text.new ≡ string_bytes text.old ++ take_text number) }
{
    let semaphore = number % SEMAPHORES;
    write!(
        text,
        "t{number}: j b{number}
w{number}: waitjob
b{number}: li a7, 2
li a0, {semaphore}
ecall
"
    )
}

/// Puts the lines at the end by which a task counts its rounds down and writes its number to its port.
fn put_work(text: &mut String, number: u32, rounds: u32) -> Result<(), AllocError>
    ensures { let added = work_text number rounds in
        OnOk result (string_bytes text.new ≡ string_bytes text.old ++ added) }
{
    let port = number % PORTS;
    write!(
        text,
        "li t0, {rounds}
l{number}: addi t0, t0, -1
bne t0, zero, l{number}
li a7, 4
li a0, {port}
li a1, {number}
ecall
"
    )
}

/// Puts the lines at the end by which a task frees its semaphore and waits again.
fn put_free(text: &mut String, number: u32) -> Result<(), AllocError>
    ensures { OnOk result (string_bytes text.new ≡ string_bytes text.old ++ free_text number) }
{
    let semaphore = number % SEMAPHORES;
    write!(
        text,
        "li a7, 3
li a0, {semaphore}
ecall
j w{number}
"
    )
}

/// Puts the script at the end of a text. Fails only where memory runs out; then some of it may stand there.
pub(crate) fn put_script(text: &mut String) -> Result<(), AllocError>
    ensures { OnOk result (string_bytes text.new ≡ string_bytes text.old ++ script_text) }
{
    text.push_str("%script\n")?;
    for count in 0..RELEASES {
        writeln!(text, "{} line 0 {count}", RELEASE_STEP * count)?;
    }
    Ok(())
}
