//! What is due: the status and the text, by the words, by what is read and by the ports that are handed in.
ghost use Rattle.std.specs.Prelude.{◌≡◌, ◌<◌, ◌≤◌, ◌+◌, ◌^◌, ℕ, codes, length, map, string_bytes, true};
ghost use Rattle.std.specs.Str.Lines.{lines};
ghost use Rattle.em_admit.specs.Depth.{AreShallow};
ghost use Rattle.em_base.specs.Apps.{IsApp};
ghost use Rattle.em_io.specs.Bytes.{input_limit};
ghost use Rattle.em_hint.specs.Lines.{HaveWaitLines};
ghost use Rattle.em_run.specs.Commands.{IsCommand, IsNoCommand};
ghost use Rattle.em_gen.specs.Workload.{workload};
ghost use Rattle.em_run.specs.declared.commands.Command.{Command as CommandValue};
ghost use Rattle.em_run.specs.Output.{IsAnswerTo, IsDue, IsDueFor, HasSchedule, is_reader, is_replay, reading};
ghost use Rattle.em_run.specs.Texts.{IsAnswerFor, IsRefusalAnswer, text_bytes};

use crate::commands::{Command, command_of};
use crate::output::output_of;
use crate::status::{OUT_OF_MEMORY, Status};
use em_base::{App, Fail, NoMemory, Refusal};
use em_bundle::load;
use em_gen::make;
use em_io::{ReadError, Source, read_all};
use em_ports::{Ports, Seen};
use std::alloc::Global;

/// A text that is written: one that is always the same, or one that was made.
#[derive(Drop)]
pub enum Text {
    /// Always the same.
    Fixed(&'static str),
    /// Made for this call.
    Made(String),
}

impl Text {
    /// The bytes of the text.
    pub fn as_bytes(&self) -> &[u8]
        ensures { result.now ≡ text_bytes self.now }
    {
        match self {
            Text::Fixed(text) => text.as_bytes(),
            Text::Made(text) => text.as_bytes(),
        }
    }
}

/// A status, and the text that is due with it.
#[derive(Drop)]
pub struct Answer {
    /// The status.
    pub status: Status,
    /// The text.
    pub text: Text,
}

impl Answer {
    /// A status with a text that is always the same.
    fn fixed(status: Status, text: &'static str) -> Answer
        ensures status { result.status ≡ status }
        ensures text { text_bytes result.text ≡ text.entry.now }
    {
        Answer {
            status,
            text: Text::Fixed(text),
        }
    }

    /// A status with a text that was made for it.
    fn made(status: Status, text: String) -> Answer
        ensures status { result.status ≡ status }
        ensures text { text_bytes result.text ≡ string_bytes text }
    {
        Answer {
            status,
            text: Text::Made(text),
        }
    }
}

/// What is due where memory could not be had.
fn out_of_memory() -> Answer
    ensures status { result.status ≡ Status.NoMemory }
    ensures text { text_bytes result.text ≡ codes "error memory\n" }
{
    Answer::fixed(Status::NoMemory, OUT_OF_MEMORY)
}

/// What is due for the words and for what is read of the source, with these ports handed in. Nothing is read where the words are
/// no command.
pub fn decide<S: Source>(alloc: Global, words: &[String], src: &mut S, ports: &mut Ports) -> Answer
    ensures due { let read =
        reading (S.left src.old) (S.left src.new) (S.faults src.old) (S.faults src.new) in
        let seen = ⟦<Ports as Seen>⟧.seen_as in
        let Due = IsDue (map string_bytes words.now) read (seen ports.old) in
        Due result.status (text_bytes result.text) (seen ports.new) }
    ensures unread { IsNoCommand (map string_bytes words.now) → src.new ≡ src.old }
    ensures bench_unread { (n : ℕ) → IsCommand (map string_bytes words.now) (CommandValue.Bench n)
        → src.new ≡ src.old }
    ensures grows { S.faults src.old ≤ S.faults src.new }
{
    match command_of(alloc, words) {
        Ok(Some(Command::Bench(n))) => bench_answer(alloc, n, ports),
        Ok(Some(command)) => read_and_answer(alloc, command, src, ports),
        Ok(None) => Answer::fixed(Status::Usage, "error usage\n"),
        Err(NoMemory) => out_of_memory(),
    }
}

/// What is due for a bench of the workload of a number. Nothing is read.
fn bench_answer(alloc: Global, n: u32, ports: &mut Ports) -> Answer
    ensures { let seen = ⟦<Ports as Seen>⟧.seen_as in
        let Due = IsAnswerTo (CommandValue.Bench n) (workload n) (seen ports.old) in
        Due result.status (text_bytes result.text) (seen ports.new) }
{
    match make(alloc, n) {
        Ok(bytes) => answer_to(alloc, Command::Bench(n), bytes.as_slice(), ports),
        Err(NoMemory) => out_of_memory(),
    }
}

/// What is due for a command that reads, and for what is read of the source.
fn read_and_answer<S: Source>(
    alloc: Global,
    command: Command,
    src: &mut S,
    ports: &mut Ports,
) -> Answer
    requires reads { is_reader command ≡ true }
    ensures due { let read =
        reading (S.left src.old) (S.left src.new) (S.faults src.old) (S.faults src.new) in
        let seen = ⟦<Ports as Seen>⟧.seen_as in
        let Due = IsDueFor command read (seen ports.old) in
        Due result.status (text_bytes result.text) (seen ports.new) }
    ensures grows { S.faults src.old ≤ S.faults src.new }
{
    match read_all(alloc, src) {
        Ok(bytes) => answer_to(alloc, command, bytes.as_slice(), ports),
        Err(ReadError::ReadFault) => Answer::fixed(Status::ReadFault, "error read\n"),
        Err(ReadError::TooLong) => Answer::fixed(Status::TooLong, "error too long\n"),
        Err(ReadError::NoMemory) => out_of_memory(),
    }
}

/// What is due for a command and bytes that were read to their end.
fn answer_to(alloc: Global, command: Command, bytes: &[u8], ports: &mut Ports) -> Answer
    requires { length bytes.now ≤ input_limit }
    ensures { let seen = ⟦<Ports as Seen>⟧.seen_as in
        let Due = IsAnswerTo command bytes.now (seen ports.old) in
        Due result.status (text_bytes result.text) (seen ports.new) }
{
    match load(alloc, bytes, command.has_schedule()) {
        Ok(app) => app_answer(alloc, command, app, ports),
        Err(Fail::Refused(refusal)) => refusal_answer(alloc, refusal),
        Err(Fail::NoMemory) => out_of_memory(),
    }
}

/// What is due for a command and an application.
fn app_answer(alloc: Global, command: Command, app: App, ports: &mut Ports) -> Answer
    requires app { IsApp app }
    requires shallow { AreShallow app.table }
    requires few { app.code_line + length (lines app.code_text) < 2 ^ 31 }
    requires waits { HaveWaitLines (app.code_line + 1) (lines app.code_text) app.image.waits }
    requires schedule { is_replay command ≡ true → HasSchedule app }
    ensures { let seen = ⟦<Ports as Seen>⟧.seen_as in
        let Due = IsAnswerFor command app (seen ports.old) in
        Due result.status (text_bytes result.text) (seen ports.new) }
{
    match output_of(alloc, command, app, ports) {
        Ok(output) => Answer::made(output.status, output.text),
        Err(NoMemory) => out_of_memory(),
    }
}

/// What is due for a refusal.
fn refusal_answer(alloc: Global, refusal: Refusal) -> Answer
    ensures { IsRefusalAnswer refusal result.status (text_bytes result.text) }
{
    let code = refusal.code;
    let line = refusal.line;
    match format!(in alloc; "error {code} line {line}\n") {
        Ok(text) => Answer::made(Status::Malformed, text),
        Err(_) => out_of_memory(),
    }
}
