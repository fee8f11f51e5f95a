//! The commands, by the words of the program.
ghost use Rattle.std.specs.Prelude.{◌≡◌, ◌≢◌, ℕ, [], None, IfOk, IfSome, IfNone, Some, map, option_map, string_bytes};
ghost use Rattle.clap.specs.Words.{app_of, fault_of, first_of, found_of, matches_of, rows_of};
ghost use Rattle.em_run.specs.Commands as spec;
ghost use Rattle.em_run.specs.Output.{is_replay};
ghost use Rattle.em_run.specs.Commands.{IsCommand, IsNoCommand, IsNumberOf, Spells, command_text};

use clap::error::ErrorKind;
use clap::{Arg, ArgAction, ArgMatches};
use em_base::NoMemory;
use em_base::numbers::digits_number;
use std::alloc::{AllocError, Global};

/// The most digits of a number of the command line.
const MOST_DIGITS: usize = 10;

/// What the program is told to do with a bundle.
#[derive(Clone, Copy, Debug, PartialEq, Eq)]
pub enum Command {
    /// `run`: run its application, and write the trace and the end.
    Run,
    /// `trial`: the same.
    Trial,
    /// `replay`: run it on the plain machine under the schedule that the bundle has, and write the trace and the end.
    Replay,
    /// `list`: write the listing of its code.
    List,
    /// `hint`: write the text of its code with the hints that are found.
    Hint,
    /// `bench` with a number: run the workload of that number, and write a line of what the run came to.
    Bench(u32),
}

impl Command {
    /// Whether the bundle of the command has a schedule.
    pub fn has_schedule(self) -> bool
        ensures { result ≡ is_replay self }
    {
        matches!(self, Command::Replay)
    }
}

/// The program's command line: one value COMMAND, which is required, and an option `--number` with a value.
fn command_line<'a>(alloc: Global) -> Result<clap::Command<'a>, AllocError>
    ensures { IfOk result (λ line. app_of line ≡ spec.command_line) }
{
    let command = Arg::new(alloc, "COMMAND")
        .required(true)
        .action(ArgAction::Set);
    let number = Arg::new(alloc, "number")
        .long("number")
        .action(ArgAction::Set);
    let line = clap::Command::new(alloc, "emeralds")
        .disable_help_flag(true)
        .disable_version_flag(true)
        .no_binary_name(true)
        .arg(command)?
        .arg(number)?;
    Ok(line)
}

/// What the words give to the arguments of the command line, where it takes them.
fn matches<'a>(alloc: Global, words: &'a [String]) -> Result<Option<ArgMatches<'a>>, NoMemory>
    ensures taken { let given = map string_bytes words.now in
        IfOk result (λ found. IfSome found (λ m. fault_of spec.command_line given ≡ [])) }
    ensures rows { let given = map string_bytes words.now in
        let rows = matches_of spec.command_line given in
        IfOk result (λ found. IfSome found (λ m. rows_of (found_of m) ≡ rows)) }
    ensures refused { let given = map string_bytes words.now in
        IfOk result (λ found. IfNone found (fault_of spec.command_line given ≢ [])) }
{
    match command_line(alloc)?.try_get_matches_from(words) {
        Ok(found) => Ok(Some(found)),
        Err(error) => {
            if error.kind() == ErrorKind::OutOfMemory {
                Err(NoMemory)
            } else {
                Ok(None)
            }
        }
    }
}

/// The first value of an argument.
fn value<'a>(found: &ArgMatches<'a>, id: &str) -> Option<&'a str>
    ensures { option_map (λ text. text.now) result
        ≡ first_of id.now (rows_of (found_of found.now)) }
{
    found.get_str(id)
}

/// The number that a text spells in 1 to 10 decimal digits, where it has 32 bits. Leading zeros are allowed.
fn numeral(text: &str) -> Option<u32>
    ensures some { IfSome result (λ n. Spells n text.now) }
    ensures none { IfNone result ((n : ℕ) → Spells n text.now → ⊥) }
{
    if text.len() > MOST_DIGITS {
        return None;
    }
    u32::try_from(digits_number(text, 10)?).ok()
}

/// The command of a name, with the number that is given.
fn command_by(name: &str, number: Option<&str>) -> Option<Command>
    ensures some { IfSome result (λ command. (name.now ≡ command_text command)
        × IsNumberOf command (option_map (λ text. text.now) number.entry)) }
    ensures none { IfNone result ((command : Command) → name.now ≡ command_text command
        → IsNumberOf command (option_map (λ text. text.now) number.entry) → ⊥) }
{
    match number {
        None => command_named(name),
        Some(text) => bench_of(name, text),
    }
}

/// The command of a name, where no number is given.
fn command_named(name: &str) -> Option<Command>
    ensures some { IfSome result (λ command. (name.now ≡ command_text command)
        × IsNumberOf command None) }
    ensures none { IfNone result ((command : Command) → name.now ≡ command_text command
        → IsNumberOf command None → ⊥) }
{
    match name {
        "run" => Some(Command::Run),
        "trial" => Some(Command::Trial),
        "replay" => Some(Command::Replay),
        "list" => Some(Command::List),
        "hint" => Some(Command::Hint),
        _ => None,
    }
}

/// The command of a name with a number: `bench` alone has one.
fn bench_of(name: &str, text: &str) -> Option<Command>
    ensures some { IfSome result (λ command. (name.now ≡ command_text command)
        × IsNumberOf command (Some text.now)) }
    ensures none { IfNone result ((command : Command) → name.now ≡ command_text command
        → IsNumberOf command (Some text.now) → ⊥) }
{
    match name {
        "bench" => Some(Command::Bench(numeral(text)?)),
        _ => None,
    }
}

/// The command that the words are: COMMAND is `run`, `trial`, `replay`, `list` or `hint` and no `--number` is given, or it is `bench`
/// and `--number` has 1 to 10 digits of a number of 32 bits. Other words are none. `NoMemory` where memory to read the words could
/// not be had.
pub fn command_of(alloc: Global, words: &[String]) -> Result<Option<Command>, NoMemory>
    ensures some { IfOk result (λ found. IfSome found (IsCommand (map string_bytes words.now))) }
    ensures none { IfOk result (λ found. IfNone found (IsNoCommand (map string_bytes words.now))) }
{
    let Some(found) = matches(alloc, words)? else {
        return Ok(None);
    };
    match value(&found, "COMMAND") {
        Some(name) => Ok(command_by(name, value(&found, "number"))),
        None => Ok(None),
    }
}
