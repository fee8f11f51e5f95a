//! What a line of a schedule says, and what comes next by it.
ghost use Rattle.std.specs.Prelude.{◌≡◌, ◌<◌, length};
ghost use Rattle.std.specs.Char.{is_digit};
ghost use Rattle.std.specs.List.{list_all};
ghost use Rattle.em_trace.specs.ScheduleFaults as faults;
ghost use Rattle.em_trace.specs.ScheduleFaults.{count_in};
ghost use Rattle.em_trace.specs.ScheduleWords as spec;
ghost use Rattle.em_trace.specs.ScheduleWords.{next_by, next_of, said_of};
ghost use Rattle.em_trace.specs.Words.{below};

use crate::schedule_faults::Fault;
use crate::words::{byte_of, count_of, cut, word_of};
use em_base::{Event, PortId, TaskId};

/// The most steps that a schedule may count.
const MOST_STEPS: u64 = 100_000_000;

/// How many ports there are.
const PORTS: usize = 8;

/// What a line of a schedule says. A count is at most 100,000,000. The number of a task or a port is `None` where it is one of
/// more than 8 bits: no task and no port has it.
#[derive(Clone, Copy, Debug, PartialEq, Eq)]
pub enum Said {
    /// After so many steps a task is released, at a time in cycles, with a word.
    Released {
        count: u64,
        task: Option<u8>,
        time: u32,
        word: u32,
    },
    /// After so many steps a port is unplugged.
    Unplugged {
        count: u64,
        port: Option<u8>,
    },
    /// There are so many steps in all.
    Ended {
        count: u64,
    },
}

/// What a line adds to a schedule.
#[derive(Clone, Copy, Debug, PartialEq, Eq)]
pub enum Next {
    /// An event, with the number of steps before it.
    Happens(u64, Event),
    /// The end, with the number of steps in all.
    Ends(u64),
}

/// What a line adds to a schedule for so many tasks, where the line before it has the count `least`; or what is wrong with
/// it.
pub fn next_of(tasks: usize, least: u64, line: &str) -> Result<Next, Fault>
    ensures { result ≡ next_of tasks least line.now }
{
    let Some(said) = said_of(line) else {
        return Err(Fault::Form);
    };
    if count_in(said) < least {
        return Err(Fault::CountFalls);
    }
    match next_by(tasks, said) {
        Some(next) => Ok(next),
        None => Err(Fault::NotThere),
    }
}

/// The count of a line.
fn count_in(said: Said) -> u64
    ensures { result ≡ count_in said }
{
    match said {
        Said::Released { count, .. } => count,
        Said::Unplugged { count, .. } => count,
        Said::Ended { count } => count,
    }
}

/// What is added by what is said, where its task or its port is there.
fn next_by(tasks: usize, said: Said) -> Option<Next>
    ensures { result ≡ next_by tasks said }
{
    match said {
        Said::Released {
            count,
            task,
            time,
            word,
        } => {
            let task = TaskId(below(tasks, task)?);
            let time = u64::from(time);
            Some(Next::Happens(count, Event::Release { task, time, word }))
        }
        Said::Unplugged { count, port } => {
            let port = PortId(below(PORTS, port)?);
            Some(Next::Happens(count, Event::Unplug(port)))
        }
        Said::Ended { count } => Some(Next::Ends(count)),
    }
}

/// The number, where it is below a limit.
fn below(limit: usize, number: Option<u8>) -> Option<u8>
    ensures { result ≡ below limit number }
{
    let n = number?;
    if usize::from(n) < limit {
        Some(n)
    } else {
        None
    }
}

/// What a line says.
fn said_of(line: &str) -> Option<Said>
    ensures { result ≡ said_of line.now }
{
    let (count, rest) = cut(line)?;
    let Some((verb, rest)) = cut(rest) else {
        return said_of_two(count, rest);
    };
    let Some((first, rest)) = cut(rest) else {
        return said_of_three(count, verb, rest);
    };
    let (second, rest) = cut(rest)?;
    match cut(rest) {
        Some(_) => None,
        None => said_of_five(count, verb, first, second, rest),
    }
}

/// What COUNT and a verb say.
fn said_of_two(count: &str, verb: &str) -> Option<Said>
    ensures { result ≡ spec.said_of_two count.now verb.now }
{
    if verb != "end" {
        return None;
    }
    let count = steps_of(count)?;
    Some(Said::Ended { count })
}

/// What COUNT, a verb and P say.
fn said_of_three(count: &str, verb: &str, port: &str) -> Option<Said>
    ensures { result ≡ spec.said_of_three count.now verb.now port.now }
{
    if verb != "unplug" {
        return None;
    }
    let count = steps_of(count)?;
    let port = number_of(port)?;
    Some(Said::Unplugged { count, port })
}

/// What COUNT, a verb, T, TIME and WORD say.
fn said_of_five(count: &str, verb: &str, task: &str, time: &str, word: &str) -> Option<Said>
    ensures { result ≡ spec.said_of_five count.now verb.now task.now time.now word.now }
{
    if verb != "rel" {
        return None;
    }
    let count = steps_of(count)?;
    let task = number_of(task)?;
    let time = word_of(time)?;
    let word = word_of(word)?;
    Some(Said::Released {
        count,
        task,
        time,
        word,
    })
}

/// The number of steps that a word spells, at most 100,000,000.
fn steps_of(text: &str) -> Option<u64>
    ensures { result ≡ spec.steps_of text.now }
{
    let n = count_of(text)?;
    if n <= MOST_STEPS { Some(n) } else { None }
}

/// The number of a task or a port that a word spells: `None` for one of more than 8 bits.
fn number_of(text: &str) -> Option<Option<u8>>
    ensures { result ≡ spec.number_of text.now }
{
    match byte_of(text) {
        Some(n) => Some(Some(n)),
        None => large_of(is_numeral(text)),
    }
}

/// A number of more than 8 bits, where there is a number.
fn large_of(numeral: bool) -> Option<Option<u8>>
    ensures { result ≡ spec.large_of numeral }
{
    if numeral { Some(None) } else { None }
}

/// Whether the word is a number: decimal digits, of which the first is 0 only where it is the only one.
fn is_numeral(word: &str) -> bool
    ensures { result ≡ faults.is_numeral word.now }
{
    let digits = word.as_bytes();
    if digits.is_empty() {
        return false;
    }
    are_digits(digits) && has_front(digits)
}

/// Whether each byte is a decimal digit.
fn are_digits(bytes: &[u8]) -> bool
    ensures { result ≡ list_all (λ byte. is_digit byte 10) bytes.now }
{
    bytes.iter().all(|byte| is_digit(*byte))
}

/// Whether the first digit is 0 only where it is the only one.
fn has_front(digits: &[u8]) -> bool
    requires { 0 < length digits.now }
    ensures { result ≡ faults.has_front digits.now }
{
    digits.len() == 1 || digits[0] != b'0'
}

/// Whether the byte is a decimal digit.
fn is_digit(byte: u8) -> bool
    ensures { result ≡ is_digit byte 10 }
{
    byte.is_ascii_digit()
}
