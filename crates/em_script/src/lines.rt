//! What a line of a script says.
ghost use Rattle.std.specs.Prelude.{◌≡◌, ◌≤◌, ◌<◌, ◌^◌, [], ◌∷◌, IfSome, MatchOption};
ghost use Rattle.std.specs.Option.{SomeIff};
ghost use Rattle.std.specs.Str.Parse.{IsNumeral, digits_value};
ghost use Rattle.em_script.specs.Lines as spec;
ghost use Rattle.em_script.specs.Lines.{meaning_of, meaning_of_words, words_in};

use em_base::numbers::digits_number;
use em_base::pieces::{before, skip_blanks, split_word};
use std::str;

/// The greatest number of an interrupt line.
const LAST_LINE: u32 = 31;

/// The greatest number of a port.
const LAST_PORT: u32 = 7;

/// What a line of a script says. Times are in cycles since the start of the run.
#[derive(Clone, Copy, Debug, PartialEq, Eq)]
pub enum Meaning {
    /// Nothing: the line is blank, or a comment alone.
    Nothing,
    /// At a time, an interrupt comes on a line, 0 to 31, with a word.
    Interrupt {
        /// The time.
        time: u32,
        /// The interrupt line.
        line: u8,
        /// The word that the released task finds.
        word: u32,
    },
    /// At a time, a port is unplugged.
    Unplugged {
        /// The time.
        time: u32,
        /// The port, 0 to 7.
        port: u8,
    },
}

/// What a line says: nothing, TIME `line` N WORD, or TIME `unplug` PORT, before a comment that `#` begins. Words stand
/// between spaces and tabs. Numbers are decimal digits: N at most 31, PORT at most 7, the others at most 4294967295.
/// `None` where the line is none of these.
pub fn read_line(line: &str) -> Option<Meaning>
    ensures { result ≡ meaning_of line.now }
{
    read_words(before(line.as_bytes(), b'#'))
}

/// What the words of a text say.
fn read_words(text: &[u8]) -> Option<Meaning>
    ensures { result ≡ meaning_of_words (words_in text.now) }
{
    let Some((time, rest)) = first_word(text) else {
        return Some(Meaning::Nothing);
    };
    let (verb, rest) = first_word(rest)?;
    let (first, rest) = first_word(rest)?;
    match first_word(rest) {
        None => unplug(time, verb, first),
        Some((second, rest)) => match first_word(rest) {
            None => interrupt(time, verb, first, second),
            Some(_) => None,
        },
    }
}

/// The first word, and what follows it. `None` where there is no word.
fn first_word(text: &[u8]) -> Option<(&[u8], &[u8])>
    ensures { MatchOption result (words_in text.now ≡ [])
        (λ parts. words_in text.now ≡ parts.0.now ∷ words_in parts.1.now) }
{
    let (word, rest) = split_word(skip_blanks(text));
    if word.is_empty() {
        None
    } else {
        Some((word, rest))
    }
}

/// What TIME, a verb and PORT say.
fn unplug(time: &[u8], verb: &[u8], port: &[u8]) -> Option<Meaning>
    ensures { result ≡ meaning_of_words (time.now ∷ verb.now ∷ port.now ∷ []) }
{
    if verb != b"unplug".as_slice() {
        return None;
    }
    let time = decimal(time, u32::MAX)?;
    let port = decimal(port, LAST_PORT)? as u8;
    Some(Meaning::Unplugged { time, port })
}

/// What TIME, a verb, N and WORD say.
fn interrupt(time: &[u8], verb: &[u8], line: &[u8], word: &[u8]) -> Option<Meaning>
    ensures { result ≡ meaning_of_words (time.now ∷ verb.now ∷ line.now ∷ word.now ∷ []) }
{
    if verb != b"line".as_slice() {
        return None;
    }
    let time = decimal(time, u32::MAX)?;
    let line = decimal(line, LAST_LINE)? as u8;
    let word = decimal(word, u32::MAX)?;
    Some(Meaning::Interrupt { time, line, word })
}

/// The number that decimal digits write, where it is at most `high`.
fn decimal(text: &[u8], high: u32) -> Option<u32>
    ensures value { result ≡ spec.decimal high text.now }
    ensures within { IfSome result (λ n. n ≤ high) }
{
    let n = number(text)?;
    if n <= high { Some(n) } else { None }
}

/// The number that decimal digits write, where it is below 2^32.
fn number(text: &[u8]) -> Option<u32>
    ensures { let number = digits_value 10 text.now in
        SomeIff result (IsNumeral 10 text.now × (number < 2 ^ 32)) number }
{
    match str::from_utf8(text) {
        Ok(digits) => u32::try_from(digits_number(digits, 10)?).ok(),
        Err(_) => None,
    }
}
