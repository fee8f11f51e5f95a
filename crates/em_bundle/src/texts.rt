//! The bytes of an input as a text, and the text line by line.
ghost use Rattle.std.specs.Prelude.{◌≡◌, ◌<◌, ◌≤◌, ◌+◌, ◌^◌, [], nat_eq, length, take, count_by};
ghost use Rattle.std.specs.Prelude.{IfOk, IfSome, MatchOption, string_bytes};
ghost use Rattle.std.specs.Str.{IsUtf8};
ghost use Rattle.std.specs.Str.Lines.{lines, strip_carriage_return};
ghost use Rattle.em_bundle.specs.Parts.{text_of};
ghost use Rattle.em_bundle.specs.Walk.{IsFirstLine};

use std::alloc::{AllocError, Global};

/// The number of the line in which the byte at a place stands, counted from 1.
pub fn line_of(bytes: &[u8], place: usize) -> u32
    requires few { length (lines bytes.now) < 2 ^ 31 }
    requires within { place ≤ length bytes.now }
    ensures { result ≡ count_by (λ byte. nat_eq byte 10) (take place bytes.now) + 1 }
{
    newlines(&bytes[..place]) as u32 + 1
}

/// How many line feeds stand in the bytes.
fn newlines(bytes: &[u8]) -> usize
    ensures count { result ≡ count_by (λ byte. nat_eq byte 10) bytes.now }
    ensures within { result ≤ length bytes.now }
{
    bytes.iter().filter(|byte| **byte == b'\n').count()
}

/// A line without the one carriage return at its end, where it has one.
fn without_return(line: &str) -> &str
    ensures { result.now ≡ strip_carriage_return line.now }
{
    line.strip_suffix('\r').unwrap_or(line)
}

/// The first line of a text, without its line end, and what follows it. `None` exactly where the text is empty.
///
/// A line ends by LF, and one CR right before the LF is part of its end; the last line may lack its LF.
pub fn next_line(text: &str) -> Option<(&str, &str)>
    ensures first { MatchOption result (text.now ≡ [])
        (λ found. IsFirstLine text.now found.0.now found.1.now) }
    ensures utf8 { IfSome result (λ found. IsUtf8 found.1.now) }
{
    // An input may have millions of empty lines, whose end isn't searched.
    if let Some(rest) = text.strip_prefix('\n') {
        return Some(("", rest));
    }
    match text.split_once('\n') {
        Some((line, rest)) => Some((without_return(line), rest)),
        None => if text.is_empty() {
            None
        } else {
            Some((text, ""))
        },
    }
}

/// The lines of a text, each of them followed by one line feed.
pub fn with_line_feeds(alloc: Global, text: &str) -> Result<String, AllocError>
    requires { length (lines text.now) < 2 ^ 31 }
    ensures { IfOk result (λ copy. string_bytes copy ≡ text_of (lines text.now)) }
{
    let mut copy = String::with_capacity(alloc, text.len().saturating_add(1))?;
    let mut rest = text;
    'lines: while let Some((line, after)) = next_line(rest) {
        copy.push_str(line)?;
        copy.push('\n')?;
        rest = after;
    }
    Ok(copy)
}
