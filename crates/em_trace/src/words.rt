//! The words of a line.
ghost use Rattle.std.specs.Prelude.{◌≡◌, [], ◌∷◌, Some, MatchOption};
ghost use Rattle.em_trace.specs.Words as spec;
ghost use Rattle.em_trace.specs.Words.{words_of};

use em_base::SemId;
use em_base::numbers::digits_number;

/// The first word of a text and what follows the space after it. `None` where the text is one word.
pub fn cut(text: &str) -> Option<(&str, &str)>
    ensures { MatchOption result (words_of text.now ≡ text.now ∷ [])
        (λ parts. words_of text.now ≡ parts.0.now ∷ words_of parts.1.now) }
{
    text.split_once(' ')
}

/// The number of 8 bits that a word spells.
pub fn byte_of(text: &str) -> Option<u8>
    ensures { result ≡ spec.byte_of text.now }
{
    u8::try_from(count_of(text)?).ok()
}

/// The number of 32 bits that a word spells.
pub fn word_of(text: &str) -> Option<u32>
    ensures { result ≡ spec.word_of text.now }
{
    u32::try_from(count_of(text)?).ok()
}

/// The number of 64 bits that a word spells: decimal digits, of which the first is 0 only where it is the only one.
pub fn count_of(text: &str) -> Option<u64>
    ensures { result ≡ spec.count_of text.now }
{
    if text.len() > 1 && text.starts_with('0') {
        return None;
    }
    u64::try_from(digits_number(text, 10)?).ok()
}

/// The code that a word spells, from -10 to -1.
pub fn code_of(text: &str) -> Option<i8>
    ensures { result ≡ spec.code_of text.now }
{
    negative(count_of(text.strip_prefix('-')?)?)
}

/// The code below zero of a number from 1 to 10.
fn negative(n: u64) -> Option<i8>
    ensures { result ≡ spec.negative (Some n) }
{
    if n > 0 && n <= 10 {
        Some(-(n as i8))
    } else {
        None
    }
}

/// The semaphore that a word spells, or none where it is a dash.
pub fn semaphore_of(text: &str) -> Option<Option<SemId>>
    ensures { result ≡ spec.semaphore_of text.now }
{
    if text == "-" {
        return Some(None);
    }
    Some(Some(SemId(byte_of(text)?)))
}
