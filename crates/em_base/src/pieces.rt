//! Texts taken apart: at spaces and tabs, and around one byte.
ghost use Rattle.std.specs.Prelude.{◌≡◌, ◌<◌, ◌≤◌, true, length, drop, nat_eq, IfOk};
ghost use Rattle.std.specs.List.{before_first, after_first, list_any, position_or_len, prefix_len, suffix_len, slice_split};
ghost use Rattle.em_base.specs.Text.{is_comma, is_space, has_space, texts_of, trimmed, unindented};

use std::alloc::{AllocError, Global};

/// Whether the byte is a space or a tab.
pub fn is_blank(byte: u8) -> bool
    ensures { result ≡ is_space byte }
{
    byte == b' ' || byte == b'\t'
}

/// Whether a space or a tab stands in the text.
pub fn has_blank(text: &[u8]) -> bool
    ensures { result ≡ has_space text.now }
{
    text.iter().any(|byte| is_blank(*byte))
}

/// How many spaces and tabs stand in front.
fn leading(text: &[u8]) -> usize
    ensures value { result ≡ prefix_len is_space text.now }
    ensures within { result ≤ length text.now }
{
    text.iter().take_while(|byte| is_blank(**byte)).count()
}

/// How many spaces and tabs stand at the end.
fn trailing(text: &[u8]) -> usize
    ensures value { result ≡ suffix_len is_space text.now }
    ensures within { result ≤ length text.now }
{
    text.iter()
        .rev()
        .take_while(|byte| is_blank(**byte))
        .count()
}

/// The text without the spaces and tabs in front.
pub fn skip_blanks(text: &[u8]) -> &[u8]
    ensures { result.now ≡ unindented text.now }
{
    &text[leading(text)..]
}

/// The text without the spaces and tabs at both its ends.
pub fn trim(text: &[u8]) -> &[u8]
    ensures { result.now ≡ trimmed text.now }
{
    let rest = skip_blanks(text);
    &rest[..rest.len() - trailing(rest)]
}

/// Whether the byte stands in the text.
pub fn has(text: &[u8], byte: u8) -> bool
    ensures value { result ≡ list_any (λ other. nat_eq other byte) text.now }
    ensures some { result ≡ true → 0 < length text.now }
{
    text.iter().any(|other| *other == byte)
}

/// What stands before the first such byte: the whole text where there is none.
pub fn before(text: &[u8], byte: u8) -> &[u8]
    ensures { result.now ≡ before_first (λ other. nat_eq other byte) text.now }
{
    &text[..place(text, byte)]
}

/// What stands after the first such byte: nothing where there is none.
pub fn after(text: &[u8], byte: u8) -> &[u8]
    ensures { result.now ≡ after_first (λ other. nat_eq other byte) text.now }
{
    let at = place(text, byte);
    if at < text.len() {
        &text[at + 1..]
    } else {
        &text[at..]
    }
}

/// The place of the first such byte, or the length where there is none.
fn place(text: &[u8], byte: u8) -> usize
    ensures value { result ≡ position_or_len (λ other. nat_eq other byte) text.now }
    ensures within { result ≤ length text.now }
{
    text.iter().take_while(|other| **other != byte).count()
}

/// How many bytes stand before the first space or tab, or in the text where there is none.
fn word_length(text: &[u8]) -> usize
    ensures value { result ≡ position_or_len is_space text.now }
    ensures within { result ≤ length text.now }
{
    text.iter().take_while(|byte| !is_blank(**byte)).count()
}

/// The word with which the text begins, and what follows it.
pub fn split_word(text: &[u8]) -> (&[u8], &[u8])
    ensures word { result.0.now ≡ before_first is_space text.now }
    ensures rest { result.1.now ≡ drop (position_or_len is_space text.now) text.now }
{
    text.split_at(word_length(text))
}

/// The pieces between the commas.
pub fn split_at_commas<'a>(alloc: Global, text: &'a [u8]) -> Result<Vec<&'a [u8]>, AllocError>
    ensures { IfOk result (λ pieces. texts_of pieces.items ≡ slice_split is_comma text.now) }
{
    text.split(|byte| *byte == b',').collect(alloc)
}
