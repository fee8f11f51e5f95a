//! The names of labels.
ghost use Rattle.std.specs.Prelude.{◌≡◌, true, false, MatchOption};
ghost use Rattle.std.specs.List.{list_all};
ghost use Rattle.em_asm_read.specs.Labels as spec;

use std::str;

/// The most bytes of a label's name.
const MOST_BYTES: usize = 64;

/// Whether the text may be the name of a label: 1 to 64 ASCII letters, digits, underscores and dots, the first of them
/// no digit.
pub fn is_label(text: &[u8]) -> bool
    ensures { result ≡ spec.is_label text.now }
{
    !text.is_empty() && text.len() <= MOST_BYTES && is_label_start(text[0]) && are_label_bytes(text)
}

/// Whether the byte may be the first of a label.
fn is_label_start(byte: u8) -> bool
    ensures { result ≡ spec.is_label_start byte }
{
    byte == b'_' || byte == b'.' || byte.is_ascii_alphabetic()
}

/// Whether each byte may stand in a label.
fn are_label_bytes(text: &[u8]) -> bool
    ensures { result ≡ list_all spec.is_label_byte text.now }
{
    text.iter()
        .all(|byte| is_label_start(*byte) || byte.is_ascii_digit())
}

/// The label that the text names.
pub fn label(text: &[u8]) -> Option<&str>
    ensures { MatchOption result (spec.is_label text.now ≡ false)
        (λ name. (spec.is_label text.now ≡ true) × (name.now ≡ text.now)) }
{
    if !is_label(text) {
        return None;
    }
    match str::from_utf8(text) {
        Ok(name) => Some(name),
        Err(_) => unreachable!(),
    }
}
