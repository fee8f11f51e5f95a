//! The listing of code.
ghost use Rattle.std.specs.Prelude.{◌≡◌, ◌++◌, ◌≤◌, ◌*◌, ◌<◌, List, ℕ, length, IfOk, OnOk, string_bytes};
ghost use Rattle.em_show.specs.Listing.{IsListing, IsTextOf, listed_line};
ghost use Rattle.em_show.specs.Show.{hexadecimal};

use crate::texts::{put_hexadecimal, put_instruction, put_raw};
use em_base::{Image, NoMemory};
use em_isa::decode;
use std::alloc::Global;

/// The listing of the code of an image, which has at most 16,384 code words: a line for each, with its address and the word
/// in 8 hexadecimal digits and the text of its instruction, or `.code` and the word where it is none. Its only refusal is
/// `NoMemory`.
pub fn listing(alloc: Global, image: &Image) -> Result<String, NoMemory>
    requires { length image.now.words ≤ 16384 }
    ensures { IfOk result (λ text. IsListing image.now.words (string_bytes text)) }
{
    words_listing(alloc, image.words.as_slice())
}

/// The listing of code words.
fn words_listing(alloc: Global, words: &[u32]) -> Result<String, NoMemory>
    requires { length words.now ≤ 16384 }
    ensures { IfOk result (λ text. IsListing words.now (string_bytes text)) }
{
    let mut text = String::new(alloc);
    for (place, word) in words.iter().enumerate() {
        put_line(&mut text, 4 * place as u32, *word)?;
    }
    Ok(text)
}

/// Puts the line of a word at the end.
fn put_line(text: &mut String, address: u32, word: u32) -> Result<(), NoMemory>
    ensures { OnOk result ((own : List ℕ) × IsTextOf word own
        × (string_bytes text.new ≡ string_bytes text.old ++ listed_line address word own)) }
{
    put_hexadecimal(text, address)?;
    text.push_str(": ")?;
    put_hexadecimal(text, word)?;
    text.push(' ')?;
    put_word(text, word)?;
    text.push('\n')?;
    Ok(())
}

/// Puts the text of a word at the end.
fn put_word(text: &mut String, word: u32) -> Result<(), NoMemory>
    ensures { OnOk result ((own : List ℕ) × IsTextOf word own
        × (string_bytes text.new ≡ string_bytes text.old ++ own)) }
{
    match decode(word) {
        Some(instruction) => put_instruction(text, &instruction),
        None => put_raw(text, word),
    }
}
