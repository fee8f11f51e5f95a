//! A window of memory: bytes from an address on.
ghost use Rattle.std.specs.Prelude.{◌≡◌, ◌≢◌, ℕ, ◌+◌, ◌-◌, ◌*◌, ◌/◌, ◌%◌, ◌^◌, ◌<◌, ◌≤◌, ◌++◌};
ghost use Rattle.std.specs.Prelude.{length, replicate, vec_len, IsTrue, IsFalse, IfSome, IfNone, IfOk};
ghost use Rattle.std.specs.List.{flat_map};
ghost use Rattle.em_hart.specs.Hart.{bytes_of, number_in_bytes, with_number, has_bytes};
ghost use Rattle.em_hart.specs.Widths.{bytes_in};

use crate::widths::Width;
use em_base::NoMemory;
use std::alloc::{AllocError, Global};
use std::marker::Model;

/// The address where the own window of a task begins.
pub const OWN_BASE: u32 = 0x1000_0000;

/// The address where the shared window begins.
pub const SHARED_BASE: u32 = 0x2000_0000;

/// A window of memory, of at most 65,536 bytes. Contracts see it as the address where it begins and the list of its
/// bytes. Numbers stand in it little-endian.
#[derive(Drop)]
pub struct Window {
    base: u32,
    bytes: Vec<u8>,
}

impl Model for Window {
    ghost use Rattle.std.specs.Prelude.{◌≤◌, length};
    ghost use Rattle.em_hart.specs.Hart.{Memory};

    ghost Value = { Memory };

    ghost view = { λ a. record { base = a.base; bytes = a.bytes.items } };

    ghost invariant = { λ a. length a.bytes.items ≤ 65536 };
}

/// The bytes of the words, one word after the other, and then zeros up to the size.
fn window_bytes(alloc: Global, first: &[u32], size: u32) -> Result<Vec<u8>, AllocError>
    requires { 4 * length first.now ≤ size }
    ensures items { IfOk result (λ v. v.items
        ≡ flat_map (bytes_of 4) first.now ++ replicate (size - 4 * length first.now) 0) }
    ensures length { IfOk result (λ v. vec_len v ≡ size) }
{
    let mut bytes = Vec::with_capacity(alloc, size as usize)?;
    for word in first {
        bytes.extend_from_slice(&word.to_le_bytes())?;
    }
    bytes.resize(size as usize, 0)?;
    Ok(bytes)
}

/// Puts the lowest bytes of a number at a place of the bytes.
fn put_number(bytes: &mut [u8], width: Width, place: usize, number: u32)
    requires { place + bytes_in width ≤ length bytes.old }
    ensures whole { bytes.new ≡ with_number bytes.old (bytes_in width) place number }
    ensures length { length bytes.new ≡ length bytes.old }
{
    let [b0, b1, b2, b3] = number.to_le_bytes();
    match width {
        Width::Byte => bytes[place] = b0,
        Width::Half => {
            bytes[place] = b0;
            bytes[place + 1] = b1;
        }
        Width::Word => {
            bytes[place] = b0;
            bytes[place + 1] = b1;
            bytes[place + 2] = b2;
            bytes[place + 3] = b3;
        }
    }
}

impl Window {
    /// A window of `size` bytes from the address `base` on. It begins with the words of `first`, and the rest is zero.
    /// `size` is a multiple of 4, at most 65,536, and at least four times the number of words. Its only refusal is
    /// `NoMemory`.
    pub fn new(alloc: Global, base: u32, first: &[u32], size: u32) -> Result<Window, NoMemory>
        requires whole { size % 4 ≡ 0 }
        requires limit { size ≤ 65536 }
        requires room { 4 * length first.now ≤ size }
        ensures { IfOk result (λ window. window ≡ record {
          base = base;
          bytes = flat_map (bytes_of 4) first.now ++ replicate (size - 4 * length first.now) 0;
        }) }
    {
        let bytes = window_bytes(alloc, first, size)?;
        Ok(Window { base, bytes })
    }

    /// The number of its bytes.
    pub fn length(&self) -> u32
        ensures length { result ≡ length self.now.bytes }
        ensures limit { result ≤ 65536 }
    {
        self.bytes.len() as u32
    }

    /// The word `i` of the window, counted from 0; `i` is below a quarter of the length.
    pub fn word_at(&self, i: u32) -> u32
        requires { i < length self.now.bytes / 4 }
        ensures { result ≡ number_in_bytes self.now.bytes 4 (4 * i) }
    {
        self.number(Width::Word, i as usize * 4)
    }

    /// Puts a word in place of the word `i`, counted from 0; `i` is below a quarter of the length.
    pub fn set_word(&mut self, i: u32, w: u32)
        requires { i < length self.old.bytes / 4 }
        ensures whole { let bytes = with_number self.old.bytes 4 (4 * i) w in
            self.new ≡ record self.old { bytes = bytes } }

        // The same, word by word.
        ensures written { number_in_bytes self.new.bytes 4 (4 * i) ≡ w }
        ensures others { (j : ℕ) → j ≢ i
            → number_in_bytes self.new.bytes 4 (4 * j) ≡ number_in_bytes self.old.bytes 4 (4 * j) }
        ensures base { self.new.base ≡ self.old.base }
        ensures length { length self.new.bytes ≡ length self.old.bytes }
    {
        self.put(Width::Word, i as usize * 4, w);
    }

    /// Where in the window the bytes of an access at an address stand; `None` exactly where they are not wholly inside.
    pub(crate) fn place(&self, width: Width, address: u32) -> Option<usize>
        ensures found { IfSome result (λ place.
            IsTrue (has_bytes self.now (bytes_in width) address)) }
        ensures value { IfSome result (λ place. place ≡ address - self.now.base) }
        ensures within { IfSome result (λ place. place + bytes_in width ≤ length self.now.bytes) }
        ensures outside { IfNone result (IsFalse (has_bytes self.now (bytes_in width) address)) }
    {
        let place = address.checked_sub(self.base)? as usize;
        if place + width.bytes() as usize <= self.bytes.len() {
            Some(place)
        } else {
            None
        }
    }

    /// The number that stands at a place, without a sign.
    pub(crate) fn number(&self, width: Width, place: usize) -> u32
        requires { place + bytes_in width ≤ length self.now.bytes }
        ensures number { result ≡ number_in_bytes self.now.bytes (bytes_in width) place }
        ensures small { result < 2 ^ (8 * bytes_in width) }
    {
        let bytes = self.bytes.as_slice();
        match width {
            Width::Byte => u32::from(bytes[place]),
            Width::Half => u32::from(u16::from_le_bytes([bytes[place], bytes[place + 1]])),
            Width::Word => u32::from_le_bytes([
                bytes[place],
                bytes[place + 1],
                bytes[place + 2],
                bytes[place + 3],
            ]),
        }
    }

    /// Puts the lowest bytes of a number at a place.
    pub(crate) fn put(&mut self, width: Width, place: usize, number: u32)
        requires { place + bytes_in width ≤ length self.old.bytes }
        ensures whole { self.new
            ≡ record self.old { bytes = with_number self.old.bytes (bytes_in width) place number } }
        ensures base { self.new.base ≡ self.old.base }
        ensures length { length self.new.bytes ≡ length self.old.bytes }
    {
        put_number(self.bytes.as_mut_slice(), width, place, number);
    }
}
