//! A source and a sink in memory, which move a few bytes at a time and fail at the calls that they are told to fail at.
ghost use Rattle.std.specs.Prelude.{◌≡◌, ◌+◌, ◌-◌, ◌<◌, ◌≤◌, ◌↔◌, ◌⊎◌, [], ◌++◌, length, take, drop, Some, IfOk, OnOk, OnErr, IsErr, Contains};
ghost use Rattle.em_io.specs.Bytes.{Rose, then_left, and_then, IsAtEnd, next_count};
ghost use Rattle.em_io.specs.Memory.{read_size, write_size};

use crate::sinks::Sink;
use crate::sources::{Failed, Source};
use em_base::NoMemory;
use std::alloc::Global;
use std::marker::Model;

/// Bytes in memory that are read in pieces, with reads that fail. Contracts see it as a `Supply`.
#[derive(Drop)]
pub struct MemSource {
    bytes: Vec<u8>,
    /// How many of the bytes were read.
    at: usize,
    fails: Vec<u64>,
    piece: usize,
    calls: u64,
    faults: u64,
}

impl Model for MemSource {
    ghost use Rattle.std.specs.Prelude.{◌≤◌, drop, length};
    ghost use Rattle.em_io.specs.Memory.{Supply};

    ghost Value = { Supply };

    ghost view = { λ s. record {
      left = drop s.at s.bytes.items;
      fails = s.fails.items;
      piece = s.piece;
      calls = s.calls;
      faults = s.faults;
    } };

    ghost invariant = { λ s. (s.at ≤ length s.bytes.items) × (1 ≤ s.piece) };
}

impl MemSource {
    /// A source of these bytes. A read moves at most `piece` of them, at least 1, and the reads whose numbers are in
    /// `fails`, counted from 1, fail.
    pub fn new(bytes: Vec<u8>, fails: Vec<u64>, piece: usize) -> MemSource
        requires { 1 ≤ piece }
        ensures { result ≡ record {
          left = bytes.items;
          fails = fails.items;
          piece = piece;
          calls = 0;
          faults = 0;
        } }
    {
        MemSource {
            bytes,
            at: 0,
            fails,
            piece,
            calls: 0,
            faults: 0,
        }
    }

    /// How many reads failed. The count stands still at 2^64 - 1.
    pub fn faults(&self) -> u64
        ensures { result ≡ self.now.faults }
    {
        self.faults
    }
}

impl Source for MemSource {
    ghost left = { λ s. Some s.left };

    ghost faults = { λ s. s.faults };

    /// Hands over as many bytes as fit in `buf`, are in a piece and are left. `Failed` comes exactly at a call whose
    /// number is in `fails`. The number of calls stands still at 2^64 - 1.
    fn read(&mut self, buf: &mut [u8]) -> Result<usize, Failed>
        ensures count { IfOk result (λ k. k ≤ length buf.old) }
        ensures len { length buf.new ≡ length buf.old }
        ensures gives { IfOk result (λ k. Some self.old.left
            ≡ then_left (take k buf.new) (Some self.new.left)) }
        ensures end { IfOk result (λ k. k ≡ 0 → 0 < length buf.old → IsAtEnd (Some self.new.left)) }
        ensures unread { OnErr result (Some self.new.left ≡ Some self.old.left) }
        ensures cause { OnErr result (Rose self.old.faults self.new.faults) }
        ensures grows { self.old.faults ≤ self.new.faults }

        // The same exactly: when it fails, how many bytes come, and what it leaves.
        ensures fails { IsErr result ↔ Contains self.old.fails (next_count self.old.calls) }
        ensures amount { IfOk result (λ k. k ≡ read_size self.old (length buf.old)) }
        ensures front { IfOk result (λ k. buf.new ≡ take k self.old.left ++ drop k buf.old) }
        ensures read { IfOk result (λ k. self.new ≡ record self.old {
          left = drop k self.old.left;
          calls = next_count self.old.calls;
        }) }
        ensures untouched { OnErr result (buf.new ≡ buf.old) }
        ensures failed { OnErr result (self.new ≡ record self.old {
          calls = next_count self.old.calls;
          faults = next_count self.old.faults;
        }) }
    {
        self.calls = self.calls.saturating_add(1);
        if self.fails.contains(&self.calls) {
            self.faults = self.faults.saturating_add(1);
            return Err(Failed);
        }
        let count = buf.len().min(self.piece).min(self.bytes.len() - self.at);
        let end = self.at + count;
        buf[..count].copy_from_slice(&self.bytes[self.at..end]);
        self.at = end;
        Ok(count)
    }
}

/// Room in memory that bytes are written to in pieces, with writes that fail. Contracts see it as a `Store`.
#[derive(Drop)]
pub struct MemSink {
    bytes: Vec<u8>,
    room: usize,
    fails: Vec<u64>,
    piece: usize,
    calls: u64,
    faults: u64,
}

impl Model for MemSink {
    ghost use Rattle.std.specs.Prelude.{◌≤◌, length};
    ghost use Rattle.std.specs.Vec.{vec_capacity};
    ghost use Rattle.em_io.specs.Memory.{Store};

    ghost Value = { Store };

    ghost view = { λ s. record {
      written = s.bytes.items;
      room = s.room;
      fails = s.fails.items;
      piece = s.piece;
      calls = s.calls;
      faults = s.faults;
    } };

    // The room was reserved, so that a write takes no memory.
    ghost invariant = { λ s. (length s.bytes.items ≤ s.room) × (s.room ≤ vec_capacity s.bytes)
        × (1 ≤ s.piece) };
}

impl MemSink {
    /// An empty sink for at most `room` bytes, which are reserved here, so that its writes take no memory. A write
    /// takes at most `piece` bytes, at least 1, and the writes whose numbers are in `fails`, counted from 1, fail. Its
    /// only refusal is `NoMemory`.
    pub fn new(
        alloc: Global,
        room: usize,
        fails: Vec<u64>,
        piece: usize,
    ) -> Result<MemSink, NoMemory>
        requires { 1 ≤ piece }
        ensures { IfOk result (λ sink. sink ≡ record {
          written = [];
          room = room;
          fails = fails.items;
          piece = piece;
          calls = 0;
          faults = 0;
        }) }
    {
        let bytes = Vec::with_capacity(alloc, room)?;
        Ok(MemSink {
            bytes,
            room,
            fails,
            piece,
            calls: 0,
            faults: 0,
        })
    }

    /// The bytes that were written, in order.
    pub fn written(&self) -> &[u8]
        ensures bytes { result.now ≡ self.now.written }
        ensures within { length result.now ≤ self.now.room }
    {
        self.bytes.as_slice()
    }

    /// How many writes failed. The count stands still at 2^64 - 1.
    pub fn faults(&self) -> u64
        ensures { result ≡ self.now.faults }
    {
        self.faults
    }
}

impl Sink for MemSink {
    ghost written = { λ s. Some s.written };

    ghost faults = { λ s. s.faults };

    /// Appends as many bytes as are offered, are in a piece and have room. `Failed` comes exactly at a call whose number
    /// is in `fails`, and where bytes are offered and no room is left. The number of calls stands still at 2^64 - 1.
    fn write(&mut self, bytes: &[u8]) -> Result<usize, Failed>
        ensures count { IfOk result (λ k. k ≤ length bytes.now) }
        ensures some { IfOk result (λ k. 0 < length bytes.now → 0 < k) }
        ensures takes { IfOk result (λ k. Some self.new.written
            ≡ and_then (Some self.old.written) (take k bytes.now)) }
        ensures unwritten { OnErr result (Some self.new.written ≡ Some self.old.written) }
        ensures cause { OnErr result (Rose self.old.faults self.new.faults) }
        ensures grows { self.old.faults ≤ self.new.faults }

        // The same exactly: when it fails, how many bytes it takes, and what it leaves.
        ensures fails { IsErr result ↔ (Contains self.old.fails (next_count self.old.calls)
            ⊎ ((self.old.room ≤ length self.old.written) × (0 < length bytes.now))) }
        ensures amount { IfOk result (λ k. k ≡ write_size self.old (length bytes.now)) }
        ensures appended { IfOk result (λ k. self.new ≡ record self.old {
          written = self.old.written ++ take k bytes.now;
          calls = next_count self.old.calls;
        }) }
        ensures failed { OnErr result (self.new ≡ record self.old {
          calls = next_count self.old.calls;
          faults = next_count self.old.faults;
        }) }
        ensures within { length self.new.written ≤ self.new.room }
    {
        self.calls = self.calls.saturating_add(1);
        let left = self.room - self.bytes.len();
        if self.fails.contains(&self.calls) || (left == 0 && !bytes.is_empty()) {
            self.faults = self.faults.saturating_add(1);
            return Err(Failed);
        }
        let count = bytes.len().min(self.piece).min(left);
        self.bytes.extend_from_slice(&bytes[..count]).unwrap();
        Ok(count)
    }
}
