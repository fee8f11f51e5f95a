//! The buffer of one state message.
ghost use Rattle.std.specs.Prelude.{◌≡◌, ℕ, ◌+◌, ◌%◌, ◌^◌, ◌<◌, ◌≤◌, ◌++◌, ◌∷◌, [], List, length, replicate, false, true};
ghost use Rattle.std.specs.Prelude.{IfOk, IsOk, slice_index_or, slice_set};
ghost use Rattle.em_state.specs.Buffers.{IsResting, IsWhole, IsWriting, StandsFor, word_of};

use em_base::NoMemory;
use std::alloc::Global;
use std::marker::Model;
use thiserror::Error;

/// The most words of a value.
const MOST_WORDS: usize = 16;

/// A read came too late: the value that it noted when it began is no longer kept.
#[derive(Clone, Copy, Debug, PartialEq, Eq, Error)]
#[error("value {noted} is no longer kept: {begun} writes have begun")]
pub struct Lapped {
    /// The number of the value that the read noted.
    pub noted: u64,
    /// How many writes had begun when the read came too late: at least `noted` and the depth of the buffer.
    pub begun: u64,
}

/// The buffer of one state message. It keeps the newest values of the message, so that readers may copy a value word by word
/// while a writer goes on.
///
/// Values are numbered from 0 in the order in which they are published; value 0, all of it zero, is there from the start. A
/// value has 1 to 16 words. The buffer has a depth of 2 to 64: value `n` is kept as long as fewer than `n + depth` writes have
/// begun. One value at a time is written: it is begun, then its words are put, then it is published. No call but `new` takes
/// memory.
///
/// Contracts see what the buffer keeps, and say for which lists of published values it stands (`StandsFor`).
#[derive(Drop)]
pub struct StateBuf {
    words: u8,
    depth: u8,
    begun: u64,
    newest: u64,
    /// The place of value `n` is `n` modulo the depth. There are as many places as the buffer is deep.
    places: Vec<[u32; MOST_WORDS]>,
    /// The value that is being written, and which of its words were put.
    draft: [u32; MOST_WORDS],
    put: [bool; MOST_WORDS],
}

impl Model for StateBuf {
    ghost use Rattle.std.specs.Prelude.{◌≡◌, ◌+◌, ◌^◌, ◌≤◌, length, take};
    ghost use Rattle.em_state.specs.Buffers.{Kept, placed_values};

    ghost Value = { Kept };

    ghost view = { λ a. record {
      words = a.words;
      depth = a.depth;
      begun = a.begun;
      newest = a.newest;
      values = placed_values a.words a.depth a.begun a.newest a.places.items;
      draft = take a.words a.draft;
      put = take a.words a.put;
    } };

    ghost invariant = { λ a. (1 ≤ a.words) × (a.words ≤ 16) × (2 ≤ a.depth) × (a.depth ≤ 64)
        × (length a.places.items ≡ a.depth)
        × (a.newest ≤ a.begun) × (a.begun ≤ a.newest + 1) × (a.begun ≤ 2 ^ 63) };
}

/// The place of a value in a ring of `depth` places.
fn place_of(number: u64, depth: u8) -> usize
    requires { 1 ≤ depth }
    ensures place { result ≡ number % depth }
    ensures within { result < depth }
{
    (number % u64::from(depth)) as usize
}

impl StateBuf {
    /// A buffer for values of `words` words, 1 to 16, with a depth of `depth`, 2 to 64. Value 0 is published and all of it is
    /// zero; no write has begun. `NoMemory` where memory can't be had.
    pub fn new(alloc: Global, words: u8, depth: u8) -> Result<StateBuf, NoMemory>
        requires some_words { 1 ≤ words }
        requires few_words { words ≤ 16 }
        requires deep { 2 ≤ depth }
        requires not_too_deep { depth ≤ 64 }
        ensures stands { IfOk result (λ made. StandsFor made (replicate words 0 ∷ [])) }
        ensures begun { IfOk result (λ made. made.begun ≡ 0) }
        ensures newest { IfOk result (λ made. made.newest ≡ 0) }
        ensures words { IfOk result (λ made. made.words ≡ words) }
        ensures depth { IfOk result (λ made. made.depth ≡ depth) }
    {
        Ok(StateBuf {
            words,
            depth,
            begun: 0,
            newest: 0,
            places: vec![in alloc; [0; MOST_WORDS]; usize::from(depth)]?,
            draft: [0; MOST_WORDS],
            put: [false; MOST_WORDS],
        })
    }

    /// How many words a value has: 1 to 16.
    pub fn words(&self) -> u8
        ensures value { result ≡ self.now.words }
        ensures some { 1 ≤ result }
        ensures few { result ≤ 16 }
    {
        self.words
    }

    /// The depth of the buffer: 2 to 64.
    pub fn depth(&self) -> u8
        ensures value { result ≡ self.now.depth }
        ensures deep { 2 ≤ result }
        ensures not_too_deep { result ≤ 64 }
    {
        self.depth
    }

    /// Begins the write of the next value. None of its words is put yet. The oldest value that is kept is dropped where as many
    /// values are kept as the buffer is deep.
    pub fn begin_write(&mut self)
        requires resting { IsResting self.old }
        requires early { self.old.begun < 2 ^ 63 }
        ensures stands { (values : List (List ℕ)) → StandsFor self.old values
            → StandsFor self.new values }
        ensures begun { self.new.begun ≡ self.old.begun + 1 }
        ensures newest { self.new.newest ≡ self.old.newest }
        ensures draft { self.new.draft ≡ replicate self.old.words 0 }
        ensures put { self.new.put ≡ replicate self.old.words false }
        ensures words { self.new.words ≡ self.old.words }
        ensures depth { self.new.depth ≡ self.old.depth }
    {
        self.begun += 1;
        self.draft = [0; MOST_WORDS];
        self.put = [false; MOST_WORDS];
    }

    /// Puts the word `i` of the value that is being written; `i` is below the number of words. Readers don't see it before
    /// the value is published.
    pub fn put_word(&mut self, i: u8, w: u32)
        requires writing { IsWriting self.old }
        requires word { i < self.old.words }
        ensures stands { (values : List (List ℕ)) → StandsFor self.old values
            → StandsFor self.new values }
        ensures begun { self.new.begun ≡ self.old.begun }
        ensures newest { self.new.newest ≡ self.old.newest }
        ensures draft { self.new.draft ≡ slice_set self.old.draft i w }
        ensures put { self.new.put ≡ slice_set self.old.put i true }
        ensures words { self.new.words ≡ self.old.words }
        ensures depth { self.new.depth ≡ self.old.depth }
    {
        self.draft[usize::from(i)] = w;
        self.put[usize::from(i)] = true;
    }

    /// Publishes the value that is being written, each word of which was put. It is the newest one then.
    pub fn publish(&mut self)
        requires writing { IsWriting self.old }
        requires whole { IsWhole self.old }
        ensures stands { (values : List (List ℕ)) → StandsFor self.old values
            → StandsFor self.new (values ++ self.old.draft ∷ []) }
        ensures begun { self.new.begun ≡ self.old.begun }
        ensures newest { self.new.newest ≡ self.old.newest + 1 }
        ensures words { self.new.words ≡ self.old.words }
        ensures depth { self.new.depth ≡ self.old.depth }
    {
        self.newest = self.begun;
        let place = place_of(self.newest, self.depth);
        self.places[place] = self.draft;
    }

    /// The number of the newest value, for a read that begins: it notes this number and copies the words of that value.
    pub fn begin_read(&self) -> u64
        ensures number { result ≡ self.now.newest }
        ensures last { (values : List (List ℕ)) → StandsFor self.now values
            → length values ≡ result + 1 }
    {
        self.newest
    }

    /// The number of the newest value.
    pub fn seen(&self) -> u64
        ensures number { result ≡ self.now.newest }
        ensures last { (values : List (List ℕ)) → StandsFor self.now values
            → length values ≡ result + 1 }
    {
        self.newest
    }

    /// How many writes have begun: the number of the newest value, or one more while a write is not published.
    pub fn begun(&self) -> u64
        ensures count { result ≡ self.now.begun }
        ensures least { self.now.newest ≤ result }
        ensures most { result ≤ self.now.newest + 1 }
    {
        self.begun
    }

    /// The word `i` of the value `noted`, which was published; `i` is below the number of words. `Lapped` exactly where
    /// `noted + depth` writes have begun.
    pub fn get_word(&self, noted: u64, i: u8) -> Result<u32, Lapped>
        requires published { noted ≤ self.now.newest }
        requires word { i < self.now.words }
        ensures word { IfOk result (λ word. (values : List (List ℕ))
            → StandsFor self.now values → word ≡ word_of values noted i) }
        ensures kept { self.now.begun < noted + self.now.depth → IsOk result }
        ensures lapped { noted + self.now.depth ≤ self.now.begun
            → result ≡ Err (record { noted = noted; begun = self.now.begun }) }
    {
        if self.begun - noted >= u64::from(self.depth) {
            return Err(Lapped {
                noted,
                begun: self.begun,
            });
        }
        Ok(self.places[place_of(noted, self.depth)][usize::from(i)])
    }
}
