//! The image of an assembly text: the words that a machine starts from.
ghost use Rattle.std.specs.Prelude.{◌≡◌};
ghost use Rattle.em_base.specs.Images as spec;

use crate::list::Items;
use crate::text::Name;

/// A `waitjob` statement of the text.
#[derive(Clone, Copy, Debug, PartialEq, Eq)]
pub struct Wait {
    /// The address of its `ecall`, in bytes.
    pub address: u32,
    /// Its line in the whole input, counted from 1.
    pub line: u32,
    /// The semaphore that is written beside it as a hint.
    pub hint: Option<u32>,
}

/// What an assembly text stands for.
#[derive(Drop)]
pub struct Image {
    /// The code words, which stand from address 0: at most 16,384.
    pub words: Items<u32>,
    /// The words with which the shared window begins: at most 16,384.
    pub shared: Items<u32>,
    /// The `waitjob` statements, in rising order of address.
    pub waits: Items<Wait>,
    /// The labels with their addresses, in the order of their definition, each name once.
    pub labels: Items<(Name, u32)>,
}

impl Image {
    /// The address of the label of this name, in bytes; `None` exactly where no label has the name.
    pub fn address_of(&self, name: &str) -> Option<u32>
        ensures { result ≡ spec.address_of self.now.labels name.now }
    {
        for label in self.labels.as_slice() {
            if name == label.0.as_str() {
                return Some(label.1);
            }
        }
        None
    }
}
