//! The lines of a text.
ghost use Rattle.std.specs.Prelude.{◌≡◌, ◌≤◌, IfOk, length};
ghost use Rattle.std.specs.Str.Lines.{lines};

use crate::list::Items;
use crate::memory::NoMemory;
use crate::text::Name;
use std::alloc::Global;

/// The lines of a text. A line ends by LF, one CR right before the LF is dropped, and the last line may lack its LF;
/// then a CR at its end stays. The empty text has no line.
///
/// Fails only where memory runs out. Each line takes a byte at least, so there are no more lines than bytes.
pub fn lines_of(alloc: Global, text: &str) -> Result<Items<Name>, NoMemory>
    ensures lines { IfOk result (λ found. found ≡ lines text.now) }
    ensures few { IfOk result (λ found. length found ≤ length text.now) }
{
    let mut found = Items::new(alloc);
    for line in text.lines() {
        found.push(alloc, Name::new(alloc, line)?)?;
    }
    Ok(found)
}
