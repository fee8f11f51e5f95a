//! The trace: the lines that steps and events give.
ghost use Rattle.std.specs.Prelude.{◌≡◌, ◌++◌, OnOk};
ghost use Rattle.em_gate.specs.Effects.{option_list};

use em_base::{Items, NoMemory};
use em_trace::Line;
use std::alloc::Global;

/// Puts the line of a step or an event at the end, where it has one. It is borrowed, so that a line that isn't there isn't moved.
pub fn put_line(alloc: Global, lines: &mut Items<Line>, line: &Option<Line>) -> Result<(), NoMemory>
    ensures { OnOk result (lines.new ≡ lines.old ++ option_list line.now) }
{
    match line {
        None => Ok(()),
        Some(line) => lines.push(alloc, *line),
    }
}
