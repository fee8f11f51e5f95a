//! The kernel before anything has happened.
ghost use Rattle.std.specs.Prelude.{◌≡◌, ℕ, ◌<◌, ◌≤◌, [], length, replicate, None, IfOk};
ghost use Rattle.em_admit.specs.Depth.{AreShallow};
ghost use Rattle.em_base.specs.Apps.{IsApp};
ghost use Rattle.em_ports.specs.Ports.{Places};
ghost use Rattle.em_base.specs.Tables.{IsTable};
ghost use Rattle.em_kernel.specs.Buffers.{IsFirst};
ghost use Rattle.em_kernel.specs.Kept.{Stands, buffer_at};
ghost use Rattle.em_kernel.specs.Run.{counted_boot};

use crate::copies::Copying;
use crate::events::events;
use crate::kernel::Kernel;
use crate::meter::Meter;
use em_admit::depth;
use em_base::{App, MsgId, NoMemory, Table};
use em_demand::charges;
use em_state::StateBuf;
use em_system::System;
use std::alloc::Global;

impl<'a> Kernel<'a> {
    /// The kernel of an application before anything has happened, for an application without hints: each task is asleep at its
    /// entry, no semaphore has an owner, each message has value 0 alone, every event is left, and the clock is 0. The buffer of a
    /// message keeps as many values as its depth says. Its only refusal is `NoMemory`.
    pub fn boot(alloc: Global, app: &'a App) -> Result<Kernel<'a>, NoMemory>
        requires app { IsApp app.now }
        requires shallow { AreShallow app.now.table }
        requires hints { app.now.hints.hints ≡ [] }
        ensures stands { (places : Places)
            → IfOk result (λ kernel. Stands kernel places (counted_boot app.now places)) }
        ensures app { IfOk result (λ kernel. kernel.app ≡ app.now) }
        ensures switches { IfOk result (λ kernel. kernel.switches ≡ 0) }
        ensures few { IfOk result (λ kernel. length kernel.left ≤ 300000) }
    {
        Ok(Kernel {
            system: System::boot(alloc, app)?,
            charges: charges(&app.table),
            events: events(alloc, app)?,
            at: 0,
            meter: Meter::boot(),
            buffers: first_buffers(alloc, &app.table)?,
            copies: no_copies(alloc, app.table.tasks.as_slice().len())?,
        })
    }
}

/// The buffer of a message of a table, with value 0 alone.
fn first_buffer(alloc: Global, table: &Table, m: MsgId) -> Result<StateBuf, NoMemory>
    requires table { IsTable table.now }
    requires shallow { AreShallow table.now }
    requires exists { m.0 < length table.now.messages }
    ensures { IfOk result (λ buffer. IsFirst table.now m.0 buffer) }
{
    let depth = depth(table, m);
    let words = table.messages.as_slice()[usize::from(m.0)].words;
    StateBuf::new(alloc, words, depth as u8)
}

/// The buffers of the messages of a table, each with value 0 alone.
fn first_buffers(alloc: Global, table: &Table) -> Result<Vec<StateBuf>, NoMemory>
    requires table { IsTable table.now }
    requires shallow { AreShallow table.now }
    ensures count { IfOk result (λ buffers. length buffers.items ≡ length table.now.messages) }
    ensures first { IfOk result (λ buffers. (m : ℕ) → m < length table.now.messages
        → IsFirst table.now m (buffer_at buffers.items m)) }
{
    let count = table.messages.as_slice().len() as u8;
    let mut buffers = Vec::with_capacity(alloc, usize::from(count))?;
    for m in 0..count {
        buffers.push(first_buffer(alloc, table, MsgId(m))?)?;
    }
    Ok(buffers)
}

/// No copy for each of so many tasks.
fn no_copies(alloc: Global, count: usize) -> Result<Vec<Option<Copying>>, NoMemory>
    ensures { IfOk result (λ copies. copies.items ≡ replicate count None) }
{
    Ok(vec![in alloc; None; count]?)
}
