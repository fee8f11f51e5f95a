//! What the kernel shows of its tasks.
ghost use Rattle.std.specs.Prelude.{◌≡◌, ◌<◌, length};
ghost use Rattle.em_ports.specs.Ports.{Places};
ghost use Rattle.em_admit.specs.Depth.{depth};
ghost use Rattle.em_gate.specs.State.{Counted, values_at};
ghost use Rattle.em_state.specs.Buffers.{StandsFor};
ghost use Rattle.em_kernel.specs.Kept.{Stands, buffer_at};
ghost use Rattle.em_kernel.specs.Moves.{begun_at};
ghost use Rattle.em_kernel.specs.Shown.{view_of};

use crate::did::View;
use crate::kernel::Kernel;
use em_base::{MsgId, TaskId};
use em_state::StateBuf;

impl<'a> Kernel<'a> {
    /// What a task is doing, what it has promised, whether a semaphore stops it, its own key, and its program counter.
    pub fn view(&self, t: TaskId) -> View
        requires exists { t.0 < length self.now.app.table.tasks }
        ensures { (c : Counted) (places : Places) → Stands self.now places c
            → result ≡ view_of self.now.app c t.0 }
    {
        View {
            status: self.system.status(t),
            promise: self.system.promise(t),
            stopped: self.system.is_stopped(t),
            key: self.system.key(t),
            pc: self.system.pc(t),
        }
    }

    /// How many instructions are left before the acquire of a task with a promise. No task has one, since no hints are
    /// supported yet: the answer is 0.
    pub fn walk_left(&self, t: TaskId) -> u32
        requires exists { t.0 < length self.now.app.table.tasks }
        ensures { result ≡ 0 }
    {
        0
    }

    /// The buffer of a message. It is as deep as the table says, stands for the values that were published, and has as many begun.
    pub fn buffer(&self, m: MsgId) -> &StateBuf
        requires exists { m.0 < length self.now.app.table.messages }
        ensures buffer { result.now ≡ buffer_at self.now.buffers m.0 }
        ensures depth { result.now.depth ≡ depth self.now.app.table m.0 }
        ensures values { (c : Counted) (places : Places) → Stands self.now places c
            → StandsFor result.now (values_at c.plain.values m.0) }
        ensures begun { (c : Counted) (places : Places) → Stands self.now places c
            → result.now.begun ≡ begun_at c.begun m.0 }
    {
        &self.buffers[usize::from(m.0)]
    }
}
