//! What a step of a task is told to be, carried out to its end.
ghost use Rattle.std.specs.Prelude.{◌≡◌, ℕ, ◌+◌, ◌<◌, ◌^◌, List, All, length, Option, Some};
ghost use Rattle.em_base.specs.declared.ids.SemId.{SemId as Semaphore};
ghost use Rattle.em_gate.specs.Calls.{words_of};
ghost use Rattle.em_gate.specs.Effects.{after_outcome, line_by};
ghost use Rattle.em_gate.specs.Outcome as outcome;
ghost use Rattle.em_gate.specs.State.{Plain, task_at};
ghost use Rattle.em_plain.specs.Boards.{AreBoards, AreReady};
ghost use Rattle.em_system.specs.Asked.{IsGranted, IsInside, after_asking, taken_of};
ghost use Rattle.em_system.specs.declared.stepping.Taken.{Taken as Told};
ghost use Rattle.em_system.specs.declared.stepping.Transfer.{Transfer as Requested};
ghost use Rattle.em_system.specs.Held.{Holds, tasks_of};
ghost use Rattle.em_system.specs.Sound.{IsSound};

use crate::board::Boards;
use em_base::{MsgId, TaskId};
use em_system::{System, Taken, Transfer};
use em_trace::Line;

/// Carries a step to its end: a message that it asks for is written or read. The answer is the line of the step, where it has one.
pub(crate) fn carry_out(
    system: &mut System,
    boards: &mut Boards,
    t: TaskId,
    taken: Taken,
) -> Option<Line>
    requires exists { (transfer : Requested) → taken ≡ Told.Asks transfer
        → t.0 < length system.old.threads }
    requires granted { (transfer : Requested) → taken ≡ Told.Asks transfer
        → IsGranted system.old.app.table t.0 transfer }
    requires ready { (n : ℕ) × (n < 2 ^ 63) × AreReady system.old.app.table n boards.old }
    ensures step { (p : Plain) (promises : List (Option Semaphore)) → let app = system.old.app in
        let o = outcome.outcome app.table app.image.words t.0 p in
        Holds system.old (after_asking o t p) promises → AreBoards boards.old p.values
        → taken ≡ taken_of o t p → Holds system.new (after_outcome o t p) promises
        × AreBoards boards.new (after_outcome o t p).values
        × (result ≡ line_by o t (task_at p.tasks t.0) p) }
    ensures app { system.new.app ≡ system.old.app }
    ensures sound { (n : ℕ) → All (IsSound n) (tasks_of system.old.threads)
        → All (IsSound n) (tasks_of system.new.threads) }
    ensures ready { (n : ℕ) → AreReady system.old.app.table n boards.old
        → AreReady system.old.app.table (n + 1) boards.new }
{
    match taken {
        Taken::Ran(_) => None,
        Taken::Called(line) => line,
        Taken::Faulted(line) => Some(line),
        Taken::Asks(Transfer::Write { msg, at }) => Some(write(system, boards, t, msg, at)),
        Taken::Asks(Transfer::Read { msg, at }) => Some(read(system, boards, t, msg, at)),
    }
}

/// write: the words in the own window of a task, from an address on, are the next value of a message.
fn write(system: &mut System, boards: &mut Boards, t: TaskId, msg: MsgId, at: u32) -> Line
    requires exists { t.0 < length system.old.threads }
    requires inside { IsInside system.old.app.table msg.0 at }
    requires ready { (n : ℕ) × (n < 2 ^ 63) × AreReady system.old.app.table n boards.old }
    ensures step { let o = outcome.Publishes msg.0 at (words_of system.old.app.table msg.0) in
        (p : Plain) (promises : List (Option Semaphore))
        → Holds system.old p promises → AreBoards boards.old p.values
        → Holds system.new (after_outcome o t p) promises
        × AreBoards boards.new (after_outcome o t p).values
        × (Some result ≡ line_by o t (task_at p.tasks t.0) p) }
    ensures app { system.new.app ≡ system.old.app }
    ensures sound { (n : ℕ) → All (IsSound n) (tasks_of system.old.threads)
        → All (IsSound n) (tasks_of system.new.threads) }
    ensures ready { (n : ℕ) → AreReady system.old.app.table n boards.old
        → AreReady system.old.app.table (n + 1) boards.new }
{
    let number = boards.publish(msg, system, t, at);
    system.finish_call(t);
    Line::Put {
        task: t,
        msg,
        number,
    }
}

/// read: the newest value of a message goes to the own window of a task, from an address on.
fn read(system: &mut System, boards: &Boards, t: TaskId, msg: MsgId, at: u32) -> Line
    requires exists { t.0 < length system.old.threads }
    requires inside { IsInside system.old.app.table msg.0 at }
    requires ready { (n : ℕ) × AreReady system.old.app.table n boards.now }
    ensures step { let o = outcome.Fetches msg.0 at in
        (p : Plain) (promises : List (Option Semaphore))
        → Holds system.old p promises → AreBoards boards.now p.values
        → Holds system.new (after_outcome o t p) promises
        × AreBoards boards.now (after_outcome o t p).values
        × (Some result ≡ line_by o t (task_at p.tasks t.0) p) }
    ensures app { system.new.app ≡ system.old.app }
    ensures sound { (n : ℕ) → All (IsSound n) (tasks_of system.old.threads)
        → All (IsSound n) (tasks_of system.new.threads) }
{
    let number = boards.fetch(msg, system, t, at);
    system.finish_call(t);
    Line::Get {
        task: t,
        msg,
        number,
    }
}
