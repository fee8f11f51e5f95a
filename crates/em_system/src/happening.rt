//! What an event changes of the tasks and the ports.
ghost use Rattle.std.specs.Prelude.{◌≡◌, ℕ, ◌+◌, ◌<◌, ◌^◌, List, All, length, Option};
ghost use Rattle.em_base.specs.declared.ids.SemId.{SemId as Semaphore};
ghost use Rattle.em_gate.specs.State.{Plain, Task, task_at};
ghost use Rattle.em_gate.specs.Effects.{given};
ghost use Rattle.em_gate.specs.Events.{after_event, event_line, release_line, unplug_line};
ghost use Rattle.em_threads.specs.Threads.{thread_at, took};
ghost use Rattle.em_system.specs.Held.{Holds, tasks_of};
ghost use Rattle.em_system.specs.Possible.{IsPossible};
ghost use Rattle.em_system.specs.Promises.{promises_after_event, promises_given};
ghost use Rattle.em_system.specs.Sound.{IsSound};
ghost use Rattle.em_system.specs.Windows.{core_in};

use crate::system::System;
use em_base::{Event, PortId, TaskId};
use em_ports::{Ports, Seen};
use em_threads::Took;
use em_trace::Line;

impl<'a> System<'a> {
    /// An event happens: a task is released, or a port is unplugged. The answer is the line that it gives.
    pub fn happen(&mut self, event: Event, ports: &mut Ports) -> Option<Line>
        requires possible { IsPossible (length self.old.app.table.tasks) event }
        requires sound { (n : ℕ) × (n < 2 ^ 63) × All (IsSound n) (tasks_of self.old.threads) }
        ensures step { let seen = ⟦<Ports as Seen>⟧.seen_as in
            (p : Plain) (promises : List (Option Semaphore)) → Holds self.old p promises
            → seen ports.old ≡ p.ports
            → Holds self.new (after_event event p) (promises_after_event self.old.app event p promises)
            × (seen ports.new ≡ (after_event event p).ports)
            × (result ≡ event_line event p) }
        ensures app { self.new.app ≡ self.old.app }

        // The tasks stay sound, for one job more.
        ensures sound { (n : ℕ) → All (IsSound n) (tasks_of self.old.threads)
            → All (IsSound (n + 1)) (tasks_of self.new.threads) }

        // The own windows of tasks stay as they are.
        ensures windows { (u : ℕ)
            → (core_in self.new.threads u).own ≡ (core_in self.old.threads u).own }
    {
        match event {
            Event::Release { task, time, word } => Some(self.release_job(task, time, word)),
            Event::Unplug(port) => gone_line(port, ports.unplug(port)),
        }
    }

    /// A task is released at a nominal time with a word.
    fn release_job(&mut self, t: TaskId, time: u64, word: u32) -> Line
        requires exists { t.0 < length self.old.app.table.tasks }
        requires few { (thread_at self.old.threads t.0).task.taken < 2 ^ 63 }
        ensures step { (p : Plain) (promises : List (Option Semaphore)) → Holds self.old p promises
            → Holds self.new (given t.0 time word p) (promises_given self.old.app t.0 p promises)
            × (result ≡ release_line t time word (task_at p.tasks t.0)) }
        ensures app { self.new.app ≡ self.old.app }
    {
        let job = self.threads.taken(t) + 1;
        let took = self.release(t, time, word);
        line_of_release(took, t, job, time, word)
    }
}

/// The line of a release that was taken, as the task's job of this number, or was dropped.
fn line_of_release(taken: Took, task: TaskId, job: u64, time: u64, word: u32) -> Line
    ensures { (before : Task) → taken ≡ took before → job ≡ before.taken + 1
        → result ≡ release_line task time word before }
{
    match taken {
        Took::Dropped => Line::Dropped { task, time },
        Took::Started | Took::Pending => {
            Line::Rel {
                task,
                job,
                time,
                word,
            }
        }
    }
}

/// The line of an unplugging: the value that the port showed, or none where it was unplugged already.
fn gone_line(port: PortId, value: Option<u32>) -> Option<Line>
    ensures { result ≡ unplug_line port value }
{
    match value {
        Some(value) => Some(Line::Gone { port, value }),
        None => None,
    }
}
