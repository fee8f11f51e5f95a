//! The tasks, the semaphores and the shared window of an application: the changes of which calls and faults are made.
ghost use Rattle.std.specs.Prelude.{◌≡◌, ◌≢◌, ℕ, ◌==◌, ◌+◌, ◌^◌, ◌<◌, ◌≤◌, List, All, length, Option, None, Some, IsSome};
ghost use Rattle.std.specs.Int.{cast_unsigned, w32};
ghost use Rattle.em_base.specs.declared.jobs.Status.{Status as TaskStatus};
ghost use Rattle.em_base.specs.Selection.{is_task, owner_at};
ghost use Rattle.em_gate.specs.Effects.{job_number, least_owned};
ghost use Rattle.em_base.specs.declared.ids.SemId.{SemId as Semaphore};
ghost use Rattle.em_gate.specs.Selecting.{plain_selected};
ghost use Rattle.em_gate.specs.State.{Plain};
ghost use Rattle.em_system.specs.Carried.{IsCarried};
ghost use Rattle.em_system.specs.Held.{Holds};
ghost use Rattle.em_threads.specs.Threads.{thread_at, took};
ghost use Rattle.em_system.specs.Held.{selected_of, tasks_of};
ghost use Rattle.em_system.specs.Sound.{IsSound};
ghost use Rattle.em_system.specs.Standings.{number_of};
ghost use Rattle.em_system.specs.Held.{held_answered, held_blocked, held_ended, held_fallen, held_freed};
ghost use Rattle.em_system.specs.Held.{held_given, held_got, held_left, held_passed, held_signalled};
ghost use Rattle.em_system.specs.Held.{has_flag, held_stopped, held_woken};

use crate::owning::{Semaphores, disown, only, owned_by, wake};
use crate::selection::{Rank, Standing, select};
use crate::standing::look;
use em_base::{App, SemId, Status, TaskId};
use em_hart::{Stepped, Window};
use em_threads::{Threads, Took};
use std::marker::Model;

/// The tasks, the owners of the semaphores and the shared window of an application. Contracts see these: of each task its
/// registers, its own window, its status, its jobs and its promise.
#[derive(Drop)]
pub struct System<'a> {
    pub(crate) app: &'a App,
    pub(crate) ranks: Vec<Rank>,
    pub(crate) standings: Vec<Standing>,
    pub(crate) threads: Threads,
    pub(crate) owners: Vec<Option<TaskId>>,
    pub(crate) shared: Window,
}

impl<'a> Model for System<'a> {
    ghost use Rattle.em_system.specs.Held.{Held, IsHeld};

    ghost Value = { Held };

    ghost view = { λ a. record {
      app = a.app.now;
      threads = a.threads;
      owners = a.owners.items;
      shared = a.shared;
    } };

    ghost invariant = { λ a.
        IsHeld a.app.now a.ranks.items a.standings.items a.threads a.owners.items a.shared };
}

impl<'a> System<'a> {
    /// Puts an answer into a0 of a task, and moves it on to the instruction after its call.
    pub(crate) fn answer(&mut self, t: TaskId, answer: u32)
        requires exists { t.0 < length self.old.threads }
        ensures { self.new ≡ held_answered t.0 answer self.old }
    {
        self.threads.set(t, 10, answer);
        let pc = self.threads.regs(t).pc();
        self.threads.jump(t, pc.wrapping_add(4));
    }

    /// The call of a task is refused with a code.
    pub(crate) fn refuse(&mut self, t: TaskId, code: i8)
        requires exists { t.0 < length self.old.threads }
        ensures { self.new ≡ held_answered t.0 (cast_unsigned w32 code) self.old }
    {
        self.answer(t, i32::from(code).cast_unsigned());
    }

    /// A task takes a semaphore.
    pub(crate) fn get(&mut self, t: TaskId, s: SemId)
        requires exists { t.0 < length self.old.threads }
        requires semaphore { s.0 < length self.old.owners }
        ensures { self.new ≡ held_got t s.0 self.old }
    {
        self.owners[usize::from(s.0)] = Some(t);
        self.threads.end_promise(t);
        self.answer(t, 0);
    }

    /// A task waits for a semaphore.
    pub(crate) fn block(&mut self, t: TaskId, s: SemId)
        requires exists { t.0 < length self.old.threads }
        requires awake { (thread_at self.old.threads t.0).task.status ≡ TaskStatus.Awake }
        ensures { self.new ≡ held_blocked t.0 s self.old }
    {
        self.threads.wait(t, s);
    }

    /// Moves a task on to the instruction after its call.
    fn pass(&mut self, t: TaskId)
        requires exists { t.0 < length self.old.threads }
        ensures { self.new ≡ held_passed t.0 self.old }
    {
        let pc = self.threads.regs(t).pc();
        self.threads.jump(t, pc.wrapping_add(4));
    }

    /// A task frees a semaphore: each that waits for it tries again.
    pub(crate) fn free(&mut self, t: TaskId, s: SemId)
        requires exists { t.0 < length self.old.threads }
        requires semaphore { s.0 < length self.old.owners }
        ensures { self.new ≡ held_freed t.0 s.0 self.old }
    {
        self.owners[usize::from(s.0)] = None;
        self.answer(t, 0);
        self.wake(&only(s));
    }

    /// A task is stopped by a fault. What it owns is free, and each that waits for any of it tries again.
    pub(crate) fn fall(&mut self, t: TaskId)
        requires exists { t.0 < length self.old.threads }
        ensures { self.new ≡ held_fallen t.0 self.old }
    {
        let owned = owned_by(&self.owners, t);
        self.stop(t);
        self.wake(&owned);
    }

    /// Stops a task, and takes from it what it owns.
    fn stop(&mut self, t: TaskId)
        requires exists { t.0 < length self.old.threads }
        ensures { self.new ≡ held_stopped t.0 self.old }
    {
        disown(&mut self.owners, t);
        self.threads.stop(t);
    }

    /// Wakes the tasks that wait for any of these semaphores.
    fn wake(&mut self, freed: &Semaphores)
        ensures { self.new ≡ held_woken (has_flag freed.now) self.old }
    {
        wake(&mut self.threads, freed);
    }

    /// The job of a task ends.
    pub(crate) fn end(&mut self, t: TaskId)
        requires exists { t.0 < length self.old.threads }
        requires working { IsSome (thread_at self.old.threads t.0).task.job }
        ensures { self.new ≡ held_ended t.0 self.old }
    {
        self.pass(t);
        self.threads.finish(t, None);
    }

    /// A task gives another a job, or itself, with a word.
    pub(crate) fn signal(&mut self, t: TaskId, to: TaskId, word: u32)
        requires exists { t.0 < length self.old.threads }
        requires other { to.0 < length self.old.threads }
        requires few { (thread_at self.old.threads to.0).task.taken < 2 ^ 63 }
        ensures { self.new ≡ held_signalled t.0 to.0 word self.old }
    {
        self.answer(t, 0);
        self.threads.take(to, 0, word);
    }

    /// A task ends by its own call.
    pub(crate) fn leave(&mut self, t: TaskId)
        requires exists { t.0 < length self.old.threads }
        ensures { self.new ≡ held_left t.0 self.old }
    {
        self.threads.leave(t);
    }

    /// A task is released at a nominal time with a word.
    pub(crate) fn release(&mut self, t: TaskId, arrival: u64, word: u32) -> Took
        requires exists { t.0 < length self.old.threads }
        requires few { (thread_at self.old.threads t.0).task.taken < 2 ^ 63 }
        ensures whole { self.new ≡ held_given t.0 arrival word self.old }
        ensures answer { result ≡ took (thread_at self.old.threads t.0).task }
    {
        self.threads.take(t, arrival, word)
    }

    /// Carries out the instruction of a task. A call and a fault change nothing.
    pub(crate) fn carry_out(&mut self, t: TaskId) -> Stepped
        requires exists { t.0 < length self.old.threads }
        ensures carried { (p : Plain) (promises : List (Option Semaphore))
            → Holds self.old p promises → IsCarried result self.old self.new t p }
        ensures app { self.new.app ≡ self.old.app }
    {
        let code = self.app.image.words.as_slice();
        self.threads.run(t, &mut self.shared, code)
    }

    /// The selected task: of those that are awake and stopped by nothing, the one of the least effective key.
    pub fn select(&mut self) -> Option<TaskId>
        requires sound { (n : ℕ) × All (IsSound n) (tasks_of self.old.threads) }
        ensures selected { number_of result ≡ selected_of self.old }
        ensures same { self.new ≡ self.old }

        // No task has a promise, since there are no hints: it is the task that the plain machine selects, too.
        ensures plain { (p : Plain) (promises : List (Option Semaphore)) → Holds self.old p promises
            → number_of result ≡ plain_selected self.old.app.table.tasks p }
    {
        look(
            &mut self.standings,
            &self.threads,
            &self.ranks,
            &self.owners,
        );
        let depth = self.owners.len() as u8 + 1;
        task_of(select(&self.standings, depth))
    }
}

/// The task of a number.
fn task_of(number: Option<u8>) -> Option<TaskId>
    ensures { number_of result ≡ number }
{
    match number {
        Some(t) => Some(TaskId(t)),
        None => None,
    }
}
