//! What is shown of a task.
ghost use Rattle.std.specs.Prelude.{◌≡◌, ◌<◌, ℕ, List, All, length, Option, None, is_some, slice_index_or};
ghost use Rattle.em_base.specs.declared.ids.SemId.{SemId as Semaphore};
ghost use Rattle.em_base.specs.Selection.{stopper_at};
ghost use Rattle.em_gate.specs.Selecting.{scene_in, statuses_of};
ghost use Rattle.em_gate.specs.State.{Plain, task_at};
ghost use Rattle.em_system.specs.Held.{Holds, tasks_of};
ghost use Rattle.em_system.specs.Sound.{IsSound};

use crate::standing::{key, stopper};
use crate::system::System;
use em_base::{App, Key, SemId, Status, TaskId};

impl<'a> System<'a> {
    /// The application.
    pub fn app(&self) -> &App
        ensures { result.now ≡ self.now.app }
    {
        self.app
    }

    /// What a task is doing.
    pub fn status(&self, t: TaskId) -> Status
        requires exists { t.0 < length self.now.app.table.tasks }
        ensures { (p : Plain) (promises : List (Option Semaphore)) → Holds self.now p promises
            → result ≡ (task_at p.tasks t.0).status }
    {
        self.threads.status(t)
    }

    /// The semaphore that a task has promised to take.
    pub fn promise(&self, t: TaskId) -> Option<SemId>
        requires exists { t.0 < length self.now.app.table.tasks }
        ensures { (p : Plain) (promises : List (Option Semaphore)) → Holds self.now p promises
            → result ≡ slice_index_or promises t.0 None }
    {
        self.threads.promise(t)
    }

    /// Whether a semaphore stops a task.
    pub fn is_stopped(&self, t: TaskId) -> bool
        requires exists { t.0 < length self.now.app.table.tasks }
        ensures { (p : Plain) (promises : List (Option Semaphore)) → Holds self.now p promises
            → result ≡ is_some (stopper_at (statuses_of p.tasks) promises p.owners t.0) }
    {
        let promise = self.threads.promise(t);
        stopper(&self.owners, t, promise, self.threads.status(t)).is_some()
    }

    /// The own key of a task.
    pub fn key(&self, t: TaskId) -> Key
        requires exists { t.0 < length self.now.app.table.tasks }
        requires sound { (n : ℕ) × All (IsSound n) (tasks_of self.now.threads) }
        ensures { (p : Plain) (promises : List (Option Semaphore)) → Holds self.now p promises
            → let rows = self.now.app.table.tasks in
            result ≡ (scene_in rows p.tasks promises p.owners).key t.0 }
    {
        key(self.ranks[usize::from(t.0)], t, self.threads.job(t))
    }

    /// The program counter of a task, in bytes.
    pub fn pc(&self, t: TaskId) -> u32
        requires exists { t.0 < length self.now.app.table.tasks }
        ensures { (p : Plain) (promises : List (Option Semaphore)) → Holds self.now p promises
            → result ≡ (task_at p.tasks t.0).core.registers.pc }
    {
        self.threads.regs(t).pc()
    }
}
