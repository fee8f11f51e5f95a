//! The tasks, the semaphores and the shared window before anything has happened.
ghost use Rattle.std.specs.Prelude.{◌≡◌, ℕ, ◌+◌, ◌*◌, ◌%◌, ◌≤◌, [], All, length, map, max, replicate, None, IfOk};
ghost use Rattle.em_base.specs.Apps.{IsApp};
ghost use Rattle.em_gate.specs.Boot as spec;
ghost use Rattle.em_ports.specs.Ports.{Places};
ghost use Rattle.em_system.specs.Held.{Holds, held_boot, selected_of, tasks_of};
ghost use Rattle.em_system.specs.Sound.{IsSound};

use crate::ranking::ranks;
use crate::selection::Standing;
use crate::system::System;
use em_base::{App, Key, NoMemory};
use em_hart::{SHARED_BASE, Window};
use em_threads::Threads;
use std::alloc::Global;

/// What selection sees of a task before it was looked at.
const NO_STANDING: Standing = Standing {
    key: Key {
        level: 0,
        deadline: 0,
        id: 0,
    },
    active: false,
    ready: false,
    next: None,
};

impl<'a> System<'a> {
    /// The tasks, the semaphores and the shared window of an application before anything has happened, for an application
    /// without hints: each task is asleep at its entry and no semaphore has an owner. Its only refusal is
    /// `NoMemory`.
    pub fn boot(alloc: Global, app: &'a App) -> Result<System<'a>, NoMemory>
        requires app { IsApp app.now }
        requires hints { app.now.hints.hints ≡ [] }
        ensures app { IfOk result (λ system. system.app ≡ app.now) }
        ensures holds { let none = replicate (length app.now.table.tasks) None in (places : Places)
            → IfOk result (λ system. Holds system (spec.boot app.now places) none) }
        ensures sound { IfOk result (λ system. All (IsSound 0) (tasks_of system.threads)) }
        ensures idle { IfOk result (λ system. selected_of system ≡ None) }
    {
        System::new(alloc, app)
    }

    /// The same, by what it is.
    fn new(alloc: Global, app: &'a App) -> Result<System<'a>, NoMemory>
        requires app { IsApp app.now }
        requires hints { app.now.hints.hints ≡ [] }
        ensures { IfOk result (λ system. system ≡ held_boot app.now) }
    {
        let rows = app.table.tasks.as_slice();
        let first = app.image.shared.as_slice();
        Ok(System {
            app,
            ranks: ranks(alloc, rows)?,
            standings: vec![in alloc; NO_STANDING; rows.len()]?,
            threads: Threads::new(alloc, app)?,
            owners: vec![in alloc; None; usize::from(app.table.semaphores)]?,
            shared: Window::new(alloc, SHARED_BASE, first, shared_length(app))?,
        })
    }
}

/// The length of the shared window of an application, in bytes.
fn shared_length(app: &App) -> u32
    requires { IsApp app.now }
    ensures length { result ≡ spec.shared_length app.now }
    ensures whole { result % 4 ≡ 0 }
    ensures within { result ≤ 65536 }
    ensures room { 4 * length app.now.image.shared ≤ result }
{
    app.table
        .shared
        .max(4 * app.image.shared.as_slice().len() as u32)
}
