//! The tasks of a machine. Each call changes the part of one task that it names, and no other.
ghost use Rattle.std.specs.Prelude.{◌≡◌, ◌≢◌, ℕ, ◌+◌, ◌*◌, ◌/◌, ◌^◌, ◌<◌, ◌≤◌, length, map, slice_get, IfOk, IsSome};
ghost use Rattle.em_base.specs.Apps.{IsApp};
ghost use Rattle.em_base.specs.declared.ids.SemId.{SemId};
ghost use Rattle.em_base.specs.declared.jobs.Status.{Status as TaskStatus};
ghost use Rattle.em_hart.specs.Hart.{own_base, shared_base, with_number, with_pc, with_register};
ghost use Rattle.em_hart.specs.Instruction.{exec};
ghost use Rattle.em_hart.specs.Steps.{Reports};
ghost use Rattle.em_gate.specs.Tasks.{after_awake, after_leave, after_stop, after_wait};
ghost use Rattle.em_gate.specs.State.{Core};
ghost use Rattle.em_threads.specs.Threads as spec;
ghost use Rattle.em_threads.specs.Threads.{changed, finished, taken, thread_at, took};
ghost use Rattle.em_threads.specs.Threads.{with_core, with_own, with_registers, with_task, without_promise};

use em_base::{App, Job, NoMemory, SemId, Status, TaskId, TaskRow};
use em_hart::{OWN_BASE, Regs, Stepped, Window};
use std::alloc::Global;
use std::marker::Model;

/// What became of a release.
#[derive(Clone, Copy, Debug, PartialEq, Eq)]
pub enum Took {
    /// It is the current job, and the task is awake.
    Started,
    /// It waits behind the current job.
    Pending,
    /// It was not taken: the task is stopped, or has eight pending releases.
    Dropped,
}

/// The most pending releases of a task.
const MOST_PENDING: usize = 8;

/// What is kept of a task.
#[derive(Drop)]
struct Thread {
    regs: Regs,
    own: Window,
    status: Status,
    job: Option<Job>,
    /// The oldest first. Room for eight is there from the start.
    pending: Vec<Job>,
    taken: u64,
    promise: Option<SemId>,
    hint: Option<SemId>,
}

impl Model for Thread {
    ghost use Rattle.std.specs.Prelude.{◌≡◌, ℕ, ◌≤◌, length, vec_capacity};
    ghost use Rattle.em_hart.specs.Hart.{own_base};
    ghost use Rattle.em_threads.specs.Threads.{Thread as Kept};

    ghost Value = { Kept };

    ghost view = { λ a. record {
      task = record {
        core = record { registers = a.regs; own = a.own };
        status = a.status;
        job = a.job;
        pending = a.pending.items;
        taken = a.taken;
      };
      promise = a.promise;
      hint = a.hint;
    } };

    ghost invariant = { λ a. (a.own.base ≡ own_base)
        × (length a.pending.items ≤ 8) × (8 ≤ vec_capacity a.pending) };
}

impl Thread {
    /// What is kept of a task of an application before anything has happened.
    fn new(alloc: Global, app: &App, row: &TaskRow) -> Result<Thread, NoMemory>
        requires { IsApp app.now }
        ensures { let first = spec.first_thread app.now.table.own app.now.image.labels in
            IfOk result (λ thread. thread ≡ first row.now) }
    {
        Ok(Thread {
            regs: Regs::new(app.image.address_of(row.entry.as_str()).unwrap_or(0)),
            own: Window::new(alloc, OWN_BASE, &[], app.table.own)?,
            status: Status::Asleep,
            job: None,
            pending: Vec::with_capacity(alloc, MOST_PENDING)?,
            taken: 0,
            promise: None,
            hint: None,
        })
    }

    /// Gives the task its next job, if it takes one.
    fn take(&mut self, arrival: u64, word: u32) -> Took
        requires few { self.old.task.taken < 2 ^ 63 }
        ensures whole { self.new ≡ taken arrival word self.old }
        ensures answer { result ≡ took self.old.task }
    {
        if self.status == Status::Stopped || self.pending.len() >= MOST_PENDING {
            return Took::Dropped;
        }
        self.taken += 1;
        let job = Job {
            number: self.taken,
            arrival,
            word,
        };
        if self.job.is_none() {
            self.regs.set(10, word);
            self.status = Status::Awake;
            self.job = Some(job);
            self.promise = self.hint;
            return Took::Started;
        }
        let _ = self.pending.push(job);
        Took::Pending
    }

    /// Ends the current job: the oldest pending one begins, or the task sleeps.
    fn finish(&mut self, hint: Option<SemId>) -> Option<Job>
        ensures whole { self.new ≡ finished hint self.old }
        ensures answer { result ≡ slice_get self.old.task.pending 0 }
    {
        self.hint = hint;
        if self.pending.is_empty() {
            self.status = Status::Asleep;
            self.job = None;
            return None;
        }
        let job = self.pending.remove(0);
        self.regs.set(10, job.word);
        self.job = Some(job);
        self.promise = hint;
        Some(job)
    }

    /// Stops the task and discards its jobs.
    fn leave(&mut self)
        ensures { self.new ≡ with_task after_leave self.old }
    {
        self.status = Status::Stopped;
        self.job = None;
        self.pending.clear();
    }
}

/// The tasks of a machine, by their numbers. Contracts see it as a list: of each task its registers, its own window, its
/// status, its current job, its pending jobs, how many jobs it was given, its promise, and its hint.
#[derive(Drop)]
pub struct Threads {
    threads: Vec<Thread>,
}

impl Model for Threads {
    ghost use Rattle.std.specs.Prelude.{List};
    ghost use Rattle.em_threads.specs.Threads.{Thread as Kept};

    ghost Value = { List Kept };

    ghost view = { λ a. a.threads.items };
}

impl Threads {
    /// The tasks of an application before anything has happened: each asleep at its entry, with every register 0 and an own
    /// window of zeros, without a job, a promise or a hint. Its only refusal is `NoMemory`.
    pub fn new(alloc: Global, app: &App) -> Result<Threads, NoMemory>
        requires { IsApp app.now }
        ensures { let first = spec.first_thread app.now.table.own app.now.image.labels in
            IfOk result (λ threads. threads ≡ map first app.now.table.tasks) }
    {
        let rows = app.table.tasks.as_slice();
        let mut threads = Vec::with_capacity(alloc, rows.len())?;
        for row in rows {
            threads.push(Thread::new(alloc, app, row)?)?;
        }
        Ok(Threads { threads })
    }

    /// How many tasks there are.
    pub fn count(&self) -> usize
        ensures { result ≡ length self.now }
    {
        self.threads.len()
    }

    /// Releases a task, at a nominal time in cycles and with a word: it is given its next job, which starts at once with the
    /// word in a0 where it has none, and is pending else. `Dropped` exactly where the task is stopped or has eight pending
    /// releases, and then nothing changes; else `Pending` exactly where it has a current job. A job that starts gives the
    /// task its hint as its promise.
    pub fn take(&mut self, t: TaskId, arrival: u64, word: u32) -> Took
        requires exists { t.0 < length self.old }
        requires few { (thread_at self.old t.0).task.taken < 2 ^ 63 }
        ensures whole { self.new ≡ changed (taken arrival word) t.0 self.old }
        ensures answer { result ≡ took (thread_at self.old t.0).task }
    {
        self.threads[usize::from(t.0)].take(arrival, word)
    }

    /// Ends the current job of a task, which has one. The oldest pending job becomes the current one and is the answer: a0 is
    /// its word, and the hint is its promise. `None` exactly where none was pending, and then the task is asleep, and the hint
    /// is the promise of its next job.
    pub fn finish(&mut self, t: TaskId, hint: Option<SemId>) -> Option<Job>
        requires exists { t.0 < length self.old }
        requires working { IsSome (thread_at self.old t.0).task.job }
        ensures whole { self.new ≡ changed (finished hint) t.0 self.old }
        ensures answer { result ≡ slice_get (thread_at self.old t.0).task.pending 0 }
    {
        self.threads[usize::from(t.0)].finish(hint)
    }

    /// Stops a task, for a fault. It keeps its jobs.
    pub fn stop(&mut self, t: TaskId)
        requires exists { t.0 < length self.old }
        ensures whole { self.new ≡ changed (with_task after_stop) t.0 self.old }
    {
        self.threads[usize::from(t.0)].status = Status::Stopped;
    }

    /// Stops a task, for its exit, and discards its current and its pending jobs.
    pub fn leave(&mut self, t: TaskId)
        requires exists { t.0 < length self.old }
        ensures whole { self.new ≡ changed (with_task after_leave) t.0 self.old }
    {
        self.threads[usize::from(t.0)].leave();
    }

    /// Makes an awake task wait for a semaphore.
    pub fn wait(&mut self, t: TaskId, s: SemId)
        requires exists { t.0 < length self.old }
        requires awake { (thread_at self.old t.0).task.status ≡ TaskStatus.Awake }
        ensures whole { self.new ≡ changed (with_task (after_wait s)) t.0 self.old }
    {
        self.threads[usize::from(t.0)].status = Status::Waits(s);
    }

    /// Makes a waiting task awake.
    pub fn awake(&mut self, t: TaskId)
        requires exists { t.0 < length self.old }
        requires waits { (s : SemId) × ((thread_at self.old t.0).task.status ≡ TaskStatus.Waits s) }
        ensures whole { self.new ≡ changed (with_task after_awake) t.0 self.old }
    {
        self.threads[usize::from(t.0)].status = Status::Awake;
    }

    /// Ends the promise of a task.
    pub fn end_promise(&mut self, t: TaskId)
        requires exists { t.0 < length self.old }
        ensures whole { self.new ≡ changed without_promise t.0 self.old }
    {
        self.threads[usize::from(t.0)].promise = None;
    }

    /// Carries out the code word at the program counter of a task, as [`em_hart::step`] does on its registers and its own
    /// window. `code` stands from address 0, and `shared` from [`em_hart::SHARED_BASE`].
    pub fn run(&mut self, t: TaskId, shared: &mut Window, code: &[u32]) -> Stepped
        requires exists { t.0 < length self.old }
        requires code { length code.now ≤ 16384 }
        requires shared { shared.old.base ≡ shared_base }
        ensures step { let core : Core = (thread_at self.old t.0).task.core in
            let core_after : Core = (thread_at self.new t.0).task.core in
            Reports result (exec core.registers core.own shared.old code.now)
            core.registers core.own shared.old core_after.registers core_after.own shared.new }
        ensures whole { self.new
            ≡ changed (with_core (thread_at self.new t.0).task.core) t.0 self.old }

        // Each window stays where it is, and keeps its length.
        ensures own_base { (thread_at self.new t.0).task.core.own.base ≡ own_base }
        ensures own_length { let own = (thread_at self.old t.0).task.core.own in
            length (thread_at self.new t.0).task.core.own.bytes ≡ length own.bytes }
        ensures shared_base { shared.new.base ≡ shared.old.base }
        ensures shared_length { length shared.new.bytes ≡ length shared.old.bytes }
    {
        let thread = &mut self.threads[usize::from(t.0)];
        em_hart::step(&mut thread.regs, &mut thread.own, shared, code)
    }

    /// The registers of a task.
    pub fn regs(&self, t: TaskId) -> &Regs
        requires exists { t.0 < length self.now }
        ensures { result.now ≡ (thread_at self.now t.0).task.core.registers }
    {
        &self.threads[usize::from(t.0)].regs
    }

    /// The own window of a task.
    pub fn own(&self, t: TaskId) -> &Window
        requires exists { t.0 < length self.now }
        ensures own { result.now ≡ (thread_at self.now t.0).task.core.own }
        ensures base { result.now.base ≡ own_base }
    {
        &self.threads[usize::from(t.0)].own
    }

    /// Puts a value into register `r` of a task, which is below 32. A value for x0 is dropped.
    pub fn set(&mut self, t: TaskId, r: u8, v: u32)
        requires exists { t.0 < length self.old }
        requires register { r < 32 }
        ensures whole { let registers = (thread_at self.old t.0).task.core.registers in
            self.new ≡ changed (with_registers (with_register registers r v)) t.0 self.old }
    {
        self.threads[usize::from(t.0)].regs.set(r, v);
    }

    /// Moves the program counter of a task.
    pub fn jump(&mut self, t: TaskId, pc: u32)
        requires exists { t.0 < length self.old }
        ensures whole { let registers = (thread_at self.old t.0).task.core.registers in
            self.new ≡ changed (with_registers (with_pc registers pc)) t.0 self.old }
    {
        self.threads[usize::from(t.0)].regs.jump(pc);
    }

    /// Puts a word in place of the word `i` of the own window of a task, counted from 0; `i` is below a quarter of the
    /// window's length.
    pub fn set_word(&mut self, t: TaskId, i: u32, w: u32)
        requires exists { t.0 < length self.old }
        requires inside { i < length (thread_at self.old t.0).task.core.own.bytes / 4 }
        ensures whole { let own = (thread_at self.old t.0).task.core.own in
            let bytes = with_number own.bytes 4 (4 * i) w in
            self.new ≡ changed (with_own (record own { bytes = bytes })) t.0 self.old }
        ensures length { let own = (thread_at self.old t.0).task.core.own in
            length (thread_at self.new t.0).task.core.own.bytes ≡ length own.bytes }
    {
        self.threads[usize::from(t.0)].own.set_word(i, w);
    }

    /// What a task is doing.
    pub fn status(&self, t: TaskId) -> Status
        requires exists { t.0 < length self.now }
        ensures { result ≡ (thread_at self.now t.0).task.status }
    {
        self.threads[usize::from(t.0)].status
    }

    /// The current job of a task; `None` exactly where it has none.
    pub fn job(&self, t: TaskId) -> Option<Job>
        requires exists { t.0 < length self.now }
        ensures { result ≡ (thread_at self.now t.0).task.job }
    {
        self.threads[usize::from(t.0)].job
    }

    /// The semaphore that a task has promised to take; `None` exactly where there is none.
    pub fn promise(&self, t: TaskId) -> Option<SemId>
        requires exists { t.0 < length self.now }
        ensures { result ≡ (thread_at self.now t.0).promise }
    {
        self.threads[usize::from(t.0)].promise
    }

    /// How many jobs of a task are pending: at most 8.
    pub fn pending(&self, t: TaskId) -> u8
        requires exists { t.0 < length self.now }
        ensures count { result ≡ length (thread_at self.now t.0).task.pending }
        ensures few { result ≤ 8 }
    {
        self.threads[usize::from(t.0)].pending.len() as u8
    }

    /// How many jobs a task was given.
    pub fn taken(&self, t: TaskId) -> u64
        requires exists { t.0 < length self.now }
        ensures { result ≡ (thread_at self.now t.0).task.taken }
    {
        self.threads[usize::from(t.0)].taken
    }
}
