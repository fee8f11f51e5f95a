//! The kernel calls of a task, and its faults, carried out.
ghost use Rattle.std.specs.Prelude.{◌≡◌, ◌≢◌, ℕ, ◌+◌, ◌^◌, ◌<◌, ◌≤◌, List, All, length, Option, None, Some, IsSome};
ghost use Rattle.em_base.specs.declared.ids.SemId.{SemId as Semaphore};
ghost use Rattle.em_base.specs.declared.jobs.Status.{Status as TaskStatus};
ghost use Rattle.em_gate.specs.Calls.{known_by};
ghost use Rattle.em_gate.specs.State.{Plain, task_at};
ghost use Rattle.em_base.specs.Selection.{is_task, owner_at};
ghost use Rattle.em_trace.specs.declared.lines.Line.{Line as TraceLine};
ghost use Rattle.em_gate.specs.Effects.{after_outcome, line_by, job_number};
ghost use Rattle.em_gate.specs.Effects as effect;
ghost use Rattle.em_gate.specs.Outcome.{call_outcome, known_at};
ghost use Rattle.em_gate.specs.Outcome as outcome;
ghost use Rattle.em_threads.specs.Threads.{thread_at};
ghost use Rattle.em_gate.specs.Calls.{Known};
ghost use Rattle.em_gate.specs.Calls.{refusal as refusal_of};
ghost use Rattle.em_system.specs.declared.stepping.Taken.{Taken as Asked};
ghost use Rattle.em_system.specs.declared.stepping.Transfer.{Transfer as Requested};
ghost use Rattle.em_system.specs.Asked.{IsGranted, after_asking, taken_of};
ghost use Rattle.em_system.specs.Held.{Holds};
ghost use Rattle.em_system.specs.Promises.{promises_after};

use crate::knowing::{full_bits, owned_bits, plugged_bits};
use crate::stepping::{Taken, Transfer};
use crate::system::System;
use em_base::{Job, MsgId, PortId, SemId, TaskId};
use em_gate::{Call, Facts, read_call, refusal};
use em_ports::{Ports, Seen};
use em_trace::Line;

impl<'a> System<'a> {
    /// What the refusal of a call of a task rests on.
    fn facts(&self, t: TaskId, ports: &Ports) -> Facts
        ensures { let seen = ⟦<Ports as Seen>⟧.seen_as in
            (p : Plain) (promises : List (Option Semaphore)) → Holds self.now p promises
            → seen ports.now ≡ p.ports → known_by result ≡ known_at p t.0 }
    {
        Facts {
            owned: owned_bits(&self.owners, t),
            plugged: plugged_bits(ports),
            full: full_bits(&self.threads),
        }
    }
}

impl<'a> System<'a> {
    /// Carries out the kernel call of a task, which is awake and has a job. A call that asks for a message to be written or read,
    /// and isn't refused, is left to the caller.
    pub(crate) fn call(&mut self, t: TaskId, ports: &mut Ports) -> Taken
        requires exists { t.0 < length self.old.threads }
        requires awake { (thread_at self.old.threads t.0).task.status ≡ TaskStatus.Awake }
        requires working { IsSome (thread_at self.old.threads t.0).task.job }
        requires few { All (λ thread. thread.task.taken < 2 ^ 63) self.old.threads }
        ensures step { let seen = ⟦<Ports as Seen>⟧.seen_as in
            (p : Plain) (promises : List (Option Semaphore)) → Holds self.old p promises
            → seen ports.old ≡ p.ports
            → let core = (task_at p.tasks t.0).core in
            let o = call_outcome self.old.app.table t.0 (known_at p t.0) p.owners core in
            Holds self.new (after_asking o t p) (promises_after self.old.app o t.0 p promises)
            × (seen ports.new ≡ (after_asking o t p).ports) × (result ≡ taken_of o t p) }
        ensures app { self.new.app ≡ self.old.app }
        ensures granted { (transfer : Requested) → result ≡ Asked.Asks transfer
            → IsGranted self.old.app.table t.0 transfer }
        ensures asks { (transfer : Requested) → result ≡ Asked.Asks transfer → self.new ≡ self.old }
    {
        let call = read_call(self.threads.regs(t));
        let facts = self.facts(t, ports);
        match refusal(&call, &self.app.table, t, &facts) {
            Some(code) => Taken::Called(Some(self.refused(t, code))),
            None => self.accept(call, t, ports),
        }
    }

    /// Carries out a call that isn't refused.
    fn accept(&mut self, call: Call, t: TaskId, ports: &mut Ports) -> Taken
        requires exists { t.0 < length self.old.threads }
        requires awake { (thread_at self.old.threads t.0).task.status ≡ TaskStatus.Awake }
        requires working { IsSome (thread_at self.old.threads t.0).task.job }
        requires few { All (λ thread. thread.task.taken < 2 ^ 63) self.old.threads }
        requires accepted { (known : Known) × (refusal_of call self.old.app.table t.0 known ≡ None) }
        ensures step { let seen = ⟦<Ports as Seen>⟧.seen_as in
            (p : Plain) (promises : List (Option Semaphore)) → Holds self.old p promises
            → seen ports.old ≡ p.ports
            → let o = outcome.accepted self.old.app.table p.owners call in
            Holds self.new (after_asking o t p) (promises_after self.old.app o t.0 p promises)
            × (seen ports.new ≡ (after_asking o t p).ports) × (result ≡ taken_of o t p) }
        ensures app { self.new.app ≡ self.old.app }
        ensures granted { (transfer : Requested) → result ≡ Asked.Asks transfer
            → IsGranted self.old.app.table t.0 transfer }
        ensures asks { (transfer : Requested) → result ≡ Asked.Asks transfer → self.new ≡ self.old }
    {
        let _ = &self.app;
        match call {
            Call::WaitJob => Taken::Called(Some(self.finish(t))),
            Call::Acquire(s) => Taken::Called(self.acquire(t, SemId(s as u8))),
            Call::Release(s) => Taken::Called(Some(self.release_semaphore(t, SemId(s as u8)))),
            Call::Out { port, word } => {
                Taken::Called(Some(self.put(t, PortId(port as u8), word, ports)))
            }
            Call::Write { msg, at } => Taken::Asks(Transfer::Write {
                msg: MsgId(msg as u8),
                at,
            }),
            Call::Read { msg, at } => Taken::Asks(Transfer::Read {
                msg: MsgId(msg as u8),
                at,
            }),
            Call::Signal { task, word } => {
                Taken::Called(Some(self.give(t, TaskId(task as u8), word)))
            }
            Call::Exit => Taken::Called(Some(self.exit(t))),
            // A call that there isn't is refused always.
            Call::Unknown(_) => Taken::Called(None),
        }
    }

    /// The call of a task is refused with a code.
    fn refused(&mut self, t: TaskId, code: i8) -> Line
        requires exists { t.0 < length self.old.threads }
        ensures step { let o = outcome.Refuses code in
            (p : Plain) (promises : List (Option Semaphore)) → Holds self.old p promises
            → Holds self.new (after_outcome o t p) (promises_after self.old.app o t.0 p promises)
            × (Some result ≡ line_by o t (task_at p.tasks t.0) p) }
        ensures app { self.new.app ≡ self.old.app }
    {
        let call = self.threads.regs(t).get(17);
        self.refuse(t, code);
        refused_line(t, call, code)
    }

    /// waitjob: the job of a task ends.
    fn finish(&mut self, t: TaskId) -> Line
        requires exists { t.0 < length self.old.threads }
        requires working { IsSome (thread_at self.old.threads t.0).task.job }
        ensures step { let o = outcome.Ends in
            (p : Plain) (promises : List (Option Semaphore)) → Holds self.old p promises
            → Holds self.new (after_outcome o t p) (promises_after self.old.app o t.0 p promises)
            × (Some result ≡ line_by o t (task_at p.tasks t.0) p) }
        ensures app { self.new.app ≡ self.old.app }
    {
        let job = number_of(self.threads.job(t));
        self.end(t);
        Line::JobEnd { task: t, job }
    }

    /// acquire: a task takes a semaphore, or waits for it.
    fn acquire(&mut self, t: TaskId, s: SemId) -> Option<Line>
        requires exists { t.0 < length self.old.threads }
        requires awake { (thread_at self.old.threads t.0).task.status ≡ TaskStatus.Awake }
        requires semaphore { s.0 < length self.old.owners }
        ensures step { (p : Plain) (promises : List (Option Semaphore)) → Holds self.old p promises
            → let o = outcome.acquire_outcome s.0 (owner_at p.owners s.0) in
            Holds self.new (after_outcome o t p) (promises_after self.old.app o t.0 p promises)
            × (result ≡ line_by o t (task_at p.tasks t.0) p) }
        ensures app { self.new.app ≡ self.old.app }
    {
        let owner = self.owners[usize::from(s.0)];
        match owner {
            None => {
                self.get(t, s);
                Some(Line::Acq { task: t, sem: s })
            }
            Some(_) => {
                self.block(t, s);
                None
            }
        }
    }

    /// release: a task frees a semaphore.
    fn release_semaphore(&mut self, t: TaskId, s: SemId) -> Line
        requires exists { t.0 < length self.old.threads }
        requires semaphore { s.0 < length self.old.owners }
        ensures step { let o = outcome.Frees s.0 in
            (p : Plain) (promises : List (Option Semaphore)) → Holds self.old p promises
            → Holds self.new (after_outcome o t p) (promises_after self.old.app o t.0 p promises)
            × (Some result ≡ line_by o t (task_at p.tasks t.0) p) }
        ensures app { self.new.app ≡ self.old.app }
    {
        self.free(t, s);
        Line::Free { task: t, sem: s }
    }

    /// out: a port takes a word.
    fn put(&mut self, t: TaskId, port: PortId, word: u32, ports: &mut Ports) -> Line
        requires exists { t.0 < length self.old.threads }
        requires port { port.0 < 8 }
        ensures step { let seen = ⟦<Ports as Seen>⟧.seen_as in let o = outcome.Puts port.0 word in
            (p : Plain) (promises : List (Option Semaphore)) → Holds self.old p promises
            → seen ports.old ≡ p.ports
            → Holds self.new (after_outcome o t p) (promises_after self.old.app o t.0 p promises)
            × (seen ports.new ≡ (after_outcome o t p).ports)
            × (Some result ≡ line_by o t (task_at p.tasks t.0) p) }
        ensures app { self.new.app ≡ self.old.app }
    {
        let value = ports.put(port, word).unwrap_or(0);
        self.answer(t, 0);
        Line::Out {
            task: t,
            port,
            word,
            value,
        }
    }

    /// signal: a task gives another, or itself, a job.
    fn give(&mut self, t: TaskId, to: TaskId, word: u32) -> Line
        requires exists { t.0 < length self.old.threads }
        requires other { to.0 < length self.old.threads }
        requires few { (thread_at self.old.threads to.0).task.taken < 2 ^ 63 }
        ensures step { let o = outcome.Signals to.0 word in
            (p : Plain) (promises : List (Option Semaphore)) → Holds self.old p promises
            → Holds self.new (after_outcome o t p) (promises_after self.old.app o t.0 p promises)
            × (Some result ≡ line_by o t (task_at p.tasks t.0) p) }
        ensures app { self.new.app ≡ self.old.app }
    {
        let job = self.threads.taken(to) + 1;
        self.signal(t, to, word);
        Line::Sig { task: t, to, job }
    }

    /// exit: a task ends.
    fn exit(&mut self, t: TaskId) -> Line
        requires exists { t.0 < length self.old.threads }
        ensures step { let o = outcome.Leaves in
            (p : Plain) (promises : List (Option Semaphore)) → Holds self.old p promises
            → Holds self.new (after_outcome o t p) (promises_after self.old.app o t.0 p promises)
            × (Some result ≡ line_by o t (task_at p.tasks t.0) p) }
        ensures app { self.new.app ≡ self.old.app }
    {
        self.leave(t);
        Line::Exited { task: t }
    }

    /// A fault of a task at its instruction, for a cause.
    pub(crate) fn fault(&mut self, t: TaskId, cause: u8) -> Line
        requires exists { t.0 < length self.old.threads }
        ensures step { let o = outcome.Falls cause in
            (p : Plain) (promises : List (Option Semaphore)) → Holds self.old p promises
            → Holds self.new (after_outcome o t p) (promises_after self.old.app o t.0 p promises)
            × (Some result ≡ line_by o t (task_at p.tasks t.0) p) }
        ensures app { self.new.app ≡ self.old.app }
    {
        let pc = self.threads.regs(t).pc();
        let sem = least_owned(&self.owners, t);
        self.fall(t);
        Line::Faulted {
            task: t,
            cause,
            pc,
            sem,
        }
    }
}

/// The line of a refused call.
fn refused_line(task: TaskId, call: u32, code: i8) -> Line
    ensures { result ≡ TraceLine.Refused task call code }
{
    Line::Refused { task, call, code }
}

/// The number of a job, 0 where there is none.
fn number_of(job: Option<Job>) -> u64
    ensures { result ≡ job_number job }
{
    match job {
        Some(job) => job.number,
        None => 0,
    }
}

/// The least semaphore that a task owns.
fn least_owned(owners: &[Option<TaskId>], t: TaskId) -> Option<SemId>
    requires { length owners.now ≤ 32 }
    ensures { result ≡ effect.least_owned owners.now t.0 }
{
    for s in 0..owners.len() as u8 {
        if is_owner(owners[usize::from(s)], t) {
            return Some(SemId(s));
        }
    }
    None
}

/// Whether the owner is the task.
fn is_owner(owner: Option<TaskId>, t: TaskId) -> bool
    ensures { result ≡ is_task t.0 owner }
{
    match owner {
        Some(u) => u.0 == t.0,
        None => false,
    }
}
