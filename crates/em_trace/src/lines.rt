//! The lines of a trace.

use em_base::{MsgId, PortId, SemId, TaskId};

/// A line of a trace: one thing that happened in a run. Times are in cycles.
#[derive(Clone, Copy, Debug, PartialEq, Eq)]
pub enum Line {
    /// A task was released: it was given a job, with the nominal time of its arrival and the word that it finds in a0.
    Rel {
        task: TaskId,
        job: u64,
        time: u64,
        word: u32,
    },
    /// A release was not taken, since the task was stopped or had as many pending releases as there may be.
    Dropped {
        task: TaskId,
        time: u64,
    },
    /// A task ended its job by its call waitjob.
    JobEnd {
        task: TaskId,
        job: u64,
    },
    /// A task took a semaphore.
    Acq {
        task: TaskId,
        sem: SemId,
    },
    /// A task freed a semaphore.
    Free {
        task: TaskId,
        sem: SemId,
    },
    /// A task put a word to a port, which shows the value afterwards.
    Out {
        task: TaskId,
        port: PortId,
        word: u32,
        value: u32,
    },
    /// A task gave another task, or itself, a job.
    Sig {
        task: TaskId,
        to: TaskId,
        job: u64,
    },
    /// A task published a value of a message, by its number; value 0 is there from the start.
    Put {
        task: TaskId,
        msg: MsgId,
        number: u64,
    },
    /// A task began to read a value of a message, by its number.
    Get {
        task: TaskId,
        msg: MsgId,
        number: u64,
    },
    /// A kernel call of this number was refused with a code from -10 to -1.
    Refused {
        task: TaskId,
        call: u32,
        code: i8,
    },
    /// A task was stopped by a fault, of a cause from 1 to 6, at the instruction at `pc`; it freed the semaphore.
    Faulted {
        task: TaskId,
        cause: u8,
        pc: u32,
        sem: Option<SemId>,
    },
    /// A port was unplugged; this is the last value that it showed.
    Gone {
        port: PortId,
        value: u32,
    },
    /// A task ended by its call exit.
    Exited {
        task: TaskId,
    },
}
