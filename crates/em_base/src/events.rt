//! What comes from outside while an application runs.

use crate::ids::{PortId, TaskId};
use crate::list::Items;

/// Something that happens to a running application from outside. Times are in cycles.
#[derive(Clone, Copy, Debug, PartialEq, Eq)]
pub enum Event {
    /// A task is released.
    Release {
        /// The task.
        task: TaskId,
        /// The nominal time of its arrival.
        time: u64,
        /// The word that its job finds in a0.
        word: u32,
    },
    /// A port is unplugged.
    Unplug(PortId),
}

/// An event with the time at which it happens.
#[derive(Clone, Copy, Debug, PartialEq, Eq)]
pub struct Timed {
    /// The time, in cycles since the start of the run.
    pub time: u64,
    /// What happens then.
    pub event: Event,
}

/// The events of a plain run, by the number of steps before each.
#[derive(Drop)]
pub struct Schedule {
    /// How many steps are done before each event, with the event. The counts don't fall.
    pub events: Items<(u64, Event)>,
    /// How many steps there are in all: no fewer than before any event.
    pub last: u64,
}
