//! What the kernel counts: the clock, the lines and the switches; and which task runs.
ghost use Rattle.std.specs.Prelude.{◌≡◌, ◌≤◌, ◌<◌, ◌^◌, ℕ};
ghost use Rattle.em_kernel.specs.Metered as spec;
ghost use Rattle.em_system.specs.Standings.{number_of};
ghost use Rattle.em_kernel.specs.Step as step_spec;

use em_base::TaskId;
use em_trace::Line;

/// What the kernel counts, and which task runs. Times are in cycles.
#[derive(Clone, Copy, Debug)]
pub(crate) struct Meter {
    /// The clock.
    pub clock: u64,
    /// The task that ran last.
    pub current: Option<TaskId>,
    /// The task that is selected.
    pub selected: Option<TaskId>,
    /// The number of lines that were given.
    pub count: u64,
    /// The number of steps that had a switch charge.
    pub switches: u64,
}

/// Whether another task is selected than the one that ran last.
pub(crate) fn is_switch(current: Option<TaskId>, selected: Option<TaskId>) -> bool
    ensures { result ≡ step_spec.is_switch current (number_of selected) }
{
    match (current, selected) {
        (_, None) => false,
        (None, Some(_)) => true,
        (Some(u), Some(t)) => u.0 != t.0,
    }
}

impl Meter {
    /// Before anything has happened.
    pub(crate) fn boot() -> Meter
        ensures { result ≡ spec.metered_boot }
    {
        Meter {
            clock: 0,
            current: None,
            selected: None,
            count: 0,
            switches: 0,
        }
    }

    /// After a step at a cost, once a task is selected: the charge of a switch is added where there is one. The answer is
    /// what the step costs in all, and whether it has a switch.
    pub(crate) fn settle(
        &mut self,
        selected: Option<TaskId>,
        line: &Option<Line>,
        cost: u64,
        switch: u64,
    ) -> (u64, bool)
        requires clock { self.old.clock < 2 ^ 32 }
        requires count { self.old.count < 2 ^ 32 }
        requires switches { self.old.switches < 2 ^ 32 }
        requires cost { cost < 2 ^ 32 }
        requires switch { switch < 2 ^ 32 }
        ensures meter { self.new ≡ spec.metered self.old selected line.now cost switch }
        ensures switched { result.1 ≡ step_spec.is_switch self.old.current (number_of selected) }
        ensures total { result.0 ≡ spec.with_switch result.1 cost switch }
    {
        let switched = is_switch(self.current, selected);
        let total = if switched { cost + switch } else { cost };
        self.clock += total;
        self.current = selected.or(self.current);
        self.selected = selected;
        if line.is_some() {
            self.count += 1;
        }
        if switched {
            self.switches += 1;
        }
        (total, switched)
    }

    /// After a step at a cost that changes no selection, with the line that it gives.
    pub(crate) fn pass(&mut self, line: &Option<Line>, cost: u64)
        requires clock { self.old.clock < 2 ^ 32 }
        requires count { self.old.count < 2 ^ 32 }
        requires cost { cost < 2 ^ 32 }
        ensures { self.new ≡ spec.passed self.old line.now cost }
    {
        self.clock += cost;
        if line.is_some() {
            self.count += 1;
        }
    }
}
