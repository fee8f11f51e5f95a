//! Laws of plain runs.
ghost use Rattle.std.specs.Prelude.{◌≡◌, ℕ};
ghost use Rattle.em_base.specs.declared.apps.App.{App as AppValue};
ghost use Rattle.em_base.specs.declared.events.Schedule.{Schedule as ScheduleValue};
ghost use Rattle.em_gate.specs.State.{Plain};
ghost use Rattle.em_plain.specs.Runs.{and_then, part_from, rest_from, run_from};

/// A whole run is a part of itself: it has so many events, which are all or those up to where it stops, and so many steps.
pub fn whole_run()
    ensures { (app : AppValue) (p : Plain) (schedule : ScheduleValue)
        → (part : ℕ × ℕ) × (run_from app p schedule ≡ part_from app p schedule part) }
{}

/// A run passes each of its parts: it is the part and then, where that hasn't stopped, the events behind it and the steps up to
/// the last count.
pub fn passes_parts()
    ensures { (app : AppValue) (p : Plain) (schedule : ScheduleValue) (part : ℕ × ℕ)
        → let rest = rest_from app schedule part.0 in
        run_from app p schedule ≡ and_then (part_from app p schedule part) rest }
{}
