//! Laws of runs: the plain machine beside them, and under their schedules.
ghost use Rattle.std.specs.Prelude.{◌≡◌, ◌≤◌, ℕ, [], All, List, length};
ghost use Rattle.em_base.specs.declared.apps.App.{App};
ghost use Rattle.em_base.specs.declared.events.Schedule.{Schedule as ScheduleValue};
ghost use Rattle.em_base.specs.Events.{IsScript};
ghost use Rattle.em_base.specs.Tables.{IsTable};
ghost use Rattle.em_script.specs.Script.{HasWords};
ghost use Rattle.em_trace.specs.Schedules.{IsSchedule, most_steps};
ghost use Rattle.em_ports.specs.Ports.{Places};
ghost use Rattle.em_kernel.specs.Run.{counted_boot, run_end, run_steps, state_from};
ghost use Rattle.em_plain.specs.Runs.{plain_run, state_of};
ghost use Rattle.em_sched.specs.Agreement.{Agrees, AreKept, SelectAlike};
ghost use Rattle.em_sched.specs.Image.{image_beside, schedule_of};
ghost use Rattle.em_sched.specs.Reads.{AreReadsWhole};
ghost use Rattle.em_sched.specs.Traces.{AreFirstOf, Gives, IsRising, lines_in};
ghost use Rattle.em_sched.specs.Turns.{Turn, both_boot, both_run};

/// The counted machine and the image of it agree after all turns, whichever and in whatever order they come, so also after
/// each step of a run. Both keep the facts on owners, as the plain machine does under every schedule, and select the task at
/// the end of the chain of owners that begins at the most urgent one. For an application without hints.
pub fn agree()
    ensures turns { (app : App) (ports : Places) (turns : List Turn)
        → IsTable app.table → app.hints.hints ≡ []
        → let both = both_run app (both_boot app ports) turns in
        Agrees both.counted both.image.plain }
    ensures kept { (app : App) (ports : Places) (turns : List Turn)
        → IsTable app.table → app.hints.hints ≡ []
        → let both = both_run app (both_boot app ports) turns in
        AreKept app both.counted.plain both.counted.promises × AreKept app both.image.plain [] }
    ensures replayed { (app : App) (ports : Places) (schedule : ScheduleValue)
        → IsTable app.table → app.hints.hints ≡ []
        → AreKept app (state_of (plain_run app ports schedule)) [] }
    ensures selects { (app : App) (ports : Places) (turns : List Turn)
        → IsTable app.table → app.hints.hints ≡ []
        → let both = both_run app (both_boot app ports) turns in
        SelectAlike app both.counted both.image.plain }
    ensures steps { (app : App) (ports : Places) (n : ℕ)
        → IsTable app.table → app.hints.hints ≡ []
        → Agrees (state_from app n (counted_boot app ports)) (image_beside app ports n).plain }
{}

/// The trace of a run is that of the plain machine under the schedule of the run, which is never a misfit. The schedule has
/// the first events of the application, in their order, and its counts don't fall. For an application without hints.
pub fn same_trace()
    ensures trace { (app : App) (ports : Places)
        → IsTable app.table → app.hints.hints ≡ []
        → Gives (plain_run app ports (schedule_of app ports)) (lines_in (run_steps app ports)) }
    ensures lines { (app : App) (ports : Places)
        → (run_end app ports).plain.lines ≡ lines_in (run_steps app ports) }
    ensures events { (app : App) (ports : Places)
        → IsTable app.table → app.hints.hints ≡ []
        → AreFirstOf app (schedule_of app ports) }
    ensures rises { (app : App) (ports : Places)
        → IsTable app.table → app.hints.hints ≡ []
        → let schedule = schedule_of app ports in IsRising 0 schedule.events schedule.last }
{}

/// The schedule of a run is a valid one for the tasks of its application, so that it can be read back: its counts don't fall, and
/// its numbers are within their limits. Where it has at most 100,000,000 steps, and the releases of the script have arrivals
/// and words of 32 bits. For an application without hints.
pub fn valid_schedule()
    ensures { (app : App) (ports : Places)
        → IsTable app.table → app.hints.hints ≡ []
        → IsScript app.table.tasks app.script → All HasWords app.script
        → let schedule = schedule_of app ports in
        schedule.last ≤ most_steps → IsSchedule (length app.table.tasks) schedule }
{}

/// Each read of a run that ends is whole, in every run: its task has in its own window the words of the value whose number
/// stands in the line of the read, the newest that was published when it began, and took only the steps of this read from there to
/// its last word. For an application without hints.
pub fn whole_reads()
    ensures { (app : App) (ports : Places)
        → IsTable app.table → app.hints.hints ≡ [] → AreReadsWhole app ports }
{}
