//! The run of an application on the kernel, from its boot to its end.
ghost use Rattle.std.specs.Prelude.{◌≡◌, ◌<◌, ℕ, [], IfOk};
ghost use Rattle.em_admit.specs.Depth.{AreShallow};
ghost use Rattle.em_base.specs.Apps.{IsApp};
ghost use Rattle.em_run.specs.Runs.{ArePartWay, IsRunOf, ports_after};

use em_base::{App, Items, NoMemory, Schedule, Steps};
use em_kernel::{End, Kernel, What};
use em_ports::{Ports, Seen};
use em_sched::Counter;
use em_system::put_line;
use em_trace::Line;
use std::alloc::Global;
use std::marker::Brand;
use std::sync::ledger::{Blank, Ledger};

/// What a run came to.
#[derive(Drop)]
pub struct Run {
    /// The lines of its trace.
    pub lines: Items<Line>,
    /// Its schedule: each event with the steps of the plain machine before it, and how many steps there are in all.
    pub schedule: Schedule,
    /// How it ended.
    pub end: End,
    /// The clock at its end, in cycles.
    pub clock: u64,
    /// How many of its steps had a switch charge.
    pub switches: u64,
}

/// Runs an application from its boot to the step that ends the run, with these ports handed in. `NoMemory` where memory runs
/// out; the ports are then those after some number of steps.
pub fn run_app(alloc: Global, app: &App, ports: &mut Ports) -> Result<Run, NoMemory>
    requires app { IsApp app.now }
    requires shallow { AreShallow app.now.table }
    requires hints { app.now.hints.hints ≡ [] }
    ensures run { let seen = ⟦<Ports as Seen>⟧.seen_as in
        IfOk result (IsRunOf app.now (seen ports.old)) }
    ensures ports { let seen = ⟦<Ports as Seen>⟧.seen_as in
        IfOk result (λ run. seen ports.new ≡ ports_after app.now (seen ports.old)) }
    ensures part { let seen = ⟦<Ports as Seen>⟧.seen_as in
        ArePartWay app.now (seen ports.old) (seen ports.new) }
{
    run_counted::<Brand>(alloc, app, ports, Blank::new(1))
}

/// The same, with a ledger for the count of steps.
fn run_counted<L: Ledger>(
    alloc: Global,
    app: &App,
    ports: &mut Ports,
    blank: Blank,
) -> Result<Run, NoMemory>
    requires app { IsApp app.now }
    requires shallow { AreShallow app.now.table }
    requires hints { app.now.hints.hints ≡ [] }
    requires ledger { (blank.name ≡ L.name) × (blank.parts ≡ L.parts) }
    requires some { 0 < blank.parts }
    ensures run { let seen = ⟦<Ports as Seen>⟧.seen_as in
        IfOk result (IsRunOf app.now (seen ports.old)) }
    ensures ports { let seen = ⟦<Ports as Seen>⟧.seen_as in
        IfOk result (λ run. seen ports.new ≡ ports_after app.now (seen ports.old)) }
    ensures part { let seen = ⟦<Ports as Seen>⟧.seen_as in
        ArePartWay app.now (seen ports.old) (seen ports.new) }
{
    let mut steps = Steps::<L>::start(blank);
    let mut kernel = Kernel::boot(alloc, app)?;
    let mut counter = Counter::new(alloc, app)?;
    let mut lines: Items<Line> = Items::new(alloc);
    'steps: loop {
        let did = kernel.step(ports, &mut steps);
        counter.see(&kernel, &did);
        put_line(alloc, &mut lines, &did.line)?;
        if let What::Ended(end) = did.what {
            return Ok(Run {
                lines,
                schedule: counter.finish(),
                end,
                clock: did.clock,
                switches: kernel.switches(),
            });
        }
    }
}
