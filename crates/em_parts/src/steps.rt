//! The first steps of a kernel.
ghost use Rattle.std.specs.Prelude.{◌≡◌, ◌<◌, [], length};
ghost use Rattle.em_admit.specs.Depth.{AreShallow};
ghost use Rattle.em_base.specs.Apps.{IsApp};

use em_base::{App, Event, HintMap, Items, Key, NoMemory, Status, Steps, TaskId};
use em_bundle::load;
use em_kernel::{Did, Kernel, StepKind, View, What};
use em_ports::{LatchPort, Port, Ports};
use em_trace::Line;
use std::alloc::Global;
use std::marker::Brand;
use std::sync::ledger::{Blank, Ledger};
use std::test::Fail;

/// One task, which is released at 0 and then makes a call that there isn't.
const ONE: &str = "%table
horizon = 1000
[[task]]
name = 'a'
entry = 'a'
kind = 'timer'
period = 1000
deadline = 900
cost = 800
%code
li a0, 1
a: ecall
%script
";

/// The task.
const FIRST: TaskId = TaskId(0);

/// What the first two steps of a kernel did, and what it shows after each.
#[derive(Drop)]
struct Start {
    released: Did,
    awake: View,
    called: Did,
    later: View,
    switches: u64,
}

/// The first two steps of the kernel of an application.
fn start_of<L: Ledger>(alloc: Global, app: &App, blank: Blank) -> Result<Start, NoMemory>
    requires app { IsApp app.now }
    requires shallow { AreShallow app.now.table }
    requires hints { app.now.hints.hints ≡ [] }
    requires ledger { (blank.name ≡ L.name) × (blank.parts ≡ L.parts) }
    requires some { 0 < blank.parts }
{
    let mut ports: Vec<Box<dyn Port>> = Vec::with_capacity(alloc, 8)?;
    ports.push(Box::new(alloc, LatchPort::new())?)?;
    ports.push(Box::new(alloc, LatchPort::new())?)?;
    ports.push(Box::new(alloc, LatchPort::new())?)?;
    ports.push(Box::new(alloc, LatchPort::new())?)?;
    ports.push(Box::new(alloc, LatchPort::new())?)?;
    ports.push(Box::new(alloc, LatchPort::new())?)?;
    ports.push(Box::new(alloc, LatchPort::new())?)?;
    ports.push(Box::new(alloc, LatchPort::new())?)?;
    let mut ports = Ports::new(alloc, ports)?;
    let mut steps = Steps::<L>::start(blank);
    let mut kernel = Kernel::boot(alloc, app)?;
    let released = kernel.step(&mut ports, &mut steps);
    let awake = kernel.view(FIRST);
    let called = kernel.step(&mut ports, &mut steps);
    let later = kernel.view(FIRST);
    Ok(Start {
        released,
        awake,
        called,
        later,
        switches: kernel.switches(),
    })
}

/// What the release of the task does: it costs 31 cycles, and a switch of 10.
fn release() -> Did {
    let event = Event::Release {
        task: FIRST,
        time: 0,
        word: 0,
    };
    Did {
        what: What::Delivered(event),
        line: Some(Line::Rel {
            task: FIRST,
            job: 1,
            time: 0,
            word: 0,
        }),
        cost: 41,
        clock: 41,
        switched: true,
    }
}

/// What its refused call does: it costs 21 cycles.
fn refusal() -> Did {
    Did {
        what: What::Stepped(FIRST, StepKind::Call),
        line: Some(Line::Refused {
            task: FIRST,
            call: 0,
            code: -1,
        }),
        cost: 21,
        clock: 62,
        switched: false,
    }
}

#[test]
fn a_kernel_takes_its_first_steps(rt: HostRuntime) -> Result<(), Fail> {
    let mut app = load(rt.alloc(), ONE.as_bytes(), false)?;
    // The kernel takes no hints yet.
    app.hints = HintMap {
        hints: Items::new(rt.alloc()),
    };
    let start = start_of::<Brand>(rt.alloc(), &app, Blank::new(1))?;
    let awake = View {
        status: Status::Awake,
        promise: None,
        stopped: false,
        key: Key {
            level: 101,
            deadline: 900,
            id: 0,
        },
        pc: 4,
    };
    assert_eq!(rt; start.released, release());
    assert_eq!(rt; start.awake, awake);
    assert_eq!(rt; start.called, refusal());
    assert_eq!(rt; start.later.pc, 8);
    assert_eq!(rt; start.switches, 1);
    Ok(())
}
