//! The tasks, the refusals and the charges of small applications, and the depths of messages.

use em_admit::depth;
use em_base::{Charges, MsgId, Status, TaskId};
use em_bundle::load;
use em_demand::charges;
use em_gate::{Call, Facts, read_call, refusal, with_bit};
use em_hart::Regs;
use em_table::read_table;
use em_threads::{Threads, Took};
use std::test::Fail;

/// One task, which uses one of two semaphores.
const ONE: &str = "%table
horizon = 1000
semaphores = 2
own = 8
[[task]]
name = 'a'
entry = 'a'
kind = 'timer'
period = 1000
deadline = 1000
cost = 900
uses = [0]
section = 100
%code
li a0, 1
a: ecall
%script
";

/// Two tasks of one band.
const TWO: &str = "%table
horizon = 1000
[[task]]
name = 'p'
entry = 'p'
kind = 'timer'
band = 0
period = 1000
deadline = 1000
cost = 300
[[task]]
name = 'q'
entry = 'p'
kind = 'timer'
band = 0
period = 1000
deadline = 1000
cost = 300
%code
p: li a7, 8
ecall
%script
";

/// A table of a writer with three messages: with two readers, with one of these, and with none.
const MESSAGES: &str = "horizon = 10000
[[task]]
name = 'w'
entry = 'w'
kind = 'timer'
period = 1000
deadline = 900
cost = 100
writes = 2
[[task]]
name = 'r'
entry = 'r'
kind = 'timer'
period = 600
deadline = 500
cost = 100
[[task]]
name = 's'
entry = 's'
kind = 'timer'
period = 4000
deadline = 3000
cost = 100
[[message]]
words = 1
writer = 'w'
readers = ['s', 'r']
[[message]]
words = 1
writer = 'w'
readers = ['r']
[[message]]
words = 1
writer = 'w'
readers = []
";

/// The first task.
const FIRST: TaskId = TaskId(0);

/// The number of a call and its first operand, the semaphores that the task owns and the ports that are plugged in, as bits;
/// then the refusal.
const REFUSALS: [(u32, u32, u32, u8, Option<i8>); 18] = [
    (1, 0, 0, 0xff, None),
    (1, 0, 1, 0xff, Some(-6)),
    (2, 0, 0, 0xff, None),
    (2, 0, 1, 0xff, Some(-4)),
    (2, 1, 1, 0xff, Some(-3)),
    (2, 2, 1, 0xff, Some(-2)),
    (3, 0, 1, 0xff, None),
    (3, 0, 0, 0xff, Some(-5)),
    (3, 2, 0, 0xff, Some(-2)),
    (4, 7, 0, 0xff, None),
    (4, 7, 0, 0x7f, Some(-7)),
    (4, 8, 0, 0xff, Some(-2)),
    (7, 0, 0, 0xff, Some(-10)),
    (7, 1, 0, 0xff, Some(-2)),
    (8, 0, 0, 0xff, None),
    (8, 0, 1, 0xff, Some(-6)),
    (0, 0, 0, 0xff, Some(-1)),
    (99, 0, 0, 0xff, Some(-1)),
];

/// The call of a number with an operand.
fn asked(number: u32, operand: u32) -> Call {
    let mut regs = Regs::new(0);
    regs.set(17, number);
    regs.set(10, operand);
    read_call(&regs)
}

#[test]
fn a_task_is_released(rt: HostRuntime) -> Result<(), Fail> {
    let app = load(rt.alloc(), ONE.as_bytes(), false)?;
    let mut threads = Threads::new(rt.alloc(), &app)?;
    assert_eq!(rt; threads.count(), 1);
    assert_eq!(rt; threads.status(FIRST), Status::Asleep);
    assert_eq!(rt; threads.regs(FIRST).pc(), 4);
    assert_eq!(rt; threads.own(FIRST).length(), 8);
    assert!(rt; threads.taken(FIRST) == 0);
    assert_eq!(rt; threads.take(FIRST, 0, 9), Took::Started);
    assert_eq!(rt; threads.status(FIRST), Status::Awake);
    assert_eq!(rt; threads.regs(FIRST).get(10), 9);
    assert_eq!(rt; threads.taken(FIRST), 1);
    Ok(())
}

#[test]
fn each_refusal_by_the_facts(rt: HostRuntime) -> Result<(), Fail> {
    let app = load(rt.alloc(), ONE.as_bytes(), false)?;
    for (number, operand, owned, plugged, want) in REFUSALS {
        let facts = Facts {
            owned,
            plugged,
            full: with_bit(0, 0),
        };
        let call = asked(number, operand);
        let found = refusal(&call, &app.table, FIRST, &facts);
        assert_eq!(rt; found, want, "call {number} of {operand}");
    }
    Ok(())
}

#[test]
fn charges_by_tasks_and_bands(rt: HostRuntime) -> Result<(), Fail> {
    for (text, call, release, switch) in [(ONE, 21, 31, 10), (TWO, 22, 32, 13)] {
        let app = load(rt.alloc(), text.as_bytes(), false)?;
        let want = Charges {
            call,
            release,
            switch,
        };
        assert_eq!(rt; charges(&app.table), want);
    }
    Ok(())
}

#[test]
fn depths_by_readers(rt: HostRuntime) -> Result<(), Fail> {
    let table = read_table(rt.alloc(), MESSAGES)?;
    assert_eq!(rt; table.messages.as_slice().len(), 3);
    assert_eq!(rt; depth(&table, MsgId(0)), 10);
    assert_eq!(rt; depth(&table, MsgId(1)), 6);
    assert_eq!(rt; depth(&table, MsgId(2)), 2);
    Ok(())
}
