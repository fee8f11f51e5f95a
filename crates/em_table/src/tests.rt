//! The tests of a table, in the order of the format.

use crate::read_table;
use em_base::{Fail as NotRead, Refusal};
use std::test::Fail;

/// A table with each top key but one.
const SMALL: &str = "horizon = 9
semaphores = 3
own = 4
shared = 8
task = [{ name = 'a', entry = 'a', kind = 'background' }]
";

/// A table with a timer task.
const TIMER: &str = "horizon = 9
semaphores = 3
[[task]]
name = 'a'
entry = 'a'
kind = 'timer'
period = 9
phase = 0
deadline = 9
cost = 1
section = 1
writes = 1
uses = [0]
band = 0
";

/// A table with a line task.
const LINE: &str = "horizon = 9
[[task]]
name = 'a'
entry = 'a'
kind = 'line'
period = 9
deadline = 9
cost = 1
line = 5
";

/// A table with a background task.
const BACKGROUND: &str = "horizon = 9\n[[task]]\nkind = 'background'\nname = 'a'\nentry = 'a'\n";

/// A table with a message.
const MESSAGE: &str = "task = [
    { name = 'b', entry = 'a', kind = 'background', period = 9, line = 5 },
    { name = 'l', entry = 'a', kind = 'line', period = 9, deadline = 9, cost = 1, line = 6 },
]
message = [{ words = 1, writer = 'l', readers = ['l'] }]
horizon = 9
";

/// A table, the part of it that is changed, what it is changed to, and the code: mostly of two faults that are tested for one
/// after the other.
const REFUSED: [(&str, &str, &str, u16); 45] = [
    (SMALL, "9", "9 9", 20),
    (SMALL, "horizon = 9\nsemaphores = 3", "semaphores = 33", 21),
    (SMALL, "3\nown = 4", "33\nown = 'x'", 23),
    (SMALL, "4\nshared = 8", "'x'\nshared = 2", 22),
    (SMALL, "8\ntask", "2\nmessage", 23),
    (SMALL, "task = [", "message = [1, ", 21),
    (SMALL, "own = 4", "message = 3\nextra = 1", 22),
    (SMALL, "task = [{ name = 'a',", "extra = 1\ntask = [{", 24),
    (TIMER, "'a'\nentry = 'a'", "1\nentry = ''", 22),
    (TIMER, "entry = 'a'\nkind = 'timer'", "entry = ''", 23),
    (TIMER, "'timer'\nperiod = 9", "'Timer'", 23),
    (TIMER, "period = 9\nphase = 0", "phase = -1", 21),
    (TIMER, "0\ndeadline = 9", "-1", 23),
    (TIMER, "deadline = 9\ncost = 1", "deadline = 10", 23),
    (TIMER, "cost = 1\nsection = 1", "section = -1", 21),
    (TIMER, "1\nwrites = 1", "'x'\nwrites = 65", 22),
    (TIMER, "writes = 1\nuses = [0]", "writes = 65\nuses = 3", 23),
    (TIMER, "[0]", "[0, 0, 3]", 23),
    (TIMER, "[0]\nband = 0", "[0, 0]\nband = 4", 25),
    (TIMER, "band = 0", "band = 4\nline = 5", 23),
    (TIMER, "band = 0", "line = 5", 24),
    (LINE, "line = 5", "band = 4", 21),
    (LINE, "line = 5", "line = 32", 23),
    (LINE, "line = 5", "line = 5\nphase = 0", 24),
    (BACKGROUND, "entry", "period = 9\nentry", 24),
    (BACKGROUND, "entry", "line = 5\nentry", 21),
    (BACKGROUND, "entry", "deadline = 9\nentry", 24),
    (BACKGROUND, "entry", "cost = 1\nentry", 24),
    (BACKGROUND, "entry", "writes = 0\nentry", 24),
    (BACKGROUND, "entry", "band = 0\nentry", 24),
    (BACKGROUND, "entry", "extra = 1\nentry", 24),
    (
        MESSAGE,
        "line = 6 },\n]\nmessage = [{ words = 1",
        "},\n]\nmessage = [{ words = 17",
        21,
    ),
    (
        MESSAGE,
        "6 },\n]\nmessage = [{ words = 1",
        "5 },\n]\nmessage = [{ words = 17",
        23,
    ),
    (MESSAGE, "1, writer = 'l'", "17", 23),
    (MESSAGE, "writer = 'l', readers = ['l']", "readers = 3", 21),
    (MESSAGE, "['l']", "['l', 1], extra = 1", 22),
    (MESSAGE, "writer = 'l'", "extra = 1, writer = 'x'", 24),
    (MESSAGE, "name = 'l'", "name = 'b'", 25),
    (MESSAGE, "line = 5", "line = 6", 25),
    (
        MESSAGE,
        "'l', readers = ['l']",
        "'x', readers = ['l', 'l']",
        24,
    ),
    (MESSAGE, "['l']", "['x', 'x']", 24),
    (
        MESSAGE,
        "'l', readers = ['l']",
        "'b', readers = ['l', 'l']",
        25,
    ),
    (
        MESSAGE,
        "'l', readers = ['l'] }]\nhorizon = 9",
        "'b', readers = [] }]\nhorizon = 20000000",
        26,
    ),
    (
        MESSAGE,
        "['l'] }]\nhorizon = 9",
        "['b'] }]\nhorizon = 20000000",
        26,
    ),
    (MESSAGE, "horizon = 9", "horizon = 20000000", 27),
];

#[test]
fn the_first_fault_is_refused(rt: HostRuntime) -> Result<(), Fail> {
    for (table, part, change, code) in REFUSED {
        let (before, after) = table.split_once(part).expect(&rt, part);
        let text = format!(in rt.alloc(); "{before}{change}{after}")?;
        let answer = read_table(rt.alloc(), text.as_str()).err();
        assert_eq!(rt;
            answer,
            Some(NotRead::Refused(Refusal { code, line: 1 })),
            "{text}"
        );
    }
    Ok(())
}

#[test]
fn tables_without_faults_are_read(rt: HostRuntime) {
    for text in [SMALL, TIMER, LINE, BACKGROUND, MESSAGE] {
        assert!(rt; read_table(rt.alloc(), text).is_ok(), "{text}");
    }
}
