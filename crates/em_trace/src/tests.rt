//! Traces whose lines were worked out by hand from the format.

use crate::{Line, TraceFail, print_trace, read_trace};
use em_base::{MsgId, NoMemory, PortId, SemId, TaskId};
use std::test::Fail;

/// A line of each kind.
const LINES: [Line; 14] = [
    Line::Rel {
        task: TaskId(255),
        job: 1,
        time: u64::MAX,
        word: u32::MAX,
    },
    Line::Dropped {
        task: TaskId(0),
        time: 4066,
    },
    Line::JobEnd {
        task: TaskId(3),
        job: 9,
    },
    Line::Acq {
        task: TaskId(2),
        sem: SemId(1),
    },
    Line::Free {
        task: TaskId(2),
        sem: SemId(1),
    },
    Line::Out {
        task: TaskId(0),
        port: PortId(7),
        word: 65545,
        value: 5,
    },
    Line::Sig {
        task: TaskId(0),
        to: TaskId(1),
        job: 9,
    },
    Line::Put {
        task: TaskId(1),
        msg: MsgId(0),
        number: 2,
    },
    Line::Get {
        task: TaskId(0),
        msg: MsgId(15),
        number: 33554432,
    },
    Line::Refused {
        task: TaskId(0),
        call: 7,
        code: -10,
    },
    Line::Faulted {
        task: TaskId(0),
        cause: 6,
        pc: 20,
        sem: Some(SemId(0)),
    },
    Line::Faulted {
        task: TaskId(0),
        cause: 2,
        pc: 0,
        sem: None,
    },
    Line::Gone {
        port: PortId(0),
        value: 5,
    },
    Line::Exited { task: TaskId(1) },
];

/// Their text.
const TEXT: &str = "\
rel 255 1 18446744073709551615 4294967295
drop 0 4066
end 3 9
acq 2 1
free 2 1
out 0 7 65545 5
sig 0 1 9
put 1 0 2
get 0 15 33554432
err 0 7 -10
fault 0 6 20 0
fault 0 2 0 -
gone 0 5
exit 1
";

#[test]
fn lines_are_printed_and_read(rt: HostRuntime) -> Result<(), Fail> {
    let alloc = rt.alloc();
    let text = print_trace(alloc, &LINES)?;
    assert_eq!(rt; text.as_str(), TEXT);
    let lines = read_trace(alloc, TEXT).map_err(|_| NoMemory)?;
    assert_eq!(rt; lines.as_slice(), LINES.as_slice());
    Ok(())
}

#[test]
fn other_lines_are_named(rt: HostRuntime) -> Result<(), Fail> {
    for (text, number) in [
        ("exit 0\nexit 00\nexit\n", 2),
        ("exit 0\r\nexit 0\n\n", 3),
        ("exit 0\nexit  0", 2),
        ("exit 256", 1),
        ("err 0 7 9", 1),
        ("err 0 7 -11", 1),
        ("err 0 7 -0", 1),
        ("rel 0 1 0 +1", 1),
        ("exit 0 ", 1),
        ("exit 0\r", 1),
    ] {
        let found = read_trace(rt.alloc(), text).err();
        assert_eq!(rt; found, Some(TraceFail::Form(number)), "{text:?}");
    }
    Ok(())
}
