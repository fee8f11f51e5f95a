//! Scripts with the events and refusals that were worked out by hand from the format.

use crate::reading::read_events;
use em_base::{
    Event, Fail as Failed, Items, Kind, Name, NoMemory, Refusal, TaskId, TaskRow, Timed,
};
use std::alloc::Global;
use std::process::Abort;
use std::test::Fail;

/// The events of a script that begins at line 10, for one task with interrupt line 31, or the refusal.
fn read(rt: &impl Abort, alloc: Global, text: &str) -> Result<Result<Items<Timed>, Refusal>, Fail> {
    let row = TaskRow {
        name: Name::new(alloc, "a")?,
        entry: Name::new(alloc, "a")?,
        kind: Kind::Background,
        period: Some(1000),
        phase: 0,
        deadline: None,
        cost: None,
        section: 0,
        writes: 0,
        uses: Items::new(alloc),
        line: Some(31),
        band: None,
    };
    assert!(rt; text.len() < 2_000_000, "{text:?}");
    match read_events(alloc, text, 10, &[row]) {
        Ok(events) => Ok(Ok(events)),
        Err(Failed::Refused(refusal)) => Ok(Err(refusal)),
        Err(Failed::NoMemory) => Err(NoMemory.into()),
    }
}

#[test]
fn scripts_are_refused(rt: HostRuntime) -> Result<(), Fail> {
    let alloc = rt.alloc();
    let full = "5 unplug 0\n".repeat(alloc, 100_001)?;
    for (text, code, line) in [
        ("+5 line 31 0", 30, 10),
        ("# none\n7 unplug 0\n6 line 30 0\n", 31, 12),
        ("7 unplug 0\r\n7 line 30 1\r\n", 32, 11),
        (full.as_str(), 33, 100_010),
    ] {
        assert_eq!(rt; read(&rt, alloc, text)?.err(), Some(Refusal { code, line }));
    }
    Ok(())
}

#[test]
fn scripts_are_read(rt: HostRuntime) -> Result<(), Fail> {
    let text = "\t3 line  31\t \t004# x\n\n#\r\n";
    let events = read(&rt, rt.alloc(), text)?.map_err(|_| NoMemory)?;
    let (task, time, word) = (TaskId(0), 3, 4);
    let event = Event::Release { task, time, word };
    assert_eq!(rt; events.as_slice(), [Timed { time, event }].as_slice());
    Ok(())
}
