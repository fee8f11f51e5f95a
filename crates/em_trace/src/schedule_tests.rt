//! Schedules whose text, events and refusals were worked out by hand from the format.

use crate::{print_schedule, read_schedule};
use em_base::{
    Event, Fail as Failed, Items, Kind, Name, NoMemory, PortId, Refusal, Schedule, Table, TaskId,
    TaskRow,
};
use std::alloc::Global;
use std::test::Fail;

/// A table of one task.
fn table(alloc: Global) -> Result<Table, NoMemory> {
    let mut tasks = Items::new(alloc);
    tasks.push(
        alloc,
        TaskRow {
            name: Name::new(alloc, "a")?,
            entry: Name::new(alloc, "a")?,
            kind: Kind::Background,
            period: None,
            phase: 0,
            deadline: None,
            cost: None,
            section: 0,
            writes: 0,
            uses: Items::new(alloc),
            line: None,
            band: None,
        },
    )?;
    Ok(Table {
        horizon: 1000,
        semaphores: 0,
        own: 0,
        shared: 0,
        tasks,
        messages: Items::new(alloc),
    })
}

#[test]
fn a_schedule_is_printed_and_read(rt: HostRuntime) -> Result<(), Fail> {
    let alloc = rt.alloc();
    let release = Event::Release {
        task: TaskId(0),
        time: 4294967295,
        word: 7,
    };
    let mut events = Items::new(alloc);
    events.push(alloc, (0, release))?;
    events.push(alloc, (9, Event::Unplug(PortId(7))))?;
    let last = 100_000_000;
    let text = print_schedule(alloc, &Schedule { events, last })?;
    let want = "0 rel 0 4294967295 7\n9 unplug 7\n100000000 end\n";
    assert_eq!(rt; text.as_str(), want);
    let table = table(alloc)?;
    let read = read_schedule(alloc, want, 1, &table).map_err(|_| NoMemory)?;
    assert_eq!(rt; read.last, 100_000_000);
    assert_eq!(rt;
        read.events.as_slice(),
        [(0, release), (9, Event::Unplug(PortId(7)))].as_slice()
    );
    Ok(())
}

#[test]
fn wrong_lines_are_named(rt: HostRuntime) -> Result<(), Fail> {
    let alloc = rt.alloc();
    let table = table(alloc)?;
    for (text, code, line) in [
        ("", 50, 10),
        ("0 rel 0 0 0\r\n", 50, 11),
        ("5 end\n5 end\n", 50, 11),
        ("100000001 end", 50, 10),
        ("0 rel 0 4294967296 0", 50, 10),
        ("0 rel 00 0 0", 50, 10),
        ("3 unplug 0\n2 rel 1 0 0", 51, 11),
        ("3 unplug 0\n2 end", 51, 11),
        ("0 rel 1 0 0", 52, 10),
        ("0 unplug 8", 52, 10),
        (
            "0 rel 99999999999999999999999999999999999999999 0 0",
            52,
            10,
        ),
    ] {
        let found = read_schedule(alloc, text, 10, &table).err();
        assert_eq!(rt;
            found,
            Some(Failed::Refused(Refusal { code, line })),
            "{text:?}"
        );
    }
    Ok(())
}
