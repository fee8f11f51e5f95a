//! Bundles with what they stand for.

use crate::load;
use em_base::{Event, Fail as Failure, PortId, Refusal, TaskId};
use std::test::Fail;

const BUNDLE: &str =
    "%table\nhorizon = 9\n[[task]]\nname = 'a'\nentry = 'm'\nkind = 'background'\n%code\r\n\n\nm: waitjob\r\n%script\n5 unplug 1";

const REPLAYED: &str =
    "%table\nhorizon = 9\n[[task]]\nname = 'a'\nentry = 'm'\nkind = 'background'\n%code\nm: waitjob\n%script\n%schedule\n0 rel 0 5 7\n2 unplug 1\n3 end";

#[test]
fn lines_are_counted_over_the_whole_bundle(rt: HostRuntime) -> Result<(), Fail> {
    let app = load(rt.alloc(), BUNDLE.as_bytes(), false)?;
    assert_eq!(rt; app.code_text.as_str(), "\n\nm: waitjob\n");
    assert_eq!(rt; app.code_line, 7);
    assert_eq!(rt; app.image.waits.as_slice().len(), 1);
    assert_eq!(rt; app.image.waits.as_slice()[0].line, 10);
    assert_eq!(rt; app.script.as_slice().len(), 1);
    Ok(())
}

#[test]
fn a_schedule_is_read_where_it_is_replayed(rt: HostRuntime) -> Result<(), Fail> {
    let app = load(rt.alloc(), REPLAYED.as_bytes(), true)?;
    let Some(schedule) = &app.schedule else {
        return Err(Fail::new("no schedule"));
    };
    let release = Event::Release {
        task: TaskId(0),
        time: 5,
        word: 7,
    };
    assert_eq!(rt;
        schedule.events.as_slice(),
        [(0, release), (2, Event::Unplug(PortId(1)))].as_slice()
    );
    assert_eq!(rt; schedule.last, 3);
    Ok(())
}

#[test]
fn a_schedule_stands_exactly_where_it_is_replayed(rt: HostRuntime) -> Result<(), Fail> {
    let missing = load(rt.alloc(), BUNDLE.as_bytes(), true).err();
    assert_eq!(rt;
        missing,
        Some(Failure::Refused(Refusal { code: 40, line: 13 }))
    );
    let other = load(rt.alloc(), REPLAYED.as_bytes(), false).err();
    assert_eq!(rt;
        other,
        Some(Failure::Refused(Refusal { code: 41, line: 10 }))
    );
    Ok(())
}
