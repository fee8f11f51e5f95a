//! Eight ports with the words that are put to them, and the values worked out by hand.

use crate::{CountPort, LatchPort, Port, PortKind, Ports, SumPort};
use em_base::PortId;
use std::process::Abort;
use std::test::Fail;

/// The ports show these values, and none where one was unplugged.
fn expect(rt: &impl Abort, ports: &Ports, want: [Option<u32>; 8]) {
    for p in 0..8u8 {
        assert_eq!(rt; ports.shown(PortId(p)), want[p as usize], "port {p}");
    }
}

#[test]
fn a_new_port_is_of_its_kind_and_shows_0(rt: HostRuntime) {
    let (count, latch, sum) = (CountPort::new(), LatchPort::new(), SumPort::new());
    assert_eq!(rt; (count.kind(), count.shown()), (PortKind::Count, 0));
    assert_eq!(rt; (latch.kind(), latch.shown()), (PortKind::Latch, 0));
    assert_eq!(rt; (sum.kind(), sum.shown()), (PortKind::Sum, 0));
}

#[test]
fn ports_take_words_until_they_are_unplugged(rt: HostRuntime) -> Result<(), Fail> {
    let alloc = rt.alloc();
    let mut boxes: Vec<Box<dyn Port>> = Vec::new(alloc);
    for p in 0..8u8 {
        let port: Box<dyn Port> = match p {
            0..=3 => Box::new(alloc, LatchPort::new())?,
            4 | 5 => Box::new(alloc, CountPort::new())?,
            _ => Box::new(alloc, SumPort::new())?,
        };
        boxes.push(port)?;
    }
    assert_eq!(rt; boxes.len(), 8);
    let mut ports = Ports::new(alloc, boxes)?;
    expect(&rt, &ports, [Some(0); 8]);

    assert_eq!(rt; ports.put(PortId(4), 9), Some(1));
    assert_eq!(rt; ports.put(PortId(6), 3), Some(3));
    assert_eq!(rt; ports.put(PortId(6), 3), Some(6));
    let [no, one, six] = [Some(0), Some(1), Some(6)];
    expect(&rt, &ports, [no, no, no, no, one, no, six, no]);

    assert_eq!(rt; ports.put(PortId(0), 7), Some(7));
    assert_eq!(rt; ports.put(PortId(0), 5), Some(5));
    assert_eq!(rt; ports.put(PortId(6), 0xffff_fffe), Some(4));
    assert!(rt; ports.are_plugged());

    assert_eq!(rt; ports.unplug(PortId(6)), Some(4));
    assert_eq!(rt; ports.put(PortId(6), 3), None);
    assert_eq!(rt; ports.unplug(PortId(6)), None);
    assert!(rt; !ports.are_plugged());
    expect(&rt, &ports, [Some(5), no, no, no, one, no, None, no]);
    Ok(())
}
