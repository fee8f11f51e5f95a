//! The calls of a writer and a reader on a small buffer, with the answers worked out by hand.

use crate::{Lapped, StateBuf};
use std::test::Fail;

#[test]
fn a_reader_is_lapped_by_the_third_write(rt: HostRuntime) -> Result<(), Fail> {
    let mut buf = StateBuf::new(rt.alloc(), 1, 2)?;
    assert_eq!(rt; (buf.words(), buf.depth()), (1, 2));
    assert_eq!(rt; buf.begin_read(), 0);
    buf.begin_write();
    buf.put_word(0, 5);
    buf.publish();
    assert_eq!(rt; buf.begin_read(), 1);
    assert_eq!(rt; buf.get_word(1, 0), Ok(5));
    buf.begin_write();
    assert_eq!(rt; (buf.seen(), buf.begun()), (1, 2));
    assert_eq!(rt; buf.get_word(1, 0), Ok(5));
    buf.put_word(0, 6);
    buf.publish();
    buf.begin_write();
    let late = Lapped { noted: 1, begun: 3 };
    assert_eq!(rt; buf.get_word(1, 0), Err(late));
    Ok(())
}
