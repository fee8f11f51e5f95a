//! A text with its hints, written out by hand.
ghost use Rattle.std.specs.Prelude.{◌≡◌};

use crate::{hint_at, hinted_text};
use em_base::{HintMap, Image, Items, SemId, Wait};
use std::test::Fail;

/// Lines 5 to 12 of an input: a comment, a label, colons in comments, tabs, a hint that is written already, line ends of both
/// kinds, a statement without a hint, an empty line, and a last line without a line end.
const TEXT: &str =
    "# waitjob\r\nloop:\twaitjob\t# wärts: 3\n  waitjob # no: label\n\twaitjob 3\nx: waitjob#z\r\n  waitjob\n\nwaitjob";

/// The same with its hints.
const HINTED: &str =
    "# waitjob\nloop:\twaitjob 3\t# wärts: 3\n  waitjob 31 # no: label\n\twaitjob 3\nx: waitjob 12#z\n  waitjob\n\nwaitjob 0\n";

/// A `waitjob` at an address, in a line.
fn wait(address: u32, line: u32, hint: Option<u32>) -> Wait
    ensures { result ≡ record { address = address; line = line; hint = hint } }
{
    Wait {
        address,
        line,
        hint,
    }
}

#[test]
fn hints_are_written(rt: HostRuntime) -> Result<(), Fail> {
    let alloc = rt.alloc();
    let waits = vec![in alloc;
        wait(8, 6, None),
        wait(16, 7, None),
        wait(24, 8, Some(3)),
        wait(32, 9, None),
        wait(40, 10, None),
        wait(48, 12, None),
    ]?;
    let image = Image {
        words: Items::new(alloc),
        shared: Items::new(alloc),
        waits: Items::from_vec(waits),
        labels: Items::new(alloc),
    };
    let hints = vec![in alloc;
        (8, SemId(3)),
        (16, SemId(31)),
        (24, SemId(4)),
        (32, SemId(12)),
        (48, SemId(0)),
    ]?;
    let map = HintMap {
        hints: Items::from_vec(hints),
    };
    assert_eq!(rt; hint_at(&map, 24), Some(SemId(4)));
    assert_eq!(rt; hint_at(&map, 40), None);
    let text = hinted_text(alloc, TEXT, 5, &image, &map)?;
    assert_eq!(rt; text.as_str(), HINTED);
    Ok(())
}
