//! The start of a workload, whose draws were worked out by hand.

use crate::make;
use std::test::Fail;

/// The first lines of the workload of 7. The numbers after 7 are 1,025,555,898 and 3,923,423,697, so 15,648 and 59,866 are
/// drawn, and the remainders by 8 are 0 and 2.
const FIRST_LINES: &str = "%table
horizon = 5000000
semaphores = 4
[[task]]
name = \"t0\"
entry = \"t0\"
kind = \"timer\"
period = 20000
deadline = 20000
cost = 400
section = 300
uses = [0]
band = 0
[[task]]
name = \"t1\"
entry = \"t1\"
kind = \"timer\"
period = 30000
deadline = 30000
cost = 400
section = 300
uses = [1]
band = 0
[[task]]
";

/// How many bytes the workload of 7 has.
const LENGTH: usize = 6332;

#[test]
fn workload_of_seven(rt: HostRuntime) -> Result<(), Fail> {
    let bytes = make(rt.alloc(), 7)?;
    assert_eq!(rt; bytes.len(), LENGTH);
    assert!(rt; bytes.as_slice().starts_with(FIRST_LINES.as_bytes()));
    Ok(())
}
