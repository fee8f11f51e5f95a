//! Workloads as applications.

use em_base::Fail as LoadFail;
use em_bundle::load;
use em_gen::make;
use std::alloc::Global;
use std::test::Fail;

/// The workloads of the numbers below this are loaded.
const NUMBERS: u32 = 100;

/// A workload has fewer bytes than this.
const MOST_BYTES: usize = 10_000;

/// How much of each kind an application has.
#[derive(Clone, Copy, Debug, PartialEq, Eq)]
struct Sizes {
    tasks: usize,
    labels: usize,
    events: usize,
}

/// Each workload has 16 tasks, four labels for each of them, and 100 events.
const SIZES: Sizes = Sizes {
    tasks: 16,
    labels: 64,
    events: 100,
};

/// The sizes of the application that the workload of a number is; none where the workload is too long.
fn sizes_of(alloc: Global, number: u32) -> Result<Option<Sizes>, LoadFail> {
    let bytes = make(alloc, number)?;
    if bytes.len() >= MOST_BYTES {
        return Ok(None);
    }
    let app = load(alloc, &bytes, false)?;
    Ok(Some(Sizes {
        tasks: app.table.tasks.as_slice().len(),
        labels: app.image.labels.as_slice().len(),
        events: app.script.as_slice().len(),
    }))
}

#[test]
fn load_accepts_made_workloads(rt: HostRuntime) -> Result<(), Fail> {
    for number in 0..NUMBERS {
        let sizes = sizes_of(rt.alloc(), number)?;
        assert_eq!(rt; sizes, Some(SIZES), "workload of {number}");
    }
    Ok(())
}
