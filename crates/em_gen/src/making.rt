//! The workload of a number.
ghost use Rattle.std.specs.Prelude.{◌≡◌, ◌≤◌, IfOk, length};
ghost use Rattle.em_gen.specs.Workload.{workload};

use crate::draws::timers;
use crate::texts::{put_code, put_script, put_table};
use em_base::NoMemory;
use std::alloc::Global;

/// The workload of a number: the bytes of a bundle, an application as text. A number always gives the same bytes.
///
/// The application has 15 tasks with a timer and a 16th in the background, which the script releases every 50,000 cycles from 0
/// on; the horizon is 5,000,000 cycles. In each job a task takes one of four semaphores, counts its rounds down, writes its
/// number to a port and frees the semaphore. A task's period, one of the 8 from 20,000 to 55,000 cycles that are 5,000 apart,
/// and its rounds, from 1 to 40, are drawn from the number; the task in the background has 40 rounds.
///
/// `n` may be any number. The answer is `Ok` with the bytes, at most 65,536, and `NoMemory` only where memory runs out.
pub fn make(alloc: Global, n: u32) -> Result<Vec<u8>, NoMemory>
    ensures made { IfOk result (λ bytes. bytes.items ≡ workload n) }
    ensures few { IfOk result (λ bytes. length bytes.items ≤ 65536) }
{
    let tasks = timers(alloc, n)?;
    let mut text = String::new(alloc);
    put_table(&mut text, &tasks)?;
    put_code(&mut text, &tasks)?;
    put_script(&mut text)?;
    Ok(text.into_bytes())
}
