//! What is drawn from a number, and the tasks that the draws give.
ghost use Rattle.std.specs.Prelude.{◌≡◌, ◌/◌, IfOk};
ghost use Rattle.em_gen.specs.Workload as spec;

use em_base::NoMemory;
use std::alloc::Global;

/// The factor of the generator.
const FACTOR: u32 = 1_664_525;

/// The summand of the generator.
const SUMMAND: u32 = 1_013_904_223;

/// How many bits of a number are not drawn: the lower half.
const LOWER_BITS: u32 = 16;

/// How many tasks have a timer.
const TIMERS: u32 = 15;

/// The least period in cycles.
const LEAST_PERIOD: u32 = 20_000;

/// How far two neighbouring periods lie apart in cycles.
const PERIOD_STEP: u32 = 5_000;

/// How many periods there are.
const PERIODS: u32 = 8;

/// The most rounds that a task counts down.
pub(crate) const MOST_ROUNDS: u32 = 40;

/// The numbers that a linear congruential generator gives, one after the other.
#[derive(Drop)]
struct Numbers {
    last: u32,
}

impl Numbers {
    /// Goes on to the next number, and gives its upper half.
    fn next(&mut self) -> u32
        ensures last { self.new.last ≡ spec.number_after self.old.last }
        ensures upper { result ≡ self.new.last / 65536 }
    {
        self.last = self.last.wrapping_mul(FACTOR).wrapping_add(SUMMAND);
        self.last >> LOWER_BITS
    }
}

/// A task with a timer: its number among the tasks, its period in cycles, and how many rounds it counts down in a job.
#[derive(Clone, Copy)]
pub(crate) struct Task {
    pub(crate) number: u32,
    pub(crate) period: u32,
    pub(crate) rounds: u32,
}

/// The task of a number with a draw.
fn drawn_task(number: u32, draw: u32) -> Task
    ensures { result ≡ spec.drawn_task number draw }
{
    Task {
        number,
        period: LEAST_PERIOD + PERIOD_STEP * (draw % PERIODS),
        rounds: 1 + draw / PERIODS % MOST_ROUNDS,
    }
}

/// The tasks with a timer of the workload of a number, in the order of their numbers. Fails only where memory runs out.
pub(crate) fn timers(alloc: Global, n: u32) -> Result<Vec<Task>, NoMemory>
    ensures { IfOk result (λ tasks. tasks.items ≡ spec.timers n) }
{
    let mut numbers = Numbers { last: n };
    let mut tasks = Vec::new(alloc);
    for number in 0..TIMERS {
        tasks.push(drawn_task(number, numbers.next()))?;
    }
    Ok(tasks)
}
