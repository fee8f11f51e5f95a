//! How fast the hart steps: it runs a loop of four instructions, of which one is a load and one a store, for as many
//! steps as its one word says, 20,000,000 without it, and prints the count that the loop has left in memory.
#![tactic(auto)]

use em_base::NoMemory;
use em_hart::{Regs, Stepped, Window, step};
use em_isa::{Instr, encode};
use std::alloc::Global;
use std::io;

/// Where the window stands.
const OWN_BASE: u32 = 0x1000_0000;

/// Where the other window stands, which has no bytes.
const SHARED_BASE: u32 = 0x2000_0000;

/// The register with the address of the count (s0).
const ADDRESS: u8 = 8;

/// The register in which it counts (t0).
const COUNT: u8 = 5;

fn main(rt: HostRuntime) -> io::Result<()> {
    let steps = std::env::args(&rt)?
        .nth(1)
        .and_then(|word| word.parse::<u32>().ok())
        .unwrap_or(20_000_000);
    match count_after(rt.alloc(), steps) {
        Ok(count) => println!(rt; "{count} after {steps} steps"),
        Err(NoMemory) => println!(rt; "no memory"),
    }
}

/// The count in memory after so many steps.
fn count_after(alloc: Global, steps: u32) -> Result<u32, NoMemory> {
    let mut regs = Regs::new(0);
    regs.set(ADDRESS, OWN_BASE);
    let mut own = Window::new(alloc, OWN_BASE, &[], 64)?;
    let mut shared = Window::new(alloc, SHARED_BASE, &[], 0)?;
    let code = counting_loop();
    for _ in 0..steps {
        if step(&mut regs, &mut own, &mut shared, &code) == Stepped::Call {
            break;
        }
    }
    Ok(own.word_at(0))
}

/// A loop that adds 1 to the word at the address: a load, an addition, a store and a jump back.
fn counting_loop() -> [u32; 4] {
    [
        encode(&Instr::Load {
            op: 2,
            rd: COUNT,
            rs1: ADDRESS,
            imm: 0,
        }),
        encode(&Instr::OpImm {
            op: 0,
            alt: false,
            rd: COUNT,
            rs1: COUNT,
            imm: 1,
        }),
        encode(&Instr::Store {
            op: 2,
            rs1: ADDRESS,
            rs2: COUNT,
            imm: 0,
        }),
        encode(&Instr::Jal { rd: 0, offset: -12 }),
    ]
}
