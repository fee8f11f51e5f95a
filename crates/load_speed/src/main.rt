//! How fast bundles load: long ones of four kinds, each made, loaded and told in a line, with the seconds of its loading on
//! standard error. Its one word says how often the line of each kind stands at most; without it they are as long as an input
//! may be, or as the kind's own limit.
#![tactic(auto)]

use em_base::{App, Fail};
use em_bundle::load;
use std::alloc::{AllocError, Global};
use std::io;
use std::time::Instant;

/// The lines before those that are repeated in the code part.
const HEAD: &str =
    "%table\nhorizon = 1000\n[[task]]\nname = 'a'\nentry = 'a'\nkind = 'line'\nperiod = 1000\ndeadline = 1000\ncost = 900\nline = 0\n%code\na: li a7, 8\necall\n";

/// What is repeated in a bundle.
#[derive(Clone, Copy, Debug, PartialEq, Eq)]
enum Kind {
    /// Comments in the code, 16 MiB of them.
    Comments,
    /// Labels in the code, 1,600,000 of them.
    Labels,
    /// Empty lines in the code, 16,000,000 of them.
    Blanks,
    /// Events in the script, 100,000 of them.
    Events,
}

impl Kind {
    /// What the kind is called.
    fn name(self) -> &'static str {
        match self {
            Kind::Comments => "comments",
            Kind::Labels => "labels",
            Kind::Blanks => "blanks",
            Kind::Events => "events",
        }
    }

    /// How many of them there are at most.
    fn most(self) -> u32 {
        match self {
            Kind::Comments => 520_000,
            Kind::Labels => 1_600_000,
            Kind::Blanks => 16_000_000,
            Kind::Events => 100_000,
        }
    }
}

fn main(rt: HostRuntime) -> io::Result<()> {
    let most = std::env::args(&rt)?
        .nth(1)
        .and_then(|word| word.parse::<u32>().ok())
        .unwrap_or(u32::MAX);
    for kind in [Kind::Comments, Kind::Labels, Kind::Blanks, Kind::Events] {
        let input = bundle(rt.alloc(), kind, most.min(kind.most()))?;
        let name = kind.name();
        if input.len() >= 1 << 30 {
            continue;
        }
        let start = Instant::now(&rt)?;
        let found = load(rt.alloc(), input.as_bytes(), false);
        let seconds = start.elapsed(&rt)?.as_secs_f64();
        eprintln!(rt; "{name}: {seconds} seconds")?;
        match found {
            Ok(app) => tell(&rt, name, &app)?,
            Err(Fail::Refused(refusal)) => {
                println!(rt; "{name}: error {} line {}", refusal.code, refusal.line)?;
            }
            Err(Fail::NoMemory) => println!(rt; "{name}: no memory")?,
        }
    }
    Ok(())
}

/// Tells how much was loaded.
fn tell(rt: &HostRuntime, name: &str, app: &App) -> io::Result<()> {
    let labels = app.image.labels.as_slice().len();
    let events = app.script.as_slice().len();
    println!(rt; "{name}: {labels} labels, {events} events")
}

/// A bundle in which the line of a kind stands so often.
fn bundle(alloc: Global, kind: Kind, count: u32) -> Result<String, AllocError> {
    let mut text = String::from_str(alloc, HEAD)?;
    if kind == Kind::Events {
        text.push_str("%script\n")?;
    }
    for number in 0..count {
        match kind {
            Kind::Comments => text.push_str("# a comment that says nothing\n")?,
            Kind::Labels => text.push_str(format!(in alloc; "l{number}:\n")?.as_str())?,
            Kind::Blanks => text.push_str("\n")?,
            Kind::Events => text.push_str("7 line 0 9\n")?,
        }
    }
    if kind != Kind::Events {
        text.push_str("%script\n")?;
    }
    Ok(text)
}
