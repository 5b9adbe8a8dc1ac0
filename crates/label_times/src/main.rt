#![tactic(auto)]

// Times the label search on one case that standard input describes, and prints what it found: the number of labels, and every offer with its walk.
// The best of the times, in nanoseconds, goes to standard error. `bench/` has the same search in plain Rust, and says how a case is written.
use crate::running::run_case;
use crate::words::Words;
use anyhow::bail;
use costs::{Pair, Total, Worst, Zones};
use std::io;

mod case;
mod floors_read;
mod refused;
mod running;
mod search;
mod worded;
mod words;

// The first word names the kind of cost.
fn run(rt: &HostRuntime) -> anyhow::Result<()> {
    let text = io::read_to_string(rt.alloc(), rt.stdin())?;
    let mut words = Words::new(text.as_str());
    match words.word()? {
        "costs" => run_case::<Pair<Total, Worst>>(rt, &mut words),
        "zones" => run_case::<Zones>(rt, &mut words),
        _ => bail!("the first word is not costs or zones"),
    }
}

fn main(rt: HostRuntime) -> anyhow::Result<()> {
    run(&rt)
}
