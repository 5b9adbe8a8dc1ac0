#![tactic(auto)]

// Runs the label search on many small floors beside a search that tries every walk, and prints how often the two agree.
use crate::generated::Generated;
use crate::settings::{TRIALS, run_setting};
use costs::{Pair, Total, Worst, Zones};

mod all_walks;
mod beginning;
mod comparing;
mod costs_kept;
mod floors_made;
mod generated;
mod numbers;
mod settings;
mod trial;

// Runs a kind of cost without constraints and with up to 8 of them, and says how many trials agree.
fn run_kind<C: Generated>(rt: &HostRuntime, kind: &str) -> anyhow::Result<u32> {
    let without = run_setting::<C>(rt, kind, 0)?;
    let with = run_setting::<C>(rt, kind, 8)?;
    Ok(without.saturating_add(with))
}

fn run(rt: &HostRuntime) -> anyhow::Result<()> {
    let costs = run_kind::<Pair<Total, Worst>>(rt, "costs")?;
    let zones = run_kind::<Zones>(rt, "zones")?;
    let agreed = costs.saturating_add(zones);
    let trials = 4 * TRIALS;
    println!(rt; "all settings: {agreed} of {trials} agree")?;
    Ok(())
}

fn main(rt: HostRuntime) -> anyhow::Result<()> {
    run(&rt)
}
