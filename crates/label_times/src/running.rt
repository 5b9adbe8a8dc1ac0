use crate::case::Case;
use crate::floors_read::{read_grid, read_lanes};
use crate::search::Search;
use crate::worded::Worded;
use crate::words::Words;
use anyhow::bail;
use floors::Floor;

// Runs the rest of a case on its floor.
fn run_on<F: Floor, C: Worded>(
    rt: &HostRuntime,
    floor: &F,
    repeats: u16,
    words: &mut Words<'_>,
) -> anyhow::Result<()> {
    let case = Case::<C>::read(rt.alloc(), words)?;
    let mut search = Search::new(rt.alloc(), case.query(floor))?;
    let best = search.best_time(rt, repeats)?;
    eprintln!(rt; "best of {repeats}, in nanoseconds: {best}")?;
    search.print_answer(rt)
}

// Runs a case of one kind of cost: how often, then the floor and what follows.
pub(crate) fn run_case<C: Worded>(rt: &HostRuntime, words: &mut Words<'_>) -> anyhow::Result<()> {
    let repeats = words.number::<u16>()?;
    match words.word()? {
        "grid" => {
            let floor = read_grid(rt.alloc(), words)?;
            run_on::<_, C>(rt, &floor, repeats, words)
        }
        "lanes" => {
            let floor = read_lanes(words)?;
            run_on::<_, C>(rt, &floor, repeats, words)
        }
        _ => bail!("the floor is neither a grid nor lanes"),
    }
}
