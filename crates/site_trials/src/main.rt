#![tactic(auto)]

// Tries sites, good and malformed: standard input has one after another, each below a line that begins with `-` and names it. Prints each
// name, and below it what is printed for the site.
ghost use Rattle.std.specs.Prelude.{◌≤◌, length};

use digits::split_once;
use offer_pages::offer_page;
use std::io;
use std::io::{Read, Write};

// How many bytes stand before the first line that begins with `-`.
fn site_length(bytes: &[u8]) -> usize
    ensures { result ≤ length bytes.now }
{
    if let [b'-', ..] = bytes {
        return 0;
    }
    bytes
        .windows(2)
        .position(|pair| matches!(pair, [b'\n', b'-']))
        .map_or(bytes.len(), |at| at + 1)
}

fn run(rt: &HostRuntime) -> io::Result<()> {
    let mut input = Vec::new(rt.alloc());
    rt.stdin().read_to_end(&mut input)?;
    let mut rest = input.as_slice();
    while let Some((name, below)) = split_once(rest, b'\n') {
        let length = site_length(below);
        let page = offer_page(&below[..length], rt.alloc())?;
        rt.stdout().write_all(name)?;
        rt.stdout().write_all(b"\n")?;
        rt.stdout().write_all(page.as_slice())?;
        rest = &below[length..];
    }
    Ok(())
}

fn main(rt: HostRuntime) -> io::Result<()> {
    run(&rt)
}
