#![tactic(auto)]

// Prints what each cart of a site has on offer, as if it were alone. The site stands on standard input.
use offer_pages::offer_page;
use pages::read_input;
use std::io;
use std::io::Write;

fn run(rt: &HostRuntime) -> io::Result<()> {
    let input = read_input(rt.stdin(), rt.alloc())?;
    let page = offer_page(input.as_slice(), rt.alloc())?;
    rt.stdout().write_all(page.as_slice())
}

fn main(rt: HostRuntime) -> io::Result<()> {
    run(&rt)
}
