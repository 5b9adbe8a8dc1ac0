#![tactic(auto)]

// Prints the costs of a price list that no other dominates: `front costs` or `front zones`, with the list on standard input.
use pages::read_input;
use prices::front_page;
use std::io::Write;
use std::process::ExitCode;
use std::{env, io};

#[cfg(test)]
mod tests;

// The one argument. With none, or more, the name is empty, and no list has it.
fn list_name(rt: &HostRuntime) -> io::Result<String> {
    let mut args = env::args(rt)?.skip(1);
    match (args.next(), args.next()) {
        (Some(name), None) => Ok(name),
        _ => Ok(String::new(rt.alloc())),
    }
}

// Prints the page, or the one line on why there is none; such a list is told by its status, without a second line.
fn run(rt: &HostRuntime) -> io::Result<ExitCode> {
    let name = list_name(rt)?;
    let input = read_input(rt.stdin(), rt.alloc())?;
    match front_page(name.as_str(), input.as_slice(), rt.alloc())? {
        Ok(page) => {
            rt.stdout().write_all(page.as_slice())?;
            Ok(ExitCode::SUCCESS)
        }
        Err(line) => {
            rt.stderr().write_all(line.as_bytes())?;
            Ok(ExitCode::FAILURE)
        }
    }
}

fn main(rt: HostRuntime) -> io::Result<ExitCode> {
    run(&rt)
}
