// The part checker: reads a part file, says what it is, and writes it back in one spelling.
#![tactic(auto)]

mod command;
mod excerpt;
mod expected;
mod failure;
mod message;
mod part;
mod place;
mod source;

use command::Command;
use failure::{Failure, explain};
use model::{MOST_BYTES, Table};
use std::io::Write;
use std::process::ExitCode;

fn show(rt: &HostRuntime, name: String) -> Result<(), Failure> {
    let bytes = match source::read_bytes(rt, name.as_str()) {
        Ok(bytes) => bytes,
        Err(error) => return Err(Failure::Unreadable(name, error)),
    };
    let mut table = Table::new(rt.alloc())?;
    let mut text = vec![in rt.alloc(); 0u8; MOST_BYTES]?;
    match part::respell(bytes.as_slice(), &mut table, text.as_mut_slice()) {
        Ok(length) => text.truncate(length),
        Err(refusal) => return Err(Failure::Refused(name, bytes, refusal)),
    }
    let size = table.size();
    let depth = table.depth();
    print!(rt; "size: {size}\ndepth: {depth}\ntext: ")?;
    rt.stdout().write_all(text.as_slice())?;
    println!(rt; "")?;
    Ok(())
}

fn run(rt: &HostRuntime) -> Result<(), Failure> {
    let args = std::env::args(rt)?;
    match command::parse(args)? {
        Command::Show(name) => show(rt, name),
        Command::Help => {
            rt.println(command::USAGE)?;
            Ok(())
        }
    }
}

fn main(rt: HostRuntime) -> ExitCode {
    match run(&rt) {
        Ok(()) => ExitCode::SUCCESS,
        Err(failure) => {
            let _ = explain(&rt, &failure);
            ExitCode::FAILURE
        }
    }
}
