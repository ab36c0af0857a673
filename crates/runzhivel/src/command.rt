// What the arguments ask for.
use std::env::Args;
use std::fmt;

pub const USAGE: &str =
    "usage: runzhivel COMMAND\n  show FILE   read a part file (- is standard input), and print its size, its depth and its text\n  help        print this";

#[derive(Drop)]
pub enum Command {
    /// Read the file of this name, and print what it holds.
    Show(String),
    Help,
}

/// Why the arguments are no command.
#[derive(Drop)]
pub enum Misuse {
    NoCommand,
    Unknown(String),
    NoFile,
    TooMany,
}

impl fmt::Display for Misuse {
    fn fmt<W: fmt::Write>(&self, f: &mut fmt::Formatter<W>) -> fmt::Result {
        match self {
            Misuse::NoCommand => f.write_str("no command is given"),
            Misuse::Unknown(word) => write!(f, "`{word}` is no command"),
            Misuse::NoFile => f.write_str("show needs the name of a file, or - for standard input"),
            Misuse::TooMany => f.write_str("show takes one file"),
        }
    }
}

fn show_command(mut args: Args) -> Result<Command, Misuse> {
    let Some(name) = args.next() else {
        return Err(Misuse::NoFile);
    };
    if args.next().is_some() {
        return Err(Misuse::TooMany);
    }
    Ok(Command::Show(name))
}

/// The command of a program's arguments, of which the first is the program's own name.
pub fn parse(mut args: Args) -> Result<Command, Misuse> {
    let _program = args.next();
    let Some(word) = args.next() else {
        return Err(Misuse::NoCommand);
    };
    match word.as_str() {
        "show" => show_command(args),
        "help" => Ok(Command::Help),
        _ => Err(Misuse::Unknown(word)),
    }
}
