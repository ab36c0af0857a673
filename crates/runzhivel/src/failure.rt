// Why the program ends with status 1, and what it then says.
use super::command::{Misuse, USAGE};
use super::expected::expected_after;
use super::message::{Message, parted};
use model::{Refusal, Report};
use std::alloc::{AllocError, Global};
use std::io;

#[derive(Drop)]
pub enum Failure {
    Misuse(Misuse),
    /// A file's name, and why it cannot be read.
    Unreadable(String, io::Error),
    /// A file's name, its text, and why that is refused.
    Refused(String, Vec<u8>, Refusal),
    /// Memory is short, or the output cannot be written.
    System(io::Error),
}

impl From<io::Error> for Failure {
    fn from(error: io::Error) -> Failure {
        Failure::System(error)
    }
}

impl From<AllocError> for Failure {
    fn from(error: AllocError) -> Failure {
        Failure::System(io::Error::from(error))
    }
}

impl From<Misuse> for Failure {
    fn from(misuse: Misuse) -> Failure {
        Failure::Misuse(misuse)
    }
}

fn title(name: &str) -> &str {
    if name == "-" { "standard input" } else { name }
}

// The tokens that could stand where a text stops.
fn expected(heap: Global, text: &[u8], refusal: Refusal) -> Result<Vec<&'static str>, AllocError> {
    match refusal {
        Refusal::NoSolid(span) => {
            let (before, _) = parted(text, span);
            expected_after(heap, before)
        }
        _ => Ok(Vec::new(heap)),
    }
}

// The first line is for programs, and the message for a person.
fn explain_refusal<'a>(
    rt: &HostRuntime,
    name: &'a str,
    text: &'a [u8],
    refusal: Refusal,
) -> io::Result<()> {
    let Report {
        number,
        layer,
        span,
    } = Report::from(refusal);
    let at = span.at;
    println!(rt; "refused {number} {layer} {at}")?;
    let names = expected(rt.alloc(), text, refusal)?;
    let expected = names.as_slice();
    let name = title(name);
    rt.eprintln(Message {
        name,
        text,
        refusal,
        expected,
    })
}

/// Says why the program failed.
pub fn explain(rt: &HostRuntime, failure: &Failure) -> io::Result<()> {
    match failure {
        Failure::Misuse(misuse) => {
            eprintln!(rt; "runzhivel: {misuse}")?;
            rt.eprintln(USAGE)
        }
        Failure::Unreadable(name, error) => {
            eprintln!(rt; "runzhivel: cannot read {name}: {error}")?;
            rt.eprintln(USAGE)
        }
        Failure::Refused(name, text, refusal) => explain_refusal(
            rt,
            name.as_str(),
            text.as_slice(),
            *refusal,
        ),
        Failure::System(error) => eprintln!(rt; "runzhivel: {error}"),
    }
}
