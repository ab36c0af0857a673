// Caddy texts, read into a table of nodes.
#![tactic(auto)]

mod byte;
mod expect;
mod form;
mod lex;
mod load;
mod number;
mod reader;
mod start;
mod token;

pub use load::read;
pub use start::first_token;
