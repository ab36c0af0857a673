// Why a text is not loaded.
use model::{Law, Refusal, Span};

#[derive(Clone, Copy)]
pub enum Unloaded {
    /// The text says no program.
    Unread(Refusal),
    /// Its program breaks a law: the first token of the first node that breaks it.
    Illegal(Law, Span),
}
