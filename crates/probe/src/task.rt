// What a walk still has to do.
ghost use Rattle.std.specs.Prelude.{◌≡◌};

use family::Reachable;
use model::Operator;
use program::Term;

/// A term of the program, and where the point has got to on its way there: nowhere, if it got out
/// of reach.
#[derive(Clone, Copy)]
pub(crate) struct Task {
    pub(crate) term: Term,
    pub(crate) spot: Option<Reachable>,
}

impl Task {
    /// Another term at the same spot.
    pub(crate) fn with_term(&self, term: Term) -> Task
        ensures { result ≡ record { term = term; spot = self.now.spot } }
    {
        Task { term, ..*self }
    }
}

/// What becomes of the answer of the term that is walked: data and no closure, since all memory is
/// asked for when the stack is made.
#[derive(Clone, Copy)]
pub(crate) enum Frame {
    /// It is the left side's; the right side is still to be walked.
    Left(Operator, Task),
    /// It is the right side's; the left side's is known.
    Right(Operator, bool),
    /// It is an element's: the list, the number of the next element, and whether an earlier element contains the point.
    Rest(Task, u128, bool),
}

/// What a walk does next: two named steps, of which a ControlFlow would name neither.
#[derive(Clone, Copy)]
pub(crate) enum Turn {
    Enter(Task),
    Leave(bool),
}
