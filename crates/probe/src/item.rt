// The elements of a list of solids, each with its spot.
ghost use Rattle.model.specs.Families.{Meaning};
ghost use Rattle.model.specs.Syntax.{solid};
ghost use Rattle.program.specs.Elements.{nodes_of, Holds};
ghost use Rattle.probe.specs.Walking.{Walk, walking, Leads};

use super::spot::moved;
use super::task::Task;
use program::{Item, Layout};

impl Task {
    /// The k-th element of the list that is the task. A loop, so that the stack does not grow with the
    /// lists of placed solids that stand in one another.
    pub(crate) fn item(&self, layout: &Layout, k: u128) -> Task
        ensures { (m : Meaning) (w : Walk) → Holds (walking m) (nodes_of layout.now) self.now.term k solid w → Leads (nodes_of layout.now) m self.now w result }
    {
        let mut list = *self;
        let mut k = k;
        loop {
            match layout.find_item(list.term, k) {
                Some(Item::Whole(term)) => return list.with_term(term),
                Some(Item::Placed(placement, both)) => {
                    let by = layout.vector_item(both.vectors, both.k);
                    list = Task {
                        term: both.solids,
                        spot: moved(placement, by, list.spot),
                    };
                    k = both.k;
                }
                // No list stands there.
                None => return list,
            }
        }
    }
}
