// The first node that breaks a law, in reading order.
ghost use Rattle.std.specs.Prelude.{◌≡◌, ℕ, ◌<◌, ◌≤◌, false, List, vec_len, IfOk};
ghost use Rattle.model.specs.declared.law.Law.TheVariants.{Numbers, Primitives};
ghost use Rattle.model.specs.Legality.{breaks as is_broken};
ghost use Rattle.program.specs.Judging.{Counted, TermJudged, PartsJudged};

use super::judge::{
    Counts, below, breaks_lengths, breaks_loops, breaks_numbers, breaks_pairs, counts_at,
};
use super::layout::Layout;
use super::primitives::breaks_primitives;
use family::Family;
use model::{Context, Law, Node};

/// A layout that is judged under one law, as a family has it.
#[derive(Drop)]
pub(crate) struct Judge<'a, F> {
    pub(crate) law: Law,
    pub(crate) family: &'a F,
    pub(crate) layout: &'a Layout,
}

impl<'a, F: Family> Judge<'a, F> {
    // Whether a node breaks the law; that on primitives, if it keeps that on numbers.
    fn breaks(&self, node: Node, context: Context, counts: Counts) -> bool
        ensures { (cs : List ℕ) → Counted counts node cs → (self.now.law ≡ Primitives → is_broken (F.Family.meaning self.now.family.now) context cs node Numbers ≡ false) → result ≡ is_broken (F.Family.meaning self.now.family.now) context cs node self.now.law }
    {
        match self.law {
            Law::Size => false,
            Law::Loops => breaks_loops(node, context),
            Law::Numbers => breaks_numbers(node, context),
            Law::Primitives => breaks_primitives(self.family, node, context),
            Law::Pairs => breaks_pairs(node, counts),
            Law::Lengths => breaks_lengths(node, counts),
        }
    }

    /// Where the term that begins at a place ends, or its first node that breaks the law.
    #[cycle(judging)]
    pub(crate) fn term(&self, place: usize, context: Context) -> Result<usize, usize>
        requires { place < vec_len self.now.layout.now.table.nodes }
        ensures within { IfOk result (λ end. (place < end) × (end ≤ vec_len self.now.layout.now.table.nodes)) }
        ensures judged { TermJudged (F.Family.meaning self.now.family.now) self.now.law self.now.layout.now place context result }
    {
        let node = self.layout.table.nodes[place];
        if self.breaks(node, context, counts_at(self.layout, place)) {
            return Err(place);
        }
        self.parts(place + 1, node.parts(), below(node, context))
    }

    // The same of so many terms in a row.
    #[cycle(judging)]
    fn parts(&self, place: usize, count: usize, context: Context) -> Result<usize, usize>
        requires { place ≤ vec_len self.now.layout.now.table.nodes }
        ensures within { IfOk result (λ end. (place ≤ end) × (end ≤ vec_len self.now.layout.now.table.nodes)) }
        ensures judged { PartsJudged (F.Family.meaning self.now.family.now) self.now.law self.now.layout.now place count context result }
    {
        if count == 0 || place >= self.layout.table.nodes.len() {
            return Ok(place);
        }
        let next = self.term(place, context)?;
        self.parts(next, count - 1, context)
    }
}
