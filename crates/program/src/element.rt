// Where the terms and the elements of lists stand in a program that is laid out.
ghost use Rattle.std.specs.Prelude.{◌≡◌, ◌+◌, ◌-◌, ◌^◌, ◌≤◌, min, None, vec_items, slice_index_or};
ghost use Rattle.model.specs.declared.node.Triple.{Triple};
ghost use Rattle.model.specs.Syntax.{Solid, solid, vector};
ghost use Rattle.model.specs.Axes.{exact};
ghost use Rattle.model.specs.Unrolling.{programs};
ghost use Rattle.program.specs.Measures.{nothing};
ghost use Rattle.program.specs.Elements.{nodes_of, part as part_of, Follows, Hops, Comes, Holds, Finds, Lacks, Behind, zeros};

use super::layout::Layout;
use model::{Node, Placement, Wide};

// What stands for a vector where none is.
const ZEROS: Wide = Wide { x: 0, y: 0, z: 0 };

/// A term, and the index of the loop around it.
#[derive(Clone, Copy)]
pub struct Term {
    pub place: usize,
    pub index: u64,
}

/// The element `k` of two lists.
#[derive(Clone, Copy)]
pub struct Both {
    pub vectors: Term,
    pub solids: Term,
    pub k: u128,
}

/// What an element of a list is.
#[derive(Clone, Copy)]
pub enum Item {
    /// One term.
    Whole(Term),
    /// The solid, placed by the vector.
    Placed(Placement, Both),
}

impl Term {
    /// Its first part.
    pub fn part(self) -> Term
        ensures { result ≡ part_of self }
    {
        Term {
            place: self.place.saturating_add(1),
            ..self
        }
    }

    /// The term right after it, at the same index.
    pub fn next(self, layout: &Layout) -> Term
        ensures index { result.index ≡ self.index }
        ensures place { result.place ≡ min (self.place + (slice_index_or (vec_items layout.now.measures) self.place nothing).nodes) (2 ^ 64 - 1) }
        ensures ahead { self.place ≤ result.place }
        ensures after { Follows (nodes_of layout.now) self result }
    {
        let nodes = layout.measure_at(self.place).nodes;
        Term {
            place: self.place.saturating_add(nodes),
            ..self
        }
    }

    // The term `k` of those in a row from it on.
    fn hop(self, layout: &Layout, k: u128) -> Term
        ensures ahead { self.place ≤ result.place }
        ensures hops { Hops programs (nodes_of layout.now) self k result }
    {
        let mut term = self;
        for _ in 0..k {
            term = term.next(layout);
        }
        term
    }
}

impl Layout {
    // The element `k` of a list that has one. A loop, so that the stack does not grow with the lists
    // that are joined.
    fn seek(&self, list: Term, k: u128) -> Option<Item>
        ensures behind { Behind (nodes_of self.now) list result }
        ensures finds { Finds (nodes_of self.now) list k result }
    {
        let mut list = list;
        let mut k = k;
        loop {
            let first = list.part();
            match self.node_at(list.place) {
                Node::List(_) => return Some(Item::Whole(first.hop(self, k))),
                Node::Repeat(_) => return Some(Item::Whole(first)),
                Node::Tabulate(_) => {
                    return match u64::try_from(k) {
                        Ok(index) => Some(Item::Whole(Term { index, ..first })),
                        Err(_) => None,
                    };
                }
                Node::Concat => {
                    let left = self.measure_at(first.place).elements;
                    if k < left {
                        list = first;
                    } else {
                        list = first.next(self);
                        k -= left;
                    }
                }
                Node::Map2(placement) => {
                    let both = Both {
                        vectors: first,
                        solids: first.next(self),
                        k,
                    };
                    return Some(Item::Placed(placement, both));
                }
                _ => return None,
            }
        }
    }

    /// The element `k` of a list. None if the list has no such element, and where no list stands.
    // Here and below: else the item is written to memory and read back for every element.
    #[inline]
    pub fn find_item(&self, list: Term, k: u128) -> Option<Item>
        ensures behind { Behind (nodes_of self.now) list result }
        ensures finds { Finds (nodes_of self.now) list k result }
        ensures none { Lacks self.now list k → result ≡ None }
    {
        if k < self.measure_at(list.place).elements {
            self.seek(list, k)
        } else {
            None
        }
    }

    // The vector that a term is at its index; zeros for a solid.
    fn vector_at(&self, term: Term) -> Wide
        ensures vector { (x : Triple) → Comes programs (nodes_of self.now) term vector x → exact result ≡ x }
        ensures solid { (x : Solid) → Comes programs (nodes_of self.now) term solid x → exact result ≡ zeros }
    {
        match self.node_at(term.place) {
            Node::Vector(v) => v.at(term.index),
            _ => ZEROS,
        }
    }

    /// The element `k` of a list of vectors; zeros where no such list stands, since no caller would
    /// look at a None.
    #[inline]
    pub fn vector_item(&self, list: Term, k: u128) -> Wide
        ensures vector { (x : Triple) → Holds programs (nodes_of self.now) list k vector x → exact result ≡ x }
        ensures solid { (x : Solid) → Holds programs (nodes_of self.now) list k solid x → exact result ≡ zeros }
        ensures none { Lacks self.now list k → exact result ≡ zeros }
    {
        match self.find_item(list, k) {
            Some(Item::Whole(term)) => self.vector_at(term),
            // Not one arm: the proof's goals at an or-pattern have no lasting names.
            Some(Item::Placed(_, _)) => ZEROS,
            None => ZEROS,
        }
    }
}
