// Writes the unrolling of a part as its text, without building it.
ghost use Rattle.std.specs.Prelude.{Bool, true, replicate};
ghost use Rattle.model.specs.Tokens.{bracket};
ghost use Rattle.model.specs.Axes.{exact};
ghost use Rattle.model.specs.Placements.{still};
ghost use Rattle.model.specs.Spelling.{spells, text_of};
ghost use Rattle.model.specs.Tables.{held};
ghost use Rattle.model.specs.Unrolling.{programs, unroll as unrolling, UnrolledValues};
ghost use Rattle.writer.specs.Putting.{Puts};
ghost use Rattle.writer.specs.Writing.{Wrote};
ghost use Rattle.program.specs.Elements.{nodes_of};
ghost use Rattle.writer.specs.Unrolls.{placing, joining, SolidPut, ItemPut, UnionPut, SaysUnrolling};

use crate::sink::{Sink, fill};
use crate::writer::{Unwritten, put_open};
use model::{Node, Operator, Placement, Wide, Word};
use program::{Item, Layout, Part, Term};

// Beside `put_bracket`: one function for both would take a trait, longer than both.
fn put_triple(sink: &mut Sink, v: Wide)
    ensures { Puts (spells true (bracket (still (exact v)))) sink.old sink.new }
{
    sink.byte(b'[');
    sink.integer(v.x);
    sink.byte(b',');
    sink.integer(v.y);
    sink.byte(b',');
    sink.integer(v.z);
    sink.byte(b']');
}

fn put_primitive(sink: &mut Sink, kind: i64, sizes: Wide)
    ensures { Puts (text_of (programs.prim kind (exact sizes))) sink.old sink.new }
{
    sink.bytes(b"(Prim ");
    sink.integer(kind);
    sink.byte(b' ');
    put_triple(sink, sizes);
    sink.byte(b')');
}

// What stands before a solid that is placed.
fn put_placing(sink: &mut Sink, placement: Placement, v: Wide)
    ensures { Puts (placing placement (exact v)) sink.old sink.new }
{
    put_open(sink, Word::from(placement));
    sink.byte(b' ');
    put_triple(sink, v);
    sink.byte(b' ');
}

// What stands before the first of two solids.
#[tactic(auto, using(crate::proofs::Puts::puts_then))]
fn put_joining(sink: &mut Sink, operator: Operator)
    ensures { Puts (joining operator) sink.old sink.new }
{
    put_open(sink, Word::from(operator));
    sink.byte(b' ');
}

// So many closing brackets.
fn put_closings(sink: &mut Sink, count: u128)
    ensures { Puts (replicate count 41) sink.old sink.new }
{
    for _ in 0..count {
        sink.byte(b')');
    }
}

// Puts what a solid comes to. The sink and the layout go through three functions: a struct of two
// borrows would say no more.
#[cycle(unrolling)]
fn put_solid(sink: &mut Sink, layout: &Layout, term: Term)
    ensures { SolidPut (nodes_of layout.now) term sink.old sink.new }
{
    let first = term.part();
    match layout.node_at(term.place) {
        Node::Empty => sink.bytes(b"Empty"),
        Node::Primitive(kind, sizes) => put_primitive(sink, kind, sizes.at(term.index)),
        Node::Place(placement, v) => {
            put_placing(sink, placement, v.at(term.index));
            put_solid(sink, layout, first);
            sink.byte(b')');
        }
        Node::Join(operator) => {
            put_joining(sink, operator);
            put_solid(sink, layout, first);
            sink.byte(b' ');
            put_solid(sink, layout, first.next(layout));
            sink.byte(b')');
        }
        Node::Fold => put_union(sink, layout, first),
        _ => (),
    }
}

// Puts the union of a list's elements. Each Union but for its closing bracket stands before the
// next one, so a loop will do.
#[cycle(unrolling)]
fn put_union(sink: &mut Sink, layout: &Layout, list: Term)
    ensures { UnionPut (nodes_of layout.now) list sink.old sink.new }
{
    let count = layout.measure_at(list.place).elements;
    if count == 0 {
        return sink.bytes(b"Empty");
    }
    let last = count - 1;
    for k in 0..last {
        put_joining(sink, Operator::Union);
        put_item(sink, layout, list, k);
        sink.byte(b' ');
    }
    put_item(sink, layout, list, last);
    put_closings(sink, last);
}

// Puts what the element `k` of a list of solids comes to.
#[cycle(unrolling)]
fn put_item(sink: &mut Sink, layout: &Layout, list: Term, k: u128)
    ensures { ItemPut (nodes_of layout.now) list k sink.old sink.new }
{
    match layout.find_item(list, k) {
        None => (),
        Some(Item::Whole(term)) => put_solid(sink, layout, term),
        Some(Item::Placed(placement, both)) => {
            put_placing(sink, placement, layout.vector_item(both.vectors, both.k));
            put_item(sink, layout, both.solids, both.k);
            sink.byte(b')');
        }
    }
}

fn put_unrolling(sink: &mut Sink, part: &Part)
    ensures { Puts (text_of (unrolling (held part.now.layout.table))) sink.old sink.new }
{
    put_solid(sink, &part.layout, Term { place: 0, index: 0 });
}

/// Writes the text of the unrolling of a part's program at the buffer's start, and answers its
/// length. The unrolling is the program without lists, and has the same values at every point. A
/// buffer that is shorter than the text stays wholly unchanged; else the bytes past the text stay. The
/// buffer is the caller's, as all memory is.
pub fn unroll(part: &Part, out: &mut [u8]) -> Result<usize, Unwritten>
    ensures wrote { Wrote (text_of (unrolling (held part.now.layout.table))) out.old result out.new }
    ensures keeps { UnrolledValues Bool }
    ensures says { SaysUnrolling (held part.now.layout.table) result out.new }
{
    fill(out, |sink| put_unrolling(sink, part))
}
