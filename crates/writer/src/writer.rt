// Writes the program of a table as its text.
ghost use Rattle.std.specs.Prelude.{◌≡◌, ◌<◌, ◌≤◌, true, ◌∷◌, length};
ghost use Rattle.model.specs.Tables.{held};
ghost use Rattle.model.specs.Tokens.{bracket};
ghost use Rattle.model.specs.Bytes.{spelling};
ghost use Rattle.model.specs.Spelling.{spells, text_of, opening_text, closing_text};
ghost use Rattle.writer.specs.Putting.{Puts};
ghost use Rattle.writer.specs.Writing.{number_of, Wrote, Measured, Short, ReadsBack, TermPut, PartsPut};

use crate::sink::{Sink, fill};
use model::{Linear, Node, Table, Word};

/// Why a program was not written.
#[derive(Clone, Copy, PartialEq, Eq)]
pub enum Unwritten {
    /// The buffer is shorter than the text.
    ShortBuffer = 16,
}

impl From<Unwritten> for u8 {
    ghost from_gives = { λ unwritten number. number ≡ number_of unwritten };

    fn from(unwritten: Unwritten) -> u8 {
        unwritten as u8
    }
}

// One function for this and put_triple would take a trait for two kinds of number, longer than both.
#[inline]
fn put_bracket(sink: &mut Sink, v: Linear)
    ensures { Puts (spells true (bracket v)) sink.old sink.new }
{
    let [x, y, z] = v.axes();
    sink.byte(b'[');
    sink.number(x);
    sink.byte(b',');
    sink.number(y);
    sink.byte(b',');
    sink.number(z);
    sink.byte(b']');
}

// A bracket and a word.
pub fn put_open(sink: &mut Sink, word: Word)
    ensures { Puts (40 ∷ spelling word) sink.old sink.new }
{
    sink.byte(b'(');
    sink.bytes(word.spelling());
}

// What stands before a node's parts.
fn put_opening(sink: &mut Sink, node: Node)
    ensures { Puts (opening_text node) sink.old sink.new }
{
    match node {
        Node::Empty => sink.bytes(b"Empty"),
        Node::Primitive(kind, size) => {
            sink.bytes(b"(Prim ");
            sink.integer(kind);
            sink.byte(b' ');
            put_bracket(sink, size);
        }
        Node::Place(placement, v) => {
            put_open(sink, Word::from(placement));
            sink.byte(b' ');
            put_bracket(sink, v);
        }
        Node::Join(operator) => put_open(sink, Word::from(operator)),
        Node::Fold => sink.bytes(b"(Fold Union"),
        Node::Vector(v) => put_bracket(sink, v),
        Node::List(_) => sink.bytes(b"(List"),
        Node::Repeat(n) => {
            sink.bytes(b"(Repeat ");
            sink.integer(n);
        }
        Node::Tabulate(n) => {
            sink.bytes(b"(Tabulate (i ");
            sink.integer(n);
            sink.byte(b')');
        }
        Node::Concat => sink.bytes(b"(Concat"),
        Node::Sort(_) => sink.bytes(b"(Sort"),
        Node::Unsort(_) => sink.bytes(b"(Unsort"),
        Node::Map2(placement) => {
            sink.bytes(b"(Map2 ");
            sink.bytes(Word::from(placement).spelling());
        }
        Node::Number(n) => sink.integer(n),
    }
}

// What stands after them.
fn closing(node: Node) -> &'static [u8]
    ensures { result.now ≡ closing_text node }
{
    match node {
        Node::Empty | Node::Vector(_) | Node::Number(_) => b"",
        _ => b")",
    }
}

// Puts the expression whose nodes begin at a place, and answers the place after it.
#[cycle(putting)]
fn put_term(sink: &mut Sink, nodes: &[Node], place: usize) -> usize
    requires { place < length nodes.now }
    ensures ahead { place < result }
    ensures puts { TermPut nodes.now place sink.old result sink.new }
{
    let node = nodes[place];
    put_opening(sink, node);
    let next = put_parts(sink, nodes, place + 1, node.parts());
    sink.bytes(closing(node));
    next
}

// Puts so many expressions, each after a space.
#[cycle(putting)]
fn put_parts(sink: &mut Sink, nodes: &[Node], place: usize, count: usize) -> usize
    ensures ahead { place ≤ result }
    ensures puts { PartsPut nodes.now place count sink.old result sink.new }
{
    let mut next = place;
    for _ in 0..count {
        if next >= nodes.len() {
            return next;
        }
        sink.byte(b' ');
        next = put_term(sink, nodes, next);
    }
    next
}

fn put_program(sink: &mut Sink, table: &Table)
    ensures { Puts (text_of (held table.now)) sink.old sink.new }
{
    let nodes = table.nodes.as_slice();
    put_term(sink, nodes, 0);
}

/// Writes the text of the program held at the buffer's start, and answers its length. A buffer that
/// is shorter than the text stays wholly unchanged; else the bytes past the text stay. The buffer is
/// the caller's, as all memory is.
pub fn write(table: &Table, out: &mut [u8]) -> Result<usize, Unwritten>
    ensures wrote { Wrote (text_of (held table.now)) out.old result out.new }
    ensures measure { Measured (held table.now) }
    ensures short { Short (held table.now) }
    ensures reads_back { ReadsBack (held table.now) result out.new }
{
    fill(out, |sink| put_program(sink, table))
}
