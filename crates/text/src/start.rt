// Where in its text a node of a program begins.
ghost use Rattle.std.specs.Prelude.{◌≡◌, ◌+◌, ◌*◌, ◌<◌, ◌≤◌, length};
ghost use Rattle.model.specs.Limits.{most_nodes};
ghost use Rattle.model.specs.Tables.{held};
ghost use Rattle.model.specs.Texts.{feed_of};
ghost use Rattle.model.specs.Starts.{nth_span, first_token};
ghost use Rattle.text.specs.Starting.{opening_count, closing_count, most_own, own_count, TermWalk, PartsWalk, NextSpan};

use super::token::Lexer;
use model::{Node, Span, Table};

/// Where terms end, and how many of their tokens stand before the node that is looked for.
#[derive(Clone, Copy)]
struct Walk {
    end: usize,
    tokens: usize,
}

// The number of tokens that stand before a node's parts.
fn opening_tokens(node: Node) -> usize
    ensures { result ≡ opening_count node }
{
    match node {
        Node::Empty | Node::Number(_) => 1,
        Node::Join(_) | Node::List(_) | Node::Concat | Node::Sort(_) | Node::Unsort(_) => 2,
        Node::Fold | Node::Repeat(_) | Node::Map2(_) => 3,
        Node::Tabulate(_) => 6,
        Node::Vector(_) => 7,
        Node::Place(_, _) => 9,
        Node::Primitive(_, _) => 10,
    }
}

// The number of tokens that stand after them.
fn closing_tokens(node: Node) -> usize
    ensures { result ≡ closing_count node }
{
    match node {
        Node::Empty | Node::Vector(_) | Node::Number(_) => 0,
        _ => 1,
    }
}

// How many of its own tokens stand before the target, for a node at a place whose parts end at another.
fn own_tokens(node: Node, place: usize, end: usize, target: usize) -> usize
    ensures { result ≡ own_count node place end target }
{
    let opening = if place < target {
        opening_tokens(node)
    } else {
        0
    };
    let closing = if end <= target {
        closing_tokens(node)
    } else {
        0
    };
    opening + closing
}

// The term that begins at a place: of its tokens those before the target are counted, which are all or none if the target is not in it.
#[cycle(walking)]
fn walk_term(nodes: &[Node], place: usize, target: usize) -> Walk
    requires { (place < length nodes.now) × (length nodes.now ≤ most_nodes) }
    ensures within { (place < result.end) × (result.end ≤ length nodes.now) × (result.tokens + most_own * place ≤ most_own * result.end) }
    ensures walk { TermWalk nodes.now place target result }
{
    let node = nodes[place];
    let parts = walk_parts(nodes, place + 1, node.parts(), target);
    Walk {
        end: parts.end,
        tokens: parts.tokens + own_tokens(node, place, parts.end, target),
    }
}

// So many terms in a row, counted in the same way.
#[cycle(walking)]
fn walk_parts(nodes: &[Node], place: usize, count: usize, target: usize) -> Walk
    requires { (place ≤ length nodes.now) × (length nodes.now ≤ most_nodes) }
    ensures within { (place ≤ result.end) × (result.end ≤ length nodes.now) × (result.tokens + most_own * place ≤ most_own * result.end) }
    ensures walk { PartsWalk nodes.now place count target result }
{
    if count == 0 || place >= nodes.len() {
        return Walk {
            end: place,
            tokens: 0,
        };
    }
    let first = walk_term(nodes, place, target);
    let rest = walk_parts(nodes, first.end, count - 1, target);
    Walk {
        end: rest.end,
        tokens: first.tokens + rest.tokens,
    }
}

// The place of the next token, or None if there is none or a bad run comes first.
fn next_span(src: &mut Lexer) -> Option<Span>
    ensures { NextSpan src.old result src.new }
{
    src.next().ok().flatten().map(|token| token.span)
}

// The place of the token before which so many others stand.
fn span_after(text: &[u8], count: usize) -> Option<Span>
    ensures { result ≡ nth_span (feed_of text.now) count }
{
    let mut src = Lexer { text, at: 0 };
    for _ in 0..count {
        next_span(&mut src)?;
    }
    next_span(&mut src)
}

/// Where in the text that says the program held the first token of a node stands. Nodes are numbered
/// from 0 in reading order; None if there is no such node.
pub fn first_token(text: &[u8], table: &Table, node: usize) -> Option<Span>
    ensures { result ≡ first_token text.now (held table.now) node }
{
    if node >= table.size() {
        return None;
    }
    let nodes = table.nodes.as_slice();
    span_after(text, walk_term(nodes, 0, node).tokens)
}
