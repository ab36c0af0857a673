// Caddy programs as a table of nodes, the words of their texts, what a refused text is told, and points.
#![tactic(auto)]

mod at_index;
mod beyond;
mod depth;
mod extent;
mod held;
mod law;
mod law_number;
mod limits;
mod node;
mod numeral;
mod point;
mod refusal;
mod report;
mod same;
mod spelling;
mod table;
mod unrolling;
mod word;

pub use law::{Context, Fault, Law};
pub use limits::{MOST_BYTES, MOST_ELEMENTS, MOST_LEVELS, MOST_NODES, MOST_UNROLLED};
pub use node::{Linear, Node, Operator, Placement, Triple};
pub use numeral::{Numeral, Wide};
pub use point::{Point, Primitive};
pub use refusal::{Layer, Refusal, Report, Span};
pub use table::{Draft, Table};
pub use unrolling::unrolling_keeps_values;
pub use word::{Mark, Word};
