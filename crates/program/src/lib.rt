// Programs as parts: what is told of each term, whether a program is legal, and the part that a text says.
#![tactic(auto)]

mod bounds;
mod element;
mod fault;
mod judge;
mod laid;
mod layout;
mod load;
mod lookup;
mod measure;
mod measuring;
mod narrow;
mod part;
mod parts;
mod primitives;
mod report;
mod unloaded;
mod walk;

pub use element::{Both, Item, Term};
pub use layout::Layout;
pub use measure::Measure;
pub use narrow::narrowed;
pub use part::Part;
pub use unloaded::Unloaded;
