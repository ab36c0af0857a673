// Families of primitives: boxes and cylinders, profiles out of a table, and two families side by side.
#![tactic(auto)]

mod beside;
mod catalogue;
mod exact;
mod family;
mod reachable;
mod standard;

pub use beside::Beside;
pub use catalogue::{Catalogue, Row};
pub use family::{Family, Reach};
pub use reachable::Reachable;
pub use standard::Standard;
