// Whether a part contains a point, or that the point gets out of reach on its way to a primitive.
#![tactic(auto)]

mod answer;
mod asked;
mod item;
mod spot;
mod stack;
mod task;
mod unprobed;
mod walk;

pub use answer::probe;
pub use stack::Stack;
pub use unprobed::Unprobed;
