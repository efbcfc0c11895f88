//! Compiled code as an assembly text.
#![tactic(auto)]

mod aims;
mod bundles;
mod functions;
mod laws;
mod names;
mod parts;
mod tallies;
mod tasks;

pub use aims::Aim;
pub use laws::tallies_add_up;
pub use names::names_for;
pub use tallies::Tally;
pub use tasks::{Numbers, task_text};
