//! The names that are open, and which of them a name means.
//!
//! Names are opened one after another and closed from the end on, as blocks of a C text open and close them. A name
//! means the last of those that are open and so called (`number_of` of c_tree's `specs/Names.antt`): [`Names`] tells
//! its number, from 0, in a time that does not depend on how many are open.
#![tactic(auto)]

mod names;

pub use names::Names;
