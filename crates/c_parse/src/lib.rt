//! The parser of C texts: from tokens to the tree that is written so.
//!
//! Tokens are a program exactly where they are the tokens of a tree that fits our subset's grammar: its levels of
//! operators, and at most 64 brackets open at once (`c_tree`). [`parse`] gives such a tree, the only one there is
//! ([`one_tree`]), and refuses exactly the tokens that are no program, with the place at which they go wrong: the most
//! of the first tokens that can go on. [`reading_is_the_grammar`] says the same of reading token after token.
//!
//! It reads by recursive descent, in time linear in the tokens. The recursion is as deep as brackets are open, times
//! the levels; chains, signs, `else if` and statements are loops. `specs/Expected.antt` is the grammar as it is read
//! from left to right: what may come next at each point of a text. Each reader's contract says, in the words of
//! `specs/Readers.antt`, how far that is read, and with which token it stops.
#![tactic(auto)]

mod ahead;
mod expressions;
mod faults;
mod functions;
mod globals;
mod kinds;
mod laws;
mod loops;
mod operators;
mod parser;
mod rights;
mod simple;
mod statements;
mod units;

pub use faults::ParseFault;
pub use laws::{a_reading_exists, one_tree, reading_is_the_grammar};
pub use parser::parse;
