//! A core follows its code: cycle by cycle, with its caches and its slots, it does what a walk over linked code does
//! without time. The crate has definitions and a law, and no code besides. In `specs/`, in reading order:
//!
//! 1. `Held`: when a core's stack cache, spilled words and interface hold what a run of code holds;
//! 2. `Sound`: when no check of a core fails on what code asks for, told of the code's run alone;
//! 3. `Goes`: when a core is where a walk is, what its loads gave, and its events, told of the walk;
//! 4. `Fixed`: the events that code fixes, whatever its loads give, and what is wanted of code: that it can be
//!    linked, and that it behaves (`IsLinkable`, `Behaves`);
//! 5. `Followed`: what a core comes to that follows its code; `Asked`: what code asks for, one
//!    after another; `Words`: words of 32 bits.
//!
//! [`code_is_followed`] says that a core follows code that behaves: it does the bundles of the trail, one after
//! another, no check stops it, it ends after the entry's return, and its events are the same whatever it reads. So its
//! times are, of which `code_times` tells, and what it leaves in its memories tells `code_words`.
//!
//! What its words mean stands in [the glossary](../../../docs/GLOSSARY.md).
#![tactic(auto)]

mod laws;

pub use laws::code_is_followed;
