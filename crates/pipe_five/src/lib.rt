//! A core of Patmos (profile TP1) as a pipeline of five stages: fetch, decode, execute, memory and write-back.
//!
//! [`PipeCore`] is a second description of a core that is alone on its platform. [`PipeCore::advance`] goes on by one
//! bundle, and tells its cycle and the place in the code that each stage then holds; [`PipeCore::file`] is the register
//! file, which a bundle's results reach in write-back; [`PipeCore::state`] is how far the task has come. The clauses
//! tell all of it of the machine of one core, cycle by cycle. In `specs/`, in reading order:
//!
//! 1. `Steps`: the bundles of that machine in their order; [`only_core_is_the_machine`] says that it
//!    is the machine of all cores with one core;
//! 2. `Stages`: which places follow a bundle in the code, what stands in the stages, and the register file;
//! 3. `Latches`: what is held in the stages, and how it goes on; `Lone` and `Board`: the core with its board, cycle by
//!    cycle; `Pipe`: the pipeline and the run that it stands for.
//!
//! The code holds what a pipeline holds (`latches`): a bundle's results are forwarded to the bundles after it, and lie
//! in the memory stage's latch until they come into the file. `lone`, `begin`, `at_once`, `cycle`, `waiting` and
//! `still` carry out the cycles; `point` and `follow` find what stands in fetch and decode.
//!
//! [`worked_steps`], [`worked_flows`], [`worked_load`] and [`worked_ends`] show the definitions on small tasks,
//! computed by the checker. No call but [`PipeCore::new`] takes memory.
//!
//! What its words mean stands in [the glossary](../../../docs/GLOSSARY.md).
#![tactic(auto)]

mod advance;
mod at_once;
mod beat;
mod begin;
mod board;
mod cycle;
mod follow;
mod latches;
mod law;
mod lone;
mod pipe;
mod point;
mod still;
mod waiting;
mod worked;

pub use beat::Beat;
pub use law::only_core_is_the_machine;
pub use patmos_model::CoreState;
pub use pipe::PipeCore;
pub use worked::{worked_ends, worked_flows, worked_load, worked_steps};
