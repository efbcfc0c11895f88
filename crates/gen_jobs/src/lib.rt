//! The law of generated jobs. The crate has definitions and a law, and no code besides.
//!
//! For every number, the text that `job_gen` makes is a job, and `specs/Jobs.antt` says which one. Each of its tasks,
//! one on every core, is in C: the tokens of its text are a program, which is valid on that core
//! (`specs/Programs.antt`). That holds for all numbers, and not only for those with which the program was tried.
//!
//! What its words mean stands in [the glossary](../../../docs/GLOSSARY.md).
#![tactic(auto)]

mod laws;

pub use laws::generated_jobs_are_jobs;
