//! The law that generated jobs end. The crate has a definition and a law, and no code besides.
//!
//! For every number, each of the four C tasks of the job that `job_gen` makes has a bound on its core that is less than
//! the cycles of the job (`specs/Ends.antt`). So each task has code, and is done before the limit: `bench` reports it so.
//! The numbers that a job is made of stand in its texts as constants; weights, iterations and calls are the same
//! for all of them, and the bound by these (`weight_bounds`) is below 14,200,000.
//!
//! What its words mean stands in [the glossary](../../../docs/GLOSSARY.md).
#![tactic(auto)]

mod laws;

pub use laws::generated_jobs_end;
