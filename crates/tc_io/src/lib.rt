//! What a T-CREST run reads and writes: bytes come from a [`Source`], go to a [`Sink`], and a
//! [`Gate`] stands where a test may hold a worker.
//!
//! A source may tell which bytes it has left, and a sink which it has taken. Both keep a count of
//! their faults that never falls, and answer [`Failed`] only where that count rose. Over these
//! promises [`read_all`] gives all bytes up to the end, and [`write_all`] hands on exactly its
//! bytes or says how many of them went out.
//!
//! [`Bytes`], [`SureBytes`], [`Gather`] and [`SureGather`] are sources and sinks in memory;
//! [`StdSource`] and [`StdSink`] are the edge to the real world, which no proof sees past.
//!
//! [`put`], [`put_with`] and the like append to a text. [`statuses`] has the numbers with which a program ends.
//!
//! What its words mean stands in [the glossary](../../../docs/GLOSSARY.md).
#![tactic(auto)]

mod edge;
mod failing_bytes;
mod failing_gather;
mod fault_plan;
mod gate;
mod read_all_bytes;
mod sink;
mod source;
mod status;
mod sure_bytes;
mod sure_gather;
mod text;
mod write_all_bytes;

pub use edge::{StdSink, StdSource};
pub use failing_bytes::Bytes;
pub use failing_gather::Gather;
pub use gate::{FreeGate, Gate};
pub use read_all_bytes::{ReadError, read_all};
pub use sink::Sink;
pub use source::{Failed, Source};
pub use status::{
    DONE, FAULTY_TEXT, MEMORY, NO_COMMAND, READ_FAULT, TASK_EARLY, TASK_REFUSED, WRITE_FAULT,
    statuses,
};
pub use sure_bytes::SureBytes;
pub use sure_gather::SureGather;
pub use text::{put, put_decimal, put_hex8, put_number, put_with};
pub use write_all_bytes::{Stopped, write_all};
