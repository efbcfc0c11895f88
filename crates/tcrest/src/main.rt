//! `tcrest`: a T-CREST multicore, emulated.
//!
//! The program reads a job on standard input, as its words say, and writes its report on standard
//! output. All that it does stands in `tcrest`, whose contract says what is written and which status
//! comes; `main` only makes the words, the real input and output, and the gate that holds nobody.
//!
//! What its words mean stands in [the glossary](../../../docs/GLOSSARY.md).
#![tactic(auto)]

mod answers;
mod bounds;
mod command;
mod laws;
mod listing;
mod meanings;
mod pipe;
#[cfg(test)]
mod test_jobs;
#[cfg(test)]
mod tests;
#[cfg(test)]
mod thread_tests;
mod top;

use job_tasks::words_of;
use std::io;
use std::process::ExitCode;
use tc_io::{FreeGate, MEMORY, StdSink, StdSource};
use top::tcrest;

fn main(rt: HostRuntime) -> ExitCode {
    let alloc = rt.alloc();
    let Ok(words) = words_of(alloc, &rt) else {
        return ExitCode::from(MEMORY);
    };
    let mut source = StdSource::new(rt.reader());
    let mut sink = StdSink::new(io::writer(&rt));
    let status = tcrest(
        alloc,
        &rt,
        words.as_slice(),
        &mut source,
        &mut sink,
        &FreeGate,
    );
    ExitCode::from(status)
}
