//! `tccode`: the compiled code of a job's C tasks.
//!
//! The program reads a job on standard input, as `tcrest bound` does, and writes the code of its C tasks on standard
//! output as assembly texts, with comments that tell what each consists of. All that it does stands in `tccode`, whose
//! contract says what is written and which status comes; `main` only makes the words and the real input and output.
//!
//! What its words mean stands in [the glossary](../../../docs/GLOSSARY.md).
#![tactic(auto)]

mod answers;
#[cfg(test)]
mod tests;
mod texts;
mod top;

use job_tasks::words_of;
use std::io;
use std::process::ExitCode;
use tc_io::{MEMORY, StdSink, StdSource};
use top::tccode;

fn main(rt: HostRuntime) -> ExitCode {
    let alloc = rt.alloc();
    let Ok(words) = words_of(alloc, &rt) else {
        return ExitCode::from(MEMORY);
    };
    let mut source = StdSource::new(rt.reader());
    let mut sink = StdSink::new(io::writer(&rt));
    ExitCode::from(tccode(alloc, words.as_slice(), &mut source, &mut sink))
}
