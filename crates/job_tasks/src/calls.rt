//! What a call of a program reads at most, and how it ends.
ghost use Rattle.std.specs.Prelude.{◌≡◌, ◌⊎◌};
ghost use Rattle.job_tasks.specs.Answer.{text_fault_number};
ghost use Rattle.job_tasks.specs.Outcome.{IsSent};

use std::alloc::{AllocError, Global};
use std::env;
use std::io::ErrorKind;
use tc_io::{Sink, WRITE_FAULT, write_all};
use tc_word::{OutOfMemory, Text};

/// How many bytes the text of a job or of a schedule has at most.
pub const MOST_BYTES: usize = 1_048_576;

/// What is wrong with a text before it is read as a job or a schedule.
#[derive(Clone, Copy, Debug, PartialEq, Eq)]
pub enum TextFault {
    /// It has more than [`MOST_BYTES`] bytes.
    TooLong,
}

impl TextFault {
    /// The fault's number, before those of any job.
    pub fn number(self) -> u32
        ensures { result ≡ text_fault_number self }
    {
        match self {
            TextFault::TooLong => 1,
        }
    }
}

/// Sends the text and answers its status, unless the sink fails.
pub fn finish<K: Sink>(sink: &mut K, status: u8, text: &[u8]) -> u8
    ensures sent { IsSent (record { status = status; text = text.now }) result
        (K.faults sink.old) (K.faults sink.new) (K.taken sink.old) (K.taken sink.new) }
    ensures status { (result ≡ status) ⊎ (result ≡ 6) }
{
    match write_all(sink, text) {
        Ok(()) => status,
        Err(_) => WRITE_FAULT,
    }
}

/// The words after the program's name. Where one of them is not text, there is the empty word alone, which no program
/// knows.
pub fn words_of(alloc: Global, rt: &HostRuntime) -> Result<Vec<Text>, OutOfMemory> {
    let mut words = Vec::new(alloc);
    let given = match env::args(rt) {
        Ok(given) => given,
        Err(error) if error.kind() == ErrorKind::OutOfMemory => return Err(AllocError),
        Err(_) => {
            words.push(Text::of(String::new(alloc)))?;
            return Ok(words);
        }
    };
    for word in given.skip(1) {
        words.push(Text::of(word))?;
    }
    Ok(words)
}
