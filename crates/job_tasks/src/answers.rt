//! Answers that do not depend on what is asked.
ghost use Rattle.std.specs.Prelude.{◌≡◌, IfOk};
ghost use Rattle.job_tasks.specs.Answer as specs;

use std::alloc::Global;
use tc_io::{DONE, FAULTY_TEXT};
use tc_toml::{JobFault, put_fault};
use tc_word::{List, OutOfMemory};

/// A status and the text that is written with it.
#[derive(Debug, Drop)]
pub struct Answer {
    pub status: u8,
    pub text: List<u8>,
}

/// The line on a source that failed.
pub const READ_FAULT_LINE: &[u8] = b"read fault\n";

/// The line on a text that is too long.
pub const TOO_LONG_LINE: &[u8] = b"job: TooLong\n";

/// The answer to bytes that are no job.
pub fn no_job(
    alloc: Global,
    kind: JobFault,
    task: Option<u32>,
    key: &str,
) -> Result<Answer, OutOfMemory>
    ensures { IfOk result (λ answer. answer ≡ specs.no_job (record { kind = kind; task = task; key = key.now })) }
{
    let mut text = Vec::new(alloc);
    put_fault(&mut text, kind, task, key)?;
    text.extend_from_slice(b"\n")?;
    let text = List::of(text);
    Ok(Answer {
        status: FAULTY_TEXT,
        text,
    })
}

/// A whole text.
pub fn whole(text: Vec<u8>) -> Answer
    ensures { result ≡ specs.whole text.items }
{
    Answer {
        status: DONE,
        text: List::of(text),
    }
}
