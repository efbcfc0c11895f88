ghost use Rattle.std.specs.Prelude.{◌≡◌, ◌++◌, OnErr, OnOk, IfOk};
ghost use Rattle.tc_toml.specs.declared.fault.JobError.TheVariants as errors;
ghost use Rattle.tc_toml.specs.declared.fault.Refusal.TheVariants as refusals;
ghost use Rattle.tc_toml.specs.Fault.{fault_text, name_of, number_of, place_of};

use std::alloc::{AllocFailed, Global};
use tc_io::put_decimal;
use tc_word::{OutOfMemory, Text};

/// What is wrong with a text that is no job.
#[derive(Clone, Copy, Debug, PartialEq, Eq)]
pub enum JobFault {
    /// The bytes are no TOML.
    Toml,
    /// The key is none of those that may stand there.
    Key,
    /// The key is not there.
    Missing,
    /// The value is of the wrong type.
    Kind,
    /// The value is none of those that the key may have.
    Range,
    /// An earlier task runs on this core.
    CoreTwice,
    /// The input has more than [`local_store::INPUT_WORDS`] values, or one that is no word.
    Input,
}

/// Why no job was read.
#[derive(Debug, Drop)]
pub enum JobError {
    /// The first fault of the text: what it is, in which task, counted from 0, or at the top level, and
    /// at which key.
    Fault {
        kind: JobFault,
        task: Option<u32>,
        key: Text,
    },
    /// There was no memory.
    Memory,
}

/// Why a value is not what its key asks for.
#[derive(Clone, Copy)]
pub enum Refusal {
    Fault(JobFault),
    Memory,
}

/// Appends the line in which a fault is reported, without its end.
pub fn put_fault(
    text: &mut Vec<u8>,
    kind: JobFault,
    task: Option<u32>,
    key: &str,
) -> Result<(), OutOfMemory>
    ensures appended { OnOk result (text.new.items ≡ text.old.items ++ fault_text kind task key.now) }
    ensures unchanged { OnErr result (text.new.items ≡ text.old.items) }
{
    let line = fault_line(*text.allocator(), kind, task, key)?;
    text.extend_from_slice(line.as_slice())
}

fn fault_line(
    alloc: Global,
    kind: JobFault,
    task: Option<u32>,
    key: &str,
) -> Result<Vec<u8>, OutOfMemory>
    ensures { IfOk result (λ line. line.items ≡ fault_text kind task key.now) }
{
    let mut line = Vec::new(alloc);
    if kind == JobFault::Toml {
        line.extend_from_slice(b"job: Toml")?;
        return Ok(line);
    }
    line.extend_from_slice(b"job: ")?;
    line.extend_from_slice(kind.name().as_bytes())?;
    put_place(&mut line, task)?;
    line.extend_from_slice(b" ")?;
    line.extend_from_slice(key.as_bytes())?;
    Ok(line)
}

/// Appends where a key stands.
fn put_place(line: &mut Vec<u8>, task: Option<u32>) -> Result<(), OutOfMemory>
    ensures { OnOk result (line.new.items ≡ line.old.items ++ place_of task) }
{
    if let Some(task) = task {
        line.extend_from_slice(b" task ")?;
        put_decimal(line, i64::from(task))?;
    }
    Ok(())
}

impl From<OutOfMemory> for JobError {
    ghost from_gives = { λ _ e. e ≡ errors.Memory };

    fn from(_refused: OutOfMemory) -> JobError {
        JobError::Memory
    }
}

impl<T: Drop> From<AllocFailed<T>> for JobError {
    ghost from_gives = { λ _ e. e ≡ errors.Memory };

    fn from(_refused: AllocFailed<T>) -> JobError {
        JobError::Memory
    }
}

impl From<OutOfMemory> for Refusal {
    ghost from_gives = { λ _ e. e ≡ refusals.Memory };

    fn from(_refused: OutOfMemory) -> Refusal {
        Refusal::Memory
    }
}

impl<T: Drop> From<AllocFailed<T>> for Refusal {
    ghost from_gives = { λ _ e. e ≡ refusals.Memory };

    fn from(_refused: AllocFailed<T>) -> Refusal {
        Refusal::Memory
    }
}

impl JobFault {
    /// The number of the fault, from 2: 1 is that of a text that is too long to be read.
    pub fn number(self) -> u32
        ensures { result ≡ number_of self }
    {
        match self {
            JobFault::Toml => 2,
            JobFault::Key => 3,
            JobFault::Missing => 4,
            JobFault::Kind => 5,
            JobFault::Range => 6,
            JobFault::CoreTwice => 7,
            JobFault::Input => 8,
        }
    }

    fn name(self) -> &'static str
        ensures { result.now ≡ name_of self }
    {
        match self {
            JobFault::Toml => "Toml",
            JobFault::Key => "Key",
            JobFault::Missing => "Missing",
            JobFault::Kind => "Kind",
            JobFault::Range => "Range",
            JobFault::CoreTwice => "CoreTwice",
            JobFault::Input => "Input",
        }
    }
}
