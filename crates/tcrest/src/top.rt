ghost use Rattle.std.specs.Prelude.{◌≡◌, ℕ, ◌⊎◌, [], Ok, IfSome};
ghost use Rattle.gen_jobs.specs.Jobs.{job_with};
ghost use Rattle.tc_io.specs.Faults.{Rose};
ghost use Rattle.tc_job.specs.Job.{job_of};
ghost use Rattle.tcrest.specs.Answer as answers;
ghost use Rattle.tcrest.specs.Answer.{answer, command_answer, bytes_answer};
ghost use Rattle.tcrest.specs.Command as commands;
ghost use Rattle.tcrest.specs.Complete.{IsWhole};
ghost use Rattle.tcrest.specs.declared.command.Command.TheVariants.{Bench, Gen};
ghost use Rattle.tcrest.specs.Telling.{HasReport, TellsTasksOf};
ghost use Rattle.job_tasks.specs.Outcome.{Ends, IsAnswered, HasWritten};

use crate::answers::{text_answer, unread_answer};
use crate::command::{Command, command_of};
use job_tasks::{MOST_BYTES, READ_FAULT_LINE, TOO_LONG_LINE, finish};
use std::alloc::Global;
use std::sync::Wait;
use std::thread::Threads;
use tc_io::{Gate, MEMORY, READ_FAULT, ReadError, Sink, Source, read_all};
use tc_word::Text;

/// Does what the words ask for: reads the text from `source` where they are a command that reads one,
/// writes the answer to `sink`, and returns the status.
///
/// | status | meaning | written |
/// |---|---|---|
/// | 0 | the command did what it says | the report, the bounds, the listings, the meanings, the steps, the text of a generated job, or the bounds of a schedule |
/// | 1 | the words are no command | the usage line |
/// | 2 | the job or the schedule is refused | `job: ` or `grid: ` and the fault |
/// | 3 | a task was stopped, or has not ended by the limit | the report |
/// | 4 | a task is refused | `core C: ` and the fault, of the least such core |
/// | 5 | the source failed | `read fault` |
/// | 6 | the sink failed | a proper prefix of the text that would have come |
/// | 7 | memory was refused | nothing |
///
/// The runtime and the gate are for the workers of a machine with several cores.
pub fn tcrest<R: Threads + Wait + Sync, S: Source, K: Sink, G: Gate + Sync>(
    alloc: Global,
    rt: &R,
    words: &[Text],
    source: &mut S,
    sink: &mut K,
    gate: &G,
) -> u8
    // Where nothing failed, the answer is written, or memory was refused and nothing is.
    ensures answered { (Rose (S.faults source.old) (S.faults source.new) → ⊥)
        → (Rose (K.faults sink.old) (K.faults sink.new) → ⊥)
        → IfSome (S.left source.old) (λ bytes. IsAnswered (answer words.now bytes) result (K.taken sink.old)
        (K.taken sink.new)) }

    // Words that ask for no text leave the source alone, and are answered whatever it is.
    ensures unread { commands.ReadsNothing (commands.command_of words.now) → source.new ≡ source.old }
    ensures answered_unread { commands.ReadsNothing (commands.command_of words.now)
        → (Rose (K.faults sink.old) (K.faults sink.new) → ⊥)
        → IsAnswered (answer words.now []) result (K.taken sink.old) (K.taken sink.new) }

    // Of each C task its row in the report tells its times, its bound and what its text means: its transactions, its
    // end and its cycles depend on its text and its place alone, its end is at most its start and the bound that is reported,
    // it never traps, and once it is done its value, its flag and its words of `out` are what its text means in each
    // world that fits its loads; reported as `alone`, in the world of zeros. Under `bound` and `persist`, its end is at
    // most its start and each bound that is reported, and the persistent one is no more than the other.
    ensures programs { IfSome (S.left source.old) (λ bytes. HasReport result
        → TellsTasksOf (commands.command_of words.now) bytes) }
    ensures programs_unread { commands.ReadsNothing (commands.command_of words.now) → HasReport result
        → TellsTasksOf (commands.command_of words.now) [] }

    // `gen` writes a job. `bench` reports all of it, and each of its tasks is done: for every number its status is 0, but
    // where the sink failed or memory was refused.
    ensures generated { (n : ℕ) → commands.command_of words.now ≡ Gen n
        → job_of (answer words.now []).text ≡ Ok (job_with n) }
    ensures whole { (n : ℕ) → commands.command_of words.now ≡ Bench n → IsWhole (job_with n) (answer words.now []) }
    ensures done { (n : ℕ) → commands.command_of words.now ≡ Bench n
        → (result ≡ 0) ⊎ ((result ≡ 6) ⊎ (result ≡ 7)) }

    // What was written, whatever failed.
    ensures written { IfSome (S.left source.old) (λ bytes. HasWritten (answer words.now bytes)
        (Rose (S.faults source.old) (S.faults source.new)) result (K.taken sink.old) (K.taken sink.new)) }

    // What each fault of the outside rests on.
    ensures read_fault { result ≡ 5 → Rose (S.faults source.old) (S.faults source.new) }
    ensures write_fault { result ≡ 6 → Rose (K.faults sink.old) (K.faults sink.new) }
{
    perform(alloc, rt, command_of(words), source, sink, gate)
}

fn perform<R: Threads + Wait + Sync, S: Source, K: Sink, G: Gate + Sync>(
    alloc: Global,
    rt: &R,
    command: Command,
    source: &mut S,
    sink: &mut K,
    gate: &G,
) -> u8
    ensures ends { IfSome (S.left source.old) (λ bytes. Ends (command_answer command bytes)
        (Rose (S.faults source.old) (S.faults source.new)) result
        (K.faults sink.old) (K.faults sink.new) (K.taken sink.old) (K.taken sink.new)) }
    ensures unread { commands.ReadsNothing command → source.new ≡ source.old }
    ensures ends_unread { commands.ReadsNothing command → Ends (command_answer command []) ⊥ result
        (K.faults sink.old) (K.faults sink.new) (K.taken sink.old) (K.taken sink.new) }
    ensures reported { IfSome (S.left source.old) (λ bytes. HasReport result → TellsTasksOf command bytes) }
    ensures reported_unread { commands.ReadsNothing command → HasReport result → TellsTasksOf command [] }
    ensures read_fault { result ≡ 5 → Rose (S.faults source.old) (S.faults source.new) }
    ensures write_fault { result ≡ 6 → Rose (K.faults sink.old) (K.faults sink.new) }
{
    match command {
        Command::OfJob(_) | Command::Grid => answer_input(alloc, rt, command, source, sink, gate),
        Command::Gen { .. } | Command::Bench { .. } | Command::Usage => {
            answer_unread(alloc, rt, command, sink, gate)
        }
    }
}

/// Answers a command that reads: all bytes are read, and a text that is not too long is answered.
fn answer_input<R: Threads + Wait + Sync, S: Source, K: Sink, G: Gate + Sync>(
    alloc: Global,
    rt: &R,
    command: Command,
    source: &mut S,
    sink: &mut K,
    gate: &G,
) -> u8
    requires reads { commands.ReadsNothing command → ⊥ }
    ensures ends { IfSome (S.left source.old) (λ bytes. Ends (bytes_answer command bytes)
        (Rose (S.faults source.old) (S.faults source.new)) result
        (K.faults sink.old) (K.faults sink.new) (K.taken sink.old) (K.taken sink.new)) }
    ensures reported { IfSome (S.left source.old) (λ bytes. HasReport result → TellsTasksOf command bytes) }
    ensures read_fault { result ≡ 5 → Rose (S.faults source.old) (S.faults source.new) }
    ensures write_fault { result ≡ 6 → Rose (K.faults sink.old) (K.faults sink.new) }
{
    let bytes = match read_all(alloc, source, MOST_BYTES) {
        Ok(bytes) => bytes,
        Err(ReadError::ReadFault) => return finish(sink, READ_FAULT, READ_FAULT_LINE),
        Err(ReadError::TooLong) => return finish(sink, 2, TOO_LONG_LINE),
        Err(ReadError::Memory) => return MEMORY,
    };
    match text_answer(alloc, rt, command, bytes.as_slice(), gate) {
        Ok(answer) => finish(sink, answer.status, answer.text.as_slice()),
        Err(_) => MEMORY,
    }
}

/// Answers a command that reads nothing.
fn answer_unread<R: Threads + Wait + Sync, K: Sink, G: Gate + Sync>(
    alloc: Global,
    rt: &R,
    command: Command,
    sink: &mut K,
    gate: &G,
) -> u8
    requires unread { commands.ReadsNothing command }
    ensures ends { Ends (answers.unread_answer command) ⊥ result
        (K.faults sink.old) (K.faults sink.new) (K.taken sink.old) (K.taken sink.new) }
    ensures reported { HasReport result → TellsTasksOf command [] }
    ensures read_fault { result ≡ 5 → ⊥ }
    ensures write_fault { result ≡ 6 → Rose (K.faults sink.old) (K.faults sink.new) }
{
    match unread_answer(alloc, rt, command, gate) {
        Ok(answer) => finish(sink, answer.status, answer.text.as_slice()),
        Err(_) => MEMORY,
    }
}
