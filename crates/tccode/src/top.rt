ghost use Rattle.std.specs.Prelude.{◌≡◌, ◌≢◌, [], IfSome};
ghost use Rattle.tc_io.specs.Faults.{Rose};
ghost use Rattle.job_tasks.specs.Outcome.{Ends, HasWritten, IsAnswered};
ghost use Rattle.tccode.specs.Answer.{answer, bytes_answer, usage};
ghost use Rattle.tccode.specs.Codes.{TellsJob};

use crate::answers::{text_answer, usage_answer};
use job_tasks::{MOST_BYTES, READ_FAULT_LINE, TOO_LONG_LINE, finish};
use std::alloc::Global;
use tc_io::{MEMORY, READ_FAULT, ReadError, Sink, Source, read_all};
use tc_word::Text;

/// Reads a job from `source`, writes the code of its C tasks to `sink`, core after core, and returns the status.
///
/// | status | meaning | written |
/// |---|---|---|
/// | 0 | each task is made | the code of each C task |
/// | 1 | there are words | the usage line, and nothing is read |
/// | 2 | the job is refused | `job: ` and the fault |
/// | 4 | a task is refused | `core C: ` and the fault, of the least such core |
/// | 5 | the source failed | `read fault` |
/// | 6 | the sink failed | a proper prefix of the text that would have come |
/// | 7 | memory was refused | nothing |
///
/// The refusals are those of `tcrest bound`, in its order.
pub fn tccode<S: Source, K: Sink>(alloc: Global, words: &[Text], source: &mut S, sink: &mut K) -> u8
    // Where nothing failed, the answer is written, or memory was refused and nothing is.
    ensures answered { (Rose (S.faults source.old) (S.faults source.new) → ⊥)
        → (Rose (K.faults sink.old) (K.faults sink.new) → ⊥)
        → IfSome (S.left source.old) (λ bytes. IsAnswered (answer words.now bytes) result (K.taken sink.old)
        (K.taken sink.new)) }

    // Words leave the source alone.
    ensures unread { words.now ≢ [] → source.new ≡ source.old }

    // The text of each C task assembles to the words of its image and the words at which its functions start, and the
    // bundles and transactions that it tells add up to the bound that `tcrest bound` prints.
    ensures code { words.now ≡ [] → result ≡ 0 → IfSome (S.left source.old) TellsJob }

    // What was written, whatever failed.
    ensures written { IfSome (S.left source.old) (λ bytes. HasWritten (answer words.now bytes)
        (Rose (S.faults source.old) (S.faults source.new)) result (K.taken sink.old) (K.taken sink.new)) }

    // What each fault of the outside rests on.
    ensures read_fault { result ≡ 5 → Rose (S.faults source.old) (S.faults source.new) }
    ensures write_fault { result ≡ 6 → Rose (K.faults sink.old) (K.faults sink.new) }
{
    if words.is_empty() {
        answer_input(alloc, source, sink)
    } else {
        answer_words(alloc, sink)
    }
}

// answers a job: all bytes are read, and a text that is not too long is answered
fn answer_input<S: Source, K: Sink>(alloc: Global, source: &mut S, sink: &mut K) -> u8
    ensures ends { IfSome (S.left source.old) (λ bytes. Ends (bytes_answer bytes)
        (Rose (S.faults source.old) (S.faults source.new)) result
        (K.faults sink.old) (K.faults sink.new) (K.taken sink.old) (K.taken sink.new)) }
    ensures code { result ≡ 0 → IfSome (S.left source.old) TellsJob }
    ensures read_fault { result ≡ 5 → Rose (S.faults source.old) (S.faults source.new) }
    ensures write_fault { result ≡ 6 → Rose (K.faults sink.old) (K.faults sink.new) }
{
    let bytes = match read_all(alloc, source, MOST_BYTES) {
        Ok(bytes) => bytes,
        Err(ReadError::ReadFault) => return finish(sink, READ_FAULT, READ_FAULT_LINE),
        Err(ReadError::TooLong) => return finish(sink, 2, TOO_LONG_LINE),
        Err(ReadError::Memory) => return MEMORY,
    };
    match text_answer(alloc, bytes.as_slice()) {
        Ok(answer) => finish(sink, answer.status, answer.text.as_slice()),
        Err(_) => MEMORY,
    }
}

// answers words
fn answer_words<K: Sink>(alloc: Global, sink: &mut K) -> u8
    ensures ends { Ends usage ⊥ result
        (K.faults sink.old) (K.faults sink.new) (K.taken sink.old) (K.taken sink.new) }
    ensures nonzero { result ≡ 0 → ⊥ }
    ensures read_fault { result ≡ 5 → ⊥ }
    ensures write_fault { result ≡ 6 → Rose (K.faults sink.old) (K.faults sink.new) }
{
    match usage_answer(alloc) {
        Ok(answer) => finish(sink, answer.status, answer.text.as_slice()),
        Err(_) => MEMORY,
    }
}
