ghost use Rattle.std.specs.Prelude.{◌≡◌, ◌<◌, ◌≤◌, [], length, take, IfErr, OnErr, MatchResult};
ghost use Rattle.tc_io.specs.Faults.{Rose};
ghost use Rattle.tc_io.specs.Sink.{Took};

use crate::sink::Sink;

/// A sink failed before all bytes went out: exactly the first `written` of them did.
#[derive(Clone, Copy, Debug, PartialEq, Eq)]
pub struct Stopped {
    pub written: usize,
}

/// Hands all of `bytes` to `sink`, which is never called with an empty piece.
#[tactic(auto, using(crate::proofs::Writing::writing))]
pub fn write_all<K: Sink>(sink: &mut K, bytes: &[u8]) -> Result<(), Stopped>
    ensures took { MatchResult result (λ _. Took (K.taken sink.old) (K.taken sink.new) bytes.now)
        (λ stopped. Took (K.taken sink.old) (K.taken sink.new) (take stopped.written bytes.now)) }
    ensures fewer { IfErr result (λ stopped. stopped.written < length bytes.now) }
    ensures later { K.faults sink.old ≤ K.faults sink.new }
    ensures fault { OnErr result (Rose (K.faults sink.old) (K.faults sink.new)) }
    ensures untouched { bytes.now ≡ [] → sink.new ≡ sink.old }
{
    let mut written = 0;
    while written < bytes.len() {
        let (_, rest) = bytes.split_at(written);
        match sink.write(rest) {
            Ok(count) => written += count,
            Err(_) => return Err(Stopped { written }),
        }
    }
    Ok(())
}
