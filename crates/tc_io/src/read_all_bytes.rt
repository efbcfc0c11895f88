ghost use Rattle.std.specs.Prelude.{◌≡◌, ℕ, ◌<◌, ◌≤◌, List, length, vec_len, IfOk, OnOk, IfSome, IsErrOf, MatchResult};
ghost use Rattle.tc_io.specs.Faults.{Rose};
ghost use Rattle.tc_io.specs.ReadAll.{Explains, RefusesHonestly};
ghost use Rattle.tc_io.specs.Source.{Gave, IsSpent};

use crate::source::Source;
use std::alloc::Global;

/// Why not all bytes of a source could be had.
#[derive(Clone, Copy, Debug, PartialEq, Eq)]
pub enum ReadError {
    /// The source failed.
    ReadFault,
    /// More bytes came than the limit allows.
    TooLong,
    /// There was no memory for the bytes.
    Memory,
}

/// How many bytes are asked for at once.
const PIECE: usize = 4096;

/// All bytes of `source` up to its end, of which there may be `limit`. At a refusal the bytes that
/// came in this call are lost.
#[tactic(auto, using(crate::proofs::Reading::reading))]
pub fn read_all<S: Source>(
    alloc: Global,
    source: &mut S,
    limit: usize,
) -> Result<Vec<u8>, ReadError>
    ensures all { IfOk result (λ v. IfSome (S.left source.old) (λ bytes. v.items ≡ bytes)) }
    ensures within { IfOk result (λ v. vec_len v ≤ limit) }
    ensures spent { OnOk result (IsSpent (S.left source.new)) }

    // The bytes that came, and a refusal that fits them.
    ensures came { (came : List ℕ) × Gave (S.left source.old) (S.left source.new) came
        × MatchResult result (λ v. v.items ≡ came) (Explains limit came) }
    ensures too_long { IsErrOf result ReadError.TooLong → IfSome (S.left source.old) (λ bytes. limit < length bytes) }

    ensures later { S.faults source.old ≤ S.faults source.new }
    ensures fault { IsErrOf result ReadError.ReadFault → Rose (S.faults source.old) (S.faults source.new) }

    // Where no fault came, nothing else is left open but want of memory.
    ensures honest { (Rose (S.faults source.old) (S.faults source.new) → ⊥) → IfSome (S.left source.old)
        (λ bytes. MatchResult result (λ v. (v.items ≡ bytes) × (length bytes ≤ limit)) (RefusesHonestly limit bytes)) }
{
    let mut bytes = Vec::new(alloc);
    let mut buffer = [0u8; PIECE];
    'pieces: loop {
        let count = match source.read(&mut buffer) {
            Ok(count) => count,
            Err(_) => return Err(ReadError::ReadFault),
        };
        if count == 0 {
            return Ok(bytes);
        }
        if limit - bytes.len() < count {
            return Err(ReadError::TooLong);
        }
        let (piece, _) = buffer.split_at(count);
        if bytes.extend_from_slice(piece).is_err() {
            return Err(ReadError::Memory);
        }
    }
}
