ghost use Rattle.std.specs.Prelude.{◌≡◌, ◌≤◌, IfOk, length, map, option_map};
ghost use Rattle.toml.specs.View.{view};
ghost use Rattle.tc_job.specs.Input as specs;
ghost use Rattle.tc_toml.specs.Values.{Reads, each_of, given};

use local_store::INPUT_WORDS;
use std::alloc::Global;
use tc_toml::{JobFault, Refusal, integers_in};
use tc_word::List;
use toml::Value;

const INPUT: Refusal = Refusal::Fault(JobFault::Input);

/// The input of a value that may be left out.
pub fn input_of(alloc: Global, value: Option<&Value>) -> Result<List<u32>, Refusal>
    ensures words { Reads (λ words. words) result (specs.input_of (option_map (λ v. view v.now) value.entry)) }
    ensures most { IfOk result (λ words. length words ≤ INPUT_WORDS) }
{
    let Some(value) = value else {
        return Ok(List::of(Vec::new(alloc)));
    };
    let integers = integers_in(alloc, value)?;
    if integers.len() > INPUT_WORDS as usize {
        return Err(INPUT);
    }
    Ok(List::of(words_in(alloc, integers.as_slice())?))
}

/// The words of integers.
#[tactic(auto, using(tc_toml::proofs::Each::more_of, tc_toml::proofs::Each::none_of))]
fn words_in(alloc: Global, integers: &[i64]) -> Result<Vec<u32>, Refusal>
    ensures words { Reads (λ v. v.items) result (given JobFault.Input (each_of specs.word_of integers.now)) }
    ensures count { IfOk result (λ v. length v.items ≡ length integers.now) }
{
    let mut words = Vec::new(alloc);
    for integer in integers {
        let Some(word) = word_of(*integer) else {
            return Err(INPUT);
        };
        words.push(word)?;
    }
    Ok(words)
}

/// The word of an integer, signed or unsigned.
fn word_of(integer: i64) -> Option<u32>
    ensures { result ≡ specs.word_of integer }
{
    if let Ok(word) = u32::try_from(integer) {
        return Some(word);
    }
    match i32::try_from(integer) {
        Ok(word) => Some(word.cast_unsigned()),
        Err(_) => None,
    }
}
