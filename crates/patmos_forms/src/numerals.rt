ghost use Rattle.std.specs.Prelude.{◌≡◌, ◌^◌, ◌<◌, IfOk};
ghost use Rattle.patmos_forms.specs.Readers as specs;
ghost use Rattle.patmos_forms.specs.Forms.{below};

use crate::faults::AsmKind;
use crate::readers::{PAST_WORDS, Radix};
use std::marker::Model;

/// A number as it is written. A contract sees the number that the digits write, however many they are.
#[derive(Drop)]
pub struct Numeral<'a> {
    radix: Radix,
    digits: &'a [u8],
    // the number, or 2^32 where it is larger
    cut: u64,
}

impl<'a> Model for Numeral<'a> {
    ghost use Rattle.std.specs.Prelude.{ℕ, ◌≡◌, ◌^◌, min, Some, unwrap_or};
    ghost use Rattle.std.specs.Option.{option_map};
    ghost use Rattle.std.specs.Coded.{coded_ℕ};
    ghost use Rattle.patmos_forms.specs.Readers.{value_of};

    ghost Value = { ℕ };

    ghost coded = { coded_ℕ };

    ghost view = { λ n. unwrap_or (value_of n.radix n.digits.now) 0 };

    ghost invariant = { λ n. option_map (min (2 ^ 32)) (value_of n.radix n.digits.now) ≡ Some n.cut };
}

impl<'a> Numeral<'a> {
    // the number that the digits write; there is none without a digit
    #[tactic(auto, using(crate::proofs::Numbers::number_known))]
    fn of(radix: Radix, digits: &'a [u8]) -> Option<Numeral<'a>>
        ensures { result ≡ specs.value_of radix digits.now }
    {
        let cut = radix.value_of(digits)?;
        Some(Numeral { radix, digits, cut })
    }

    /// The number 0.
    pub fn zero() -> Numeral<'a>
        ensures { result ≡ 0 }
    {
        Numeral {
            radix: Radix::Decimal,
            digits: b"0",
            cut: 0,
        }
    }

    /// The number, where it is below the limit.
    #[tactic(auto, using(crate::proofs::Numbers::below_fits, crate::proofs::Numbers::below_passes))]
    pub fn below(&self, limit: u32) -> Result<u32, AsmKind>
        ensures value { result ≡ below limit self.now }
        ensures small { IfOk result (λ n. n < limit) }
    {
        if self.cut < u64::from(limit) {
            Ok(self.cut as u32)
        } else {
            Err(AsmKind::Range)
        }
    }

    /// The number, where it is a word.
    #[tactic(auto, using(crate::proofs::Numbers::below_fits, crate::proofs::Numbers::below_passes))]
    pub fn word(&self) -> Result<u32, AsmKind>
        ensures { result ≡ below (2 ^ 32) self.now }
    {
        if self.cut < PAST_WORDS {
            Ok(self.cut as u32)
        } else {
            Err(AsmKind::Range)
        }
    }
}

/// The number that the word writes: decimal digits, or `0x` and hexadecimal ones.
pub fn written_number(word: &[u8]) -> Option<Numeral<'_>>
    ensures { result ≡ specs.written_number word.now }
{
    match word {
        [b'0', b'x', digits @ ..] => Numeral::of(Radix::Hexadecimal, digits),
        digits => Numeral::of(Radix::Decimal, digits),
    }
}

/// The number after the letter of a register (`r`) or of a predicate (`p`).
pub fn numbered(letter: u8, word: &[u8]) -> Option<Numeral<'_>>
    ensures { result ≡ specs.numbered letter word.now }
{
    match word {
        [first, digits @ ..] if *first == letter => written_number(digits),
        _ => None,
    }
}
