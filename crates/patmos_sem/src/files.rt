ghost use Rattle.std.specs.Prelude.{◌≡◌, ◌<◌, ◌≤◌, true, false, [], ◌∷◌, slice_index, slice_index_or};
ghost use Rattle.patmos_instr.specs.declared.specials.WritableSpecial.TheVariants as special;
ghost use Rattle.patmos_sem.specs.declared.writes.Write.TheVariants as write;
ghost use Rattle.patmos_sem.specs.Registers.{flag, preds_number};
ghost use Rattle.patmos_sem.specs.Writes.{renewed, register_after, pred_after};

use crate::operations::bit;
use patmos_instr::{Pred, Reg};

// The two files of registers.

// writes a general register; r0 stays 0
pub fn put_register(general: &mut [u32; 32], rd: Reg, value: u32)
    requires { slice_index general.old 0 ≡ 0 }
    ensures { general.new ≡ renewed (register_after (write.Register rd value ∷ [])) general.old }
{
    if rd.number() != 0 {
        general[rd.number() as usize] = value;
    }
}

// writes a predicate; p0 stays true
pub fn put_pred(preds: &mut [bool; 8], pd: Pred, value: bool)
    requires { slice_index_or preds.old 0 false ≡ true }
    ensures { preds.new ≡ renewed (pred_after (write.Predicate pd value ∷ [])) preds.old }
{
    if pd.number() != 0 {
        preds[pd.number() as usize] = value;
    }
}

// writes s0: each predicate but p0 gets its bit of the word
#[tactic(auto, using(crate::proofs::Told::s0_bits))]
pub fn put_preds(preds: &mut [bool; 8], word: u32)
    ensures { preds.new ≡ renewed (pred_after (write.Special special.S0 word ∷ [])) preds.old }
{
    *preds = [
        true,
        bit(word, 1),
        bit(word, 2),
        bit(word, 3),
        bit(word, 4),
        bit(word, 5),
        bit(word, 6),
        bit(word, 7),
    ];
}

// s0: the predicates as eight bits
pub fn preds_number(preds: &[bool; 8]) -> u32
    ensures { result ≡ preds_number preds.now }
{
    flag(preds, 0)
        + flag(preds, 1) * 2
        + flag(preds, 2) * 4
        + flag(preds, 3) * 8
        + flag(preds, 4) * 16
        + flag(preds, 5) * 32
        + flag(preds, 6) * 64
        + flag(preds, 7) * 128
}

// a predicate as a bit
fn flag(preds: &[bool; 8], p: usize) -> u32
    requires { p < 8 }
    ensures value { result ≡ flag preds.now p }
    ensures range { result ≤ 1 }
{
    u32::from(preds[p])
}
