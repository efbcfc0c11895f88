ghost use Rattle.std.specs.Prelude.{◌≡◌, IfOk};
ghost use Rattle.patmos_model.specs.Site.{bundle_words};
ghost use Rattle.patmos_step.specs.Code.{IsCodeOf, is_silent, branch_of};
ghost use Rattle.patmos_step.specs.Code as specs;

use patmos_code::decode;
use patmos_instr::{Bundle, Guard, Op};
use std::alloc::Global;
use tc_word::OutOfMemory;

/// Bit 31 of a bundle's first word says that there is a second.
const TWO_WORDS: u32 = 0x8000_0000;

/// What begins at a word of code: how many words it has as a bundle, which bundle they stand for, if any, and how
/// a core can do it.
#[derive(Clone, Copy, Debug, PartialEq, Eq)]
pub struct Decoded {
    pub words: u32,
    pub bundle: Option<Bundle>,
    pub class: Class,
}

/// How a core can do a bundle, as far as the bundle itself tells.
#[derive(Clone, Copy, Debug, PartialEq, Eq)]
pub enum Class {
    /// At once: it asks for nothing.
    Silent,
    /// At once: a branch alone, which goes on by so many words where its guard is true, and writes nothing.
    Branch { guard: Guard, by: i32 },
    /// In the way of what it asks for; or it is no bundle.
    Other,
}

/// What begins at each of the words of an image, decoded once.
pub fn decode_all(alloc: Global, words: &[u32]) -> Result<Vec<Decoded>, OutOfMemory>
    ensures { IfOk result (λ code. IsCodeOf words.now code.items) }
{
    let mut code = Vec::with_capacity(alloc, words.len())?;
    for at in 0..words.len() {
        let first = words[at];
        let second = words.get(at + 1).copied().unwrap_or(0);
        let bundle: Option<Bundle> = decode(first, second);
        code.push_reserved(Decoded {
            words: bundle_words(first),
            bundle,
            class: class_of(&bundle),
        });
    }
    Ok(code)
}

// the class of what stands there
#[tactic(auto, unfolding(crate::specs::Code::class_of))]
fn class_of(bundle: &Option<Bundle>) -> Class
    ensures { result ≡ specs.class_of bundle.now }
{
    match bundle {
        Some(bundle) => class_in(bundle),
        None => Class::Other,
    }
}

// the class of a bundle
fn class_in(bundle: &Bundle) -> Class
    ensures { result ≡ specs.class_in bundle.now }
{
    let first = bundle.first();
    if is_silent(&first.op) {
        return Class::Silent;
    }
    match (bundle.second(), branch_of(&first.op)) {
        (None, Some(by)) => Class::Branch {
            guard: first.guard,
            by,
        },
        (None, None) | (Some(_), _) => Class::Other,
    }
}

// whether an operation asks for nothing, whatever the registers hold
fn is_silent(op: &Op) -> bool
    ensures { result ≡ is_silent op.now }
{
    matches!(
        op,
        Op::AluImm { .. }
            | Op::AluReg { .. }
            | Op::AluLong { .. }
            | Op::Mul { .. }
            | Op::Cmp { .. }
            | Op::CmpImm { .. }
            | Op::Comb { .. }
            | Op::ToSpecial { .. }
            | Op::FromSpecial { .. }
    )
}

// by how many words a branch goes on, if an operation is one
fn branch_of(op: &Op) -> Option<i32>
    ensures { result ≡ branch_of op.now }
{
    match *op {
        Op::Branch { offset } => Some(offset.number()),
        _ => None,
    }
}

// how many words a bundle has that begins with this one
fn bundle_words(first: u32) -> u32
    ensures { result ≡ bundle_words first }
{
    if first < TWO_WORDS { 1 } else { 2 }
}
