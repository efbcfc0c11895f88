ghost use Rattle.std.specs.Prelude.{◌≡◌, ◌<◌, ◌≤◌, IfSome, IfOk, MatchResult, length, map, None, IsTrue};
ghost use Rattle.patmos_forms.specs.Readers.{is_name};
ghost use Rattle.std.specs.Option.{option_map};
ghost use Rattle.patmos_forms.specs.Gives.{Gives};
ghost use Rattle.patmos_syntax.specs.Shown.{shown_draft, shown_instr, shown_bundle};
ghost use Rattle.patmos_syntax.specs.Drafts as specs;

use crate::draft_types::{Draft, DraftBundle, DraftInstr, Jump};
use patmos_forms::{
    AsmKind, Form, JumpKind, Refused, at_end, guard_at, guard_of, is_name, op_in, sign_at, word_at,
};
use patmos_instr::{Bundle, Instr};
use std::alloc::{AllocError, Global};
use tc_word::OutOfMemory;

// what stands before the first such byte, and what stands after it, where there is one
fn cut_at(sign: u8, text: &[u8]) -> (&[u8], Option<&[u8]>)
    ensures cut { (result.0.now, option_map (λ rest. rest.now) result.1) ≡ specs.cut_at sign text.now }
    ensures shorter { IfSome result.1 (λ rest. length rest.now < length text.now) }
{
    for (i, byte) in text.iter().enumerate() {
        if *byte == sign {
            let (prefix, _) = text.split_at(i);
            let (_, rest) = text.split_at(i + 1);
            return (prefix, Some(rest));
        }
    }
    (text, None)
}

/// A name, after which nothing is left.
pub fn name_in(text: &[u8]) -> Option<&[u8]>
    ensures value { option_map (λ name. name.now) result ≡ specs.name_in text.now }
    ensures name { IfSome result (λ name. IsTrue (is_name name.now)) }
{
    let (word, rest) = word_at(text);
    if is_name(word) && at_end(rest) {
        Some(word)
    } else {
        None
    }
}

// what stands after a mnemonic
#[tactic(auto, unfolding(crate::specs::Drafts::draft_in))]
fn draft_in(alloc: Global, word: &[u8], text: &[u8]) -> Result<Draft, Refused>
    ensures { Gives shown_draft result (specs.draft_in word.now text.now) }
{
    if let Some(flow) = JumpKind::of_mnemonic(word) {
        let name = name_in(text).ok_or(AsmKind::Operand)?;
        let name = Vec::from_slice(alloc, name)?;
        return Ok(Draft::To { flow, name });
    }
    let form = Form::of_mnemonic(word).ok_or(AsmKind::Mnemonic)?;
    let op = op_in(form, text)?;
    Ok(Draft::Ready { op })
}

// an instruction: a guard or none, a mnemonic, and its operands
#[tactic(auto, unfolding(crate::specs::Drafts::instr_of))]
fn instr_of(alloc: Global, text: &[u8]) -> Result<DraftInstr, Refused>
    ensures { Gives shown_instr result (specs.instr_of text.now) }
{
    let Some((negated, pred, rest)) = guard_at(text) else {
        return Err(Refused::Fault(AsmKind::Mnemonic));
    };
    let (word, rest) = word_at(rest);
    let draft = draft_in(alloc, word, rest)?;
    let guard = guard_of(negated, pred)?;
    Ok(DraftInstr { guard, draft })
}

// the bundle of one instruction
fn alone(instr: DraftInstr) -> DraftBundle
    ensures { shown_bundle result ≡ record { first = shown_instr instr; second = None } }
{
    let DraftInstr { guard, draft } = instr;
    match draft {
        Draft::Ready { op } => DraftBundle::Ready {
            bundle: Bundle::single(Instr { guard, op }),
        },
        Draft::To { flow, name } => DraftBundle::Waiting {
            jump: Jump {
                guard,
                flow,
                name,
                beside: None,
            },
        },
    }
}

// what stands in the second slot, where it is no jump
fn second_of(instr: &DraftInstr) -> Result<Instr, AsmKind>
    ensures { result ≡ specs.second_of (shown_instr instr.now) }
{
    match &instr.draft {
        Draft::Ready { op } => Ok(Instr {
            guard: instr.guard,
            op: *op,
        }),
        Draft::To { .. } => Err(AsmKind::Slot),
    }
}

// the pair of two instructions, where they are a legal one
fn pair_of(first: DraftInstr, second: DraftInstr) -> Result<DraftBundle, AsmKind>
    ensures { MatchResult result (λ b. specs.pair_of (shown_instr first) (shown_instr second) ≡ Ok (shown_bundle b))
        (λ fault. specs.pair_of (shown_instr first) (shown_instr second) ≡ Err fault) }
{
    let second = second_of(&second)?;
    let DraftInstr { guard, draft } = first;
    match draft {
        Draft::Ready { op } => match Bundle::pair(Instr { guard, op }, second) {
            Ok(bundle) => Ok(DraftBundle::Ready { bundle }),
            Err(_) => Err(AsmKind::Slot),
        },
        Draft::To { flow, name } => {
            if !second.op.is_second_kind() {
                return Err(AsmKind::Slot);
            }
            let beside = Some(second);
            Ok(DraftBundle::Waiting {
                jump: Jump {
                    guard,
                    flow,
                    name,
                    beside,
                },
            })
        }
    }
}

// the fault that is reported of this one and those of the parts of a text
#[tactic(auto, using(crate::proofs::Parts::parts_cut))]
fn least_of(alloc: Global, fault: AsmKind, text: &[u8]) -> Result<AsmKind, OutOfMemory>
    ensures { IfOk result (λ reported. reported ≡ specs.least_of fault (map specs.instr_of (specs.parts_of text.now))) }
{
    let mut reported = fault;
    let mut unread = Some(text);
    while let Some(rest) = unread {
        let (part, behind) = cut_at(b';', rest);
        match instr_of(alloc, part) {
            Ok(_) => {}
            Err(Refused::Fault(other)) => reported = reported.least(other),
            Err(Refused::Memory) => return Err(AllocError),
        }
        unread = behind;
    }
    Ok(reported)
}

// the two parts of a text, where there are exactly two
#[tactic(auto, using(crate::proofs::Parts::one_part, crate::proofs::Parts::just_two_parts, crate::proofs::Parts::more_parts))]
fn two_parts(text: &[u8]) -> Option<(&[u8], &[u8])>
    ensures { option_map (λ x. (x.0.now, x.1.now)) result ≡ specs.two_parts (specs.parts_of text.now) }
{
    let (one, behind) = cut_at(b';', text);
    let rest = behind?;
    let (two, more) = cut_at(b';', rest);
    match more {
        Some(_third) => None,
        None => Some((one, two)),
    }
}

// what stands after an opening brace: two instructions, and the closing brace
#[tactic(auto, unfolding(crate::specs::Drafts::braces_of))]
fn braces_of(alloc: Global, text: &[u8]) -> Result<DraftBundle, Refused>
    ensures { Gives shown_bundle result (specs.braces_of text.now) }
{
    let (inside, behind) = cut_at(b'}', text);
    if !is_closed(behind) {
        let reported = least_of(alloc, AsmKind::Operand, inside)?;
        return Err(Refused::Fault(reported));
    }
    match two_parts(inside) {
        Some((one, two)) => both_of(alloc, one, two),
        None => {
            let reported = least_of(alloc, AsmKind::Operand, inside)?;
            Err(Refused::Fault(reported))
        }
    }
}

// whether nothing stands after the closing brace
fn is_closed(behind: Option<&[u8]>) -> bool
    ensures { result ≡ specs.is_closed (option_map (λ rest. rest.now) behind.entry) }
{
    match behind {
        Some(rest) => at_end(rest),
        None => false,
    }
}

// the bundle of the instructions in two texts
fn both_of(alloc: Global, one: &[u8], two: &[u8]) -> Result<DraftBundle, Refused>
    ensures { Gives shown_bundle result (specs.both_of (specs.instr_of one.now) (specs.instr_of two.now)) }
{
    match (instr_of(alloc, one), instr_of(alloc, two)) {
        (Ok(first), Ok(second)) => Ok(pair_of(first, second)?),
        (Err(Refused::Memory), _) | (_, Err(Refused::Memory)) => Err(Refused::Memory),
        (Err(Refused::Fault(fault)), Err(Refused::Fault(other))) => {
            Err(Refused::Fault(AsmKind::Slot.least(fault).least(other)))
        }
        (Err(Refused::Fault(fault)), Ok(_)) | (Ok(_), Err(Refused::Fault(fault))) => {
            Err(Refused::Fault(AsmKind::Slot.least(fault)))
        }
    }
}

/// A bundle: two instructions in braces, or one.
#[tactic(auto, unfolding(crate::specs::Drafts::bundle_of))]
pub fn bundle_of(alloc: Global, text: &[u8]) -> Result<DraftBundle, Refused>
    ensures { Gives shown_bundle result (specs.bundle_of text.now) }
{
    if let Some(inside) = sign_at(text, b'{') {
        return braces_of(alloc, inside);
    }
    let instr = instr_of(alloc, text)?;
    Ok(alone(instr))
}
