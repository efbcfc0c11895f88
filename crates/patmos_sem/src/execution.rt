ghost use Rattle.std.specs.Prelude.{◌≡◌, ◌≢◌, Option, None, Some, false};
ghost use Rattle.patmos_sem.specs.Registers.{Registers};
ghost use Rattle.patmos_sem.specs.declared.pending.Pending.TheVariants as pending;
ghost use Rattle.patmos_sem.specs.declared.effects.Effect.TheVariants as effect;
ghost use Rattle.patmos_sem.specs.Effects.{address_of, width_bytes, store_bytes, write_of, begun, asked};
ghost use Rattle.patmos_sem.specs.Bundles.{slot_write, slot_begun, slot_asked, after_bundle, effect_of, arrived, OnLoad};

use crate::effects::{Effect, FlowKind};
use crate::operations::{combine, compare, operate, operate_short};
use crate::pending::Pending;
use crate::registers::Regs;
use crate::writes::Write;
use patmos_instr::{Bundle, Instr, Op, Reg, StoreWidth, Width};
use tc_word::{mul_pair, mul_pair_unsigned};

/// Carries out a bundle on the registers, and answers what it asks for. The stack's places `st` and
/// `ss` are in words; the instructions see them as byte addresses.
///
/// After an answer of `Load` nothing is pending, so that `arrive` can make the value pending.
pub fn exec(regs: &mut Regs, bundle: &Bundle, st: u32, ss: u32) -> Effect
    ensures registers { regs.new ≡ after_bundle st ss bundle.now regs.old }
    ensures effect { result ≡ effect_of bundle.now regs.old }
    ensures load { OnLoad result (regs.new.pending ≡ pending.Nothing) }
{
    let effect = asked_by(regs, bundle);
    write_back(regs, bundle, st, ss);
    effect
}

/// What a bundle asks for by the registers before it.
#[inline(always)]
pub fn asked_by(regs: &Regs, bundle: &Bundle) -> Effect
    ensures { result ≡ effect_of bundle.now regs.now }
{
    ask(regs, bundle.first_slot())
}

/// Carries out a bundle on the registers alone, whatever it asks for. After one that asks for a load
/// nothing is pending, as after an `exec`.
#[inline(always)]
pub fn write_back(regs: &mut Regs, bundle: &Bundle, st: u32, ss: u32)
    ensures registers { regs.new ≡ after_bundle st ss bundle.now regs.old }
    ensures load { OnLoad (effect_of bundle.now regs.old) (regs.new.pending ≡ pending.Nothing) }
{
    match bundle.second_slot() {
        None => write_single(regs, bundle.first_slot(), st, ss),
        Some(second) => write_pair(regs, bundle.first_slot(), second, st, ss),
    }
}

/// Writes the registers of a bundle that asks for something: its second slot alone writes.
#[inline(always)]
pub fn write_second(regs: &mut Regs, bundle: &Bundle, st: u32, ss: u32)
    requires asks { effect_of bundle.now regs.old ≢ effect.Nothing }
    ensures registers { regs.new ≡ after_bundle st ss bundle.now regs.old }
    ensures nothing { regs.new.pending ≡ pending.Nothing }
{
    match bundle.second_slot() {
        None => regs.settle(),
        Some(second) => write_pair(regs, bundle.first_slot(), second, st, ss),
    }
}

// carries out a bundle of one instruction
#[inline(always)]
fn write_single(regs: &mut Regs, instr: &Instr, st: u32, ss: u32)
    ensures registers { regs.new ≡ after_bundle st ss (record { first = instr.now; second = None }) regs.old }
    ensures pending { regs.new.pending ≡ slot_begun regs.old instr.now }
{
    if regs.waits() || is_product(&instr.op) {
        write_after(regs, instr, st, ss);
    } else {
        write_alone(regs, instr, st, ss);
    }
}

// carries it out where nothing is pending and it begins no product, as most bundles are
#[inline(always)]
#[tactic(auto, using(crate::proofs::Loads::none_begun))]
fn write_alone(regs: &mut Regs, instr: &Instr, st: u32, ss: u32)
    requires nothing { regs.old.pending ≡ pending.Nothing }
    requires plain { begun regs.old instr.now.op ≡ pending.Nothing }
    ensures registers { regs.new ≡ after_bundle st ss (record { first = instr.now; second = None }) regs.old }
    ensures pending { regs.new.pending ≡ slot_begun regs.old instr.now }
{
    let first = slot(regs, instr, st, ss);
    regs.end_alone(first);
}

// carries it out where something may be pending, or a product begins
#[inline(never)]
fn write_after(regs: &mut Regs, instr: &Instr, st: u32, ss: u32)
    ensures registers { regs.new ≡ after_bundle st ss (record { first = instr.now; second = None }) regs.old }
    ensures pending { regs.new.pending ≡ slot_begun regs.old instr.now }
{
    let first = slot(regs, instr, st, ss);
    let begun = begin(regs, instr);
    regs.end_single(first, begun);
}

// carries out a bundle of two instructions
#[inline(never)]
fn write_pair(regs: &mut Regs, instr: &Instr, other: &Instr, st: u32, ss: u32)
    ensures registers { regs.new ≡ after_bundle st ss (record { first = instr.now; second = Some other.now }) regs.old }
    ensures pending { regs.new.pending ≡ slot_begun regs.old instr.now }
{
    let first = slot(regs, instr, st, ss);
    let second = slot(regs, other, st, ss);
    let begun = begin(regs, instr);
    regs.end_bundle(first, second, begun);
}

/// Makes a load's value pending. Nothing else may be, as after an `exec` that answered `Load`.
pub fn arrive(regs: &mut Regs, rd: Reg, value: u32)
    requires { regs.old.pending ≡ pending.Nothing }
    ensures { regs.new ≡ arrived rd value regs.old }
{
    regs.set_pending(Pending::Value { rd, value });
}

// the write of a slot
#[inline(always)]
fn slot(regs: &Regs, instr: &Instr, st: u32, ss: u32) -> Write
    ensures { result ≡ slot_write st ss regs.now instr.now }
{
    if regs.holds(instr.guard) {
        write_by(regs, &instr.op, st, ss)
    } else {
        Write::Nothing
    }
}

// the write of an operation
#[inline(always)]
fn write_by(regs: &Regs, op: &Op, st: u32, ss: u32) -> Write
    ensures { result ≡ write_of st ss regs.now op.now }
{
    match *op {
        Op::AluImm { func, rd, ra, imm } => Write::Register {
            rd,
            value: operate_short(func, regs.general(ra), imm.number()),
        },
        Op::AluReg { func, rd, ra, rb } => Write::Register {
            rd,
            value: operate(func, regs.general(ra), regs.general(rb)),
        },
        Op::AluLong {
            func,
            rd,
            ra,
            constant,
        } => Write::Register {
            rd,
            value: operate(func, regs.general(ra), constant),
        },
        Op::Cmp { func, pd, ra, rb } => Write::Predicate {
            pd,
            value: compare(func, regs.general(ra), regs.general(rb)),
        },
        Op::CmpImm { func, pd, ra, imm } => Write::Predicate {
            pd,
            value: compare(func, regs.general(ra), imm.number()),
        },
        Op::Comb { func, pd, a, b } => Write::Predicate {
            pd,
            value: combine(func, regs.holds(a), regs.holds(b)),
        },
        Op::ToSpecial { special, ra } => Write::Special {
            special,
            value: regs.general(ra),
        },
        Op::FromSpecial { rd, special } => Write::Register {
            rd,
            value: regs.special(special, st, ss),
        },
        _ => Write::Nothing,
    }
}

// whether an operation is a product, which alone is pending after its bundle
#[inline(always)]
fn is_product(op: &Op) -> bool
    ensures { result ≡ false → (regs : Registers) → begun regs op.now ≡ pending.Nothing }
{
    matches!(op, Op::Mul { .. })
}

// the product that an instruction begins, where its guard is true
fn begin(regs: &Regs, instr: &Instr) -> Pending
    ensures { result ≡ slot_begun regs.now instr.now }
{
    match instr.op {
        Op::Mul { unsigned, ra, rb } if regs.holds(instr.guard) => {
            let a = regs.general(ra);
            let b = regs.general(rb);
            let (low, high) = if unsigned {
                mul_pair_unsigned(a, b)
            } else {
                mul_pair(a, b)
            };
            Pending::Product { low, high }
        }
        _ => Pending::Nothing,
    }
}

// what an instruction asks for, where its guard is true
#[inline(always)]
fn ask(regs: &Regs, instr: &Instr) -> Effect
    ensures { result ≡ slot_asked regs.now instr.now }
{
    if regs.holds(instr.guard) {
        ask_by(regs, &instr.op)
    } else {
        Effect::Nothing
    }
}

// what an operation asks for
#[inline(always)]
fn ask_by(regs: &Regs, op: &Op) -> Effect
    ensures { result ≡ asked regs.now op.now }
{
    match *op {
        Op::Stack { func, count } => Effect::StackOp {
            func,
            count: count.number(),
        },
        Op::Load {
            space,
            width,
            rd,
            ra,
            imm,
        } => Effect::Load {
            space,
            width,
            rd,
            address: address(regs.general(ra), imm.number(), load_bytes(width)),
        },
        Op::Store {
            space,
            width,
            ra,
            rs,
            imm,
        } => Effect::Store {
            space,
            width,
            address: address(regs.general(ra), imm.number(), store_bytes(width)),
            value: regs.general(rs),
        },
        Op::Branch { offset } => Effect::Flow {
            kind: FlowKind::Branch {
                offset: offset.number(),
            },
        },
        Op::Call { target } => Effect::Flow {
            kind: FlowKind::Call {
                target: target.number(),
            },
        },
        Op::BranchFill { target } => Effect::Flow {
            kind: FlowKind::BranchFill {
                target: target.number(),
            },
        },
        Op::Return => Effect::Flow {
            kind: FlowKind::Return {
                base: regs.srb(),
                offset: regs.sro(),
            },
        },
        _ => Effect::Nothing,
    }
}

// an address: modulo 2^32, as all words are
fn address(base: u32, imm: u32, bytes: u32) -> u32
    ensures { result ≡ address_of base imm bytes }
{
    base.wrapping_add(imm.wrapping_mul(bytes))
}

/// The bytes of a load.
pub fn load_bytes(width: Width) -> u32
    ensures { result ≡ width_bytes width }
{
    match width {
        Width::Word => 4,
        Width::Half | Width::HalfUnsigned => 2,
        Width::Byte | Width::ByteUnsigned => 1,
    }
}

/// The bytes of a store.
pub fn store_bytes(width: StoreWidth) -> u32
    ensures { result ≡ store_bytes width }
{
    match width {
        StoreWidth::Word => 4,
        StoreWidth::Half => 2,
        StoreWidth::Byte => 1,
    }
}
