//! Truths in predicates.
ghost use Rattle.std.specs.Prelude.{◌≡◌, true, OnOk, is_some};
ghost use Rattle.sp_emit.specs.Expressions.{is_immediate, slot_number};
ghost use Rattle.sp_emit.specs.Fits.{ExprFits};
ghost use Rattle.sp_emit.specs.Places.{told_in};
ghost use Rattle.sp_emit.specs.Truths as specs;
ghost use Rattle.sp_shape.specs.Parts.{straight, one, joined};
ghost use Rattle.sp_shape.specs.Shown.{parts_of};
ghost use Rattle.sp_tree.specs.Plain.{plain_sp, constant, between_two};

use crate::expressions::{held_constant, is_second_first, operands, slot_number, value_at};
use crate::instructions::{combine, compare, compare_short};
use crate::parts::push_straight;
use crate::places::{fetch_word, fetched_at, flag_of};
use crate::registers::{FIRST, SECOND, TEST, pred, reg, register_after};
use crate::stands::{Flags, Homes};
use patmos_instr::{Bundle, CmpFunc, Pred, PredFunc, Reg};
use sp_shape::Part;
use sp_tree::{SpBinary, SpExpr, SpUnary, is_one};
use tc_word::OutOfMemory;

// the comparison that an operator is
fn cmp_of(op: SpBinary) -> Option<CmpFunc>
    ensures { result ≡ specs.cmp_of op }
{
    match op {
        SpBinary::Equal => Some(CmpFunc::Eq),
        SpBinary::NotEqual => Some(CmpFunc::Neq),
        SpBinary::Less => Some(CmpFunc::Lt),
        SpBinary::LessUnsigned => Some(CmpFunc::Ult),
        SpBinary::LessEqual => Some(CmpFunc::Le),
        SpBinary::LessEqualUnsigned => Some(CmpFunc::Ule),
        _ => None,
    }
}

// how `||` and `&&` join whether words are 0
fn both_of(op: SpBinary) -> Option<PredFunc>
    ensures { result ≡ specs.both_of op }
{
    match op {
        SpBinary::Or => Some(PredFunc::Por),
        SpBinary::And => Some(PredFunc::Pand),
        _ => None,
    }
}

// how `|`, `^` and `&` join truths
fn bits_of(op: SpBinary) -> Option<PredFunc>
    ensures { result ≡ specs.bits_of op }
{
    match op {
        SpBinary::BitOr => Some(PredFunc::Por),
        SpBinary::BitXor => Some(PredFunc::Pxor),
        SpBinary::BitAnd => Some(PredFunc::Pand),
        _ => None,
    }
}

/// Whether an operator joins truths.
pub fn is_joining(op: SpBinary) -> bool
    ensures { result ≡ is_some (specs.bits_of op) }
{
    bits_of(op).is_some()
}

// whether an expression's code is longer where its value is worked out than where it is tested
#[tactic(auto, unfolding(sp_tree::specs::Plain::plain_sp))]
fn is_condition(e: &SpExpr) -> bool
    ensures { result ≡ specs.is_condition (plain_sp e.now) }
{
    match e {
        SpExpr::Unary { op, .. } => matches!(op, SpUnary::Not),
        SpExpr::Binary { op, .. } => cmp_of(*op).is_some() || both_of(*op).is_some(),
        _ => false,
    }
}

fn is_masking(op: SpBinary) -> bool
    ensures { result ≡ specs.is_masking op }
{
    matches!(op, SpBinary::BitAnd)
}

/// Whether an expression is tested.
#[tactic(auto, unfolding(sp_tree::specs::Plain::plain_sp))]
pub fn is_test(e: &SpExpr) -> bool
    ensures { result ≡ specs.is_test (plain_sp e.now) }
{
    match e {
        SpExpr::Const { value } => *value == 0,
        SpExpr::Unary { .. } => is_condition(e),
        SpExpr::Binary { op, b, .. } => is_condition(e) || (is_masking(*op) && is_one(b)),
        _ => false,
    }
}

// ---- tests

// of the words of two registers
fn by_two(out: &mut Vec<Part>, op: SpBinary, ra: Reg, rb: Reg) -> Result<(), OutOfMemory>
    ensures { OnOk result (parts_of out.new.items
        ≡ joined (parts_of out.old.items) (one (straight (specs.by_two (specs.cmp_of op) op ra rb)))) }
{
    let (test, second) = (pred(TEST), pred(SECOND));
    if let Some(func) = cmp_of(op) {
        return push_straight(out, &[compare(func, test, ra, rb)]);
    }
    match both_of(op) {
        None => push_straight(out, &[]),
        Some(func) => push_straight(
            out,
            &[
                compare_short(CmpFunc::Neq, test, ra, 0),
                compare_short(CmpFunc::Neq, second, rb, 0),
                combine(func, test, test, second),
            ],
        ),
    }
}

// of a register's word and a number that an instruction holds; where the operator is no comparison, of its lowest bit
#[tactic(auto, using(crate::proofs::TruthCode::number_small))]
fn by_number(out: &mut Vec<Part>, op: SpBinary, ra: Reg, n: u32) -> Result<(), OutOfMemory>
    requires { is_immediate op (constant n) ≡ true }
    ensures { OnOk result (parts_of out.new.items
        ≡ joined (parts_of out.old.items) (one (straight (specs.by_number (specs.cmp_of op) ra n)))) }
{
    match cmp_of(op) {
        None => push_straight(out, &[compare_short(CmpFunc::Btest, pred(TEST), ra, 0)]),
        Some(func) => push_straight(out, &[compare_short(func, pred(TEST), ra, n)]),
    }
}

// of an operator on two expressions
#[tactic(auto, using(crate::proofs::Needs::few_needs, crate::proofs::Needs::first_fits, crate::proofs::Needs::second_fits, crate::proofs::Needs::one_after))]
fn operator_test(
    out: &mut Vec<Part>,
    homes: Homes,
    op: SpBinary,
    a: &SpExpr,
    b: &SpExpr,
) -> Result<(), OutOfMemory>
    requires { ExprFits (between_two op (plain_sp a.now) (plain_sp b.now)) FIRST }
    ensures { OnOk result (parts_of out.new.items ≡ joined (parts_of out.old.items)
        (one (straight (specs.test_of homes (between_two op (plain_sp a.now) (plain_sp b.now)))))) }
{
    let first = reg(FIRST);
    if let Some(n) = held_constant(op, b) {
        return by_number(out, op, value_at(homes, a, first), n);
    }
    if is_second_first(a, b) {
        let (ra, rb) = (
            value_at(homes, a, register_after(first)),
            value_at(homes, b, first),
        );
        by_two(out, op, ra, rb)
    } else {
        let (ra, rb) = (
            value_at(homes, a, first),
            value_at(homes, b, register_after(first)),
        );
        by_two(out, op, ra, rb)
    }
}

// an expression is tested, whose operands were worked out
#[tactic(auto, unfolding(sp_tree::specs::Plain::plain_sp))]
fn test(out: &mut Vec<Part>, homes: Homes, e: &SpExpr) -> Result<(), OutOfMemory>
    requires { ExprFits (plain_sp e.now) FIRST }
    ensures { OnOk result (parts_of out.new.items
        ≡ joined (parts_of out.old.items) (one (straight (specs.test_of homes (plain_sp e.now))))) }
{
    let test = pred(TEST);
    match e {
        SpExpr::Const { .. } => {
            push_straight(out, &[combine(PredFunc::Pxor, test, pred(0), pred(0))])
        }
        SpExpr::Unary { of, .. } => {
            let ra = value_at(homes, of, reg(FIRST));
            push_straight(out, &[compare_short(CmpFunc::Eq, test, ra, 0)])
        }
        SpExpr::Binary { op, a, b } => operator_test(out, homes, *op, a, b),
        _ => push_straight(out, &[]),
    }
}

#[tactic(auto, using(crate::proofs::Pushed::two_pushed))]
fn tested(out: &mut Vec<Part>, homes: Homes, e: &SpExpr) -> Result<(), OutOfMemory>
    requires { ExprFits (plain_sp e.now) FIRST }
    ensures { OnOk result (parts_of out.new.items
        ≡ joined (parts_of out.old.items) (specs.tested_code homes (plain_sp e.now))) }
{
    operands(out, homes, e, reg(FIRST))?;
    test(out, homes, e)
}

// ---- truths that stand in predicates

// whether an operator leaves a truth as it is, where its second operand is 1
fn is_same(op: SpBinary) -> bool
    ensures { result ≡ specs.is_same op }
{
    matches!(op, SpBinary::BitAnd | SpBinary::Equal)
}

#[tactic(auto, unfolding(sp_tree::specs::Plain::plain_sp))]
fn word_flag(flags: Flags, e: &SpExpr) -> Option<Pred>
    ensures { result ≡ specs.word_flag flags (plain_sp e.now) }
{
    match e {
        SpExpr::Frame { slot } => flag_of(flags, *slot),
        _ => None,
    }
}

// the predicate in which a truth stands already
#[tactic(auto, unfolding(sp_tree::specs::Plain::plain_sp))]
fn flag_at(flags: Flags, e: &SpExpr) -> Option<Pred>
    ensures { result ≡ specs.flag_at flags (plain_sp e.now) }
{
    match e {
        SpExpr::Const { value } if *value == 1 => Some(pred(0)),
        SpExpr::Frame { slot } => flag_of(flags, *slot),
        SpExpr::Binary { op, a, b } if is_same(*op) && is_one(b) => word_flag(flags, a),
        _ => None,
    }
}

#[tactic(auto, unfolding(sp_tree::specs::Plain::plain_sp))]
fn is_frame_word(e: &SpExpr) -> bool
    ensures { result ≡ specs.is_frame_word (plain_sp e.now) }
{
    matches!(e, SpExpr::Frame { .. })
}

// whether a word that stands in no predicate is masked with a truth
fn seeks(flags: Flags, op: SpBinary, a: &SpExpr, b: &SpExpr) -> bool
    ensures { result ≡ specs.seeks flags op (plain_sp a.now) (plain_sp b.now) }
{
    is_masking(op) && is_frame_word(a) && (word_flag(flags, b).is_some() || is_condition(b))
}

// whether two truths are joined
fn joins(flags: Flags, op: SpBinary, a: &SpExpr, b: &SpExpr) -> bool
    ensures { result ≡ specs.joins flags op (plain_sp a.now) (plain_sp b.now) }
{
    is_joining(op) && (flag_at(flags, a).is_some() || seeks(flags, op, a, b))
}

fn is_division(op: SpBinary) -> bool
    ensures { result ≡ specs.is_division op }
{
    matches!(
        op,
        SpBinary::Divide
            | SpBinary::DivideUnsigned
            | SpBinary::Remainder
            | SpBinary::RemainderUnsigned
    )
}

// whether an expression's code leaves the second predicate as it is
#[tactic(auto, unfolding(sp_tree::specs::Plain::plain_sp))]
fn spares_second(e: &SpExpr) -> bool
    ensures { result ≡ specs.spares_second (plain_sp e.now) }
{
    match e {
        SpExpr::Element { index, .. } => spares_second(index),
        SpExpr::Unary { of, .. } => spares_second(of),
        SpExpr::Binary { op, a, b } => {
            !(is_division(*op) || both_of(*op).is_some()) && (spares_second(a) && spares_second(b))
        }
        _ => true,
    }
}

// whether the truths of two conditions are joined
fn pairs(op: SpBinary, a: &SpExpr, b: &SpExpr) -> bool
    ensures { result ≡ specs.pairs op (plain_sp a.now) (plain_sp b.now) }
{
    both_of(op).is_some() && (is_condition(a) && (is_condition(b) && spares_second(b)))
}

/// Whether the truth of an expression goes to a predicate.
#[tactic(auto, unfolding(sp_tree::specs::Plain::plain_sp))]
pub fn is_truth(flags: Flags, e: &SpExpr) -> bool
    ensures { result ≡ specs.is_truth flags (plain_sp e.now) }
{
    if flag_at(flags, e).is_some() {
        return true;
    }
    match e {
        SpExpr::Binary { op, a, b } if joins(flags, *op, a, b) => is_truth(flags, b),
        _ => is_test(e),
    }
}

// ---- their code

// where a truth stands once its code is done
fn stood_at(flags: Flags, e: &SpExpr) -> Pred
    ensures { result ≡ told_in (specs.flag_at flags (plain_sp e.now)) }
{
    flag_at(flags, e).unwrap_or(pred(TEST))
}

// that of a first operand, whose lowest bit may have been sought
fn sought_at(flags: Flags, e: &SpExpr) -> Pred
    ensures { result ≡ specs.sought_in (specs.flag_at flags (plain_sp e.now)) }
{
    flag_at(flags, e).unwrap_or(pred(SECOND))
}

// a predicate gets what two truths come to
fn join(flags: Flags, to: Pred, op: SpBinary, a: &SpExpr, b: &SpExpr) -> Bundle
    ensures { result ≡ specs.join flags to op (plain_sp a.now) (plain_sp b.now) }
{
    let func = bits_of(op).unwrap_or(PredFunc::Por);
    combine(func, to, sought_at(flags, a), stood_at(flags, b))
}

// the lowest bit of a first operand goes to the second predicate, unless it stands in one already
#[tactic(auto, using(crate::proofs::Pushed::nothing_pushed, crate::proofs::Needs::slot_few))]
fn seek(out: &mut Vec<Part>, homes: Homes, e: &SpExpr) -> Result<(), OutOfMemory>
    requires { ExprFits (plain_sp e.now) FIRST }
    ensures { OnOk result (parts_of out.new.items
        ≡ joined (parts_of out.old.items) (specs.unless_stands (specs.flag_at homes.flags (plain_sp e.now))
        (one (straight (specs.bit_sought homes.first (slot_number (plain_sp e.now))))))) }
{
    if flag_at(homes.flags, e).is_some() {
        return Ok(());
    }
    let slot = slot_number(e);
    let test = compare_short(
        CmpFunc::Btest,
        pred(SECOND),
        fetched_at(homes.first, slot),
        0,
    );
    push_straight(out, &[fetch_word(homes.first, slot), test])
}

// the truth of an expression goes to the predicate of a test
#[cycle(truth)]
#[tactic(auto, using(crate::proofs::Pushed::two_pushed, crate::proofs::Needs::first_fits), unfolding(sp_tree::specs::Plain::plain_sp))]
fn truth(out: &mut Vec<Part>, homes: Homes, e: &SpExpr) -> Result<(), OutOfMemory>
    requires { ExprFits (plain_sp e.now) FIRST }
    ensures { OnOk result (parts_of out.new.items
        ≡ joined (parts_of out.old.items) (specs.truth_code homes (plain_sp e.now))) }
{
    match e {
        SpExpr::Binary { op, a, b } if joins(homes.flags, *op, a, b) => {
            second_truth(out, homes, *op, a, b)?;
            seek(out, homes, a)?;
            push_straight(out, &[join(homes.flags, pred(TEST), *op, a, b)])
        }
        SpExpr::Binary { op, a, b } if pairs(*op, a, b) => {
            first_truth(out, homes, *op, b, a)?;
            join_kept(out, homes, *op, a, b)
        }
        _ => tested(out, homes, e),
    }
}

// the truth of an operator's first operand is kept in the second predicate
#[cycle(truth)]
#[tactic(auto, using(crate::proofs::Pushed::two_pushed, crate::proofs::Needs::first_fits))]
fn first_truth(
    out: &mut Vec<Part>,
    homes: Homes,
    op: SpBinary,
    b: &SpExpr,
    a: &SpExpr,
) -> Result<(), OutOfMemory>
    requires { ExprFits (between_two op (plain_sp a.now) (plain_sp b.now)) FIRST }
    ensures { OnOk result (parts_of out.new.items
        ≡ joined (parts_of out.old.items) (specs.kept_code (specs.truth_code homes (plain_sp a.now)))) }
{
    truth(out, homes, a)?;
    let (test, second) = (pred(TEST), pred(SECOND));
    push_straight(out, &[combine(PredFunc::Por, second, test, test)])
}

// and joined with that of the second one
#[tactic(auto, using(crate::proofs::Pushed::two_pushed, crate::proofs::Needs::second_fits))]
fn join_kept(
    out: &mut Vec<Part>,
    homes: Homes,
    op: SpBinary,
    a: &SpExpr,
    b: &SpExpr,
) -> Result<(), OutOfMemory>
    requires { ExprFits (between_two op (plain_sp a.now) (plain_sp b.now)) FIRST }
    ensures { OnOk result (parts_of out.new.items
        ≡ joined (parts_of out.old.items) (specs.joining_code homes op (plain_sp b.now))) }
{
    tested(out, homes, b)?;
    let func = both_of(op).unwrap_or(PredFunc::Por);
    push_straight(out, &[combine(func, pred(TEST), pred(SECOND), pred(TEST))])
}

// that of an operator's second operand, where it stands in none already
#[cycle(truth)]
#[tactic(auto, using(crate::proofs::Pushed::nothing_pushed, crate::proofs::Needs::second_fits))]
fn second_truth(
    out: &mut Vec<Part>,
    homes: Homes,
    op: SpBinary,
    a: &SpExpr,
    b: &SpExpr,
) -> Result<(), OutOfMemory>
    requires { ExprFits (between_two op (plain_sp a.now) (plain_sp b.now)) FIRST }
    ensures { OnOk result (parts_of out.new.items ≡ joined (parts_of out.old.items)
        (specs.unless_stands (specs.flag_at homes.flags (plain_sp b.now)) (specs.truth_code homes (plain_sp b.now)))) }
{
    if flag_at(homes.flags, b).is_some() {
        return Ok(());
    }
    truth(out, homes, b)
}

// what stands before the bundle that sets a predicate to a truth
#[tactic(auto, using(crate::proofs::Pushed::nothing_pushed, crate::proofs::Pushed::two_pushed, crate::proofs::Needs::first_fits), unfolding(sp_tree::specs::Plain::plain_sp))]
fn before_flag(out: &mut Vec<Part>, homes: Homes, e: &SpExpr) -> Result<(), OutOfMemory>
    requires { ExprFits (plain_sp e.now) FIRST }
    ensures { OnOk result (parts_of out.new.items
        ≡ joined (parts_of out.old.items) (specs.before_flag homes (plain_sp e.now))) }
{
    match e {
        SpExpr::Const { .. } => Ok(()),
        SpExpr::Binary { op, a, b } if joins(homes.flags, *op, a, b) => {
            second_truth(out, homes, *op, a, b)?;
            seek(out, homes, a)
        }
        SpExpr::Binary { op, a, b } if pairs(*op, a, b) => {
            first_truth(out, homes, *op, b, a)?;
            join_kept(out, homes, *op, a, b)
        }
        _ => tested(out, homes, e),
    }
}

// and that bundle
#[tactic(auto, unfolding(sp_tree::specs::Plain::plain_sp))]
fn flag_set(flags: Flags, to: Pred, e: &SpExpr) -> Bundle
    ensures { result ≡ specs.flag_set flags to (plain_sp e.now) }
{
    let test = pred(TEST);
    match e {
        SpExpr::Const { .. } => combine(PredFunc::Pxor, to, pred(0), pred(0)),
        SpExpr::Binary { op, a, b } if joins(flags, *op, a, b) => join(flags, to, *op, a, b),
        _ => combine(PredFunc::Por, to, test, test),
    }
}

/// The truth of an expression goes to a predicate. It is `Err` where memory runs out.
#[tactic(auto, using(crate::proofs::Pushed::two_pushed))]
pub fn set_flag(out: &mut Vec<Part>, homes: Homes, to: Pred, e: &SpExpr) -> Result<(), OutOfMemory>
    requires { ExprFits (plain_sp e.now) FIRST }
    ensures { OnOk result (parts_of out.new.items
        ≡ joined (parts_of out.old.items) (specs.flag_code homes to (plain_sp e.now))) }
{
    if let Some(p) = flag_at(homes.flags, e) {
        return push_straight(out, &[combine(PredFunc::Por, to, p, p)]);
    }
    before_flag(out, homes, e)?;
    push_straight(out, &[flag_set(homes.flags, to, e)])
}
