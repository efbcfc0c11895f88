//! Straight code in an order in which more of it becomes one and less of it waits.
ghost use Rattle.std.specs.Prelude.{◌≡◌, ◌<◌, not, ◌&&◌, if◌then◌else◌, Some, None, true, false, IfOk, IfSome, IsNone, OnOk, length, reverse};
ghost use Rattle.std.specs.List.{list_all};
ghost use Rattle.bundle_sched.specs.Ordered as specs;
ghost use Rattle.bundle_sched.specs.Packing.{packed};

use crate::bundles::{idle, waits_for};
use crate::operands::is_free;
use crate::pairs::{does_nothing, in_pairs, joined, without_nop};
use patmos_instr::{Bundle, Instr, Op};
use std::alloc::Global;
use tc_word::{List, OutOfMemory};

/// At how many rows an instruction looks back at most.
pub const WINDOW: usize = 16;

// whether it works on registers or on predicates alone, and its value does not come late
fn is_plain_op(op: &Op) -> bool
    ensures { result ≡ specs.is_plain_op op.now }
{
    op.is_second_kind() || op.is_long()
}

// whether its instructions are such
fn all_plain(bundle: &Bundle) -> bool
    ensures { result ≡ specs.all_plain bundle.now }
{
    let first = is_plain_op(&bundle.first().op);
    match bundle.second() {
        Some(second) => first && is_plain_op(&second.op),
        None => first,
    }
}

// whether neither reads or writes what the other writes
fn are_free(a: &Instr, b: &Instr) -> bool
    ensures { result ≡ specs.are_free a.now b.now }
{
    is_free(a, b) && is_free(b, a)
}

// whether a bundle has nothing in common with an instruction that stands alone
fn lets_by(bundle: &Bundle, one: &Bundle) -> bool
    ensures { result ≡ specs.lets_by bundle.now one.now }
{
    let first = are_free(&bundle.first(), &one.first());
    match bundle.second() {
        Some(second) => first && are_free(&second, &one.first()),
        None => first,
    }
}

// whether one instruction goes back over a bundle
fn goes_by(bundle: &Bundle, one: &Bundle) -> bool
    ensures { result ≡ specs.goes_by bundle.now one.now }
{
    one.second().is_none()
        && (lets_by(bundle, one) && (is_plain_op(&one.first().op) || all_plain(bundle)))
}

// whether the row directly before gives a late value that it reads
#[tactic(auto, using(crate::proofs::Putting::last_too_early, crate::proofs::Putting::none_too_early))]
fn is_too_early(before: &[Bundle], one: &Bundle) -> bool
    ensures { result ≡ specs.is_too_early (reverse before.now) one.now }
{
    match before.split_last() {
        Some((last, _)) => waits_for(one, last),
        None => false,
    }
}

// the row with it, where the row has room
fn row_with(row: &Bundle, one: &Bundle) -> Option<Bundle>
    ensures some { IfSome result (λ b.
        (specs.has_place row.now one.now ≡ true) × (b ≡ specs.row_with row.now one.now)) }
    ensures none { IsNone result → specs.has_place row.now one.now ≡ false }
{
    if does_nothing(row) {
        return Some(*one);
    }
    if let Some(both) = joined(row, one) {
        return Some(both);
    }
    if goes_by(row, one) {
        joined(one, row)
    } else {
        None
    }
}

// the number of the row after some, and the row with it, where it has room; or what was found nearer
fn earlier_row(
    before: &[Bundle],
    row: &Bundle,
    one: &Bundle,
    found: Option<(usize, Bundle)>,
) -> Option<(usize, Bundle)>
    ensures { result ≡ (if not (specs.is_too_early (reverse before.now) one.now) && specs.has_place row.now one.now
        then Some (length before.now, specs.row_with row.now one.now) else found) }
{
    if is_too_early(before, one) {
        return found;
    }
    match row_with(row, one) {
        Some(both) => Some((before.len(), both)),
        None => found,
    }
}

// whether it may go by a row
fn can_pass(row: &Bundle, one: &Bundle) -> bool
    ensures { result ≡ specs.can_pass row.now one.now }
{
    does_nothing(row) || goes_by(row, one)
}

// whether it may go by each of some rows
fn passes_each(rows: &[Bundle], one: &Bundle) -> bool
    ensures { result ≡ list_all (λ row. specs.can_pass row one.now) rows.now }
{
    rows.iter().all(|row| can_pass(row, one))
}

// whether it does nothing, or goes back over some bundles
fn goes_back(bundles: &[Bundle], one: &Bundle) -> bool
    ensures { result ≡ specs.goes_back bundles.now one.now }
{
    does_nothing(one) || passes_each(bundles, one)
}

/// Whether each of some bundles does nothing, or goes back over all of the others.
pub fn all_go_back(others: &[Bundle], bundles: &[Bundle]) -> bool
    ensures { result ≡ specs.all_go_back others.now bundles.now }
{
    bundles.iter().all(|bundle| goes_back(others, bundle))
}

// the number of the first row that has room for it, going back from the last one, and the row with it
fn place(bundles: &[Bundle], one: &Bundle) -> Option<(usize, Bundle)>
    ensures number { result ≡ specs.place WINDOW one.now (reverse bundles.now) None }
    ensures within { IfSome result (λ at. at.0 < length bundles.now) }
{
    let mut found = None;
    let mut others = bundles;
    for gone in 0..WINDOW {
        let Some((last, before)) = others.split_last() else {
            return found;
        };
        found = earlier_row(before, last, one, found);
        if !can_pass(last, one) {
            return found;
        }
        others = before;
    }
    found
}

// after all rows, and after an empty one where it reads the late value of the last
fn put_last(bundles: &mut Vec<Bundle>, bundle: &Bundle) -> Result<(), OutOfMemory>
    ensures { OnOk result (bundles.new.items ≡ specs.stood_last bundle.now bundles.old.items) }
{
    if is_too_early(bundles.as_slice(), bundle) {
        bundles.push(idle())?;
    }
    bundles.push(*bundle)?;
    Ok(())
}

// one more bundle that does something: one instruction goes to the first row that has room, and two stand last
fn put(bundles: &mut Vec<Bundle>, bundle: &Bundle) -> Result<(), OutOfMemory>
    ensures { OnOk result (bundles.new.items ≡ specs.put bundle.now bundles.old.items) }
{
    let at = if bundle.second().is_none() {
        place(bundles.as_slice(), bundle)
    } else {
        None
    };
    match at {
        Some((number, both)) => bundles[number] = both,
        None => put_last(bundles, bundle)?,
    }
    Ok(())
}

// one more bundle, where it does something
fn put_unless_idle(bundles: &mut Vec<Bundle>, bundle: &Bundle) -> Result<(), OutOfMemory>
    ensures { OnOk result (bundles.new.items ≡ specs.put_unless_idle bundle.now bundles.old.items) }
{
    if does_nothing(bundle) {
        Ok(())
    } else {
        put(bundles, bundle)
    }
}

// bundles in their new order, without those that do nothing
#[tactic(auto, using(crate::proofs::Putting::bundle_put, crate::proofs::Putting::bundles_put))]
fn ordered(alloc: Global, bundles: &[Bundle]) -> Result<List<Bundle>, OutOfMemory>
    ensures { IfOk result (λ list. list ≡ specs.ordered bundles.now) }
{
    let mut list = Vec::new(alloc);
    for bundle in bundles {
        put_unless_idle(&mut list, &without_nop(bundle))?;
    }
    Ok(List::of(list))
}

/// Straight code, packed: ordered, and with neighbours in one where they can be one.
pub fn packed(alloc: Global, bundles: &[Bundle]) -> Result<List<Bundle>, OutOfMemory>
    ensures { IfOk result (λ list. list ≡ packed bundles.now) }
{
    let list = ordered(alloc, bundles)?;
    in_pairs(alloc, list.as_slice())
}
