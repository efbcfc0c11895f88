//! Faults of variables and arrays outside functions, and of whole programs.
ghost use Rattle.std.specs.Prelude.{◌≡◌, ◌+◌, length, map, sum_by, nat_lt, OnOk, IfOk, ◌<◌, ◌&&◌, ◌||◌, ◌==◌, if◌then◌else◌};
ghost use Rattle.c_tree.specs.Least.{least_with};
ghost use Rattle.c_tree.specs.Plain.{plain, plain_item};
ghost use Rattle.c_tree.specs.Sizes.{const_size, item_size};
ghost use Rattle.c_tree.specs.Sizes as sizes;
ghost use Rattle.c_tree.specs.Tokens.{global_tokens, shape_tokens};
ghost use Rattle.c_tree.specs.Names.{declared};
ghost use Rattle.c_tree.specs.Valid as valid;
ghost use Rattle.c_check.specs.Capped.{capped};
ghost use Rattle.c_check.specs.Open.{names_of};

use crate::functions::function;
use crate::names::Names;
use crate::statements::{kind_size, twice};
use crate::walk::Walk;
use crate::weights;
use c_tree::{
    CheckFault, Const, Fault, Global, Item, Kind, MOST_PRIVATE_WORDS, MOST_SCRATCH_WORDS, Meaning,
    Unit,
};
use slot_arbiter::Place;
use std::alloc;
use tc_word::OutOfMemory;

/// How many words a variable or an array has.
pub fn words(g: &Global) -> u32
    ensures { result ≡ valid.words_of g.now }
{
    match g.length {
        None => 1,
        Some(length) => length.value,
    }
}

// constants, and one token after each
fn constants(walk: &mut Walk, values: &[Const]) -> Result<(), OutOfMemory>
    ensures at { OnOk result (walk.new.at ≡ walk.old.at + sum_by const_size values.now) }
    ensures least { OnOk result (walk.new.least ≡ walk.old.least) }
{
    for constant in values {
        walk.pass(if constant.negative { 3 } else { 2 })?;
    }
    Ok(())
}

// what stands after a variable's or an array's name, with the semicolon
#[tactic(auto, using(crate::proofs::Variables::size_of_shape))]
fn shape(walk: &mut Walk, g: &Global) -> Result<(), OutOfMemory>
    ensures at { OnOk result (walk.new.at ≡ walk.old.at + length (shape_tokens g.now.length g.now.initial) + 1) }
    ensures least { OnOk result (walk.new.least ≡ walk.old.least) }
{
    let values = g.initial.as_slice();
    if g.length.is_none() {
        walk.pass(1)?;
    } else if values.is_empty() {
        walk.pass(4)?;
    } else {
        walk.pass(6)?;
    }
    constants(walk, values)
}

// how many tokens stand before the name
fn before_name(g: &Global) -> usize
    ensures { result ≡ (if g.now.scratch then 1 else 0) + sizes.kind_size g.now.kind }
{
    let kind = kind_size(g.kind);
    if g.scratch { kind + 1 } else { kind }
}

// the scratchpad begins without values
fn is_filled(g: &Global) -> bool
    ensures { result ≡ (g.now.scratch && nat_lt 0 (length g.now.initial)) }
{
    g.scratch && g.initial.as_slice().len() > 0
}

// no word, or fewer words than first values
fn is_short(g: &Global) -> bool
    ensures { result ≡ (valid.words_of g.now == 0 || nat_lt (valid.words_of g.now) (length g.now.initial)) }
{
    let words = words(g) as usize;
    words == 0 || g.initial.as_slice().len() > words
}

fn means(g: &Global) -> Meaning
    ensures { result ≡ valid.means_of g.now }
{
    match g.length {
        None => Meaning::Scalar,
        Some(_) => Meaning::Array,
    }
}

/// A variable or an array outside functions.
#[tactic(auto, using(c_tree::proofs::Leasts::least_of_both, crate::proofs::Variables::size_of_global))]
fn global<'a>(names: &mut Names<'a>, walk: &mut Walk, g: &'a Global) -> Result<(), OutOfMemory>
    ensures at { OnOk result (walk.new.at ≡ walk.old.at + length (global_tokens g.now)) }
    ensures least { OnOk result (walk.new.least
        ≡ least_with walk.old.least (valid.global_faults (names_of names.old) walk.old.at g.now)) }
    ensures names { OnOk result (names_of names.new ≡ declared (names_of names.old) g.now.name (valid.means_of g.now)) }
{
    walk.pass(before_name(g))?;
    twice(0, names, walk, &g.name);
    walk.note_if(is_filled(g), CheckFault::WrongType);
    walk.note_if(is_short(g), CheckFault::Data);
    names.declare(g.name.as_str(), means(g))?;
    walk.pass(1)?;
    shape(walk, g)?;
    Ok(())
}

fn item<'a>(
    place: &Place,
    names: &mut Names<'a>,
    walk: &mut Walk,
    i: &'a Item,
) -> Result<(), OutOfMemory>
    ensures at { OnOk result (walk.new.at ≡ walk.old.at + item_size (plain_item i.now)) }
    ensures least { OnOk result (walk.new.least
        ≡ least_with walk.old.least (valid.item_faults place.now.cores place.now.core (names_of names.old) walk.old.at
        (plain_item i.now))) }
    ensures names { OnOk result (names_of names.new ≡ valid.with_item (names_of names.old) (plain_item i.now)) }
{
    match i {
        Item::Global { global: g } => global(names, walk, g),
        Item::Function { function: f } => function(place, names, walk, f),
    }
}

#[tactic(auto, using(crate::proofs::Next::items_next, crate::proofs::Sums::items_sized))]
fn items<'a>(
    place: &Place,
    names: &mut Names<'a>,
    walk: &mut Walk,
    items: &'a [Item],
) -> Result<(), OutOfMemory>
    ensures at { OnOk result (walk.new.at ≡ walk.old.at + sum_by item_size (map plain_item items.now)) }
    ensures least { OnOk result (walk.new.least
        ≡ least_with walk.old.least (valid.items_faults place.now.cores place.now.core (names_of names.old) walk.old.at
        (map plain_item items.now))) }
{
    for i in items {
        item(place, names, walk, i)?;
    }
    Ok(())
}

// how many words stand in the scratchpad, or else in private memory
#[tactic(auto, using(crate::proofs::Sums::words_summed))]
fn words_in(scratch: bool, items: &[Item]) -> u32
    ensures { result ≡ capped (valid.words_in scratch (map plain_item items.now)) }
{
    let mut total: u32 = 0;
    for i in items {
        if let Item::Global { global: g } = i {
            if g.scratch == scratch {
                total = total.saturating_add(words(g));
            }
        }
    }
    total
}

#[tactic(auto, using(crate::proofs::Limits::above))]
fn is_past(scratch: bool, items: &[Item], most: u32) -> bool
    requires { most < 4294967295 }
    ensures { result ≡ nat_lt most (valid.words_in scratch (map plain_item items.now)) }
{
    words_in(scratch, items) > most
}

fn is_main(i: &Item) -> bool
    ensures { result ≡ valid.is_main (plain_item i.now) }
{
    match i {
        Item::Global { .. } => false,
        Item::Function { function: f } => {
            f.name.as_str() == "main"
                && f.kind == Some(Kind::Int)
                && f.parameters.as_slice().is_empty()
        }
    }
}

#[tactic(auto, using(crate::proofs::Next::main_next))]
fn has_main(items: &[Item]) -> bool
    ensures { result ≡ valid.has_main (map plain_item items.now) }
{
    for i in items {
        if is_main(i) {
            return true;
        }
    }
    false
}

// what is reported of the whole, at its end
#[tactic(auto, using(c_tree::proofs::Leasts::least_of_both))]
fn whole(walk: &mut Walk, items: &[Item])
    ensures { walk.new.least ≡ least_with walk.old.least (valid.end_faults walk.old.at (map plain_item items.now)) }
{
    walk.note_if(weights::is_heavy_task(items), CheckFault::Heavy);
    walk.note_if(is_past(false, items, MOST_PRIVATE_WORDS), CheckFault::Data);
    walk.note_if(
        is_past(true, items, MOST_SCRATCH_WORDS),
        CheckFault::Scratch,
    );
    walk.note_if(!has_main(items), CheckFault::NoMain);
}

/// The least fault of a program on a place, if it has one.
#[tactic(auto, using(c_tree::proofs::Leasts::least_of_both))]
pub fn least_fault(
    alloc: alloc::Global,
    u: &Unit,
    place: &Place,
) -> Result<Option<Fault>, OutOfMemory>
    ensures { IfOk result (λ least. least ≡ valid.fault_of (plain u.now) place.now.cores place.now.core) }
{
    let mut names = Names::new(alloc);
    names.declare("shared", Meaning::Array)?;
    names.declare("comm", Meaning::Array)?;
    let mut walk = Walk { at: 0, least: None };
    items(place, &mut names, &mut walk, u.items.as_slice())?;
    whole(&mut walk, u.items.as_slice());
    Ok(walk.least)
}
