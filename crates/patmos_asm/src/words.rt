ghost use Rattle.std.specs.Prelude.{◌≡◌, ◌≤◌, ◌<◌, ◌^◌, ◌++◌, ◌-ℤ◌, pos, ℕ, List, [], None, unwrap_or, IfOk, OnOk};
ghost use Rattle.patmos_code.specs.Codes.{code};
ghost use Rattle.patmos_asm.specs.Assembly as specs;
ghost use Rattle.patmos_asm.specs.Bounds.{InBounds};
ghost use Rattle.patmos_asm.specs.Names.{place_in};
ghost use Rattle.patmos_syntax.specs.Shown.{shown_bundle, shown_jump, shown_item, shown_items};

use crate::names::{Places, labels_after, labels_of};
use patmos_code::{MOST_IN_FUNCTION, encode};
use patmos_forms::JumpKind;
use patmos_instr::{Addr22, Bundle, Instr, Off22, Op};
use patmos_syntax::{DraftBundle, Item, Jump};
use std::alloc::{AllocError, Global};

// the words up to the next function
fn size_of_function(items: &[Item]) -> usize
    ensures { result ≡ specs.size_from (shown_items items.now) }
{
    let mut size = 0;
    for item in items {
        match item {
            Item::Function { .. } => return size,
            Item::Bundle { bundle, .. } => size += bundle.size(),
            Item::Label { .. } | Item::Faulty { .. } => {}
        }
    }
    size
}

// the place of a name that is set
fn place_of(name: &[u8], places: &Places<'_>) -> usize
    ensures { result ≡ unwrap_or (place_in places.now name.now) 0 }
{
    match places.get(name) {
        Some(place) => *place,
        None => 0,
    }
}

// the way from one offset in a function to another
fn distance(from: usize, to: usize) -> Off22
    requires { (from ≤ MOST_IN_FUNCTION) × (to ≤ MOST_IN_FUNCTION) }
    ensures { result ≡ pos to -ℤ pos from }
{
    match Off22::new(to as i32 - from as i32) {
        Some(offset) => offset,
        None => unreachable!(),
    }
}

// the operation of a jump with the place of its name
fn placed_op(jump: &Jump, functions: &Places<'_>, labels: &Places<'_>, at: usize) -> Op
    requires { InBounds (place_in functions.now) (place_in labels.now) at }
    ensures { result ≡ specs.placed_op (place_in functions.now) (place_in labels.now) at
        (shown_jump jump.now).first.draft }
{
    let name = jump.name.as_slice();
    match jump.flow {
        JumpKind::Branch => Op::Branch {
            offset: distance(at, place_of(name, labels)),
        },
        JumpKind::Call => Op::Call {
            target: Addr22::low(place_of(name, functions) as u32),
        },
        JumpKind::BranchFill => Op::BranchFill {
            target: Addr22::low(place_of(name, functions) as u32),
        },
    }
}

// a bundle with the place of its name
fn placed(bundle: &DraftBundle, functions: &Places<'_>, labels: &Places<'_>, at: usize) -> Bundle
    requires { InBounds (place_in functions.now) (place_in labels.now) at }
    ensures { result ≡ specs.placed (place_in functions.now) (place_in labels.now) at (shown_bundle bundle.now) }
{
    match bundle {
        DraftBundle::Ready { bundle } => *bundle,
        DraftBundle::Waiting { jump } => {
            let first = Instr {
                guard: jump.guard,
                op: placed_op(jump, functions, labels, at),
            };
            match jump.beside {
                None => Bundle::single(first),
                Some(second) => match Bundle::pair(first, second) {
                    Ok(bundle) => bundle,
                    Err(_) => unreachable!(),
                },
            }
        }
    }
}

// adds the code of a bundle
fn push_code(words: &mut Vec<u32>, bundle: &Bundle) -> Result<(), AllocError>
    ensures { OnOk result (words.new.items ≡ words.old.items ++ code bundle.now) }
{
    let coded = encode(bundle);
    words.push(coded.first)?;
    if coded.two {
        words.push(coded.second)?;
    }
    Ok(())
}

// adds the words of a statement that stands at this offset, with these after it
fn push_item(
    words: &mut Vec<u32>,
    functions: &Places<'_>,
    labels: &Places<'_>,
    at: usize,
    item: &Item,
    rest: &[Item],
) -> Result<(), AllocError>
    requires places { InBounds (place_in functions.now) (place_in labels.now) at }
    requires size { specs.size_from (shown_items rest.now) ≤ MOST_IN_FUNCTION }
    ensures { OnOk result (words.new.items
        ≡ words.old.items ++ specs.item_words (place_in functions.now) (place_in labels.now) at (shown_item item.now)
        (shown_items rest.now)) }
{
    match item {
        Item::Function { .. } => words.push(size_of_function(rest) as u32)?,
        Item::Bundle { bundle, .. } => {
            push_code(words, &placed(bundle, functions, labels, at))?;
        }
        Item::Label { .. } | Item::Faulty { .. } => {}
    }
    Ok(())
}

// the offset after a statement in its function, where it stands at this one
fn offset_after(at: usize, item: &Item) -> usize
    requires { at < 2 ^ 63 }
    ensures { result ≡ specs.offset_after at (shown_item item.now) }
{
    match item {
        Item::Function { .. } => 0,
        Item::Bundle { bundle, .. } => at + bundle.size(),
        Item::Label { .. } | Item::Faulty { .. } => at,
    }
}

/// The words of statements without a fault, where the functions have these places.
pub fn words_of(
    alloc: Global,
    functions: &Places<'_>,
    items: &[Item],
) -> Result<Vec<u32>, AllocError>
    requires places { (q : List ℕ)
        → place_in functions.now q ≡ specs.place_of (specs.functions_from 0 (shown_items items.now)) q }
    requires faultless { specs.first_fault (specs.place_of (specs.functions_from 0 (shown_items items.now)))
        (specs.place_of []) specs.nothing (shown_items items.now) ≡ None }
    ensures { IfOk result (λ words. words.items
        ≡ specs.words_from (specs.place_of (specs.functions_from 0 (shown_items items.now))) (specs.place_of []) 0
        (shown_items items.now)) }
{
    let mut words = Vec::new(alloc);
    let mut labels = labels_of(alloc, &[])?;
    let mut at = 0;
    for (i, item) in items.iter().enumerate() {
        let (_, rest) = items.split_at(i + 1);
        push_item(&mut words, functions, &labels, at, item, rest)?;
        labels = labels_after(alloc, labels, item, rest)?;
        at = offset_after(at, item);
    }
    Ok(words)
}
