ghost use Rattle.std.specs.Prelude.{◌≡◌, ℕ, List, ◌+◌, ◌^◌, ◌<◌, ◌≤◌, [], is_some, IfOk, OnOk};
ghost use Rattle.patmos_asm.specs.Assembly as specs;
ghost use Rattle.patmos_asm.specs.Names.{place_in, names_in};
ghost use Rattle.patmos_asm.specs.Before.{shown_before};
ghost use Rattle.patmos_syntax.specs.Shown.{shown_draft, shown_bundle, shown_item, shown_items};

use crate::faults::AsmFault;
use crate::names::{Places, labels_after, labels_of};
use indexmap::IndexSet;
use patmos_code::{MOST_IN_FUNCTION, MOST_IN_IMAGE};
use patmos_forms::{AsmKind, JumpKind};
use patmos_syntax::{DraftBundle, Item};
use std::alloc::{AllocError, Global};

/// Names that were set.
type Names<'a> = IndexSet<&'a [u8]>;

/// What stands before a statement: the names of the functions begun and of the labels set in its function,
/// and how many words its function and the image have.
#[derive(Drop)]
struct Before<'a> {
    functions: Names<'a>,
    labels: Names<'a>,
    size: usize,
    image: usize,
}

#[tactic(auto, using(crate::proofs::Noted::among_keys))]
fn is_among(name: &[u8], names: &Names<'_>) -> bool
    ensures { result ≡ specs.is_among name.now (names_in names.now) }
{
    names.contains(name)
}

#[tactic(auto, using(crate::proofs::Noted::noted_keys))]
fn note<'a>(name: &'a [u8], names: &mut Names<'a>) -> Result<(), AllocError>
    ensures { OnOk result (names_in names.new ≡ specs.noted name.now (names_in names.old)) }
{
    names.insert(name)?;
    Ok(())
}

fn has_place(name: &[u8], places: &Places<'_>) -> bool
    ensures { result ≡ is_some (place_in places.now name.now) }
{
    places.contains_key(name)
}

// whether a jump's name is set
fn is_known(functions: &Places<'_>, labels: &Places<'_>, bundle: &DraftBundle) -> bool
    ensures { result ≡ specs.is_known (place_in functions.now) (place_in labels.now)
        (shown_bundle bundle.now).first.draft }
{
    match bundle {
        DraftBundle::Ready { .. } => true,
        DraftBundle::Waiting { jump } => {
            let name = jump.name.as_slice();
            match jump.flow {
                JumpKind::Branch => has_place(name, labels),
                JumpKind::Call | JumpKind::BranchFill => has_place(name, functions),
            }
        }
    }
}

impl<'a> Before<'a> {
    fn new(alloc: Global) -> Before<'a>
        ensures { shown_before result ≡ specs.nothing }
    {
        Before {
            functions: IndexSet::new(alloc),
            labels: IndexSet::new(alloc),
            size: 0,
            image: 0,
        }
    }

    // the fault of the statement that stands next
    fn fault_of(&self, functions: &Places<'_>, labels: &Places<'_>, item: &Item) -> Option<AsmKind>
        requires { (self.now.size < 2 ^ 63) × (self.now.image < 2 ^ 63) }
        ensures { result ≡ specs.fault_of (place_in functions.now) (place_in labels.now) (shown_before self.now)
            (shown_item item.now) }
    {
        match item {
            Item::Function { name, .. } => {
                if is_among(name.as_str().as_bytes(), &self.functions) {
                    Some(AsmKind::LabelTwice)
                } else if self.image + 1 > MOST_IN_IMAGE {
                    Some(AsmKind::TooLarge)
                } else {
                    None
                }
            }
            Item::Label { name, .. } => {
                if is_among(name.as_slice(), &self.labels) {
                    Some(AsmKind::LabelTwice)
                } else {
                    self.no_function()
                }
            }
            Item::Bundle { bundle, .. } => {
                let size = bundle.size();
                if !is_known(functions, labels, bundle) {
                    Some(AsmKind::NoLabel)
                } else if self.size + size > MOST_IN_FUNCTION || self.image + size > MOST_IN_IMAGE {
                    Some(AsmKind::TooLarge)
                } else {
                    self.no_function()
                }
            }
            Item::Faulty { fault, .. } => Some(*fault),
        }
    }

    fn no_function(&self) -> Option<AsmKind>
        ensures { result ≡ specs.no_function (shown_before self.now) }
    {
        if self.functions.is_empty() {
            Some(AsmKind::NoFunction)
        } else {
            None
        }
    }

    // goes after the statement
    fn add(&mut self, item: &'a Item) -> Result<(), AllocError>
        requires { (self.old.size < 2 ^ 63) × (self.old.image < 2 ^ 63) }
        ensures { OnOk result (shown_before self.new ≡ specs.after (shown_before self.old) (shown_item item.now)) }
    {
        match item {
            Item::Function { name, .. } => {
                note(name.as_str().as_bytes(), &mut self.functions)?;
                self.labels.clear();
                self.size = 0;
                self.image += 1;
            }
            Item::Label { name, .. } => note(name.as_slice(), &mut self.labels)?,
            Item::Bundle { bundle, .. } => {
                let size = bundle.size();
                self.size += size;
                self.image += size;
            }
            Item::Faulty { .. } => {}
        }
        Ok(())
    }
}

/// The fault of the first faulty statement, where the functions have these places.
pub fn first_fault(
    alloc: Global,
    functions: &Places<'_>,
    items: &[Item],
) -> Result<Option<AsmFault>, AllocError>
    requires places { (q : List ℕ)
        → place_in functions.now q ≡ specs.place_of (specs.functions_from 0 (shown_items items.now)) q }
    ensures { IfOk result (λ reported. reported
        ≡ specs.first_fault (specs.place_of (specs.functions_from 0 (shown_items items.now)))
        (specs.place_of []) specs.nothing (shown_items items.now)) }
{
    fault_among(alloc, functions, items)
}

// the first fault of the items, where the places are those of any functions
fn fault_among(
    alloc: Global,
    functions: &Places<'_>,
    items: &[Item],
) -> Result<Option<AsmFault>, AllocError>
    ensures { IfOk result (λ reported. reported
        ≡ specs.first_fault (place_in functions.now) (specs.place_of []) specs.nothing (shown_items items.now)) }
{
    let mut labels = labels_of(alloc, &[])?;
    let mut before = Before::new(alloc);
    for (i, item) in items.iter().enumerate() {
        if let Some(fault) = before.fault_of(functions, &labels, item) {
            let line = item.line();
            return Ok(Some(AsmFault { fault, line }));
        }
        before.add(item)?;
        let (_, rest) = items.split_at(i + 1);
        labels = labels_after(alloc, labels, item, rest)?;
    }
    Ok(None)
}
