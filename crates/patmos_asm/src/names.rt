ghost use Rattle.std.specs.Prelude.{◌≡◌, ◌≤◌, ℕ, List, bytes_eq, if◌then◌else◌, Some, None, IfOk, OnOk};
ghost use Rattle.std.specs.Option.{option_or};
ghost use Rattle.patmos_asm.specs.Assembly.{place_of, labels_from, functions_from, labels_after};
ghost use Rattle.patmos_asm.specs.Names.{place_in};
ghost use Rattle.patmos_syntax.specs.Shown.{shown_item, shown_items};

use indexmap::IndexMap;
use patmos_syntax::Item;
use std::alloc::{AllocError, Global};

/// Names and their places, in words.
pub type Places<'a> = IndexMap<&'a [u8], usize>;

// sets the place of a name, unless it has one
fn set_first<'a>(places: &mut Places<'a>, name: &'a [u8], place: usize) -> Result<(), AllocError>
    ensures { OnOk result ((q : List ℕ) → place_in places.new q
        ≡ option_or (place_in places.old q) (if bytes_eq q name.now then Some place else None)) }
{
    if places.get(name).is_none() {
        places.insert(name, place)?;
    }
    Ok(())
}

/// The labels of the function that stands first, as offsets from its first word.
pub fn labels_of(alloc: Global, items: &[Item]) -> Result<Places<'_>, AllocError>
    ensures { IfOk result (λ places. (q : List ℕ)
        → place_in places q ≡ place_of (labels_from 0 (shown_items items.now)) q) }
{
    let mut places = IndexMap::new(alloc);
    let mut at = 0;
    for item in items {
        match item {
            Item::Function { .. } => return Ok(places),
            Item::Label { name, .. } => set_first(&mut places, name.as_slice(), at)?,
            Item::Bundle { bundle, .. } => at += bundle.size(),
            Item::Faulty { .. } => {}
        }
    }
    Ok(places)
}

/// The functions, and the places of their first words in the image.
pub fn functions_of(alloc: Global, items: &[Item]) -> Result<Places<'_>, AllocError>
    ensures { IfOk result (λ places. (q : List ℕ)
        → place_in places q ≡ place_of (functions_from 0 (shown_items items.now)) q) }
{
    let mut places = IndexMap::new(alloc);
    let mut at = 0;
    for item in items {
        match item {
            Item::Function { name, .. } => {
                at += 1;
                set_first(&mut places, name.as_str().as_bytes(), at)?;
            }
            Item::Bundle { bundle, .. } => at += bundle.size(),
            Item::Label { .. } | Item::Faulty { .. } => {}
        }
    }
    Ok(places)
}

/// The labels of the function in which what follows a statement stands.
pub fn labels_after<'a>(
    alloc: Global,
    labels: Places<'a>,
    item: &Item,
    rest: &'a [Item],
) -> Result<Places<'a>, AllocError>
    ensures { IfOk result (λ places. (q : List ℕ) → place_in places q
        ≡ labels_after (place_in labels.entry) (shown_item item.now) (shown_items rest.now) q) }
{
    match item {
        Item::Function { .. } => labels_of(alloc, rest),
        _ => Ok(labels),
    }
}
