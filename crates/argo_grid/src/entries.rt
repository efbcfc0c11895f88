ghost use Rattle.std.specs.Prelude.{◌≡◌, ◌≤◌, IfOk, length, option_map};
ghost use Rattle.toml.specs.Data.{as_array};
ghost use Rattle.toml.specs.View.{view, items_view};
ghost use Rattle.tc_toml.specs.Values.{Reads, array_of, each_item, each_of, given};
ghost use Rattle.argo_grid.specs.Read as specs;

use crate::grid::Entry;
use crate::job::MOST_ENTRIES;
use std::alloc::Global;
use tc_toml::{JobFault, Refusal, integers_in};
use tc_word::List;
use toml::Value;

const MISSING: Refusal = Refusal::Fault(JobFault::Missing);

const KIND: Refusal = Refusal::Fault(JobFault::Kind);

const RANGE: Refusal = Refusal::Fault(JobFault::Range);

/// The entries of a value that must be there.
pub fn entries_of(alloc: Global, value: Option<&Value>) -> Result<List<Entry>, Refusal>
    ensures entries { Reads (λ entries. entries) result (specs.entries_of (option_map (λ v. view v.now) value.entry)) }
    ensures most { IfOk result (λ entries. length entries ≤ MOST_ENTRIES) }
{
    let Some(value) = value else {
        return Err(MISSING);
    };
    let lists = lists_in(alloc, value)?;
    if lists.len() > MOST_ENTRIES {
        return Err(RANGE);
    }
    Ok(List::of(entries_in(alloc, lists.as_slice())?))
}

/// The arrays of integers of a value that must be an array of such.
fn lists_in(alloc: Global, value: &Value) -> Result<Vec<List<i64>>, Refusal>
    ensures { Reads (λ v. v.items) result (array_of specs.integers_at (as_array (view value.now))) }
{
    let Some(items) = value.as_array() else {
        return Err(KIND);
    };
    lists_of(alloc, items.as_slice())
}

#[tactic(auto, using(crate::proofs::Arrays::next_list, crate::proofs::Arrays::no_list))]
fn lists_of(alloc: Global, items: &[Value]) -> Result<Vec<List<i64>>, Refusal>
    ensures { Reads (λ v. v.items) result (given JobFault.Kind (each_item specs.integers_at (items_view items.now))) }
{
    let mut lists = Vec::new(alloc);
    for item in items {
        let list = match integers_at(alloc, item) {
            Ok(list) => list,
            Err(refusal) => return Err(refusal),
        };
        lists.push(list)?;
    }
    Ok(lists)
}

/// The integers of a value that must be an array of integers.
#[tactic(auto, using(crate::proofs::Arrays::integers_given))]
fn integers_at(alloc: Global, value: &Value) -> Result<List<i64>, Refusal>
    ensures { Reads (λ list. list) result (given JobFault.Kind (specs.integers_at (view value.now))) }
{
    Ok(List::of(integers_in(alloc, value)?))
}

/// The entries that the arrays stand for.
#[tactic(auto, using(crate::proofs::Arrays::next_entry, crate::proofs::Arrays::no_entry))]
fn entries_in(alloc: Global, lists: &[List<i64>]) -> Result<Vec<Entry>, Refusal>
    ensures entries { Reads (λ v. v.items) result (given JobFault.Range (each_of specs.entry_of lists.now)) }
    ensures count { IfOk result (λ v. length v.items ≡ length lists.now) }
{
    let mut entries = Vec::new(alloc);
    for list in lists {
        let Some(entry) = entry_of(list.as_slice()) else {
            return Err(RANGE);
        };
        entries.push(entry)?;
    }
    Ok(entries)
}

/// The entry of four numbers.
#[tactic(auto, using(crate::proofs::Arrays::not_four))]
fn entry_of(integers: &[i64]) -> Option<Entry>
    ensures { result ≡ specs.entry_of integers.now }
{
    let [slot, from, to, arrive] = integers else {
        return None;
    };
    Some(Entry {
        slot: part_of(*slot)?,
        from: part_of(*from)?,
        to: part_of(*to)?,
        arrive: part_of(*arrive)?,
    })
}

/// A number of an entry, at most 1,000,000.
fn part_of(integer: i64) -> Option<u32>
    ensures { result ≡ specs.part_of integer }
{
    match u32::try_from(integer) {
        Ok(part) if part <= 1_000_000 => Some(part),
        _ => None,
    }
}
