ghost use Rattle.std.specs.Prelude.{◌≡◌, ◌≤◌, IfOk, IsTrue, map, option_map};
ghost use Rattle.slot_arbiter.specs.Table.{in_turn, is_table};
ghost use Rattle.toml.specs.View.{view};
ghost use Rattle.tc_job.specs.SlotTable as specs;
ghost use Rattle.tc_toml.specs.Values.{Reads, each_of, given};
ghost use Rattle.slot_arbiter.specs.declared.place.TheConstants.{LEAST_SLOT, MOST_SLOT};
ghost use Rattle.slot_arbiter.specs.declared.table.TheConstants.{MOST_CORES};

use slot_arbiter::{Place, Table};
use std::alloc::Global;
use tc_toml::{JobFault, Refusal, integers_in};
use tc_word::{List, OutOfMemory};
use toml::Value;

const RANGE: Refusal = Refusal::Fault(JobFault::Range);

/// The slot table of a value that must be there.
pub fn slot_table(alloc: Global, value: Option<&Value>, cores: u32) -> Result<List<u32>, Refusal>
    ensures table { Reads (λ entries. entries) result
        (specs.slot_table cores (option_map (λ v. view v.now) value.entry)) }
    ensures fits { IfOk result (λ entries. IsTrue (is_table cores entries)) }
{
    let Some(value) = value else {
        return Err(Refusal::Fault(JobFault::Missing));
    };
    let integers = integers_in(alloc, value)?;
    let entries = cores_in(alloc, integers.as_slice(), cores)?;
    match Table::new(entries.as_slice(), cores) {
        Some(_) => Ok(List::of(entries)),
        None => Err(RANGE),
    }
}

/// The cores that the integers name.
#[tactic(auto, using(tc_toml::proofs::Each::more_of, tc_toml::proofs::Each::none_of))]
fn cores_in(alloc: Global, integers: &[i64], cores: u32) -> Result<Vec<u32>, Refusal>
    ensures { Reads (λ v. v.items) result (given JobFault.Range (each_of (specs.core_of cores) integers.now)) }
{
    let mut entries = Vec::new(alloc);
    for integer in integers {
        let Some(core) = core_of(*integer, cores) else {
            return Err(RANGE);
        };
        entries.push(core)?;
    }
    Ok(entries)
}

/// The core that an integer names.
fn core_of(integer: i64, cores: u32) -> Option<u32>
    ensures { result ≡ specs.core_of cores integer }
{
    match u32::try_from(integer) {
        Ok(core) if core < cores => Some(core),
        _ => None,
    }
}

/// The slot table of a platform that states none, as the arbiter has it.
pub fn table_in_turn(alloc: Global, cores: u32, slot: u32) -> Result<List<u32>, OutOfMemory>
    requires some { 1 ≤ cores }
    requires most { cores ≤ MOST_CORES }
    requires slot_least { LEAST_SLOT ≤ slot }
    requires slot_most { slot ≤ MOST_SLOT }
    ensures order { IfOk result (λ entries. entries ≡ in_turn cores) }
    ensures fits { IfOk result (λ entries. IsTrue (is_table cores entries)) }
{
    let place = Place::new(cores, 0, slot, 0).unwrap();
    Ok(List::of(Vec::from_slice(alloc, place.table.as_slice())?))
}
