ghost use Rattle.std.specs.Prelude.{◌≡◌, ◌≤◌, IfOk, map, option_map};
ghost use Rattle.toml.specs.Data.{as_integer, as_table};
ghost use Rattle.toml.specs.View.{view, items_view, table_view};
ghost use Rattle.tc_toml.specs.Values as specs;

use crate::fault::{JobFault, Refusal};
use std::alloc::Global;
use toml::{Table, Value};

const MISSING: Refusal = Refusal::Fault(JobFault::Missing);

const KIND: Refusal = Refusal::Fault(JobFault::Kind);

const RANGE: Refusal = Refusal::Fault(JobFault::Range);

fn integer_in(value: Option<i64>, low: u32, high: u32) -> Result<u32, Refusal>
    ensures number { specs.Reads (λ n. n) result (specs.integer_in low high value) }
    ensures least { IfOk result (λ n. low ≤ n) }
    ensures most { IfOk result (λ n. n ≤ high) }
{
    let Some(value) = value else {
        return Err(KIND);
    };
    match u32::try_from(value) {
        Ok(number) if low <= number && number <= high => Ok(number),
        _ => Err(RANGE),
    }
}

/// The integer, from `low` to `high`, of a value that must be there.
pub fn number_of(value: Option<&Value>, low: u32, high: u32) -> Result<u32, Refusal>
    ensures number { specs.Reads (λ n. n) result (specs.number_of low high (option_map (λ v. view v.now) value.entry)) }
    ensures least { IfOk result (λ n. low ≤ n) }
    ensures most { IfOk result (λ n. n ≤ high) }
{
    let Some(value) = value else {
        return Err(MISSING);
    };
    integer_in(value.as_integer(), low, high)
}

/// The integer, from `low` to `high`, of a value that may be left out.
pub fn number_or(value: Option<&Value>, left_out: u32, low: u32, high: u32) -> Result<u32, Refusal>
    requires least { low ≤ left_out }
    requires most { left_out ≤ high }
    ensures number { specs.Reads (λ n. n) result
        (specs.number_or left_out low high (option_map (λ v. view v.now) value.entry)) }
    ensures least { IfOk result (λ n. low ≤ n) }
    ensures most { IfOk result (λ n. n ≤ high) }
{
    let Some(value) = value else {
        return Ok(left_out);
    };
    integer_in(value.as_integer(), low, high)
}

/// The string of a value that must be there.
pub fn text_of(value: Option<&Value>) -> Result<&str, Refusal>
    ensures { specs.Reads (λ s. s.now) result (specs.text_of (option_map (λ v. view v.now) value.entry)) }
{
    let Some(value) = value else {
        return Err(MISSING);
    };
    value.as_str().ok_or(KIND)
}

/// The integers of a value that must be an array of integers.
pub fn integers_in(alloc: Global, value: &Value) -> Result<Vec<i64>, Refusal>
    ensures { specs.Reads (λ v. v.items) result (specs.integers_in (view value.now)) }
{
    let Some(items) = value.as_array() else {
        return Err(KIND);
    };
    integers_of(alloc, items.as_slice())
}

#[tactic(auto, using(crate::proofs::Items::more_items, crate::proofs::Items::no_item))]
fn integers_of(alloc: Global, items: &[Value]) -> Result<Vec<i64>, Refusal>
    ensures { specs.Reads (λ v. v.items) result
        (specs.given JobFault.Kind (specs.each_item as_integer (items_view items.now))) }
{
    let mut integers = Vec::new(alloc);
    for item in items {
        let Some(integer) = item.as_integer() else {
            return Err(KIND);
        };
        integers.push(integer)?;
    }
    Ok(integers)
}

/// The tables of a value that must be an array of tables, where it is there.
pub fn tables_of<'a>(alloc: Global, value: Option<&'a Value>) -> Result<Vec<&'a Table>, Refusal>
    ensures { specs.Reads (λ v. map (λ t. table_view t.now) v.items) result
        (specs.tables_of (option_map (λ v. view v.now) value.entry)) }
{
    let Some(value) = value else {
        return Ok(Vec::new(alloc));
    };
    let Some(items) = value.as_array() else {
        return Err(KIND);
    };
    tables_in(alloc, items.as_slice())
}

#[tactic(auto, using(crate::proofs::Items::more_items, crate::proofs::Items::no_item))]
fn tables_in<'a>(alloc: Global, items: &'a [Value]) -> Result<Vec<&'a Table>, Refusal>
    ensures { specs.Reads (λ v. map (λ t. table_view t.now) v.items) result
        (specs.given JobFault.Kind (specs.each_item as_table (items_view items.now))) }
{
    let mut tables = Vec::new(alloc);
    for item in items {
        let Some(table) = item.as_table() else {
            return Err(KIND);
        };
        tables.push(table)?;
    }
    Ok(tables)
}
