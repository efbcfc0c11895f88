ghost use Rattle.std.specs.Prelude.{◌≡◌, ℕ, List, ◌-◌, ◌≤◌, ◌++◌, length, nat_lt, take, replicate, IsTrue};
ghost use Rattle.std.specs.List.{list_all, range_with_len};
ghost use Rattle.std.specs.Option.{SomeIff};
ghost use Rattle.slot_arbiter.specs.declared.table.TheConstants.{MOST_CORES, MOST_ENTRIES};
ghost use Rattle.slot_arbiter.specs.Table.{has_entry, in_turn, is_size, is_table, IsPadded};
ghost use Rattle.std.proofs.Common.{ap, sym, ◌∙◌, length-take-le};

use std::marker::Model;

/// The most cores that a platform has.
pub const MOST_CORES: u32 = 16;

/// The most entries that a slot table has.
pub const MOST_ENTRIES: usize = 64;

/// A slot table: the core that owns each slot of the period, 1 to 64 entries.
#[derive(Clone, Copy, Debug, PartialEq, Eq)]
pub struct Table {
    count: u32,
    entries: [u32; 64],
}

impl Model for Table {
    ghost Value = { List ℕ };

    ghost view = { λ t. take t.count t.entries };

    ghost invariant = { λ t. IsPadded t.count t.entries };

    ghost inverse = { λ xs. record { count = length xs; entries = xs ++ replicate (64 - length xs) 0 } };

    ghost inverse_ok = { λ t h i. record {
      count = length-take-le t.count t.entries h.held i;
      entries = (ap (λ n. take t.count t.entries
          ++ replicate (64 - n) 0) (length-take-le t.count t.entries h.held) ∙ sym h.rest) i;
    } };
}

impl Table {
    /// The table with these entries, or `None` where they are no slot table for that many cores:
    /// where there are not 1 to 16 cores or not 1 to 64 entries, an entry is no core's number, or
    /// a core has no entry.
    pub fn new(entries: &[u32], cores: u32) -> Option<Table>
        ensures made { SomeIff result (IsTrue (is_table cores entries.now)) entries.now }
    {
        if !fits(entries, cores) {
            return None;
        }
        Some(padded(entries))
    }

    /// The owners of the slots, in the order of the slots.
    pub fn as_slice(&self) -> &[u32]
        ensures entries { result.now ≡ self.now }
    {
        &self.entries[..self.count as usize]
    }
}

/// Whether the entries are a slot table for that many cores.
pub fn fits(entries: &[u32], cores: u32) -> bool
    ensures { result ≡ is_table cores entries.now }
{
    is_size(cores, entries.len()) && each_is_core(entries, cores) && each_has_entry(entries, cores)
}

/// Whether a platform may have that many cores and its table that many entries.
fn is_size(cores: u32, entries: usize) -> bool
    ensures { result ≡ is_size cores entries }
{
    (1..=MOST_CORES).contains(&cores) && (1..=MOST_ENTRIES).contains(&entries)
}

/// Whether each entry is the number of a core.
fn each_is_core(entries: &[u32], cores: u32) -> bool
    ensures { result ≡ list_all (λ entry. nat_lt entry cores) entries.now }
{
    entries.iter().all(|entry| *entry < cores)
}

/// Whether each of the cores has an entry.
fn each_has_entry(entries: &[u32], cores: u32) -> bool
    ensures { result ≡ list_all (has_entry entries.now) (range_with_len 0 cores) }
{
    (0..cores).all(|core| entries.contains(&core))
}

/// The table with these entries, its other places filled with 0.
fn padded(entries: &[u32]) -> Table
    requires some { 1 ≤ length entries.now }
    requires most { length entries.now ≤ MOST_ENTRIES }
    ensures { result ≡ entries.now }
{
    let mut places = [0; MOST_ENTRIES];
    let (prefix, _) = places.split_at_mut(entries.len());
    prefix.copy_from_slice(entries);
    Table {
        count: entries.len() as u32,
        entries: places,
    }
}

/// The cores in their order, which is the table of a platform that states none.
const IN_TURN: [u32; 16] = [0, 1, 2, 3, 4, 5, 6, 7, 8, 9, 10, 11, 12, 13, 14, 15];

/// The table in which the cores follow one another, each with one slot.
pub fn round_robin(cores: u32) -> Table
    requires some { 1 ≤ cores }
    requires most { cores ≤ MOST_CORES }
    ensures order { result ≡ in_turn cores }
    ensures table { IsTrue (is_table cores result) }
{
    let (order, _) = IN_TURN.split_at(cores as usize);
    padded(order)
}

#[cfg(test)]
mod tests {
    use super::*;

    #[test]
    fn refuses_what_is_no_table(rt: HostRuntime) {
        assert_eq!(rt;
            Table::new(&[0, 1, 0, 2], 3)
                .expect(&rt, "a table")
                .as_slice(),
            [0, 1, 0, 2].as_slice()
        );
        assert!(rt; Table::new(&[0; 64], 1).is_some());
        assert!(rt; Table::new(&[0; 65], 1).is_none());
        assert!(rt; Table::new(&[], 1).is_none());
        assert!(rt; Table::new(&[], 0).is_none());
        assert!(rt; Table::new(&[0, 1, 2], 2).is_none());
        assert!(rt; Table::new(&[0, 0], 2).is_none());
    }
}
