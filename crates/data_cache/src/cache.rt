ghost use Rattle.std.specs.Prelude.{◌≡◌, ◌%◌, List, [], ◌∷◌, ◌++◌, Option, Some, None, IsSome};
ghost use Rattle.data_cache.specs.Accesses as specs;
ghost use Rattle.data_cache.specs.Accesses.{cached_word, Access};
ghost use Rattle.data_cache.specs.Accesses.Access.{Load, Store};
ghost use Rattle.data_cache.specs.Lines.{word_at, StandsFor};

/// How many lines the cache has.
const LINES: usize = 64;

/// How many bytes a line has.
const LINE_BYTES: u32 = 16;

/// A line of main memory: its number, counted in lines from address 0, and its four words.
#[derive(Clone, Copy, Debug, PartialEq, Eq)]
struct Line {
    number: u32,
    words: [u32; 4],
}

/// The data cache of one core. Addresses are in bytes, and name the word that holds them.
#[derive(Clone, Debug, PartialEq, Eq, Drop)]
pub struct DataCache {
    lines: [Option<Line>; LINES],
}

impl DataCache {
    /// A cache without lines.
    pub fn new() -> DataCache
        ensures stands { StandsFor [] result }
    {
        DataCache {
            lines: [None; LINES],
        }
    }

    /// The word at an address, or `None` exactly where its line is not present.
    pub fn probe(&self, address: u32) -> Option<u32>
        ensures word { result ≡ word_at self.now address }
        ensures cached { (accesses : List Access) → StandsFor accesses self.now
            → result ≡ cached_word accesses address }

        // A load of a present line changes nothing.
        ensures hit { IsSome result → (accesses : List Access) → StandsFor accesses self.now
            → StandsFor (accesses ++ Load address None ∷ []) self.now }
    {
        let number = address / LINE_BYTES;
        match &self.lines[index_of(number)] {
            Some(line) if line.number == number => Some(line.words[place_of(address)]),
            _ => None,
        }
    }

    /// Brings in the line of an address for a load that missed, and that read these four words of it.
    pub fn fill(&mut self, address: u32, words: [u32; 4])
        ensures stands { (accesses : List Access) → StandsFor accesses self.old
            → StandsFor (accesses ++ Load address (Some words) ∷ []) self.new }
    {
        let number = address / LINE_BYTES;
        self.lines[index_of(number)] = Some(Line { number, words });
    }

    /// Stores a word at an address: changes it where its line is present, and nothing else.
    pub fn write(&mut self, address: u32, value: u32)
        ensures stands { (accesses : List Access) → StandsFor accesses self.old
            → StandsFor (accesses ++ Store address value ∷ []) self.new }
    {
        let number = address / LINE_BYTES;
        if let Some(line) = &mut self.lines[index_of(number)]
            && line.number == number
        {
            line.words[place_of(address)] = value;
        }
    }
}

/// The index in the cache at which the line of this number may stand.
fn index_of(number: u32) -> usize
    ensures { result ≡ number % 64 }
{
    number as usize % LINES
}

/// The place of a word in its line.
fn place_of(address: u32) -> usize
    ensures { result ≡ specs.place_of address }
{
    address as usize / 4 % 4
}

#[cfg(test)]
mod tests {
    use super::*;

    #[test]
    fn lines_come_by_loads_alone(rt: HostRuntime) {
        let mut cache = DataCache::new();
        assert_eq!(rt; cache.probe(0x100_0040), None);
        cache.write(0x100_0040, 9);
        assert_eq!(rt; cache.probe(0x100_0040), None);
        cache.fill(0x100_0048, [1, 2, 3, 4]);
        for (address, want) in [
            (0x100_003c, None),
            (0x100_0040, Some(1)),
            (0x100_0044, Some(2)),
            (0x100_0048, Some(3)),
            (0x100_004c, Some(4)),
            (0x100_0050, None),
            (0x40, None),
        ] {
            assert_eq!(rt; cache.probe(address), want, "at {address}");
        }
    }

    #[test]
    fn a_line_of_the_same_index_takes_its_place(rt: HostRuntime) {
        let mut cache = DataCache::new();
        cache.fill(0x40, [1, 2, 3, 4]);
        cache.fill(0x50, [5, 6, 7, 8]);
        cache.write(0x44, 20);
        cache.write(0x454, 21);
        assert_eq!(rt; (cache.probe(0x44), cache.probe(0x48)), (Some(20), Some(3)));
        cache.fill(0x440, [9, 10, 11, 12]);
        assert_eq!(rt; (cache.probe(0x44), cache.probe(0x444)), (None, Some(10)));
        assert_eq!(rt; cache.probe(0x5c), Some(8));
        cache.fill(0x44, [1, 2, 3, 4]);
        assert_eq!(rt; cache.probe(0x44), Some(2));
    }

    #[test]
    fn a_line_stays_stale_until_it_is_read_again(rt: HostRuntime) {
        let mut memory = [1, 2, 3, 4];
        let mut cache = DataCache::new();
        cache.fill(0x100_0000, memory);
        // Another core stores into the shared word.
        memory[1] = 9;
        assert_eq!(rt; cache.probe(0x100_0004), Some(2));
        cache.fill(0x100_0400, [5, 6, 7, 8]);
        assert_eq!(rt; cache.probe(0x100_0004), None);
        cache.fill(0x100_0000, memory);
        assert_eq!(rt; cache.probe(0x100_0004), Some(9));
    }
}
