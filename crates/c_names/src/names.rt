//! The open names, with a map of the last of each.
ghost use Rattle.std.specs.Prelude.{◌≡◌, ℕ, ◌-◌, ◌<◌, ◌∷◌, ◌++◌, List, [], take, length, map, bytes_eq, IfSome, IsSome, OnOk, OnErr, if◌then◌else◌};
ghost use Rattle.c_tree.specs.Names.{number_of};
ghost use Rattle.c_names.specs.Entries.{name_of, last_in, KeepsHidden};

use std::alloc::{AllocError, Global};
use std::collections::HashMap;
use tc_word::OutOfMemory;

/// An open name, what it is declared as, and the number of the one of the same name that it hides.
#[derive(Clone, Copy, Debug)]
struct Entry<'a, T> {
    name: &'a str,
    means: T,
    hides: Option<usize>,
}

/// The names that are open, innermost last, with what each is declared as, and the number of the last of each.
#[derive(Debug, Drop)]
pub struct Names<'a, T: Copy> {
    entries: Vec<Entry<'a, T>>,
    last: HashMap<&'a str, usize>,
    ghost last_kept: { (name : List ℕ) → last_in last name ≡ number_of name (map name_of entries.items) },
    ghost hidden_kept: { KeepsHidden entries.items },
}

// what a name means again, once the last one so called is closed
#[tactic(auto, using(std::proofs::lemmas::Map::Text::text_keys))]
fn restore<'a>(last: &mut HashMap<&'a str, usize>, name: &'a str, hidden: Option<usize>)
    requires { IsSome (last_in last.old name.now) }
    ensures { (q : List ℕ) → last_in last.new q ≡ (if bytes_eq name.now q then hidden else last_in last.old q) }
{
    match hidden {
        None => {
            last.remove(name);
        }
        Some(hidden) => {
            if let Some(number) = last.get_mut(name) {
                *number = hidden;
            }
        }
    }
}

impl<'a, T: Copy> Names<'a, T> {
    ghost use Rattle.c_names.specs.Open.{open_names, found_among};

    /// No names.
    pub fn new(alloc: Global) -> Names<'a, T>
        ensures { open_names result ≡ [] }
    {
        Names {
            entries: Vec::new(alloc),
            last: HashMap::new(alloc),
        }
    }

    /// How many names are open.
    pub fn len(&self) -> usize
        ensures { result ≡ length (open_names self.now) }
    {
        self.entries.len()
    }

    // the number of the last name so called
    fn number(&self, name: &str) -> Option<usize>
        ensures number { result ≡ number_of name.now (map name_of self.now.entries.items) }
        ensures within { IfSome result (λ n. n < length self.now.entries.items) }
    {
        self.last.get(name).copied()
    }

    /// The last name so called: its number, and what it is declared as.
    pub fn find(&self, name: &str) -> Option<(usize, T)>
        ensures found { result ≡ found_among name.now (open_names self.now) }
        ensures within { IfSome result (λ f. f.0 < length (open_names self.now)) }
    {
        match self.number(name) {
            None => None,
            Some(number) => Some((number, self.entries[number].means)),
        }
    }

    /// Opens a name. It is `Err` where memory runs out, and then changes nothing.
    pub fn open(&mut self, name: &'a str, means: T) -> Result<(), OutOfMemory>
        ensures opened { OnOk result (open_names self.new
            ≡ open_names self.old ++ record { name = name.now; means = means } ∷ []) }
        ensures kept { OnErr result (open_names self.new ≡ open_names self.old) }
    {
        let number = self.entries.len();
        let hides = self.number(name);
        self.entries.push(Entry { name, means, hides })?;
        match self.last.insert(name, number) {
            Ok(_) => Ok(()),
            Err(_) => {
                self.entries.truncate(number);
                Err(AllocError)
            }
        }
    }

    // closes the last name: what it hides is meant again
    fn close_last(&mut self)
        ensures { open_names self.new ≡ take (length (open_names self.old) - 1) (open_names self.old) }
    {
        let Some(closed) = self.entries.pop() else {
            return;
        };
        restore(&mut self.last, closed.name, closed.hides);
    }

    /// Closes all names but the first so many.
    pub fn close(&mut self, outer: usize)
        ensures { open_names self.new ≡ take outer (open_names self.old) }
    {
        while self.entries.len() > outer {
            self.close_last();
        }
    }
}
