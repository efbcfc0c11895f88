//! The open names, with what they are declared as.
ghost use Rattle.std.specs.Prelude.{◌≡◌, [], take, length, OnOk};
ghost use Rattle.c_tree.specs.Names.{found, is_declared, declared};

use c_tree::Meaning;
use std::alloc::Global;
use tc_word::OutOfMemory;

/// The names that are open, innermost last, and what each is declared as.
#[derive(Debug, Drop)]
pub struct Names<'a> {
    names: c_names::Names<'a, Meaning>,
}

impl<'a> Names<'a> {
    ghost use Rattle.c_check.specs.Open.{names_of};

    /// No names.
    pub fn new(alloc: Global) -> Names<'a>
        ensures { names_of result ≡ [] }
    {
        Names {
            names: c_names::Names::new(alloc),
        }
    }

    /// How many names are open.
    pub fn len(&self) -> usize
        ensures { result ≡ length (names_of self.now) }
    {
        self.names.len()
    }

    /// What a name means.
    pub fn find(&self, name: &str) -> Option<Meaning>
        ensures { result ≡ found name.now (names_of self.now) }
    {
        match self.names.find(name) {
            None => None,
            Some((_, means)) => Some(means),
        }
    }

    /// Whether a name is declared already, apart from the first `outer` names.
    pub fn is_declared(&self, name: &str, outer: usize) -> bool
        ensures { result ≡ is_declared name.now outer (names_of self.now) }
    {
        match self.names.find(name) {
            None => false,
            Some((number, _)) => number >= outer,
        }
    }

    /// Declares a name.
    pub fn declare(&mut self, name: &'a str, means: Meaning) -> Result<(), OutOfMemory>
        ensures { OnOk result (names_of self.new ≡ declared (names_of self.old) name.now means) }
    {
        self.names.open(name, means)
    }

    /// Closes all names but the first `outer`.
    pub fn close(&mut self, outer: usize)
        ensures { names_of self.new ≡ take outer (names_of self.old) }
    {
        self.names.close(outer);
    }
}
