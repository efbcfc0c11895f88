//! The names that are open where names are resolved.
ghost use Rattle.std.specs.Prelude.{◌≡◌, ◌<◌, ◌≤◌, ◌+◌, ◌^◌, [], ◌∷◌, ◌++◌, length, map, option_map, IfOk, IfSome, OnOk};
ghost use Rattle.c_tree.specs.declared.limits.TheConstants.{MOST_LEVELS};
ghost use Rattle.c_tree.specs.Names.{number_of};
ghost use Rattle.c_names.specs.Open.{open_names};
ghost use Rattle.c_meaning.specs.Entries.{found_shown};
ghost use Rattle.c_meaning.specs.Fits.{SlotsFit, StandsFits};
ghost use Rattle.c_meaning.specs.Values.{named};

use crate::globals::Globals;
use c_names::Names;
use c_tree::Slot;
use std::alloc::Global;
use tc_word::OutOfMemory;

/// What a name stands for.
#[derive(Clone, Copy, Debug)]
pub enum Found<'a> {
    /// The variable of a level.
    Variable { at: usize, unsigned: bool },
    /// A variable or an array outside functions.
    Outside { slot: &'a Slot },
    Nothing,
}

/// The names that are open: what is declared outside functions, the functions before this one, and the function's
/// variables, innermost last. No more variables are open than there are levels.
#[derive(Debug, Drop)]
pub struct Scope<'a> {
    globals: Globals<'a>,
    functions: Names<'a, ()>,
    variables: Names<'a, bool>,
    ghost numbered: { length (open_names functions) < 2 ^ 32 },
    ghost few: { length (open_names variables) ≤ MOST_LEVELS },
}

impl<'a> Scope<'a> {
    ghost use Rattle.c_meaning.specs.Open.{names_of, closed, functions_of};

    /// What is declared outside functions.
    pub fn new(alloc: Global, slots: &'a [Slot]) -> Result<Scope<'a>, OutOfMemory>
        requires { SlotsFit slots.now }
        ensures names { IfOk result (λ s. names_of s ≡ record { slots = slots.now; variables = [] }) }
        ensures functions { IfOk result (λ s. functions_of s ≡ []) }
    {
        let globals = Globals::new(alloc, slots)?;
        Ok(Scope {
            globals,
            functions: Names::new(alloc),
            variables: Names::new(alloc),
        })
    }

    /// How many variables are open.
    pub fn len(&self) -> usize
        ensures { result ≡ length (names_of self.now).variables }
    {
        self.variables.len()
    }

    /// What a name stands for.
    pub fn find(&self, name: &str) -> Found<'a>
        ensures shown { found_shown result ≡ named (names_of self.now) name.now }
        ensures fits { StandsFits (found_shown result) }
    {
        match self.variables.find(name) {
            Some((at, unsigned)) => Found::Variable { at, unsigned },
            None => match self.globals.find(name) {
                Some(slot) => Found::Outside { slot },
                None => Found::Nothing,
            },
        }
    }

    /// The number of a function.
    pub fn function(&self, name: &str) -> Option<usize>
        ensures number { result ≡ number_of name.now (functions_of self.now) }
        ensures small { IfSome result (λ n. n < 2 ^ 32) }
    {
        match self.functions.find(name) {
            None => None,
            Some((number, ())) => Some(number),
        }
    }

    /// Opens a variable.
    pub fn declare(&mut self, name: &'a str, unsigned: bool) -> Result<(), OutOfMemory>
        requires { length (names_of self.old).variables < MOST_LEVELS }
        ensures names { OnOk result (names_of self.new ≡ record {
          slots = (names_of self.old).slots;
          variables = (names_of self.old).variables ++ record { name = name.now; unsigned = unsigned } ∷ [];
        }) }
        ensures functions { OnOk result (functions_of self.new ≡ functions_of self.old) }
    {
        self.variables.open(name, unsigned)
    }

    /// Closes all variables but the first so many.
    #[tactic(auto, using(crate::proofs::Opened::shown_take))]
    pub fn close(&mut self, outer: usize)
        ensures names { names_of self.new ≡ closed outer (names_of self.old) }
        ensures functions { functions_of self.new ≡ functions_of self.old }
    {
        self.variables.close(outer);
    }

    /// One function more.
    pub fn define(&mut self, name: &'a str) -> Result<(), OutOfMemory>
        requires { length (functions_of self.old) + 1 < 2 ^ 32 }
        ensures names { OnOk result (names_of self.new ≡ names_of self.old) }
        ensures functions { OnOk result (functions_of self.new ≡ functions_of self.old ++ name.now ∷ []) }
    {
        self.functions.open(name, ())
    }
}
