//! Where a walk over a tree stands.
ghost use Rattle.std.specs.Prelude.{◌≡◌, ◌+◌, ◌<◌, OnOk};
ghost use Rattle.c_tree.specs.Least as least;

use c_tree::{CheckFault, Fault};
use std::alloc::AllocError;
use tc_word::OutOfMemory;

/// Where a walk over a tree stands, as the number of tokens before it, and the least fault so far.
#[derive(Clone, Copy, Debug, PartialEq, Eq)]
pub struct Walk {
    pub at: u32,
    pub least: Option<Fault>,
}

impl Walk {
    /// Goes on by so many tokens. A tree of 2^32 tokens or more has places that no word tells: that is want of memory.
    pub fn pass(&mut self, tokens: usize) -> Result<(), OutOfMemory>
        ensures at { OnOk result (self.new.at ≡ self.old.at + tokens) }
        ensures least { OnOk result (self.new.least ≡ self.old.least) }
    {
        let Ok(tokens) = u32::try_from(tokens) else {
            return Err(AllocError);
        };
        let Some(at) = self.at.checked_add(tokens) else {
            return Err(AllocError);
        };
        self.at = at;
        Ok(())
    }

    /// Goes back by one token.
    pub fn back(&mut self)
        requires { 0 < self.old.at }
        ensures at { self.new.at + 1 ≡ self.old.at }
        ensures least { self.new.least ≡ self.old.least }
    {
        self.at -= 1;
    }

    /// Notes a fault that is here.
    pub fn note(&mut self, kind: CheckFault)
        ensures at { self.new.at ≡ self.old.at }
        ensures least { self.new.least ≡ least.lesser self.old.least (record { at = self.old.at; kind = kind }) }
    {
        let fault = Fault { at: self.at, kind };
        self.least = Some(match self.least {
            Some(least) if !is_before(fault, least) => least,
            _ => fault,
        });
    }

    /// Notes a fault that is here, where it holds.
    pub fn note_if(&mut self, holds: bool, kind: CheckFault)
        ensures at { self.new.at ≡ self.old.at }
        ensures least { self.new.least ≡ least.least_with self.old.least (least.where_so holds self.old.at kind) }
    {
        if holds {
            self.note(kind);
        }
    }
}

// the earlier place comes first, and at one place the lesser number
fn is_before(a: Fault, b: Fault) -> bool
    ensures { result ≡ least.is_before a b }
{
    a.at < b.at || (a.at == b.at && a.kind.number() < b.kind.number())
}
