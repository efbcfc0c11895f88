//! What is noted of a program, one use after another.
ghost use Rattle.std.specs.Prelude.{◌≡◌, ◌∷◌, []};
ghost use Rattle.c_meaning.specs.Values.{named};

use crate::arrays::{Arrays, meant};
use slot_arbiter::MOST_CORES;

/// What was noted of a program up to a place in its text, a flag for each answer.
#[derive(Clone, Copy, Debug)]
pub struct Flags {
    /// A name means `comm`.
    pub comm: bool,
    /// A name means `shared`.
    pub shared: bool,
    /// An element of `shared` is assigned.
    pub assigns_shared: bool,
    /// Whether there is a `send` to each of the cores 0 to 15.
    pub sends: [bool; 16],
}

ghost use Rattle.c_mentions.specs.Noted.{none_noted, with_use, Notes};
ghost use Rattle.c_mentions.specs.Uses.{reads, sets, sends};

/// Nothing is mentioned.
pub fn nothing_noted() -> Flags
    ensures { result ≡ none_noted }
{
    Flags {
        comm: false,
        shared: false,
        assigns_shared: false,
        sends: [false; 16],
    }
}

/// A name is read.
#[tactic(auto, using(crate::proofs::Leaves::read_noted))]
pub fn note_read(m: &mut Flags, hidden: Arrays, name: &str)
    ensures { Notes hidden m.old m.new (λ names. reads (named names name.now) ∷ []) }
{
    let means = meant(hidden, name);
    m.comm = m.comm || means.comm;
    m.shared = m.shared || means.shared;
}

/// A variable, or an element of an array, is set.
#[tactic(auto, using(crate::proofs::Leaves::set_noted))]
pub fn note_set(m: &mut Flags, hidden: Arrays, name: &str)
    ensures { Notes hidden m.old m.new (λ names. sets (named names name.now) ∷ []) }
{
    let means = meant(hidden, name);
    m.comm = m.comm || means.comm;
    m.shared = m.shared || means.shared;
    m.assigns_shared = m.assigns_shared || means.shared;
}

/// Words are sent to a core.
pub fn note_send(m: &mut Flags, core: u32)
    ensures { m.new ≡ with_use m.old (sends core) }
{
    if core < MOST_CORES {
        m.sends[core as usize] = true;
    }
}
