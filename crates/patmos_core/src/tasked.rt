ghost use Rattle.std.specs.Prelude.{◌≤◌, IsTrue};
ghost use Rattle.patmos_step.specs.Facts.{facts};
ghost use Rattle.patmos_core.specs.Progress.{IsSound, IsMoving};

use crate::phase::Phase;
use patmos_step::Body;

/// A core with a task, and how far it has come.
#[derive(Drop)]
pub struct Tasked {
    pub body: Body,
    pub cycle: u64,
    pub phase: Phase,
    /// Its own act in the cycle moves words, and nothing else happens in it.
    pub moves: bool,
    ghost sound: { IsSound body cycle phase } by { Prim.hlevel facts },
    ghost moving: { IsTrue moves → IsMoving body cycle phase } by { Prim.hlevel facts },
}
