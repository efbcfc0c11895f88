ghost use Rattle.std.specs.Prelude.{◌≡◌, length};
ghost use Rattle.argo_ni.specs.Packet as packets;
ghost use Rattle.patmos_step.specs.Facts.{facts};
ghost use Rattle.pipe_five.specs.Soundness.{CanStep};

use patmos_step::Body;

/// The only core of a platform, with the words of its board, before a cycle.
#[derive(Drop)]
pub struct Lone {
    pub body: Body,
    pub words: Vec<u32>,
    pub cycle: u64,
    ghost can: { CanStep body cycle } by { Prim.hlevel facts },
    ghost sized: { length words.items ≡ packets.comm_word 1 0 },
}
