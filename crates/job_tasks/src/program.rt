//! What a C task is made to, beside its image.
ghost use Rattle.c_mentions.specs.Reported.{Tells};
ghost use Rattle.c_tree.specs.Plain.{plain};

use c_mentions::{Mentioning, Mentions};
use c_tree::Checked;
use sp_shape::Shape;

/// A C program, what it mentions, how many cycles it takes at most on its core, and by what stays in the method cache,
/// and the shape of its code.
#[derive(Drop)]
pub struct Program {
    pub checked: Checked,
    pub mentions: Mentions,
    pub bound: u64,
    pub persist: u64,
    pub shape: Shape,
    pub ghost tells: { Tells mentions (plain checked.unit) },
}

impl Mentioning for Program {
    ghost use Rattle.c_tree.specs.Plain.{plain};

    ghost items = { λ p. plain p.checked.unit };

    fn mentions(&self) -> Mentions {
        self.mentions
    }
}
