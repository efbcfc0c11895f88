ghost use Rattle.std.specs.Prelude.{◌≡◌, ◌≤◌};
ghost use Rattle.patmos_syntax.specs.Drafts.{size_of};
ghost use Rattle.patmos_syntax.specs.Shown.{shown_bundle};

use crate::draft_types::DraftBundle;

impl DraftBundle {
    /// How many words it has.
    pub fn size(&self) -> usize
        ensures value { result ≡ size_of (shown_bundle self.now) }
        ensures small { result ≤ 2 }
    {
        match self {
            DraftBundle::Ready { bundle } => {
                let first = bundle.first();
                if first.op.is_long() || bundle.second().is_some() {
                    2
                } else {
                    1
                }
            }
            DraftBundle::Waiting { jump } => { if jump.beside.is_some() { 2 } else { 1 } }
        }
    }
}
