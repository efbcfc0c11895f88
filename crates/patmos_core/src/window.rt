ghost use Rattle.std.specs.Prelude.{◌≡◌, ℕ, ◌+◌, ◌*◌, ◌<◌, ◌≤◌, true, IfSome, IsNone};
ghost use Rattle.argo_ni.specs.Turn.{acts};
ghost use Rattle.argo_ni.specs.Event.{half_of, IsNextAct, IsInjection};
ghost use Rattle.patmos_core.specs.Progress.{TellsNext};
ghost use Rattle.patmos_step.specs.Ready.{IsUpTo};

use argo_ni::{Ni, NiEvent, NiKind};

/// The packet of a window: so many words, from word `first` of the core's own communication memory on.
#[derive(Clone, Copy, Debug, PartialEq, Eq)]
pub struct Window {
    pub target: u32,
    pub first: u32,
    pub count: u32,
}

/// What the interface does next, if anything is left.
pub fn next_act(ni: &Ni) -> Option<NiEvent>
    requires cores { 0 < ni.now.interface.cores }
    requires some { (half : ℕ) → ni.now.from ≤ half → acts ni.now.interface half ≡ true → 1 ≤ half }
    ensures { TellsNext ni.now result }
{
    ni.next_after(0)
}

/// The packet that the interface sends in the cycle; without one, its next act comes later.
#[tactic(auto, using(crate::proofs::Resumed::comes_in_phase))]
pub fn window_in(ni: &Ni, next: Option<NiEvent>, cycle: u64) -> Option<Window>
    requires next { TellsNext ni.now next }
    requires up_to { IsUpTo (2 * cycle + 1) ni.now }
    ensures due { IfSome result (λ w. IsNextAct ni.now (2 * cycle + 1)) }
    ensures packet { IfSome result (λ w. IsInjection ni.now.interface cycle w.target w.first w.count) }
    ensures none { IsNone result → IfSome next (λ e. 2 * cycle + 1 < half_of e) }
{
    let act = next?;
    let NiKind::Inject {
        target,
        first,
        count,
    } = act.kind
    else {
        return None;
    };
    if act.cycle != cycle {
        return None;
    }
    Some(Window {
        target,
        first,
        count,
    })
}
