ghost use Rattle.std.specs.Prelude.{◌≡◌};
ghost use Rattle.argo_ni.specs.Event.{IsClear};
ghost use Rattle.pipe_five.specs.Soundness.{NeverActs};

use patmos_step::Body;

/// With no other core there is nothing that the core's interface could send, and nothing that comes.
pub fn is_still(body: &Body)
    requires alone { body.now.place.cores ≡ 1 }
    requires clear { IsClear body.now.ni 0 }
    ensures { NeverActs body.now.ni }
{
    match body.ni.next_after(0) {
        Some(_) => unreachable!(),
        None => {}
    }
}
