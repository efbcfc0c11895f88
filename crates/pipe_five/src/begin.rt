ghost use Rattle.std.specs.Prelude.{◌≡◌, true};
ghost use Rattle.patmos_model.specs.Begin.{entry};
ghost use Rattle.pipe_five.specs.Stages.{is_start};

use crate::board::zeros;
use crate::lone::Lone;
use crate::still::is_still;
use patmos_code::Image;
use patmos_step::Body;
use slot_arbiter::Place;
use std::alloc::Global;
use tc_word::OutOfMemory;

impl Lone {
    ghost use Rattle.std.specs.Prelude.{◌≡◌, IfOk};
    ghost use Rattle.patmos_model.specs.Apart.{site_of};
    ghost use Rattle.patmos_model.specs.Begin.{begun};
    ghost use Rattle.pipe_five.specs.Lone.{RunsAs};

    /// The only core of a platform, at its place, with a task and its input, before the first cycle.
    pub fn new(
        alloc: Global,
        place: Place,
        image: &Image,
        input: &[u32],
    ) -> Result<Lone, OutOfMemory>
        requires alone { place.cores ≡ 1 }
        ensures runs { IfOk result (λ l. RunsAs l (begun (site_of place image.now) input.now)) }
        ensures first { IfOk result (λ l. l.cycle ≡ 0) }
    {
        begins_with_function(image);
        let body = Body::new(alloc, place, image, input, 0)?;
        is_still(&body);
        let words = zeros(alloc)?;
        Ok(Lone {
            body,
            words,
            cycle: 0,
        })
    }
}

// a task begins where a function starts
#[tactic(auto, using(crate::proofs::Starts::entry_starts))]
fn begins_with_function(image: &Image)
    ensures { is_start image.now (entry image.now) ≡ true }
{
    let _ = image.starts();
}
