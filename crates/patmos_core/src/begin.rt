ghost use Rattle.std.specs.Prelude.{◌≡◌, [], None, IfOk};
ghost use Rattle.patmos_model.specs.Begin.{begun, idle, no_code};
ghost use Rattle.patmos_model.specs.Apart.{site_of};
ghost use Rattle.patmos_core.specs.Position.{StandsFor, waiting_of, limit_of, place_of, room_of};

use crate::cpu::Core;
use crate::events::blank;
use crate::kind::Kind;
use crate::phase::Phase;
use crate::tasked::Tasked;
use patmos_code::Image;
use patmos_step::Body;
use slot_arbiter::Place;
use std::alloc::Global;
use tc_word::OutOfMemory;

impl Core {
    /// The core at a place with a task and its input, before the first cycle. Its first transactions, as
    /// many as `trace`, are kept. It takes memory for them, for the core's memories and for a copy of the
    /// image.
    pub fn new(
        alloc: Global,
        place: Place,
        image: &Image,
        input: &[u32],
        trace: u32,
    ) -> Result<Core, OutOfMemory>
        ensures stands { IfOk result (λ k. StandsFor k (begun (site_of place image.now) input.now) []) }
        ensures waiting { IfOk result (λ k. waiting_of k ≡ None) }
        ensures limit { IfOk result (λ k. limit_of k ≡ 0) }
        ensures place { IfOk result (λ k. place_of k ≡ place) }
        ensures room { IfOk result (λ k. room_of k ≡ trace) }
    {
        let body = Body::new(alloc, place, image, input, trace)?;
        Ok(Core {
            kind: Kind::Tasked(Tasked {
                body,
                cycle: 0,
                phase: Phase::Delivery,
                moves: false,
            }),
            limit: 0,
            waits: false,
            event: blank(),
        })
    }

    /// The core at a place without a task.
    pub fn idle(place: Place) -> Core
        ensures stands { StandsFor result (idle (site_of place no_code)) [] }
        ensures waiting { waiting_of result ≡ None }
        ensures limit { limit_of result ≡ 0 }
        ensures place { place_of result ≡ place }
    {
        Core {
            kind: Kind::Idle(place),
            limit: 0,
            waits: false,
            event: blank(),
        }
    }
}
