use crate::beat::Beat;
use crate::follow::look_ahead;
use crate::latches::Latches;
use crate::lone::Lone;
use crate::pipe::PipeCore;
use patmos_code::Image;
use patmos_instr::Reg;
use patmos_model::CoreState;
use slot_arbiter::{MOST_CYCLES, Place};
use std::alloc::Global;
use tc_word::OutOfMemory;

impl PipeCore {
    ghost use Rattle.std.specs.Prelude.{◌≡◌, ℕ, ◌+◌, ◌-◌, ◌≤◌, ◌<◌, List, Option, length, IfOk};
    ghost use Rattle.patmos_model.specs.Apart.{site_of};
    ghost use Rattle.patmos_model.specs.Begin.{begun};
    ghost use Rattle.patmos_model.specs.State.{Core};
    ghost use Rattle.patmos_model.specs.Outcome.{state_at};
    ghost use Rattle.pipe_five.specs.Steps.{core_before, done_below, first_of};
    ghost use Rattle.pipe_five.specs.Stages as stages;
    ghost use Rattle.pipe_five.specs.Follow.{IsAtStart};
    ghost use Rattle.pipe_five.specs.Pipe.{StandsFor, IsStep, IfStep, IsStopped, IsThrough, limit_of, steps_after, shown};

    /// The only core of a platform, at its place, with a task and its input, before the first cycle. It takes memory
    /// for the core's memories, for the words of its board and for a copy of the image.
    pub fn new(
        alloc: Global,
        place: Place,
        image: &Image,
        input: &[u32],
    ) -> Result<PipeCore, OutOfMemory>
        requires alone { place.cores ≡ 1 }
        ensures stands { IfOk result (λ p. StandsFor p (begun (site_of place image.now) input.now) 0) }
        ensures limit { IfOk result (λ p. limit_of p ≡ 0) }
    {
        let lone = Lone::new(alloc, place, image, input)?;
        Ok(PipeCore {
            lone,
            limit: 0,
            latches: Latches::new(),
        })
    }

    /// Goes on to the next bundle that is done below the limit, and tells its cycle and what then stands in the
    /// stages; or, where no further one is done, to the limit. The limit is at most [`MOST_CYCLES`] and at
    /// least that of the call before. It takes no memory.
    pub fn advance(&mut self, limit: u64) -> Beat
        requires most { limit ≤ MOST_CYCLES }
        requires later { limit_of self.old ≤ limit }
        ensures stands { (x : Core) (k : ℕ) → StandsFor self.old x k → StandsFor self.new x (steps_after result k) }
        ensures step { IfStep result (λ cycle stages. (x : Core) (k : ℕ) → StandsFor self.old x k
            → IsStep x limit k cycle stages) }
        ensures stopped { IsStopped result → (x : Core) (k : ℕ) → StandsFor self.old x k
            → length (done_below x limit) ≡ k }
        ensures through { IsStopped result → IsThrough self.new }
        ensures limit { limit_of self.new ≡ limit }
    {
        self.limit = limit;
        while self.lone.cycle < limit {
            if self.lone.step(&mut self.latches, limit) {
                return Beat::Step {
                    cycle: self.lone.cycle - 1,
                    stages: self.stages(),
                };
            }
        }
        Beat::Stopped
    }

    // the places in the stages
    #[inline(always)]
    fn stages(&self) -> [Option<u32>; 5]
        ensures { IsAtStart self.now.lone.body → result ≡ shown self.now }
    {
        let ahead = look_ahead(&self.lone.body);
        [
            ahead.fetch,
            ahead.decode,
            self.latches.execute,
            self.latches.memory_place(),
            self.latches.write_back,
        ]
    }

    /// The word in a register of the register file. It takes no memory.
    pub fn file(&self, r: Reg) -> u32
        ensures { (x : Core) (k : ℕ) → StandsFor self.now x k
            → result ≡ stages.file_of x (first_of k (done_below x (limit_of self.now))) r }
    {
        self.latches.file(r)
    }

    /// How far the task has come at the last limit. The last call of [`PipeCore::advance`]
    /// answered [`Beat::Stopped`]. It takes no memory.
    pub fn state(&self) -> CoreState
        requires through { IsThrough self.now }
        ensures { (x : Core) (k : ℕ) → StandsFor self.now x k
            → result ≡ state_at (limit_of self.now) (core_before x (limit_of self.now)).plain }
    {
        self.lone.body.outcome(self.limit)
    }
}
