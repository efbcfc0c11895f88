//! Compiled tasks.
ghost use Rattle.std.specs.Prelude.{◌≡◌, ◌+◌, ◌<◌, ◌≤◌, ℕ, length, slice_index, IfOk};
ghost use Rattle.c_compile.specs.Answered.{Gives};
ghost use Rattle.c_compile.specs.Texts as specs;
ghost use Rattle.c_mentions.specs.Reported.{Tells};
ghost use Rattle.c_task.specs.Doing.{ComesToMeaning, KeepsTimes, NeverTraps, TouchesMentioned};
ghost use Rattle.c_task.specs.Translation.{bound, persist, times, translation};
ghost use Rattle.c_tree.specs.Plain.{plain};
ghost use Rattle.single_path.specs.Single.{weights_in};
ghost use Rattle.sp_shape.specs.Shown.{plain_shape};
ghost use Rattle.task_core.specs.Tasks.{IsCode};
ghost use Rattle.tc_link.specs.Placed.{size_of};

use crate::code::{Code, code_of};
use crate::faults::CompileFault;
use crate::programs::program_of;
use bound_persist::persist_bound_uncounted;
use c_mentions::{Mentions, mentions_of};
use c_task::{
    programs_come_to_their_meaning, programs_fit_images, programs_keep_their_persistent_bound,
    programs_keep_their_times, programs_touch_what_they_mention,
};
use c_tree::Checked;
use cycle_bound::bound_uncounted;
use patmos_code::Image;
use single_path::convert;
use slot_arbiter::Place;
use sp_emit::Shape;
use std::alloc::Global;
use tc_word::OutOfMemory;

/// A compiled task: its words, its code, how many cycles it takes at most on its core's place, and how many by what
/// stays in the method cache, its program, and what that mentions.
#[derive(Debug, Drop)]
pub struct Compiled {
    pub image: Image,
    pub shape: Shape,
    pub bound: u64,
    pub persist: u64,
    pub program: Checked,
    pub mentions: Mentions,
}

// the code of a valid program
fn code_by(alloc: Global, program: &Checked, place: &Place) -> Result<Code, OutOfMemory>
    requires place { program.now.place ≡ place.now }
    ensures reported { IfOk result (λ c. plain_shape c.shape ≡ (translation (plain program.now.unit)).scheduled) }
    ensures image { IfOk result (λ c. c.image ≡ (translation (plain program.now.unit)).image) }
    ensures code { IfOk result (λ _. IsCode (translation (plain program.now.unit)).tree) }
{
    programs_fit_images(place);
    let unit = convert(alloc, program)?;
    code_of(alloc, &unit)
}

/// The task of a C text for a core's place, whatever its input is. It is `Err` exactly where the text has no tokens,
/// these are no program, the program is not valid on its core, or its bound is more than [`cycle_bound::MOST_BOUND`]:
/// the first of these counts. Want of memory is reported of a text of 2^32 bytes or more too.
pub fn compile(alloc: Global, source: &str, place: &Place) -> Result<Compiled, CompileFault>
    ensures reported { Gives (λ c. plain c.program.unit) result
        (specs.task_on place.now.cores place.now.table place.now.slot place.now.core source.now) }

    // What is reported of a program is its own, and nothing else's.
    ensures place { IfOk result (λ c. c.program.place ≡ place.now) }
    ensures image { IfOk result (λ c. c.image ≡ (translation (plain c.program.unit)).image) }
    ensures shape { IfOk result (λ c. plain_shape c.shape ≡ (translation (plain c.program.unit)).scheduled) }
    ensures bound { IfOk result (λ c. c.bound ≡ bound place.now (plain c.program.unit)) }
    ensures persist { IfOk result (λ c. c.persist ≡ persist place.now (plain c.program.unit)) }
    ensures mentions { IfOk result (λ c. Tells c.mentions (plain c.program.unit)) }

    // With its size word each function of the code takes at most as many words as the text's function weighs.
    ensures size { IfOk result (λ c. (k : ℕ) → k < length (plain_shape c.shape).functions
        → 1 + size_of (plain_shape c.shape) k ≤ slice_index (weights_in (plain c.program.unit)) k) }

    // Whatever words are put in and read, a core that runs the image apart has the program's times, which are within
    // both of its bounds, the persistent one of which is no more than the other; no check stops it; it gives what
    // the text means; and it touches only what the text mentions.
    ensures times { IfOk result (λ c. KeepsTimes (plain c.program.unit) place.now c.image) }
    ensures within { IfOk result (λ c. (times place.now (plain c.program.unit)).end ≤ place.now.start + c.bound) }
    ensures within_persist { IfOk result (λ c. (times place.now (plain c.program.unit)).end
        ≤ place.now.start + c.persist) }
    ensures tighter { IfOk result (λ c. c.persist ≤ c.bound) }
    ensures never_traps { IfOk result (λ c. NeverTraps place.now c.image) }
    ensures meaning { IfOk result (λ c. ComesToMeaning (plain c.program.unit) place.now c.image) }
    ensures touches { IfOk result (λ c. TouchesMentioned (plain c.program.unit) place.now c.image) }

    // What the laws of machines that run it want of its code.
    ensures code { IfOk result (λ c. IsCode (translation (plain c.program.unit)).tree) }
{
    programs_fit_images(place);
    programs_keep_their_times(place);
    programs_keep_their_persistent_bound(place);
    programs_come_to_their_meaning(place);
    programs_touch_what_they_mention(place);
    let program = program_of(alloc, source, place)?;
    let Code { shape, image } = code_by(alloc, &program, place)?;
    let bound = bound_uncounted(&shape, place)?;
    let persist = persist_bound_uncounted(&shape, place)?;
    Ok(Compiled {
        image,
        shape,
        bound,
        persist,
        mentions: mentions_of(&program.unit),
        program,
    })
}
