//! The code of a task's tree.
ghost use Rattle.std.specs.Prelude.{◌≡◌, ℕ, List, true, IfOk};
ghost use Rattle.c_compile.specs.Code.{image_of, CarriesOut};
ghost use Rattle.sp_emit.specs.Means.{HoldsWords};
ghost use Rattle.sp_shape.specs.Formed as shape;
ghost use Rattle.sp_shape.specs.Shown.{plain_shape};
ghost use Rattle.sp_tree.specs.Begun.{begun};
ghost use Rattle.sp_tree.specs.Formed.{is_formed};
ghost use Rattle.sp_tree.specs.Shown.{plain_unit};
ghost use Rattle.task_core.specs.Tasks as tasks;
ghost use Rattle.task_core.specs.Tasks.{IsCode};
ghost use Rattle.tc_link.specs.Fits.{FitsImage};

use bundle_sched::schedule;
use patmos_code::Image;
use patmos_model::words_fit;
use sp_emit::{Shape, emit};
use sp_tree::SpUnit;
use std::alloc::Global;
use tc_link::link;
use tc_word::OutOfMemory;

/// The code of a task, whose values come in time, and the words of that.
#[derive(Debug, Drop)]
pub struct Code {
    pub shape: Shape,
    pub image: Image,
}

/// The code of a well-formed task's tree whose code fits an image. It takes memory for all bundles and words
/// of the code, and is `Err` where memory runs out.
pub fn code_of(alloc: Global, unit: &SpUnit) -> Result<Code, OutOfMemory>
    requires formed { is_formed (plain_unit unit.now) ≡ true }
    requires fits { FitsImage (tasks.code_of (plain_unit unit.now)) }
    ensures is { IfOk result (λ c. plain_shape c.shape ≡ tasks.code_of (plain_unit unit.now)) }
    ensures image { IfOk result (λ c. c.image ≡ image_of (plain_unit unit.now)) }
    ensures formed { IfOk result (λ c. shape.is_formed (plain_shape c.shape) ≡ true) }
    ensures code { IfOk result (λ _. IsCode (plain_unit unit.now)) }
    ensures preserves { IfOk result (λ _. (input : List ℕ) (shared comm : ℕ → ℕ)
        → HoldsWords (begun (plain_unit unit.now) input shared comm)
        → CarriesOut (plain_unit unit.now) input shared comm) }
{
    words_fit(unit.initial.as_slice());
    let shape = emit(alloc, unit)?;
    let shape = schedule(alloc, shape)?;
    let image = link(alloc, &shape)?;
    Ok(Code { shape, image })
}
