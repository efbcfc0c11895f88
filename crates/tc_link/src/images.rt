//! The image of a shape.
ghost use Rattle.std.specs.Prelude.{◌≡◌, ℕ, ◌<◌, true, IfOk, length, map, slice_index};
ghost use Rattle.std.specs.List.{All};
ghost use Rattle.patmos_instr.specs.Bundles.{FitsBundle};
ghost use Rattle.patmos_model.specs.Begin.{entry};
ghost use Rattle.patmos_sem.specs.Registers.{FitsRegisters};
ghost use Rattle.sp_shape.specs.Formed.{is_formed};
ghost use Rattle.sp_shape.specs.Run.{Run, Sources, run_late};
ghost use Rattle.sp_shape.specs.Shown.{plain_shape};
ghost use Rattle.sp_shape.specs.Trail.{trail};
ghost use Rattle.sp_shape.specs.Iterating.{ShapeIterations, back_of};
ghost use Rattle.sp_shape.specs.Words.{parts_words};
ghost use Rattle.tc_link.specs.Backs.{backs_of};
ghost use Rattle.tc_link.specs.Dues.{dues_of};
ghost use Rattle.tc_link.specs.Fits.{FitsImage};
ghost use Rattle.tc_link.specs.Placed.{start_of, flat, linked};
ghost use Rattle.tc_link.specs.Walk.{Follows, walk_from};

use crate::places::{in_order, places_of};
use crate::sizes::sizes_of;
use crate::words::words_of;
use patmos_code::Image;
use patmos_instr::Addr22;
use sp_shape::Shape;
use std::alloc::Global;
use tc_word::{List, OutOfMemory};

// how many words each function has, and the word at which it starts
fn placed(alloc: Global, shape: &Shape) -> Result<(Vec<u32>, Vec<Addr22>), OutOfMemory>
    requires formed { is_formed (plain_shape shape.now) ≡ true }
    requires fits { FitsImage (plain_shape shape.now) }
    ensures sizes { IfOk result (λ p. p.0.items ≡ map parts_words (plain_shape shape.now).functions) }
    ensures count { IfOk result (λ p. length p.1.items ≡ length (plain_shape shape.now).functions) }
    ensures places { IfOk result (λ p. (k : ℕ) → k < length (plain_shape shape.now).functions
        → slice_index p.1.items k ≡ start_of (plain_shape shape.now) k) }
{
    let sizes = sizes_of(alloc, shape.functions.as_slice())?;
    let places = places_of(alloc, sizes.as_slice(), shape.entry as usize)?;
    Ok((sizes, places))
}

// the words of the image, and the words at which its functions start
fn code_of(alloc: Global, shape: &Shape) -> Result<(List<u32>, List<u32>), OutOfMemory>
    requires formed { is_formed (plain_shape shape.now) ≡ true }
    requires fits { FitsImage (plain_shape shape.now) }
    ensures words { IfOk result (λ code. code.0 ≡ (linked (plain_shape shape.now)).words) }
    ensures starts { IfOk result (λ code. code.1 ≡ (linked (plain_shape shape.now)).starts) }
    ensures fit { IfOk result (λ _. (k : ℕ) → k < length shape.now.functions
        → All FitsBundle (flat (plain_shape shape.now) k)) }
{
    let functions = shape.functions.as_slice();
    let entry = shape.entry as usize;
    let (sizes, places) = placed(alloc, shape)?;
    let words = words_of(alloc, functions, entry, sizes.as_slice(), places.as_slice())?;
    let starts = in_order(alloc, places.as_slice(), entry)?;
    Ok((List::of(words), List::of(starts)))
}

/// The image of the shape, each bundle of which has its fields in their ranges. It takes memory for the words and for a
/// few numbers of each function, and is `Err` where memory runs out.
pub fn link(alloc: Global, shape: &Shape) -> Result<Image, OutOfMemory>
    requires formed { is_formed (plain_shape shape.now) ≡ true }
    requires fits { FitsImage (plain_shape shape.now) }
    ensures is { IfOk result (λ image. image ≡ linked (plain_shape shape.now)) }

    // A core that is put where the entry starts, and that fetches its words and obeys its flows, does the bundles of
    // the shape's trail, where its loops make all their iterations and its functions come back.
    ensures preserves { IfOk result (λ image. (from : Sources) (m : Run) → FitsRegisters m.regs
        → m.backs ≡ backs_of (plain_shape shape.now) → ShapeIterations (run_late from) (plain_shape shape.now) m
        → Follows image from (trail (plain_shape shape.now)) (dues_of (plain_shape shape.now) (back_of m))
        (walk_from (entry image) m)) }

    ensures fit { IfOk result (λ _. (k : ℕ) → k < length shape.now.functions
        → All FitsBundle (flat (plain_shape shape.now) k)) }
{
    let (words, starts) = code_of(alloc, shape)?;
    let initial = List::of(shape.initial.as_slice().to_vec(alloc)?);
    Ok(Image::of(words, starts, initial, shape.input_at, shape.input_room))
}
