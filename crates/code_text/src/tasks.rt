//! The text of a task.
ghost use Rattle.std.specs.Prelude.{◌≡◌, ℕ, ◌<◌, ◌++◌, IfOk, OnOk, Ok, length, map, string_bytes, true};
ghost use Rattle.std.specs.List.{All};
ghost use Rattle.patmos_asm.specs.Assembly.{code_of};
ghost use Rattle.patmos_instr.specs.Bundles.{FitsBundle};
ghost use Rattle.sp_shape.specs.Formed.{is_formed};
ghost use Rattle.sp_shape.specs.Shown.{plain_shape};
ghost use Rattle.tc_link.specs.Fits.{FitsImage};
ghost use Rattle.tc_link.specs.Placed.{flat, linked, order};
ghost use Rattle.code_text.specs.Lines.{line_text, lines_text};
ghost use Rattle.code_text.specs.Listing as specs;
ghost use Rattle.code_text.specs.Names.{HasNames};
ghost use Rattle.code_text.specs.Runs.{AreRuns, shape_of};
ghost use Rattle.code_text.specs.Tally.{each_at};

use crate::functions::{order_of, write_functions, write_tally};
use crate::tallies::{Runs, each_of, runs_of, task_tally};
use patmos_code::Image;
use slot_arbiter::Place;
use sp_shape::Shape;
use std::alloc::{AllocError, Global};
use std::fmt::Write;
use tc_word::Text;

/// The core of a task, and its bounds in cycles.
#[derive(Clone, Copy, Debug, PartialEq, Eq)]
pub struct Numbers {
    pub core: u32,
    pub bound: u64,
    pub persist: u64,
}

// adds the comment before a task of so many words
fn write_head(
    text: &mut String,
    numbers: Numbers,
    words: usize,
    runs: &Runs<'_>,
) -> Result<(), AllocError>
    requires runs { AreRuns runs.now }
    ensures { OnOk result (string_bytes text.new ≡ string_bytes text.old
        ++ line_text (specs.task_note numbers words runs.now.each (shape_of runs.now))) }
{
    let Numbers {
        core,
        bound,
        persist,
    } = numbers;
    write!(text, "# core {core} words {words}")?;
    write_tally(text, task_tally(runs))?;
    write!(text, " bound {bound} persist {persist}\n")
}

// the text of a task's code
fn listed_text(
    alloc: Global,
    names: &[Text],
    numbers: Numbers,
    place: &Place,
    shape: &Shape,
    words: &[u32],
) -> Result<String, AllocError>
    requires formed { is_formed (plain_shape shape.now) ≡ true }
    requires fits { FitsImage (plain_shape shape.now) }
    ensures layout { IfOk result (λ text. string_bytes text ≡ lines_text
        (specs.task_lines names.now numbers (each_at place.now) (plain_shape shape.now) words.now)) }
{
    let runs = runs_of(shape, each_of(place));
    let order = order_of(alloc, shape)?;
    let mut text = String::new(alloc);
    write_head(&mut text, numbers, words.len(), &runs)?;
    write_functions(&mut text, names, &runs, words, order.as_slice())?;
    Ok(text)
}

/// The text of a task's code on its core's place: each function under its name, with labels where loops begin, a bundle
/// a line with its offset in its function and its words, and comments that tell what a run consists of. What these tell
/// adds up to the task's bound, as [`tallies_add_up`](crate::tallies_add_up) says.
pub fn task_text(
    alloc: Global,
    names: &[Text],
    numbers: Numbers,
    place: &Place,
    shape: &Shape,
    image: &Image,
) -> Result<String, AllocError>
    requires formed { is_formed (plain_shape shape.now) ≡ true }
    requires fits { FitsImage (plain_shape shape.now) }
    requires bundles { (k : ℕ) → k < length (plain_shape shape.now).functions
        → All FitsBundle (flat (plain_shape shape.now) k) }
    requires image { image.now ≡ linked (plain_shape shape.now) }
    requires names { HasNames names.now (length (plain_shape shape.now).functions) }
    ensures layout { IfOk result (λ text. string_bytes text ≡ lines_text
        (specs.task_lines names.now numbers (each_at place.now) (plain_shape shape.now) image.now.words)) }

    // Assembled, the text gives the image: its words, and the words at which its functions start, in its order.
    ensures assembles { IfOk result (λ text. code_of (string_bytes text) ≡ Ok (record {
      names = map (specs.name_of names.now) (order (plain_shape shape.now));
      starts = image.now.starts;
      words = image.now.words;
    })) }
{
    let text = listed_text(alloc, names, numbers, place, shape, image.words())?;
    Ok(text)
}
