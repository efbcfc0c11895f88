//! The lines of parts.
ghost use Rattle.std.specs.Prelude.{◌≡◌, ◌+◌, ◌<◌, ◌≤◌, ◌++◌, IfOk, OnOk, string_bytes};
ghost use Rattle.patmos_code.specs.declared.images.TheConstants.{MOST_IN_FUNCTION};
ghost use Rattle.sp_shape.specs.Shown.{plain_part, parts_of};
ghost use Rattle.sp_shape.specs.Words.{part_words, parts_words};
ghost use Rattle.code_text.specs.Lines.{line_text, lines_text, marks};
ghost use Rattle.code_text.specs.Listing as specs;

use crate::aims::Aim;
use crate::bundles::write_bundles;
use sp_shape::Part;
use std::alloc::AllocError;
use std::fmt::Write;
use tc_word::Text;

/// Where the next bundle stands in its function, in words from the first, and the number of the next loop.
#[derive(Clone, Copy, Debug, PartialEq, Eq)]
pub struct Spot {
    pub at: u32,
    pub loop_number: u32,
}

// adds the lines before a loop
fn write_begin(text: &mut String, loop_number: u32, count: u32) -> Result<(), AllocError>
    ensures { OnOk result (string_bytes text.new ≡ string_bytes text.old
        ++ line_text (specs.loop_begin loop_number count) ++ line_text (marks loop_number)) }
{
    write!(
        text,
        "# loop L{loop_number} iterations {count}\nL{loop_number}:\n"
    )
}

// adds the line after a loop
fn write_end(text: &mut String, loop_number: u32) -> Result<(), AllocError>
    ensures { OnOk result (string_bytes text.new ≡ string_bytes text.old ++ line_text (specs.loop_end loop_number)) }
{
    write!(text, "# end L{loop_number}\n")
}

// adds the lines of a part at a spot, and tells the spot after it
#[cycle(write)]
fn write_part(
    text: &mut String,
    names: &[Text],
    words: &[u32],
    spot: Spot,
    part: &Part,
) -> Result<Spot, AllocError>
    requires small { spot.at + part_words (plain_part part.now) ≤ MOST_IN_FUNCTION }
    requires few { spot.loop_number + specs.part_loops (plain_part part.now) ≤ MOST_IN_FUNCTION }
    ensures text { OnOk result (string_bytes text.new ≡ string_bytes text.old
        ++ lines_text (specs.part_lines names.now words.now spot.at spot.loop_number (plain_part part.now))) }
    ensures at { IfOk result (λ next. next.at ≡ spot.at + part_words (plain_part part.now)) }
    ensures loop_number { IfOk result (λ next. next.loop_number ≡ spot.loop_number + specs.part_loops (plain_part part.now)) }
{
    let Spot { at, loop_number } = spot;
    match part {
        Part::Straight { bundles } => {
            let at = write_bundles(text, names, words, Aim::Onward, at, bundles.as_slice())?;
            Ok(Spot { at, loop_number })
        }
        Part::Repeat { count, body, tail } => {
            write_begin(text, loop_number, *count)?;
            let first = Spot {
                at,
                loop_number: loop_number + 1,
            };
            let next = write_parts(text, names, words, first, body.as_slice())?;
            let aim = Aim::Loop(loop_number);
            let at = write_bundles(text, names, words, aim, next.at, tail.as_slice())?;
            write_end(text, loop_number)?;
            Ok(Spot {
                at,
                loop_number: next.loop_number,
            })
        }
        Part::CallTo { function, tail } => {
            let aim = Aim::Entry(*function);
            let at = write_bundles(text, names, words, aim, at, tail.as_slice())?;
            Ok(Spot { at, loop_number })
        }
        Part::Leave { tail } => {
            let at = write_bundles(text, names, words, Aim::Onward, at, tail.as_slice())?;
            Ok(Spot { at, loop_number })
        }
    }
}

/// Adds the lines of parts of a function of these words at a spot, and tells the spot after them.
#[cycle(write)]
pub fn write_parts(
    text: &mut String,
    names: &[Text],
    words: &[u32],
    spot: Spot,
    parts: &[Part],
) -> Result<Spot, AllocError>
    requires small { spot.at + parts_words (parts_of parts.now) ≤ MOST_IN_FUNCTION }
    requires few { spot.loop_number + specs.parts_loops (parts_of parts.now) ≤ MOST_IN_FUNCTION }
    ensures text { OnOk result (string_bytes text.new ≡ string_bytes text.old
        ++ lines_text (specs.parts_lines names.now words.now spot.at spot.loop_number (parts_of parts.now))) }
    ensures at { IfOk result (λ next. next.at ≡ spot.at + parts_words (parts_of parts.now)) }
    ensures loop_number { IfOk result (λ next. next.loop_number ≡ spot.loop_number + specs.parts_loops (parts_of parts.now)) }
{
    let mut spot = spot;
    for part in parts {
        spot = write_part(text, names, words, spot, part)?;
    }
    Ok(spot)
}
