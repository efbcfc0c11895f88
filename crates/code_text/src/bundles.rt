//! The lines of bundles.
ghost use Rattle.std.specs.Prelude.{◌≡◌, ◌+◌, ◌<◌, ◌≤◌, ◌∷◌, ◌++◌, [], IfOk, OnOk, length, slice_index, string_bytes};
ghost use Rattle.patmos_asm.specs.Written.{bundle_text, instr_text};
ghost use Rattle.patmos_code.specs.declared.images.TheConstants.{MOST_IN_FUNCTION};
ghost use Rattle.sp_shape.specs.Words.{bundle_words, bundles_words};
ghost use Rattle.tc_io.specs.Hex.{hex8, hex_digit_of};
ghost use Rattle.code_text.specs.Lines.{does, line_text, lines_text};
ghost use Rattle.code_text.specs.Listing as specs;

use crate::aims::Aim;
use patmos_asm::{write_guard, write_plain};
use patmos_instr::{Bundle, Instr, Op};
use sp_shape::words_of_bundle;
use std::alloc::AllocError;
use std::fmt::Write;
use tc_word::Text;

/// The name of the function of a number.
pub fn name_of<'a>(names: &'a [Text], function: u32) -> &'a str
    ensures { result.now ≡ specs.name_of names.now function }
{
    match names.get(function as usize) {
        Some(name) => name.as_str(),
        None => "",
    }
}

// adds the first instruction of a bundle
fn write_first(text: &mut String, names: &[Text], aim: Aim, instr: &Instr) -> Result<(), AllocError>
    ensures { OnOk result (string_bytes text.new ≡ string_bytes text.old
        ++ instr_text (record { guard = instr.now.guard; draft = specs.aimed names.now aim instr.now.op })) }
{
    match (aim, instr.op) {
        (Aim::Loop(loop_number), Op::Branch { .. }) => {
            write_guard(text, instr.guard)?;
            write!(text, "br L{loop_number}")
        }
        (Aim::Entry(function), Op::Call { .. }) => {
            write_guard(text, instr.guard)?;
            let name = name_of(names, function);
            write!(text, "call {name}")
        }
        _ => write_plain(text, instr),
    }
}

// adds a bundle
#[tactic(auto, unfolding(patmos_asm::specs::Written::bundle_text))]
fn write_bundle(
    text: &mut String,
    names: &[Text],
    aim: Aim,
    bundle: &Bundle,
) -> Result<(), AllocError>
    ensures { OnOk result (string_bytes text.new
        ≡ string_bytes text.old ++ bundle_text (specs.draft_of names.now aim bundle.now)) }
{
    let first = bundle.first();
    let Some(second) = bundle.second() else {
        return write_first(text, names, aim, &first);
    };
    text.push_str("{ ")?;
    write_first(text, names, aim, &first)?;
    text.push_str(" ; ")?;
    write_plain(text, &second)?;
    text.push_str(" }")
}

// a hexadecimal digit
fn hex_digit(digit: u32) -> &'static str
    requires { digit < 16 }
    ensures { result.now ≡ hex_digit_of digit ∷ [] }
{
    match digit {
        0 => "0",
        1 => "1",
        2 => "2",
        3 => "3",
        4 => "4",
        5 => "5",
        6 => "6",
        7 => "7",
        8 => "8",
        9 => "9",
        10 => "a",
        11 => "b",
        12 => "c",
        13 => "d",
        14 => "e",
        _ => "f",
    }
}

// adds a word as eight hexadecimal digits
fn write_hex(text: &mut String, word: u32) -> Result<(), AllocError>
    ensures { OnOk result (string_bytes text.new ≡ string_bytes text.old ++ hex8 word) }
{
    text.push_str(hex_digit((word >> 28) % 16))?;
    text.push_str(hex_digit((word >> 24) % 16))?;
    text.push_str(hex_digit((word >> 20) % 16))?;
    text.push_str(hex_digit((word >> 16) % 16))?;
    text.push_str(hex_digit((word >> 12) % 16))?;
    text.push_str(hex_digit((word >> 8) % 16))?;
    text.push_str(hex_digit((word >> 4) % 16))?;
    text.push_str(hex_digit(word % 16))
}

// the word of a place
fn word_at(words: &[u32], at: usize) -> u32
    ensures { result ≡ slice_index words.now at }
{
    match words.get(at) {
        Some(word) => *word,
        None => 0,
    }
}

// adds the second word of a bundle that has one
fn write_second(text: &mut String, words: &[u32], at: u32, size: u32) -> Result<(), AllocError>
    requires { at < MOST_IN_FUNCTION }
    ensures { OnOk result (string_bytes text.new ≡ string_bytes text.old ++ specs.second_note words.now at size) }
{
    if size != 2 {
        return Ok(());
    }
    text.push_str(" ")?;
    write_hex(text, word_at(words, at as usize + 1))
}

// adds the comment of a bundle of so many words at an offset
fn write_note(text: &mut String, words: &[u32], at: u32, size: u32) -> Result<(), AllocError>
    requires { at < MOST_IN_FUNCTION }
    ensures { OnOk result (string_bytes text.new ≡ string_bytes text.old ++ specs.note_of words.now at size) }
{
    write!(text, "{at} ")?;
    write_hex(text, word_at(words, at as usize))?;
    write_second(text, words, at, size)
}

// adds the line of a bundle at an offset
fn write_line(
    text: &mut String,
    names: &[Text],
    words: &[u32],
    aim: Aim,
    at: u32,
    bundle: &Bundle,
) -> Result<(), AllocError>
    requires { at < MOST_IN_FUNCTION }
    ensures { OnOk result (string_bytes text.new ≡ string_bytes text.old
        ++ line_text (does (specs.draft_of names.now aim bundle.now)
        (specs.note_of words.now at (bundle_words bundle.now)))) }
{
    text.push_str("  ")?;
    write_bundle(text, names, aim, bundle)?;
    text.push_str(";  # ")?;
    write_note(text, words, at, words_of_bundle(bundle))?;
    text.push_str("\n")
}

/// Adds the lines of bundles of a function of these words, the first of which stands at an offset; and tells the offset
/// after them.
pub fn write_bundles(
    text: &mut String,
    names: &[Text],
    words: &[u32],
    aim: Aim,
    at: u32,
    bundles: &[Bundle],
) -> Result<u32, AllocError>
    requires small { at + bundles_words bundles.now ≤ MOST_IN_FUNCTION }
    ensures text { OnOk result (string_bytes text.new ≡ string_bytes text.old
        ++ lines_text (specs.bundle_lines names.now words.now aim at bundles.now)) }
    ensures next { IfOk result (λ next. next ≡ at + bundles_words bundles.now) }
{
    let mut at = at;
    for bundle in bundles {
        write_line(text, names, words, aim, at, bundle)?;
        at += words_of_bundle(bundle);
    }
    Ok(at)
}
