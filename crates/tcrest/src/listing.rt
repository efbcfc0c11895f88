ghost use Rattle.std.specs.Prelude.{◌≡◌, ◌++◌, ◌<◌, ◌^◌, length, IfOk, OnOk};
ghost use Rattle.std.specs.List.{flat_map};
ghost use Rattle.tcrest.specs.Listing as specs;
ghost use Rattle.job_tasks.specs.Coding.{shown, all_shown};

use job_tasks::CodedTask;
use std::alloc::Global;
use tc_io::{put_hex8, put_number};
use tc_report::put_core_name;
use tc_word::OutOfMemory;

/// The listings of the assembly tasks of cores, in the order of the cores.
pub fn listings(alloc: Global, coded: &[Option<CodedTask<'_>>]) -> Result<Vec<u8>, OutOfMemory>
    ensures { IfOk result (λ text. text.items ≡ specs.listings (all_shown coded.now)) }
{
    let mut text = Vec::new(alloc);
    for (core, one) in coded.iter().enumerate() {
        put_listing_on(&mut text, core as u64, one)?;
    }
    Ok(text)
}

// the listing of a core's task, if it has one in assembly
fn put_listing_on(
    text: &mut Vec<u8>,
    core: u64,
    coded: &Option<CodedTask<'_>>,
) -> Result<(), OutOfMemory>
    ensures { OnOk result (text.new.items ≡ text.old.items ++ specs.listing_on core (shown coded.now)) }
{
    let Some(coded) = coded else {
        return Ok(());
    };
    match &coded.made.program {
        Some(_) => Ok(()),
        None => put_listing(text, core, coded.made.image.words()),
    }
}

// how many words there are, and the words
fn put_listing(text: &mut Vec<u8>, core: u64, words: &[u32]) -> Result<(), OutOfMemory>
    ensures { OnOk result (text.new.items ≡ text.old.items ++ specs.listing_of core words.now) }
{
    put_core_name(text, core)?;
    text.extend_from_slice(b" words ")?;
    put_number(text, words.len() as u64)?;
    text.extend_from_slice(b"\n")?;
    put_words(text, words)
}

fn put_words(text: &mut Vec<u8>, words: &[u32]) -> Result<(), OutOfMemory>
    ensures { OnOk result (text.new.items ≡ text.old.items ++ flat_map specs.word_line words.now) }
{
    for word in words {
        put_word(text, *word)?;
    }
    Ok(())
}

// each word is a line of eight hexadecimal digits
fn put_word(text: &mut Vec<u8>, word: u32) -> Result<(), OutOfMemory>
    ensures { OnOk result (text.new.items ≡ text.old.items ++ specs.word_line word) }
{
    put_hex8(text, word)?;
    text.extend_from_slice(b"\n")
}
