ghost use Rattle.std.specs.Prelude.{◌≡◌, ◌++◌, OnOk};
ghost use Rattle.tc_report.specs.Line as specs;

use tc_io::{put, put_decimal, put_with};
use tc_word::OutOfMemory;

/// Appends a word in decimal, read as signed.
pub fn put_signed(text: &mut Vec<u8>, word: u32) -> Result<(), OutOfMemory>
    ensures { OnOk result (text.new.items ≡ text.old.items ++ specs.signed_word word) }
{
    put_decimal(text, i64::from(word.cast_signed()))
}

/// Appends the name of a core, `core` and its number.
pub fn add_core_name(text: &mut Vec<u8>, core: u64) -> Result<(), OutOfMemory>
    ensures { OnOk result (text.new.items ≡ text.old.items ++ specs.core_name core) }
{
    put_with(text, "core ", core)
}

/// Appends how a line about a core begins.
pub fn put_about(text: &mut Vec<u8>, core: u64) -> Result<(), OutOfMemory>
    ensures { OnOk result (text.new.items ≡ text.old.items ++ specs.about core) }
{
    add_core_name(text, core)?;
    put(text, " ")
}
