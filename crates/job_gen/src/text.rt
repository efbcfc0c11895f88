ghost use Rattle.std.specs.Prelude.{◌≡◌, ◌++◌, OnOk};
ghost use Rattle.std.specs.Fmt.{decimal};
ghost use Rattle.job_gen.specs.Generator as specs;

use tc_io::{put, put_with};
use tc_word::OutOfMemory;

/// Appends words that end a line.
pub fn put_line(text: &mut Vec<u8>, words: &str) -> Result<(), OutOfMemory>
    ensures { OnOk result (text.new.items ≡ text.old.items ++ specs.line words.now) }
{
    put(text, words)?;
    put(text, "\n")
}

/// Appends a line of words and a number after them.
pub fn put_line_with(text: &mut Vec<u8>, words: &str, number: u64) -> Result<(), OutOfMemory>
    ensures { OnOk result (text.new.items ≡ text.old.items ++ specs.line (words.now ++ decimal number)) }
{
    put_with(text, words, number)?;
    put(text, "\n")
}

/// Appends words and a number, twice.
pub fn put_pair(
    text: &mut Vec<u8>,
    words: &str,
    number: u64,
    more_words: &str,
    other: u64,
) -> Result<(), OutOfMemory>
    ensures { OnOk result (text.new.items
        ≡ text.old.items ++ (words.now ++ decimal number ++ more_words.now ++ decimal other)) }
{
    put_with(text, words, number)?;
    put_with(text, more_words, other)
}
