ghost use Rattle.std.specs.Prelude.{◌≡◌, ◌<◌, ◌++◌, OnOk, OnErr};
ghost use Rattle.std.specs.Fmt.{decimal, signed_decimal};
ghost use Rattle.tc_io.specs.Hex.{hex8, hex_digit_of};

use itoa::Buffer;
use tc_word::OutOfMemory;

/// Appends a number in decimal: a minus sign where it is below 0, and no needless zeros.
pub fn put_decimal(text: &mut Vec<u8>, value: i64) -> Result<(), OutOfMemory>
    ensures appended { OnOk result (text.new.items ≡ text.old.items ++ signed_decimal value) }
    ensures unchanged { OnErr result (text.new.items ≡ text.old.items) }
{
    let mut digits = Buffer::new();
    text.extend_from_slice(digits.format(value).as_bytes())
}

/// Appends a number without a sign in decimal, with no needless zeros.
pub fn put_number(text: &mut Vec<u8>, number: u64) -> Result<(), OutOfMemory>
    ensures appended { OnOk result (text.new.items ≡ text.old.items ++ decimal number) }
    ensures unchanged { OnErr result (text.new.items ≡ text.old.items) }
{
    let mut digits = Buffer::new();
    text.extend_from_slice(digits.format(number).as_bytes())
}

/// Appends words.
pub fn put(text: &mut Vec<u8>, words: &str) -> Result<(), OutOfMemory>
    ensures appended { OnOk result (text.new.items ≡ text.old.items ++ words.now) }
    ensures unchanged { OnErr result (text.new.items ≡ text.old.items) }
{
    text.extend_from_slice(words.as_bytes())
}

/// Appends words, and a number without a sign in decimal after them.
pub fn put_with(text: &mut Vec<u8>, words: &str, number: u64) -> Result<(), OutOfMemory>
    ensures { OnOk result (text.new.items ≡ text.old.items ++ (words.now ++ decimal number)) }
{
    put(text, words)?;
    put_number(text, number)
}

/// Appends a word as eight lower-case hexadecimal digits, the highest first.
pub fn put_hex8(text: &mut Vec<u8>, value: u32) -> Result<(), OutOfMemory>
    ensures appended { OnOk result (text.new.items ≡ text.old.items ++ hex8 value) }
    ensures unchanged { OnErr result (text.new.items ≡ text.old.items) }
{
    let digits = [
        hex_digit((value >> 28) % 16),
        hex_digit((value >> 24) % 16),
        hex_digit((value >> 20) % 16),
        hex_digit((value >> 16) % 16),
        hex_digit((value >> 12) % 16),
        hex_digit((value >> 8) % 16),
        hex_digit((value >> 4) % 16),
        hex_digit(value % 16),
    ];
    text.extend_from_slice(&digits)
}

fn hex_digit(digit: u32) -> u8
    requires { digit < 16 }
    ensures { result ≡ hex_digit_of digit }
{
    if digit < 10 {
        b'0' + digit as u8
    } else {
        b'a' + (digit - 10) as u8
    }
}
