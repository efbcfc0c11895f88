ghost use Rattle.std.specs.Prelude.{◌≡◌, ◌%◌, ◌^◌, ◌<◌};
ghost use Rattle.patmos_sem.specs.Effects.{width_bytes, store_bytes};
ghost use Rattle.patmos_sem.specs.Narrow.{extended, byte_at, half_at, with_byte, picked, merged};

use patmos_instr::{StoreWidth, Width};

/// A load's value, of the word at the address's multiple of 4. Bytes count from the most significant.
/// `Half` and `Byte` extend the sign, and the unsigned widths fill with 0. The address is in bytes.
pub fn pick(width: Width, address: u32, word: u32) -> u32
    requires aligned { address % width_bytes width ≡ 0 }
    ensures { result ≡ picked width address word }
{
    match width {
        Width::Word => word,
        Width::Half => extend_half(half(address, word)),
        Width::Byte => extend_byte(byte(address, word)),
        Width::HalfUnsigned => half(address, word),
        Width::ByteUnsigned => byte(address, word),
    }
}

/// The word that a store leaves of the one at the address's multiple of 4: the byte or half there
/// replaced by the value's low bits. The address is in bytes.
pub fn merge(width: StoreWidth, address: u32, word: u32, value: u32) -> u32
    requires aligned { address % store_bytes width ≡ 0 }
    ensures { result ≡ merged width address word value }
{
    match width {
        StoreWidth::Word => value,
        StoreWidth::Half => {
            let begun = put_byte(address, (value / 256) % 256, word);
            put_byte(address + 1, value % 256, begun)
        }
        StoreWidth::Byte => put_byte(address, value % 256, word),
    }
}

// the byte of a word at an address
fn byte(address: u32, word: u32) -> u32
    ensures value { result ≡ byte_at address word }
    ensures range { result < 2 ^ 8 }
{
    let bytes = word.to_be_bytes();
    u32::from(bytes[(address % 4) as usize])
}

// the half of a word at an address
fn half(address: u32, word: u32) -> u32
    requires { address % 2 ≡ 0 }
    ensures value { result ≡ half_at address word }
    ensures range { result < 2 ^ 16 }
{
    byte(address, word) * 256 + byte(address + 1, word)
}

fn extend_byte(number: u32) -> u32
    requires { number < 2 ^ 8 }
    ensures { result ≡ extended 8 number }
{
    if number < 0x80 {
        number
    } else {
        number + 0xffff_ff00
    }
}

fn extend_half(number: u32) -> u32
    requires { number < 2 ^ 16 }
    ensures { result ≡ extended 16 number }
{
    if number < 0x8000 {
        number
    } else {
        number + 0xffff_0000
    }
}

// the word with the byte at an address replaced
fn put_byte(address: u32, byte: u32, word: u32) -> u32
    requires { byte < 2 ^ 8 }
    ensures { result ≡ with_byte address byte word }
{
    let mut bytes = word.to_be_bytes();
    bytes[(address % 4) as usize] = byte as u8;
    u32::from_be_bytes(bytes)
}
