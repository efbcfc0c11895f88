ghost use Rattle.std.specs.Prelude.{◌≡◌, ◌^◌, ◌<◌, ◌≤◌, length, min, IfSome};
ghost use Rattle.std.specs.List.{list_all};
ghost use Rattle.std.specs.Option.{option_map};
ghost use Rattle.patmos_forms.specs.Readers as specs;

/// Where numbers stand still as they are read: 2^32 passes every field.
pub const PAST_WORDS: u64 = 0x1_0000_0000;

/// How digits are written.
#[derive(Clone, Copy)]
pub enum Radix {
    Decimal,
    Hexadecimal,
}

/// The text without the spaces, tabs and carriage returns at its front.
pub fn without_blanks(text: &[u8]) -> &[u8]
    ensures same { result.now ≡ specs.without_blanks text.now }
    ensures within { length result.now ≤ length text.now }
{
    let mut rest = text;
    while let [first, others @ ..] = rest {
        if !matches!(*first, b' ' | b'\t' | b'\r') {
            break;
        }
        rest = others;
    }
    rest
}

fn begins_name(byte: u8) -> bool
    ensures { result ≡ specs.begins_name byte }
{
    byte.is_ascii_alphabetic() || byte == b'_'
}

fn is_in_name(byte: u8) -> bool
    ensures { result ≡ specs.is_in_name byte }
{
    begins_name(byte) || byte.is_ascii_digit()
}

fn is_in_word(byte: u8) -> bool
    ensures { result ≡ specs.is_in_word byte }
{
    is_in_name(byte) || byte == b'.'
}

/// The word at the front, after blanks, and what stands after it.
pub fn word_at(text: &[u8]) -> (&[u8], &[u8])
    ensures { (result.0.now, result.1.now) ≡ specs.word_at text.now }
{
    let text = without_blanks(text);
    let mut length = 0;
    for byte in text {
        if !is_in_word(*byte) {
            break;
        }
        length += 1;
    }
    text.split_at(length)
}

/// Whether the word is a name: a letter or `_`, then letters, digits and `_`.
pub fn is_name(word: &[u8]) -> bool
    ensures { result ≡ specs.is_name word.now }
{
    match word {
        [first, others @ ..] => begins_name(*first) && all_in_name(others),
        [] => false,
    }
}

fn all_in_name(bytes: &[u8]) -> bool
    ensures { result ≡ list_all specs.is_in_name bytes.now }
{
    bytes.iter().all(|byte| is_in_name(*byte))
}

/// What stands after the sign, where it is at the front, after blanks.
pub fn sign_at(text: &[u8], sign: u8) -> Option<&[u8]>
    ensures { option_map (λ rest. rest.now) result ≡ specs.sign_at sign text.now }
{
    match without_blanks(text) {
        [first, rest @ ..] if *first == sign => Some(rest),
        _ => None,
    }
}

impl Radix {
    fn base(self) -> u64
        ensures { result ≡ specs.base_of self }
    {
        match self {
            Radix::Decimal => 10,
            Radix::Hexadecimal => 16,
        }
    }

    fn digit(self, byte: u8) -> Option<u8>
        ensures value { result ≡ specs.digit_of self byte }
        ensures small { IfSome result (λ d. d < 16) }
    {
        match (self, byte) {
            (_, b'0'..=b'9') => Some(byte - b'0'),
            (Radix::Hexadecimal, b'a'..=b'f') => Some(byte - b'a' + 10),
            (Radix::Hexadecimal, b'A'..=b'F') => Some(byte - b'A' + 10),
            _ => None,
        }
    }

    /// The number that the digits write, at most `PAST_WORDS`. There is none without a digit.
    pub fn value_of(self, digits: &[u8]) -> Option<u64>
        ensures { result ≡ option_map (min (2 ^ 32)) (specs.value_of self digits.now) }
    {
        match digits {
            [] => None,
            digits => self.sum_of(digits),
        }
    }

    #[tactic(auto, using(crate::proofs::Numbers::next_digit, crate::proofs::Numbers::no_digit))]
    fn sum_of(self, digits: &[u8]) -> Option<u64>
        ensures { result ≡ option_map (min (2 ^ 32)) (specs.value_after self 0 digits.now) }
    {
        let mut value: u64 = 0;
        for byte in digits {
            let digit = self.digit(*byte)?;
            value = PAST_WORDS.min(value * self.base() + u64::from(digit));
        }
        Some(value)
    }
}

/// Whether nothing but blanks is left.
pub fn at_end(text: &[u8]) -> bool
    ensures { result ≡ specs.at_end text.now }
{
    without_blanks(text).is_empty()
}
