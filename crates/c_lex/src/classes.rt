ghost use Rattle.std.specs.Prelude.{◌≡◌, ◌≤◌, length};
ghost use Rattle.c_lex.specs.Bytes.{run, passes};

/// A class of bytes.
#[derive(Clone, Copy, Debug, PartialEq, Eq)]
pub enum Class {
    Digit,
    Hexadecimal,
    /// A letter or `_`.
    NameStart,
    /// A letter, a digit or `_`.
    Name,
    /// Space, tab, carriage return and newline, which separate tokens.
    Blank,
    /// Space, tab and carriage return, which end no line.
    Space,
    /// Spaces and tabs, which separate the words of a bound.
    Separator,
    /// What is not the end of a line.
    InLine,
}

/// Whether a byte is of a class.
pub(crate) fn passes(class: Class, byte: u8) -> bool
    ensures { result ≡ passes class byte }
{
    match class {
        Class::Digit => byte.is_ascii_digit(),
        Class::Hexadecimal => byte.is_ascii_hexdigit(),
        Class::NameStart => byte.is_ascii_alphabetic() || byte == b'_',
        Class::Name => byte.is_ascii_alphanumeric() || byte == b'_',
        Class::Blank => matches!(byte, b'\n' | b' ' | b'\t' | b'\r'),
        Class::Space => matches!(byte, b' ' | b'\t' | b'\r'),
        Class::Separator => matches!(byte, b' ' | b'\t'),
        Class::InLine => byte != b'\n',
    }
}

/// How many bytes at the front are of a class.
pub(crate) fn run(class: Class, bytes: &[u8]) -> usize
    ensures is { result ≡ run class bytes.now }
    ensures within { result ≤ length bytes.now }
{
    let mut rest = bytes;
    let mut count = 0;
    while let [first, others @ ..] = rest {
        if !passes(class, *first) {
            break;
        }
        rest = others;
        count += 1;
    }
    count
}
