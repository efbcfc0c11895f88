ghost use Rattle.std.specs.Prelude.{◌≡◌, option_map};
ghost use Rattle.c_lex.specs.Bytes.{past};

/// What follows a text, where the bytes begin with it.
pub(crate) fn past<'a>(text: &[u8], bytes: &'a [u8]) -> Option<&'a [u8]>
    ensures { option_map (λ r. r.now) result ≡ past text.now bytes.now }
{
    let mut expected = text;
    let mut rest = bytes;
    while let [next, more @ ..] = expected {
        let [first, others @ ..] = rest else {
            return None;
        };
        if next != first {
            return None;
        }
        expected = more;
        rest = others;
    }
    Some(rest)
}
