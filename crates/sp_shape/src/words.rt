//! How many words code has.
ghost use Rattle.std.specs.Prelude.{◌≡◌};
ghost use Rattle.sp_shape.specs.Words.{bundle_words};

use patmos_instr::Bundle;

/// How many words a bundle has.
pub fn words_of_bundle(bundle: &Bundle) -> u32
    ensures { result ≡ bundle_words bundle.now }
{
    if bundle.first().op.is_long() || bundle.second().is_some() {
        2
    } else {
        1
    }
}
