//! What types of 32 bits hold are words. Laws of values: they look at what they are given and do nothing.
ghost use Rattle.std.specs.Prelude.{◌≡◌};
ghost use Rattle.std.specs.List.{AllByRecursion as Each};
ghost use Rattle.patmos_model.specs.Range.{IsWord, HasCode};

use patmos_code::Image;

/// The numbers of a slice of `u32` are words of 32 bits.
pub fn words_fit(words: &[u32])
    ensures { Each IsWord words.now }
{}

/// The code and the first words of an image are words of 32 bits.
#[tactic(auto, using(crate::proofs::HeldWords::each_index))]
pub fn image_fits(image: &Image)
    ensures code { HasCode image.now }
    ensures initial { Each IsWord image.now.initial }
{
    words_fit(image.words());
    words_fit(image.starts());
    words_fit(image.initial());
}
