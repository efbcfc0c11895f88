ghost use Rattle.std.specs.Prelude.{◌≡◌, ℕ, ◌≤◌, length, IfSome};
ghost use Rattle.global_step.specs.Range.{HoldsWords, IsOfWords};

use crate::begin::count_of;
use global_step::{Loaded, LoadedCore};
use patmos_model::{image_fits, words_fit};

/// A machine is loaded with words of 32 bits, as its types say. It looks at each core and changes nothing.
pub fn loaded_with_words(machine: &Loaded)
    ensures { IsOfWords machine.now }
{
    let _few = count_of(machine);
    for core in machine.cores() {
        core_of_words(core);
    }
}

// each core is loaded with words
fn core_of_words(core: &LoadedCore)
    ensures { HoldsWords core.now }
{
    words_fit(core.input.as_slice());
    if let Some(image) = &core.image {
        image_fits(image);
    }
}
