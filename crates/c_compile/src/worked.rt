//! Worked example: the image of a small task.
ghost use Rattle.std.specs.Prelude.{◌≡◌, [], ◌∷◌, true};
ghost use Rattle.c_compile.specs.Code.{image_of};
ghost use Rattle.c_compile.specs.Examples.{nine};
ghost use Rattle.sp_tree.specs.Formed.{is_formed};
ghost use Rattle.task_core.specs.Tasks.{code_of};
ghost use Rattle.tc_link.specs.Fits.{FitsImage};

/// A task that gives 9. Its two words, the mask and the result, stand in r4 and r5: both are set to 0 in the first
/// bundle. It calls nothing, has no loop and keeps no word in the stack, so it reserves no frame and stores no place to
/// return to. It returns at once. In the delay slots the mask is inverted while 9 is set, the mask is kept while the
/// result is given, and the flag is given. The words are the assembler's for these bundles, written by hand.
#[tactic(auto, using(crate::proofs::Example::nine_fits), unfolding(patmos_code::specs::Codes::code, sp_emit::specs::Places::read_op, sp_emit::specs::Places::set_op, sp_emit::specs::Places::cleared_in, sp_emit::specs::Places::flag_of, sp_emit::specs::Instructions::number_op))]
pub fn worked_image()
    ensures formed { is_formed nine ≡ true }
    ensures fits { FitsImage (code_of nine) }
    ensures words { (image_of nine).words
        ≡ 8 ∷ 0x8008_0000 ∷ 0x000a_0000 ∷ 0x0540_0000 ∷ 0x8084_2001 ∷ 0x000a_0009 ∷ 0x8008_2000 ∷ 0x0002_5000
        ∷ 0x0005_a000 ∷ [] }
    ensures starts { (image_of nine).starts ≡ 1 ∷ [] }
{}
