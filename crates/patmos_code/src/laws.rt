ghost use Rattle.std.specs.Prelude.{◌≡◌, ℕ, ◌^◌, ◌<◌, [], ◌∷◌, Some, None, IfSome};
ghost use Rattle.patmos_instr.specs.Bundles.{PlainBundle, FitsBundle};
ghost use Rattle.patmos_code.specs.Codes.{code, StandFor};
ghost use Rattle.patmos_code.specs.Decoding.{bundle_at};
ghost use Rattle.patmos_code.specs.Images.{starts_of};
ghost use Rattle.patmos_code.specs.Worked.{long_add, byte_store, guarded_add};
ghost use Rattle.patmos_code.specs.declared.images.TheConstants.{MOST_IN_FUNCTION, MOST_IN_IMAGE};

/// A law for contracts: different bundles have different codes. It does nothing.
pub fn codes_differ()
    ensures { (a b : PlainBundle) → FitsBundle a → FitsBundle b → code a ≡ code b → a ≡ b }
{}

/// A law for contracts: what `bundle_at` computes is exactly the bundle for which two words stand. It
/// does nothing.
#[tactic(auto, using(crate::proofs::Bundles::bundle_back, crate::proofs::Bundles::bundle_taken))]
pub fn decoding_is_exact()
    ensures found { (b : PlainBundle) → FitsBundle b → (first second : ℕ) → StandFor first second b →
        bundle_at first second ≡ Some b }
    ensures stands { (first second : ℕ) → first < 2 ^ 32 → second < 2 ^ 32 →
        IfSome (bundle_at first second) (λ b. FitsBundle b × StandFor first second b) }
{}

/// Worked values, for contracts: the definitions compute. It does nothing.
#[tactic(auto, unfolding(crate::specs::Decoding::bundle_at, crate::specs::Codes::code))]
pub fn worked_words()
    ensures long { bundle_at 0x8584_0000 0x0100_0000 ≡ Some long_add }
    ensures narrow { bundle_at 0x0456_2201 7 ≡ Some byte_store }
    ensures pair { bundle_at 0xd206_4280 0 ≡ Some guarded_add }
    ensures words { code guarded_add ≡ 0xd206_4280 ∷ 0 ∷ [] }
    ensures none { bundle_at 0x0540_0001 0 ≡ None }
    ensures starts { starts_of (2 ∷ 0 ∷ 0 ∷ 0 ∷ 1 ∷ 0 ∷ []) ≡ 1 ∷ 4 ∷ 5 ∷ [] }
{}

/// The most words of a function and of an image, in numbers. A law: it does nothing.
pub fn limits()
    ensures function { MOST_IN_FUNCTION ≡ 4096 }
    ensures image { MOST_IN_IMAGE ≡ 32768 }
{}
