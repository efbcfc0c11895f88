ghost use Rattle.std.specs.Prelude.{◌≡◌, ◌++◌, [], ◌∷◌, Ok, Err, codes};
ghost use Rattle.patmos_forms.specs.declared.faults.AsmKind.TheVariants.{Mnemonic, Operand, Range, Slot, NoLabel, LabelTwice, NoFunction};
ghost use Rattle.patmos_asm.specs.Assembly.{code_of};

/// Worked texts, for contracts: the definition of a text's code computes. It does nothing.
#[tactic(auto, unfolding(crate::specs::Assembly::code_of, crate::specs::Assembly::code_in, patmos_syntax::specs::Items::items_of, patmos_syntax::specs::Items::statement_of, patmos_syntax::specs::Drafts::bundle_of, patmos_syntax::specs::Drafts::braces_of, patmos_syntax::specs::Drafts::instr_of, patmos_syntax::specs::Drafts::draft_in, patmos_code::specs::Codes::code))]
pub fn worked_texts()
    ensures store { code_of (codes ".func main; addl r2 = r0, 0x01000000; swm [r2 + 0] = r3; ret") ≡
        Ok (record {
          names = codes "main" ∷ [];
          starts = 1 ∷ [];
          words = 4 ∷ 0x8584_0000 ∷ 0x0100_0000 ∷ 0x0446_2180
              ∷ 0x0540_0000 ∷ [];
        }) }
    ensures branch_back { code_of (codes ".func f; top: nop # here" ++ 10 ∷ codes "br top") ≡
        Ok (record { names = codes "f" ∷ []; starts = 1 ∷ []; words = 2 ∷ 0 ∷ 0x04bf_ffff ∷ [] }) }
    ensures call_ahead { code_of (codes ".func f; { call g ; nop }; .func g") ≡
        Ok (record { names = codes "f" ∷ codes "g" ∷ []; starts = 1 ∷ 4 ∷ []; words = 2 ∷ 0x84c0_0004 ∷ 0 ∷ 0 ∷ [] }) }
    ensures mnemonic { code_of (codes ".func f" ++ 10 ∷ codes "foo r1") ≡ Err (record { fault = Mnemonic; line = 2 }) }
    ensures operand_before_range { code_of (codes ".func f; addi r1, r99")
        ≡ Err (record { fault = Operand; line = 1 }) }
    ensures range { code_of (codes ".func f; addi r1 = r0, 4096") ≡ Err (record { fault = Range; line = 1 }) }
    ensures slot { code_of (codes ".func f; { nop ; ret }") ≡ Err (record { fault = Slot; line = 1 }) }
    ensures label { code_of (codes ".func f; br away; .func away") ≡ Err (record { fault = NoLabel; line = 1 }) }
    ensures twice { code_of (codes ".func f" ++ 10 ∷ codes "x: x: nop")
        ≡ Err (record { fault = LabelTwice; line = 2 }) }
    ensures nothing { code_of (codes " # nothing") ≡ Err (record { fault = NoFunction; line = 1 }) }
{}
