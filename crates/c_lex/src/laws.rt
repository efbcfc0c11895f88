ghost use Rattle.std.specs.Prelude.{◌≡◌, ℕ, ◌≤◌, List, ◌++◌, [], ◌∷◌, true, false, length, codes};
ghost use Rattle.c_lex.specs.declared.pieces.Piece.TheVariants as piece;
ghost use Rattle.c_tree.specs.declared.tokens.Token.{Token};
ghost use Rattle.c_tree.specs.declared.tokens.Token.TheVariants as token;
ghost use Rattle.c_tree.specs.declared.tokens.Keyword.TheVariants as keyword;
ghost use Rattle.c_tree.specs.declared.tokens.Sign.TheVariants as sign;
ghost use Rattle.c_lex.specs.Longest.{IsLongest};
ghost use Rattle.c_lex.specs.Texts.{piece_after, lexed_from, lexed, tokens, no_token, too_wide};

/// Worked texts, for contracts: the definition of a text's tokens computes. It does nothing.
#[tactic(auto, unfolding(crate::specs::Texts::piece_after))]
pub fn worked_texts()
    ensures declaration { lexed (codes "int a_1 = 0x1Fu; // one") ≡
        tokens (token.Keyword keyword.Int ∷ token.Word (codes "a_1") ∷ token.Sign sign.Assign ∷ token.Number 31 true
        ∷ token.Sign sign.Semicolon ∷ []) }
    ensures three { lexed (codes "a<b")
        ≡ tokens (token.Word (codes "a") ∷ token.Sign sign.Less ∷ token.Word (codes "b") ∷ []) }
    ensures longest { lexed (codes "a<<b<=c") ≡
        tokens (token.Word (codes "a") ∷ token.Sign sign.ShiftLeft ∷ token.Word (codes "b") ∷ token.Sign sign.LessEqual
        ∷ token.Word (codes "c") ∷ []) }
    ensures assigning_shift { lexed (codes "a <<= 1") ≡ no_token 2 }
    ensures decrement { lexed (codes "int main() { int x = 1; return --x; }") ≡ no_token 31 }
    ensures no_sign { lexed (codes "int main() { return 1 $ 2; }") ≡ no_token 22 }
    ensures above_word { lexed (codes "int main() { return 4294967296; }") ≡ too_wide 20 }
    ensures great { lexed (codes "4294967295 2147483648 7")
        ≡ tokens (token.Number 4294967295 true ∷ token.Number 2147483648 true ∷ token.Number 7 false ∷ []) }
    ensures leading_zero { lexed (codes "08") ≡ no_token 0 }
    ensures no_digit { lexed (codes "0x") ≡ no_token 0 }
    ensures two_suffixes { lexed (codes "1uu") ≡ no_token 0 }
    ensures comment { lexed (codes "1 /*/ */ 2") ≡ tokens (token.Number 1 false ∷ token.Number 2 false ∷ []) }
    ensures open_comment { lexed (codes "a /* b") ≡ no_token 2 }
    ensures form_feed { lexed (12 ∷ codes "a") ≡ no_token 0 }
    ensures bound { lexed (codes "_Pragma(\"loopbound min 10 max 10\")") ≡ tokens (token.Bound 10 10 ∷ []) }
    ensures bound_line { lexed (codes "a" ++ 10 ∷ codes " #pragma loopbound min 1 max 2 " ++ 13 ∷ 10 ∷ codes "b") ≡
        tokens (token.Word (codes "a") ∷ token.Bound 1 2 ∷ token.Word (codes "b") ∷ []) }
    ensures late_bound_line { lexed (codes "a #pragma loopbound min 1 max 2") ≡ no_token 2 }
    ensures wide_bound { lexed (codes "_Pragma(\"loopbound min 1 max 4294967296\")") ≡ too_wide 29 }
{}

/// What holds of the tokens of every text, for contracts. It does nothing.
///
/// A token is the longest one that can stand at its place, and a text has no more pieces than bytes.
#[tactic(auto, using(crate::proofs::Longest::token_is_longest, crate::proofs::Steps::enough))]
pub fn every_text()
    ensures longest { (before bs : List ℕ) (t : Token) (count : ℕ) → piece_after before bs ≡ piece.Is t count
        → IsLongest before bs t count }
    ensures pieces { (text : List ℕ) (pieces : ℕ) → length text ≤ pieces → lexed_from pieces text 0 ≡ lexed text }
{}
