//! Which unknown key of a table is reported.
ghost use Rattle.std.specs.Prelude.{◌≡◌, ℕ, Bool, true, false, List, codes, pos};
ghost use Rattle.toml.specs.Data.{Members, integer, member, members_are_sorted, no_members};
ghost use Rattle.tc_toml.specs.Keys.{first_unknown, least_unknown};

/// The unknown key that is reported is the least by bytes, in whatever order the members stand. Where they stand as `toml`
/// keeps those of every table, by rising keys, it is the first. A law: it does nothing.
pub fn least_key_is_told()
    ensures first { (is_key : List ℕ → Bool) (ms : Members) → members_are_sorted ms ≡ true
        → least_unknown is_key ms ≡ first_unknown is_key ms }
    ensures any_order { least_unknown (λ _. false)
        (member (codes "b") (integer (pos 0)) (member (codes "ab") (integer (pos 0)) (member (codes "a")
        (integer (pos 0)) no_members))) ≡ Some (codes "a") }
{}
