ghost use Rattle.std.specs.Prelude.{◌≡◌, ℕ, List, ◌++◌};
ghost use Rattle.shared_order.specs.Operation.{loads};
ghost use Rattle.shared_order.specs.Words.{after};
ghost use Rattle.shared_order.specs.Program.{Prog, done, and_then, Played, played, Fed, fed};

/// Fed with the values that its own loads gave before, a program does what it did before and uses
/// these values up, whether it was played on words or fed. A law: it does nothing.
pub fn program_is_heard_again<X>()
    ensures played { (s : ℕ) (p : Prog X) (words : ℕ → ℕ) (more : List ℕ)
        → fed s p (loads (played s p words).ops ++ more)
        ≡ record { core = (played s p words).core; left = more; ops = (played s p words).ops } }
    ensures fed { (s : ℕ) (p : Prog X) (values more : List ℕ)
        → fed s p (loads (fed s p values).ops ++ more)
        ≡ record { core = (fed s p values).core; left = more; ops = (fed s p values).ops } }
{}

/// A turn in parts is those parts one after another at one stamp, as where a narrow store loads its
/// word and then stores it. A law: it does nothing.
pub fn turn_in_parts<X, Y>()
    ensures whole { (p : Prog X) → and_then p (λ x. done x) ≡ p }
    ensures played { (s : ℕ) (prefix : Prog X) (back : X → Prog Y) (words : ℕ → ℕ)
        → let first : Played X = played s prefix words in
        let then_on : Played Y = played s (back first.core) (after first.ops words) in
        played s (and_then prefix back) words
        ≡ record { core = then_on.core; ops = first.ops ++ then_on.ops } }
    ensures fed { (s : ℕ) (prefix : Prog X) (back : X → Prog Y) (values : List ℕ)
        → let first : Fed X = fed s prefix values in
        let then_on : Fed Y = fed s (back first.core) first.left in
        fed s (and_then prefix back) values
        ≡ record { core = then_on.core; left = then_on.left; ops = first.ops ++ then_on.ops } }
{}
