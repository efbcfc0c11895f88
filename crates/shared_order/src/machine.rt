ghost use Rattle.std.specs.Prelude.{◌≡◌, ℕ, ◌*◌, ◌<◌, List, [], ◌++◌};
ghost use Rattle.std.specs.List.{AllByRecursion as Each};
ghost use Rattle.shared_order.specs.Operation.{loads, operations_of};
ghost use Rattle.shared_order.specs.Order.{Rising};
ghost use Rattle.shared_order.specs.Words.{after, zeros, stored_last, Reads};
ghost use Rattle.shared_order.specs.Program.{Prog};
ghost use Rattle.shared_order.specs.Machine.{State, cycled};
ghost use Rattle.shared_order.specs.Apart.{apart};
ghost use Rattle.shared_order.specs.Stamps.{act_at, machine, run_apart};

/// The machine that goes cycle by cycle is the machine that goes stamp by stamp, and the same
/// holds of each core's run apart. A law: it does nothing.
pub fn machine_by_stamps<X>()
    ensures machine { (turn : ℕ → ℕ → X → Prog X) (n : ℕ) (cores : ℕ → X) (t : ℕ)
        → cycled turn n cores t ≡ machine (act_at turn n) n cores (2 * t * n) }
    ensures apart { (turn : ℕ → ℕ → X → Prog X) (n core : ℕ) (x : X) (values : List ℕ) (t : ℕ)
        → core < n
        → apart turn n core x values t ≡ run_apart (act_at turn n) n core x values (2 * t * n) }
{}

/// A core of the machine is its run apart on the values that its own loads have there: the same
/// state and the same operations, and no value besides is used. A law: it does nothing.
pub fn core_is_its_run_apart<X>()
    ensures apart { (turn : ℕ → ℕ → X → Prog X) (n : ℕ) (cores : ℕ → X) (t core : ℕ) → core < n
        → (more : List ℕ)
        → let all : State X = cycled turn n cores t in
        apart turn n core (cores core) (loads (operations_of n core all.made) ++ more) t
        ≡ record { core = all.cores core; left = more; made = operations_of n core all.made } }
{}

/// All operations of the machine by cycles stand in the order of their stamps, those of one stamp
/// in the order in which the core makes them; each load has what was stored last in its word
/// before it, else 0; and the words are those after all operations. A law: it does nothing.
pub fn operations_in_order<X>()
    ensures rising { (turn : ℕ → ℕ → X → Prog X) (n : ℕ) (cores : ℕ → X) (t : ℕ)
        → Rising (cycled turn n cores t).made }
    ensures below { (turn : ℕ → ℕ → X → Prog X) (n : ℕ) (cores : ℕ → X) (t : ℕ)
        → Each (λ o. o.stamp < 2 * t * n) (cycled turn n cores t).made }
    ensures reads { (turn : ℕ → ℕ → X → Prog X) (n : ℕ) (cores : ℕ → X) (t : ℕ)
        → Reads [] (cycled turn n cores t).made }
    ensures words { (turn : ℕ → ℕ → X → Prog X) (n : ℕ) (cores : ℕ → X) (t : ℕ)
        → (cycled turn n cores t).words ≡ after (cycled turn n cores t).made zeros }
    ensures word { (turn : ℕ → ℕ → X → Prog X) (n : ℕ) (cores : ℕ → X) (t word : ℕ)
        → (cycled turn n cores t).words word ≡ stored_last word (cycled turn n cores t).made 0 }
{}
