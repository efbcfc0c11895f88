ghost use Rattle.std.specs.Prelude.{◌≡◌, ℕ, suc, ◌+◌, ◌*◌, ◌%◌, ◌<◌, ◌≤◌, List, [], ◌++◌};
ghost use Rattle.slot_arbiter.specs.declared.event.Event.{Event};
ghost use Rattle.slot_arbiter.specs.Stamp.{stamp};
ghost use Rattle.shared_order.specs.declared.operation.Operation.{Operation};
ghost use Rattle.shared_order.specs.Operation.{loads, operations_of};
ghost use Rattle.shared_order.specs.Order.{GoesOn};
ghost use Rattle.shared_order.specs.Program.{Prog, done, and_then, Fed, fed};
ghost use Rattle.shared_order.specs.Event.{asked_by, IsAskedBy};
ghost use Rattle.shared_order.specs.Machine.{State, cycled};
ghost use Rattle.shared_order.specs.Apart.{Alone, apart};
ghost use Rattle.shared_order.specs.Stamps.{act_at};
ghost use Rattle.shared_order.specs.Stands.{Stands, Midway};

/// How a core that is stepped by itself goes from stamp to stamp: it stands at the beginning; at
/// its own stamp it enters its act; each part of the act that was told what its loads gave is
/// after it; and when nothing of the act is left, it stands at the next stamp. A law: it does
/// nothing.
pub fn core_goes_on<X, Y>()
    ensures begins { (act : ℕ → X → Prog X) (n core : ℕ) (x : X) → Stands act n core x [] 0 x }
    ensures enters { (act : ℕ → X → Prog X) (n core : ℕ) (x : X) (made : List Operation) (s : ℕ)
        → (y : X) → s % n ≡ core → Stands act n core x made s y
        → Midway act n core x made s (act s y) }
    ensures goes_on { (act : ℕ → X → Prog X) (n core : ℕ) (x : X) (made : List Operation) (s : ℕ)
        → (prefix : Prog Y) (back : Y → Prog X) → Midway act n core x made s (and_then prefix back)
        → (values : List ℕ)
        → let heard : Fed Y = fed s prefix values in
        Midway act n core x (made ++ heard.ops) s (back heard.core) }
    ensures leaves { (act : ℕ → X → Prog X) (n core : ℕ) (x : X) (made : List Operation) (s : ℕ)
        → (y : X) → Midway act n core x made s (done y) → Stands act n core x made (suc s) y }
    ensures resumed { (act : ℕ → X → Prog X) (n core : ℕ) (x : X) (made : List Operation) (s : ℕ)
        → (y : X) → s % n ≡ core → Stands act n core x made s y → (values : List ℕ)
        → let heard : Fed X = fed s (act s y) values in
        Stands act n core x (made ++ heard.ops) (suc s) heard.core }
{}

/// Where cores stand after whole cycles: where a core stands there, it is its run apart; each core
/// of the machine stands where its part of the operations brings it; and so does a core that is run
/// apart on whatever values. A law: it does nothing.
pub fn core_stands<X>()
    ensures by_cycles { (turn : ℕ → ℕ → X → Prog X) (n core : ℕ) (x : X) (made : List Operation)
        → (t : ℕ) (y : X) → core < n → Stands (act_at turn n) n core x made (2 * t * n) y
        → (more : List ℕ)
        → apart turn n core x (loads made ++ more) t
        ≡ record { core = y; left = more; made = made } }
    ensures in_machine { (turn : ℕ → ℕ → X → Prog X) (n : ℕ) (cores : ℕ → X) (t core : ℕ)
        → let all : State X = cycled turn n cores t in
        Stands (act_at turn n) n core (cores core) (operations_of n core all.made) (2 * t * n)
        (all.cores core) }
    ensures apart { (turn : ℕ → ℕ → X → Prog X) (n core : ℕ) (x : X) (values : List ℕ) (t : ℕ)
        → core < n
        → let run : Alone X = apart turn n core x values t in
        Stands (act_at turn n) n core x run.made (2 * t * n) run.core }
{}

/// What a core need not step: the stamps of others, and its own at which it does nothing, by
/// stamps or by whole cycles. A law: it does nothing.
pub fn core_skips<X>()
    ensures stamps { (act : ℕ → X → Prog X) (n core : ℕ) (x : X) (made : List Operation) (s : ℕ)
        → (y : X) (d : ℕ)
        → ((u : ℕ) → s ≤ u → u < s + d → u % n ≡ core → act u y ≡ done y)
        → Stands act n core x made s y → Stands act n core x made (s + d) y }
    ensures cycles { (turn : ℕ → ℕ → X → Prog X) (n core : ℕ) (x : X) (made : List Operation)
        → (cycle : ℕ) (y : X) (d : ℕ) → core < n
        → ((u : ℕ) → cycle ≤ u → u < cycle + d → (turn 0 u y ≡ done y) × (turn 1 u y ≡ done y))
        → Stands (act_at turn n) n core x made (2 * cycle * n) y
        → Stands (act_at turn n) n core x made (2 * (cycle + d) * n) y }
    ensures reaches { (turn : ℕ → ℕ → X → Prog X) (n core : ℕ) (x : X) (made : List Operation)
        → (cycle phase : ℕ) (y : X) → core < n
        → Stands (act_at turn n) n core x made ((2 * cycle + phase) * n) y
        → Stands (act_at turn n) n core x made (stamp n core cycle phase) y }
    ensures passes { (turn : ℕ → ℕ → X → Prog X) (n core : ℕ) (x : X) (made : List Operation)
        → (cycle phase : ℕ) (y : X) → core < n
        → Stands (act_at turn n) n core x made (suc (stamp n core cycle phase)) y
        → Stands (act_at turn n) n core x made ((2 * cycle + phase) * n + n) y }
    ensures act { (turn : ℕ → ℕ → X → Prog X) (n core cycle phase : ℕ) → core < n → phase ≤ 1
        → (x : X) → act_at turn n (stamp n core cycle phase) x ≡ turn phase cycle x }
{}

/// Where a core is midway in an act and what is left of it asks for an event, the event comes next
/// in the core's run apart, whatever the loads to come give; so it comes next in a list of all that
/// the core makes. Where the core stands at the limit, nothing is left. A law: it does nothing.
pub fn event_is_next<X>()
    ensures event { (turn : ℕ → ℕ → X → Prog X) (n core : ℕ) (x : X) (made : List Operation)
        → (e : Event) (rest : Prog X) (limit : ℕ) → core < n → e.stamp < 2 * limit * n
        → Midway (act_at turn n) n core x made e.stamp rest → IsAskedBy e rest → (more : List ℕ)
        → GoesOn (suc e.stamp) (made ++ asked_by e more)
        (apart turn n core x (loads made ++ more) limit).made }
    ensures left { (turn : ℕ → ℕ → X → Prog X) (n core : ℕ) (x : X) (made left : List Operation)
        → (e : Event) (rest : Prog X) (limit : ℕ) → core < n → e.stamp < 2 * limit * n
        → Midway (act_at turn n) n core x made e.stamp rest → IsAskedBy e rest
        → (apart turn n core x (loads (made ++ left)) limit).made ≡ made ++ left
        → GoesOn (suc e.stamp) (asked_by e (loads left)) left }
    ensures none_left { (turn : ℕ → ℕ → X → Prog X) (n core : ℕ) (x : X)
        → (made left : List Operation) (y : X) (limit : ℕ) → core < n
        → Stands (act_at turn n) n core x made (2 * limit * n) y
        → (apart turn n core x (loads (made ++ left)) limit).made ≡ made ++ left → left ≡ [] }
{}

/// The first part of what is left of an act: an event that is a part comes next, and
/// what follows stands at its stamp or later. A law: it does nothing.
pub fn operation_is_next<X, Y>()
    ensures next_step { (turn : ℕ → ℕ → X → Prog X) (n core : ℕ) (x : X) (made : List Operation)
        → (e : Event) (prefix : Prog Y) (back : Y → Prog X) (limit : ℕ) → core < n
        → e.stamp < 2 * limit * n
        → Midway (act_at turn n) n core x made e.stamp (and_then prefix back) → IsAskedBy e prefix
        → (more : List ℕ)
        → GoesOn e.stamp (made ++ asked_by e more)
        (apart turn n core x (loads made ++ more) limit).made }
    ensures left { (turn : ℕ → ℕ → X → Prog X) (n core : ℕ) (x : X) (made left : List Operation)
        → (e : Event) (prefix : Prog Y) (back : Y → Prog X) (limit : ℕ) → core < n
        → e.stamp < 2 * limit * n
        → Midway (act_at turn n) n core x made e.stamp (and_then prefix back) → IsAskedBy e prefix
        → (apart turn n core x (loads (made ++ left)) limit).made ≡ made ++ left
        → GoesOn e.stamp (asked_by e (loads left)) left }
{}
