ghost use Rattle.std.specs.Prelude.{ℕ, ◌+◌, ◌*◌, ◌/◌, ◌%◌, ◌<◌, ◌≤◌, List, ◌++◌};
ghost use Rattle.shared_order.specs.declared.operation.Operation.{Operation};
ghost use Rattle.shared_order.specs.Program.{Fed, fed};
ghost use Rattle.shared_order.specs.Stamps.{act_at};
ghost use Rattle.shared_order.specs.Stands.{Stands};
ghost use Rattle.argo_ni.specs.Interface.{Interface, Standing};
ghost use Rattle.argo_ni.specs.Turn.{turn};
ghost use Rattle.argo_ni.specs.Event.{stamp_in, IsQuiet};

/// How an interface that is run apart, cycle by cycle, goes from act to act: over a stretch in which
/// nothing happens it stays as it is; and in a half-cycle it does what its turn says, whatever the
/// words that it reads have. A law: it does nothing.
pub fn interface_goes_on()
    ensures stays { (n core : ℕ) (x : Interface) (made : List Operation) (s : Standing) (to : ℕ)
        → core < n → s.from ≤ to → IsQuiet s.interface s.from to
        → Stands (act_at turn n) n core x made (s.from * n) s.interface
        → Stands (act_at turn n) n core x made (to * n) s.interface }
    ensures acts { (n core : ℕ) (x : Interface) (made : List Operation) (cycle phase : ℕ)
        → (y : Interface) (values : List ℕ) → core < n → phase ≤ 1
        → Stands (act_at turn n) n core x made ((2 * cycle + phase) * n) y
        → let heard : Fed Interface = fed (stamp_in n core (2 * cycle + phase)) (turn phase cycle y) values in
        Stands (act_at turn n) n core x (made ++ heard.ops) ((2 * cycle + phase) * n + n) heard.core }
{}
