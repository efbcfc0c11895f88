ghost use Rattle.std.specs.Prelude.{◌≡◌, ℕ, List, ◌++◌, map, take};
ghost use Rattle.slot_arbiter.specs.declared.event.Event.{Event};
ghost use Rattle.shared_order.specs.declared.operation.Operation.{Operation};
ghost use Rattle.shared_order.specs.Operation.{loads, asking};
ghost use Rattle.shared_order.specs.Event.{asked_by, asks_of};

/// An event asks for its first `count` operations at its stamp, whatever its loads give; and filled
/// with what the loads of such operations gave, it is those operations. A law: it does nothing.
pub fn event_asks()
    ensures asks { (e : Event) (values : List ℕ)
        → map asking (asked_by e values) ≡ asks_of e.stamp (take e.count e.ops) }
    ensures filled { (e : Event) (os : List Operation) (more : List ℕ)
        → map asking os ≡ asks_of e.stamp (take e.count e.ops)
        → asked_by e (loads os ++ more) ≡ os }
{}
