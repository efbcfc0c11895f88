ghost use Rattle.std.specs.Prelude.{◌≡◌, List};
ghost use Rattle.shared_order.specs.declared.operation.Operation.{Operation};
ghost use Rattle.patmos_core.specs.declared.cpu.Core.{Core as Cpu};
ghost use Rattle.patmos_model.specs.State.{Core};
ghost use Rattle.patmos_core.specs.Position.{StandsFor, place_of};

/// A core that is stepped by itself stands for the run apart of a core at its own place. A law: it does
/// nothing.
#[tactic(auto, using(crate::proofs::Sites::sited))]
pub fn core_is_at_its_place()
    ensures { (k : Cpu) (x : Core) (made : List Operation) → StandsFor k x made
        → (x.plain.site.cores ≡ (place_of k).cores) × (x.plain.site.core ≡ (place_of k).core) }
{}
