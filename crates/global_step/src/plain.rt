ghost use Rattle.std.specs.Prelude.{◌≡◌, ℕ, false, ◌<◌, ◌≤◌, ◌++◌, List, [], length, take, map, slice_index, slice_index_or, IsTrue, IsSome, IsNone, IfSome, None};
ghost use Rattle.std.specs.List.{AllByRecursion as Each};
ghost use Rattle.argo_ni.specs.Packet.{comm_word};
ghost use Rattle.shared_order.specs.declared.operation.Operation.{Operation};
ghost use Rattle.shared_order.specs.Operation.{operations_of};
ghost use Rattle.shared_order.specs.Words.{after};
ghost use Rattle.shared_order.specs.Machine.{cycled};
ghost use Rattle.patmos_model.specs.Cycle.{turn};
ghost use Rattle.shared_order.specs.Event.{asked_by};
ghost use Rattle.patmos_model.specs.State as state;
ghost use Rattle.patmos_core.specs.declared.cpu.Core.{Core as Cpu};
ghost use Rattle.patmos_core.specs.Position.{StandsFor, waiting_of, limit_of, place_of, room_of, phases_of, IsThrough, stamp_of};
ghost use Rattle.global_step.specs.PlainEvent.{made_on};
ghost use Rattle.global_step.specs.PlainRun.{Every, IsFree, Begins, IsSeated, IsReady, HasNext, Precedes};

use patmos_core::Core;
use slot_arbiter::{Event, MOST_CYCLES};

/// Makes an event on the words of the board: what its loads give, in their order.
fn perform(event: &Event, words: &mut [u32]) -> [u32; 8]
    requires within { Each (λ o. o.word < length words.old) (take event.now.count event.now.ops) }
    ensures asked { asked_by event.now result ≡ made_on event.now (slice_index words.old) }
    ensures words { (w : ℕ) → slice_index words.new w
        ≡ after (made_on event.now (slice_index words.old)) (slice_index words.old) w }
    ensures sized { length event.now.ops ≡ 8 }
{
    let mut values = [0; 8];
    let mut loads = 0;
    let (ops, _) = event.ops.split_at(event.count as usize);
    for op in ops {
        let word = op.word as usize;
        if op.write {
            words[word] = op.value;
        } else {
            values[loads] = words[word];
            loads += 1;
        }
    }
    values
}

/// Whether one core's event is before another's: a core that waits for none comes last.
fn is_before(one: &Core, other: &Core) -> bool
    ensures before { IsTrue result → Precedes (stamp_of one.now) (stamp_of other.now) }
    ensures not_before { result ≡ false → Precedes (stamp_of other.now) (stamp_of one.now) }
{
    match (one.stamp(), other.stamp()) {
        (Some(first), Some(second)) => first < second,
        (Some(_), None) => true,
        (None, _) => false,
    }
}

/// Asks a core for its next event before the limit.
fn ask(core: &mut Core, limit: u64)
    requires free { waiting_of core.old ≡ None }
    requires later { limit_of core.old ≤ limit }
    requires most { limit ≤ MOST_CYCLES }
    ensures ready { IsReady limit core.new }
    ensures next { (x : state.Core) (made : List Operation) → StandsFor core.old x made
        → HasNext x made limit core.new }
    ensures parts { phases_of core.old ≤ phases_of core.new }
    ensures place { place_of core.new ≡ place_of core.old }
    ensures room { room_of core.new ≡ room_of core.old }
{
    core.next(limit);
}

/// Makes the event that a core waits to be told, tells it, and asks for the next one.
fn make(core: &mut Core, words: &mut [u32], limit: u64)
    requires waiting { IsSome (waiting_of core.old) }
    requires ready { IsReady limit core.old }
    requires words { comm_word (place_of core.old).cores 0 ≤ length words.old }
    requires most { limit ≤ MOST_CYCLES }
    ensures ready { IsReady limit core.new }
    ensures sized { IfSome (waiting_of core.old) (λ e. length e.ops ≡ 8) }
    ensures next { IfSome (waiting_of core.old) (λ e. (x : state.Core) (made : List Operation)
        → StandsFor core.old x made
        → HasNext x (made ++ made_on e (slice_index words.old)) limit core.new) }
    ensures words { IfSome (waiting_of core.old) (λ e. (w : ℕ) → slice_index words.new w
        ≡ after (made_on e (slice_index words.old)) (slice_index words.old) w) }
    ensures parts { phases_of core.old < phases_of core.new }
    ensures place { place_of core.new ≡ place_of core.old }
    ensures room { room_of core.new ≡ room_of core.old }
{
    let Some(event) = core.waiting() else {
        return;
    };
    let values = perform(&event, words);
    core.resume(values, event.count);
    ask(core, limit);
}

/// The core whose event has the least stamp, or `None` where no core waits to be told one.
fn least(cores: &[Core]) -> Option<usize>
    requires some { 0 < length cores.now }
    ensures none { IsNone result → (k : ℕ) (d : Cpu) → k < length cores.now
        → IsNone (waiting_of (slice_index_or cores.now k d)) }
    ensures within { IfSome result (λ k. k < length cores.now) }
    ensures waiting { IfSome result (λ k. (d : Cpu) → IsSome (waiting_of (slice_index_or cores.now k d))) }
    ensures least { IfSome result (λ k. (j : ℕ) (d : Cpu) → j < length cores.now
        → Precedes (stamp_of (slice_index_or cores.now k d)) (stamp_of (slice_index_or cores.now j d))) }
{
    let mut least = 0;
    for k in 1..cores.len() {
        if is_before(&cores[k], &cores[least]) {
            least = k;
        }
    }
    match cores[least].stamp() {
        Some(_) => Some(least),
        None => None,
    }
}

/// Asks each core for its first event before the limit.
fn begin(cores: &mut [Core], limit: u64)
    requires free { Every (λ k. IsFree limit) cores.old }
    requires most { limit ≤ MOST_CYCLES }
    ensures ready { Every (λ k. IsReady limit) cores.new }
    ensures next { (x : ℕ → state.Core) → Begins x cores.old → Every (λ k. HasNext (x k) [] limit) cores.new }
    ensures places { map place_of cores.new ≡ map place_of cores.old }
    ensures rooms { map room_of cores.new ≡ map room_of cores.old }
{
    for k in 0..cores.len() {
        ask(&mut cores[k], limit);
    }
}

/// Runs all cores of a platform from their first event on, always the one of the least stamp, until no
/// event is left before the limit.
pub fn plain_run(cores: &mut [Core], words: &mut [u32], limit: u64)
    requires some { 0 < length cores.old }
    requires seated { Every (IsSeated (length cores.old)) cores.old }
    requires free { Every (λ k. IsFree limit) cores.old }
    requires words { length words.old ≡ comm_word (length cores.old) 0 }
    requires zero { (w : ℕ) → slice_index words.old w ≡ 0 }
    requires most { limit ≤ MOST_CYCLES }
    ensures stands { (x : ℕ → state.Core) → Begins x cores.old
        → let n = length cores.old in
        Every (λ k c. StandsFor c (x k) (operations_of n k (cycled turn n x limit).made)) cores.new }
    ensures words { (x : ℕ → state.Core) → Begins x cores.old
        → (w : ℕ) → slice_index words.new w ≡ (cycled turn (length cores.old) x limit).words w }
    ensures through { Every (λ k. IsThrough) cores.new }
    ensures limit { Every (λ k c. limit_of c ≡ limit) cores.new }
    ensures waiting { Every (λ k c. waiting_of c ≡ None) cores.new }
    ensures places { map place_of cores.new ≡ map place_of cores.old }
    ensures rooms { map room_of cores.new ≡ map room_of cores.old }
{
    begin(cores, limit);
    while let Some(k) = least(cores) {
        make(&mut cores[k], words, limit);
    }
}
