ghost use Rattle.std.specs.Prelude.{◌≡◌, ℕ, ◌+◌, ◌<◌, ◌≤◌};
ghost use Rattle.argo_ni.specs.declared.event.Started.TheVariants.{Begun};
ghost use Rattle.argo_ni.specs.Interface.{Interface, IsTarget, port_to};
ghost use Rattle.argo_ni.specs.Start.{answer_to, started};
ghost use Rattle.argo_grid.specs.Transfer.{Cycle, IsBrought, IsOneOf, latency_of};
ghost use Rattle.slot_arbiter.specs.declared.table.TheConstants.{MOST_CORES};

use local_store::COMM_WORDS;

/// How many cycles after its start a transfer of `count` words has been delivered, of so many cores: one
/// packet of up to two words goes in each round of windows, and the last one is under way for nine cycles.
///
/// So it is for every interface in which a start in cycle t begins, whatever the words that it reads have
/// and whatever its core does to it from then on: each word of the transfer is read and comes to its word of
/// the target's communication memory by cycle t + `latency`.
pub fn latency(cores: u32, count: u32) -> u64
    requires several { 2 ≤ cores }
    requires most { cores ≤ MOST_CORES }
    requires some { 1 ≤ count }
    requires fits { count ≤ COMM_WORDS }
    ensures bound { result ≡ latency_of cores count }
    ensures delivered { (x : Interface) (d t i : ℕ) (cycles : ℕ → Cycle) → IsOneOf cores x → IsTarget x d
        → answer_to (port_to x d) count ≡ Begun → i < count
        → IsBrought cycles (t + 1) (started d count x)
        ((port_to x d).source + i) d ((port_to x d).target + i) (t + result) }
{
    let round = 3 * u64::from(cores - 1);
    let packets = u64::from(count).div_ceil(2);
    round * packets + 9
}
