ghost use Rattle.std.specs.Prelude.{◌≡◌, ℕ, ◌++◌, true, false, List, [], length};
ghost use Rattle.method_cache.specs.declared.cache.Method.{Method};
ghost use Rattle.method_cache.specs.Residents.{resident, is_among, fill_of};
ghost use Rattle.patmos_model.specs.State.{Core};
ghost use Rattle.patmos_model.specs.Flows.{fetch_of};
ghost use Rattle.patmos_model.specs.Bursts.{slots_of, bursts, in_cycles, moved_in};

/// A transfer is its transactions: as many slots as its words take leave nothing to be moved, and add to the core's
/// transactions those of the transfer, four words each and the rest in the last. A function that the method cache
/// lacks takes as many as the cache says, and one that it has none. A law: it does nothing.
#[tactic(auto, using(crate::proofs::Moved::bursts_made, crate::proofs::Moved::all_moved, crate::proofs::Moved::fill_takes, crate::proofs::Moved::hit_takes_none))]
pub fn transfer_is_its_bursts()
    ensures made { (c : Core) (cycles : List ℕ) → length cycles ≡ slots_of c.plain.transfer.words
        → (moved_in cycles c).seen.accesses ≡ c.seen.accesses ++ in_cycles cycles (bursts c.plain.transfer) }
    ensures moved { (c : Core) (cycles : List ℕ) → length cycles ≡ slots_of c.plain.transfer.words
        → (moved_in cycles c).plain.transfer.words ≡ 0 }
    ensures fill { (misses : List Method) (m : Method) → is_among m.function (resident misses) ≡ false
        → length (bursts (fetch_of misses m)) ≡ fill_of m.words }
    ensures hit { (misses : List Method) (m : Method) → is_among m.function (resident misses) ≡ true
        → bursts (fetch_of misses m) ≡ [] }
{}
