ghost use Rattle.std.specs.Prelude.{◌≡◌, ◌+◌, [], ◌∷◌};
ghost use Rattle.argo_grid.specs.Grid.{router_of};
ghost use Rattle.argo_grid.specs.Route.{links_of, route};
ghost use Rattle.argo_grid.specs.Packet.{sent_at, travel_time};
ghost use Rattle.argo_grid.specs.Check.{checked};
ghost use Rattle.shared_order.specs.Operation.{load, store};
ghost use Rattle.argo_ni.specs.Start.{started};
ghost use Rattle.argo_grid.specs.Transfer.{before, delivering, injecting, latency_of};
ghost use Rattle.argo_grid.specs.Worked.{router, entry, two_routers, four_routers, six_routers, sixteen_in_a_row, both_ways, round_trip, crossing, from_four_to_seven, busy};

use crate::fault::GridFault;
use crate::route::Link;

/// The routes at work: on two columns and two rows, on three columns and two rows, and along 16 routers in
/// a row, with their times; and the bounds of transfers.
#[tactic(auto, unfolding(crate::specs::Route::links_of))]
pub fn routes_worked()
    ensures neighbour { links_of (route two_routers 0 1)
        ≡ Link.Inject 0 ∷ Link.Between (router 0 0) (router 1 0) ∷ Link.Eject 1 ∷ [] }
    ensures corner { links_of (route four_routers 0 3) ≡ Link.Inject 0
        ∷ Link.Between (router 0 0) (router 1 0) ∷ Link.Between (router 1 0) (router 1 1) ∷ Link.Eject 3 ∷ [] }
    ensures back { links_of (route four_routers 3 0) ≡ Link.Inject 3
        ∷ Link.Between (router 1 1) (router 0 1) ∷ Link.Between (router 0 1) (router 0 0) ∷ Link.Eject 0 ∷ [] }
    ensures row_first { links_of (route six_routers 5 0) ≡ Link.Inject 5
        ∷ Link.Between (router 2 1) (router 1 1) ∷ Link.Between (router 1 1) (router 0 1)
        ∷ Link.Between (router 0 1) (router 0 0) ∷ Link.Eject 0 ∷ [] }
    ensures place { router_of six_routers 4 ≡ router 1 1 }
    ensures near { travel_time two_routers (entry 0 0 1 9) ≡ 9 }
    ensures across { travel_time four_routers (entry 0 1 2 12) ≡ 12 }
    ensures whole_row { travel_time sixteen_in_a_row (entry 0 0 15 0) ≡ 51 }
    ensures one_word { latency_of 2 1 ≡ 12 }
    ensures two_words { latency_of 3 2 ≡ 15 }
    ensures all_words { latency_of 2 512 ≡ 777 }
    ensures most_cores { latency_of 16 512 ≡ 11529 }
{}

/// A transfer at work: core 0 of two starts in cycle 10 to send three words from its word 4 on to those from
/// 7 on of core 1. Two are read in cycle 12, and the third in cycle 15; it is delivered in cycle 24, a cycle
/// before the bound.
pub fn transfers_worked()
    ensures sent { (injecting 12 (busy 12) (before busy 11 (started 1 3 from_four_to_seven) 1)).ops
        ≡ load 50 4100 12 ∷ load 50 4101 13 ∷ [] }
    ensures first { (delivering 21 (before busy 11 (started 1 3 from_four_to_seven) 10)).ops
        ≡ store 84 4615 12 ∷ store 84 4616 13 ∷ [] }
    ensures last { (delivering 24 (before busy 11 (started 1 3 from_four_to_seven) 13)).ops
        ≡ store 96 4617 15 ∷ [] }
    ensures bound { 10 + latency_of 2 3 ≡ 25 }
{}

/// Schedules at work: two routers that send to each other in one slot; one that says too short a time; four
/// routers of whose entries two use the link from router 0 to router 2 in one slot of the period; and two
/// routes that share a link because each goes along its row first.
#[tactic(auto, unfolding(crate::specs::Check::checked, crate::specs::Check::shares, crate::specs::Route::links_of))]
pub fn schedules_worked()
    ensures sent { sent_at round_trip (entry 1 0 2 9) 2 ≡ 21 }
    ensures right { checked (both_ways 9) ≡ Ok tt }
    ensures late { checked (both_ways 6) ≡ Err (GridFault.Late 0 9) }
    ensures shared { checked round_trip ≡ Err (GridFault.Shared 4 1) }
    ensures row_first { checked crossing ≡ Err (GridFault.Shared 1 0) }
{}
