ghost use Rattle.std.specs.Prelude.{◌≡◌, List, [], ◌∷◌};
ghost use Rattle.shared_order.specs.Operation.{load, store, operations_of};
ghost use Rattle.shared_order.specs.Machine.{cycled};
ghost use Rattle.shared_order.specs.Apart.{apart};
ghost use Rattle.shared_order.specs.Stamps.{act_at, machine};
ghost use Rattle.shared_order.specs.Two.{two, turn};

/// Six cycles of the small machine of two cores. A core sends two words and then stores a byte in
/// one of them at one stamp (7). In cycle 4 a packet, a load and a store meet in word 7: the packet
/// comes first, though its sender is the last core, then core 0 loads what it brought, and then
/// core 1 stores. Apart from core 1, core 0 loads what it is fed with, and 0 where that has ended.
pub fn worked_machine()
    ensures operations { (cycled turn 2 two 6).made ≡
        store 2 5 259 ∷ load 3 5 259
        ∷ load 7 4 0 ∷ load 7 5 259 ∷ load 7 5 259 ∷ store 7 5 263
        ∷ store 17 6 0 ∷ store 17 7 259 ∷ load 18 7 259 ∷ store 19 7 8
        ∷ load 22 7 8 ∷ [] }
    ensures word_5 { (cycled turn 2 two 6).words 5 ≡ 263 }
    ensures word_7 { (cycled turn 2 two 6).words 7 ≡ 8 }
    ensures seen { ((cycled turn 2 two 6).cores 0).seen ≡ 8 ∷ 259 ∷ [] }
    ensures by_stamps { (machine (act_at turn 2) 2 two 24).made ≡ (cycled turn 2 two 6).made }
    ensures apart { (apart turn 2 0 (two 0) (1 ∷ []) 6).made ≡
        store 2 5 259 ∷ load 18 7 1 ∷ load 22 7 0 ∷ [] }
{}
