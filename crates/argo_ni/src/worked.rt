ghost use Rattle.std.specs.Prelude.{◌≡◌, [], ◌∷◌};
ghost use Rattle.shared_order.specs.Operation.{load, store};
ghost use Rattle.shared_order.specs.Machine.{cycled};
ghost use Rattle.argo_ni.specs.Sender.{sender_turn, of_two, of_three};

/// The definitions at work. Of two cores, core 0 starts to send three words in cycle 10: two are
/// injected in cycle 12 and one in cycle 15, and they are delivered in cycles 21 and 24. A start in
/// cycle 13 is dropped. A start in cycle 16 sends a word that is injected in cycle 18 and delivered
/// in cycle 27. Of three cores, cores 0 and 1 start in one cycle to send to one word of core 2: core
/// 1's window comes first.
pub fn interface_worked()
    ensures two { (cycled sender_turn 2 of_two 28).made ≡
        store 2 4096 7 ∷ store 2 4097 8 ∷ store 2 4098 9
        ∷ load 50 4096 7 ∷ load 50 4097 8 ∷ load 62 4098 9 ∷ load 74 4098 9
        ∷ store 84 4613 7 ∷ store 84 4614 8 ∷ store 96 4615 9 ∷ store 108 4617 9 ∷ [] }
    ensures dropped { ((cycled sender_turn 2 of_two 28).cores 0).interface.dropped ≡ 1 }
    ensures three { (cycled sender_turn 3 of_three 25).made ≡
        store 3 4096 3 ∷ store 4 4608 4
        ∷ load 76 4608 4 ∷ load 93 4096 3
        ∷ store 127 5127 4 ∷ store 144 5127 3 ∷ [] }
    ensures last { (cycled sender_turn 3 of_three 25).words 5127 ≡ 3 }
{}
