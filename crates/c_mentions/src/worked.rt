//! Worked examples: what small programs mention, and which tasks are alone with their data.
ghost use Rattle.std.specs.Prelude.{◌≡◌, [], ◌∷◌, true, false, codes};
ghost use Rattle.c_mentions.specs.Alone.{is_alone, idle, assembly};
ghost use Rattle.c_mentions.specs.Mentions.{comm_array, shared_array, mentions, assigns, sends_to};
ghost use Rattle.c_mentions.specs.Small as small;
ghost use Rattle.c_meaning.specs.Small as text;

/// Mentions: a local variable hides an array, also in its own first value, but not before it; so does a parameter, in
/// its function alone, and a variable of an inner block, up to the block's end; a mention in the head of a loop alone,
/// as an argument, in an index; an element that is assigned is mentioned.
pub fn worked_mentions()
    ensures hidden { mentions comm_array (small.hiding (text.number 1)) ≡ false }
    ensures itself { mentions comm_array (small.hiding (text.variable (codes "comm"))) ≡ false }
    ensures before { mentions comm_array small.hiding_later ≡ true }
    ensures parameter { mentions shared_array (small.with_parameter (text.number 0)) ≡ false }
    ensures after_function { mentions shared_array (small.with_parameter small.shared_element) ≡ true }
    ensures inner { mentions comm_array (small.with_block (text.number 0)) ≡ false }
    ensures after_block { mentions comm_array (small.with_block small.comm_element) ≡ true }
    ensures outside { mentions comm_array small.hiding_outside ≡ false }
    ensures condition { mentions shared_array (small.looping small.shared_element (text.number 1)) ≡ true }
    ensures step { mentions shared_array (small.looping (text.number 1) small.shared_element) ≡ true }
    ensures argument { mentions shared_array (small.calling small.shared_element) ≡ true }
    ensures assigned { mentions shared_array (small.assigning (codes "shared") (text.number 0) (text.number 5)) ≡ true }
    ensures element_set { assigns shared_array (small.assigning (codes "shared") (text.number 0) (text.number 5))
        ≡ true }
    ensures index { mentions comm_array (small.assigning (codes "shared") small.comm_element (text.number 5)) ≡ true }
    ensures only_read { assigns comm_array (small.assigning (codes "shared") small.comm_element (text.number 5))
        ≡ false }
    ensures neither { mentions comm_array (small.returning small.shared_element) ≡ false }
{}

/// Sends count where they stand in the text, for the core that they name alone.
pub fn worked_sends()
    ensures never_run { sends_to 2 (small.never_sending 2) ≡ true }
    ensures another { sends_to 1 (small.never_sending 2) ≡ false }
    ensures no_mention { mentions comm_array (small.never_sending 2) ≡ false }
{}

/// Tasks by their cores: one that mentions `comm` is alone until another sends to its core, one
/// that reads `shared` until another assigns an element of it, and assembly beside either changes
/// all; a task that mentions neither is alone.
pub fn worked_alone()
    ensures sent_to_another { is_alone 0 (small.reads_comm ∷ small.sends_to_core 2 ∷ []) ≡ true }
    ensures sent_to { is_alone 0 (small.reads_comm ∷ small.sends_to_core 0 ∷ []) ≡ false }
    ensures read_by_both { is_alone 1 (small.reads_shared ∷ small.reads_shared ∷ []) ≡ true }
    ensures written { is_alone 0 (small.reads_shared ∷ small.writes_shared_0 ∷ []) ≡ false }
    ensures written_alone { is_alone 1 (small.reads_comm ∷ small.writes_shared_0 ∷ []) ≡ true }
    ensures beside_assembly { is_alone 1 (assembly ∷ small.reads_comm ∷ []) ≡ false }
    ensures beside_nothing { is_alone 2 (idle ∷ idle ∷ small.reads_comm ∷ []) ≡ true }
    ensures mentions_neither { is_alone 1 (assembly ∷ small.mentions_neither ∷ []) ≡ true }
    ensures assembly_itself { is_alone 0 (assembly ∷ []) ≡ false }
{}
