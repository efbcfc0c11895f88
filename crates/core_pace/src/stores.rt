ghost use Rattle.std.specs.Prelude.{ℕ, ◌<◌, Bool, List};
ghost use Rattle.std.specs.List.{AllByRecursion as Each};
ghost use Rattle.slot_arbiter.specs.declared.place.Place.{Place};
ghost use Rattle.patmos_code.specs.Images.{Parts};
ghost use Rattle.shared_order.specs.SomeWords.{IsSome, StoresOnly, Outside, SeesOn};
ghost use Rattle.patmos_model.specs.Apart.{followed, own_operations, apart_at, sendings_at};
ghost use Rattle.patmos_model.specs.State.{Core};
ghost use Rattle.core_pace.specs.Stores.{ComesAll, StoresOwn, SendsAsAsked};

/// Of the words that cores share, the task itself stores into its own communication memory and into shared memory
/// alone. A law: it does nothing.
pub fn task_stores_its_own()
    ensures { (place : Place) (image : Parts) (input values : List ℕ) (cycles : ℕ)
        → Each (StoresOwn place.core) (own_operations place image input values cycles) }
{}

/// A core's packets go only to cores to which its task asked for a transfer: no others are under way, and no other
/// channel has words left to send. A law: it does nothing.
pub fn packets_go_where_asked()
    ensures { (place : Place) (image : Parts) (input values : List ℕ) (cycles : ℕ)
        → SendsAsAsked (apart_at place image input values cycles).core.plain.interface
        (sendings_at place image input values cycles) }
{}

/// A core's own loads and stores, and its packets, are all that it does to the words that cores share. Where its task
/// stores in some words alone, and its packets come to these alone, so does the core; and where its packets come to no
/// such word, the task's own loads of these see what they see among all that the core makes. A law: it does nothing.
pub fn packets_are_all_besides()
    ensures stores { (n core : ℕ) (x : Core) (values : List ℕ) (among : ℕ → Bool) (cycles : ℕ)
        → ((u : ℕ) → u < cycles → ComesAll (IsSome among) (followed n core x values u).run.core.plain.interface)
        → Each (StoresOnly (IsSome among)) (followed n core x values cycles).own
        → Each (StoresOnly (IsSome among)) (followed n core x values cycles).run.made }
    ensures sees { (n core : ℕ) (x : Core) (values : List ℕ) (among : ℕ → Bool) (words : ℕ → ℕ) (cycles : ℕ)
        → ((u : ℕ) → u < cycles → ComesAll (Outside (IsSome among))
        (followed n core x values u).run.core.plain.interface)
        → SeesOn (IsSome among) words (followed n core x values cycles).run.made
        → SeesOn (IsSome among) words (followed n core x values cycles).own }
{}
