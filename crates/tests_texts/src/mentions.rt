//! What is reported of small programs, and of tasks that run them.
ghost use Rattle.c_mentions.specs.Reported.{Tells};
ghost use Rattle.c_tree.specs.Plain.{plain};

use crate::c_texts::parsed;
use crate::expect::expect_same;
use c_mentions::{CoreTask, Mentioning, Mentions, is_alone, mentions_of};
use c_tree::Unit;
use std::test::Fail;

/// It reads an element of `comm`, and then has a variable so called.
const READER: &str = "int main() { int x = comm[0]; int comm = 1; return comm; }";

/// It has a `send` to core 2, and assigns an element of `shared`.
const WRITER: &str = "int main() { if (0) { send(2, 0, 0, 1); } shared[0] = 5; return x; }";

/// A program, with what it mentions.
#[derive(Drop)]
struct Mentioned {
    unit: Unit,
    mentions: Mentions,
    ghost tells: { Tells mentions (plain unit) },
}

impl Mentioning for Mentioned {
    ghost use Rattle.c_tree.specs.Plain.{plain};

    ghost items = { λ p. plain p.unit };

    fn mentions(&self) -> Mentions {
        self.mentions
    }
}

fn task_of(rt: &HostRuntime, text: &str) -> Result<CoreTask<Mentioned>, Fail> {
    let unit = parsed(rt.alloc(), text)?;
    let mentions = mentions_of(&unit);
    Ok(CoreTask::C(Mentioned { unit, mentions }))
}

#[test]
fn comm_is_mentioned_before_it_is_hidden(rt: HostRuntime) -> Result<(), Fail> {
    let unit = parsed(rt.alloc(), READER)?;
    let told = mentions_of(&unit);
    expect_same(&rt, (told.comm, told.shared, told.sends), (true, false, 0));
    Ok(())
}

#[test]
fn shared_is_assigned_and_core_2_sent_to(rt: HostRuntime) -> Result<(), Fail> {
    let unit = parsed(rt.alloc(), WRITER)?;
    let told = mentions_of(&unit);
    expect_same(
        &rt,
        (told.shared, told.assigns_shared, told.comm),
        (true, true, false),
    );
    expect_same(
        &rt,
        (told.sends, told.sends_to(2), told.sends_to(0)),
        (4, true, false),
    );
    Ok(())
}

#[test]
fn a_reader_is_alone_until_its_core_is_sent_to(rt: HostRuntime) -> Result<(), Fail> {
    let tasks = [
        task_of(&rt, READER)?,
        task_of(&rt, WRITER)?,
        task_of(&rt, READER)?,
        CoreTask::Idle,
    ];
    for (core, alone) in [(0, true), (1, true), (2, false), (3, false)] {
        expect_same(&rt, (core, is_alone(core, &tasks)), (core, alone));
    }
    Ok(())
}
