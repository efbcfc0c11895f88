ghost use Rattle.std.specs.Prelude.{◌≡◌, ◌++◌, OnOk};
ghost use Rattle.std.specs.List.{flat_map};
ghost use Rattle.tc_report.specs.Line as specs;
ghost use Rattle.tc_report.specs.Report.{out_lines, state_line};

use crate::rows::{Row, RowState};
use crate::text::{put_about, put_signed};
use slot_arbiter::Access;
use tc_io::{put, put_number, put_with};
use tc_word::OutOfMemory;

/// Appends the line that tells what became of a core's task.
#[tactic(auto, unfolding(crate::specs::Report::state_line))]
pub fn add_state_line(text: &mut Vec<u8>, core: u64, row: &Row) -> Result<(), OutOfMemory>
    ensures { OnOk result (text.new.items ≡ text.old.items ++ state_line core row.now) }
{
    put_about(text, core)?;
    put_state(text, row.state)?;
    if let Some(bound) = row.bound {
        put_bound(text, bound, row.alone, is_done(row.state) && row.overrun)?;
    }
    put(text, "\n")
}

fn put_state(text: &mut Vec<u8>, state: RowState) -> Result<(), OutOfMemory>
    ensures { OnOk result (text.new.items ≡ text.old.items ++ specs.state_text state) }
{
    match state {
        RowState::Idle => put(text, "idle"),
        RowState::Limit => put(text, "limit"),
        RowState::Done { value, cycles } => {
            put(text, "done ")?;
            put_signed(text, value)?;
            put_with(text, " cycles ", cycles)
        }
        RowState::Trap { trap, at } => {
            put_with(text, "trap ", u64::from(trap))?;
            put_with(text, " at ", at)
        }
    }
}

fn is_done(state: RowState) -> bool
    ensures { result ≡ specs.is_done state }
{
    matches!(state, RowState::Done { .. })
}

/// Appends what is reported of a C task.
fn put_bound(text: &mut Vec<u8>, bound: u64, alone: bool, overrun: bool) -> Result<(), OutOfMemory>
    ensures { OnOk result (text.new.items ≡ text.old.items ++ specs.bound_text (Some bound) alone overrun) }
{
    put_with(text, " bound ", bound)?;
    put_where(text, alone, " alone")?;
    put_where(text, overrun, " overrun")
}

/// Appends words where something holds.
fn put_where(text: &mut Vec<u8>, holds: bool, words: &str) -> Result<(), OutOfMemory>
    ensures { OnOk result (text.new.items ≡ text.old.items ++ specs.where_so holds words.now) }
{
    if holds { put(text, words) } else { Ok(()) }
}

/// Appends the line of a step of the five stages: the cycle of its bundle, and the places that fetch, decode, execute,
/// memory and write-back hold.
pub fn add_step_line(
    text: &mut Vec<u8>,
    cycle: u64,
    stages: &[Option<u32>; 5],
) -> Result<(), OutOfMemory>
    ensures { OnOk result (text.new.items ≡ text.old.items ++ specs.step_line cycle stages.now) }
{
    put_with(text, "step ", cycle)?;
    put_stage(text, " F ", stages[0])?;
    put_stage(text, " D ", stages[1])?;
    put_stage(text, " E ", stages[2])?;
    put_stage(text, " M ", stages[3])?;
    put_stage(text, " W ", stages[4])?;
    put(text, "\n")
}

// what a stage holds, after its name
fn put_stage(text: &mut Vec<u8>, name: &str, place: Option<u32>) -> Result<(), OutOfMemory>
    ensures { OnOk result (text.new.items ≡ text.old.items ++ (name.now ++ specs.stage_text place)) }
{
    match place {
        None => {
            put(text, name)?;
            put(text, "-")
        }
        Some(place) => put_with(text, name, u64::from(place)),
    }
}

/// Appends the line that tells what a C task means: the value of its `main`, which is reported as
/// signed, and whether a loop of it ran past its count.
pub fn add_mean_line(
    text: &mut Vec<u8>,
    core: u64,
    value: u32,
    overrun: bool,
) -> Result<(), OutOfMemory>
    ensures { OnOk result (text.new.items ≡ text.old.items ++ specs.mean_line core value overrun) }
{
    put_about(text, core)?;
    put(text, "mean ")?;
    put_signed(text, value)?;
    put_where(text, overrun, " overrun")?;
    put(text, "\n")
}

/// Appends the lines of the words of `out`, which only a done task has given.
#[tactic(auto, unfolding(crate::specs::Report::out_lines))]
pub fn put_out_lines(text: &mut Vec<u8>, core: u64, row: &Row) -> Result<(), OutOfMemory>
    ensures { OnOk result (text.new.items ≡ text.old.items ++ out_lines core row.now) }
{
    if is_done(row.state) {
        add_outs(text, core, row.outs_unsigned, row.outs.as_slice())
    } else {
        Ok(())
    }
}

/// Appends a line for each word of `out`, with its index from 0.
#[tactic(auto, using(crate::proofs::Appends::more_outs, crate::proofs::Appends::all_outs))]
pub fn add_outs(
    text: &mut Vec<u8>,
    core: u64,
    unsigned: bool,
    words: &[u32],
) -> Result<(), OutOfMemory>
    ensures { OnOk result (text.new.items ≡ text.old.items ++ specs.outs_from core unsigned 0 words.now) }
{
    for (index, word) in words.iter().enumerate() {
        put_out(text, core, index as u64, unsigned, *word)?;
    }
    Ok(())
}

fn put_out(
    text: &mut Vec<u8>,
    core: u64,
    index: u64,
    unsigned: bool,
    word: u32,
) -> Result<(), OutOfMemory>
    ensures { OnOk result (text.new.items ≡ text.old.items ++ specs.out_line core unsigned index word) }
{
    put_about(text, core)?;
    put_with(text, "out ", index)?;
    put(text, " ")?;
    put_word(text, unsigned, word)?;
    put(text, "\n")
}

fn put_word(text: &mut Vec<u8>, unsigned: bool, word: u32) -> Result<(), OutOfMemory>
    ensures { OnOk result (text.new.items ≡ text.old.items ++ specs.word_text unsigned word) }
{
    if unsigned {
        put_number(text, u64::from(word))
    } else {
        put_signed(text, word)
    }
}

/// Appends the line that tells how many starts were dropped, where any was.
pub fn put_dropped(text: &mut Vec<u8>, core: u64, dropped: u32) -> Result<(), OutOfMemory>
    ensures { OnOk result (text.new.items ≡ text.old.items ++ specs.dropped_lines core dropped) }
{
    if dropped == 0 {
        return Ok(());
    }
    put_about(text, core)?;
    put_with(text, "dropped ", u64::from(dropped))?;
    put(text, "\n")
}

/// Appends the lines of the transactions.
#[tactic(auto, using(crate::proofs::Appends::more_accesses, crate::proofs::Appends::all_accesses))]
pub fn put_accesses(text: &mut Vec<u8>, core: u64, accesses: &[Access]) -> Result<(), OutOfMemory>
    ensures { OnOk result (text.new.items ≡ text.old.items ++ flat_map (specs.access_line core) accesses.now) }
{
    for access in accesses {
        put_access(text, core, *access)?;
    }
    Ok(())
}

fn put_access(text: &mut Vec<u8>, core: u64, access: Access) -> Result<(), OutOfMemory>
    ensures { OnOk result (text.new.items ≡ text.old.items ++ specs.access_line core access) }
{
    put_about(text, core)?;
    put_with(text, "access ", access.cycle)?;
    put(text, if access.write { " write " } else { " read " })?;
    put_number(text, u64::from(access.words))?;
    put(text, "\n")
}
