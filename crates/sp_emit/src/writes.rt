//! Places that are set under a mask, from the first register.
ghost use Rattle.std.specs.Prelude.{◌≡◌, ◌++◌, ◌<◌, true, IfOk, OnOk};
ghost use Rattle.sp_emit.specs.Fits.{ExprFits};
ghost use Rattle.sp_emit.specs.Statements as specs;
ghost use Rattle.sp_shape.specs.Parts.{straight, one, joined};
ghost use Rattle.sp_shape.specs.Shown.{parts_of};
ghost use Rattle.sp_tree.specs.Formed.{cell_formed, array_formed};
ghost use Rattle.sp_tree.specs.Plain.{plain_sp};
ghost use Rattle.sp_tree.specs.Shown.{plain_sp_target};

use crate::arrays::{at_word_0, compare_below, offset_of, scale, set_base, set_length};
use crate::expressions::{address_of, array_space, cell_space};
use crate::instructions::{always, combine, set_number, store_to, where_so};
use crate::parts::push_straight;
use crate::places::{mask_test, set_word, told_at};
use crate::registers::{FIRST, SECOND, SPARE, TEST, pred, reg, register_after};
use crate::stands::Homes;
use patmos_instr::{Bundle, Mem, Pred, PredFunc, Reg};
use sp_shape::Part;
use sp_tree::{SpArray, SpCell};
use std::alloc::Global;
use tc_word::OutOfMemory;

/// A word of the frame is set. It is `Err` where memory runs out.
pub fn slot_write(
    out: &mut Vec<Part>,
    homes: Homes,
    mask: u32,
    slot: u32,
) -> Result<(), OutOfMemory>
    requires mask { mask < 128 }
    requires slot { slot < 128 }
    ensures { OnOk result (parts_of out.new.items
        ≡ joined (parts_of out.old.items) (one (straight (specs.slot_write homes mask slot)))) }
{
    let [load, test] = mask_test(homes, mask);
    let set = set_word(
        homes.first,
        where_so(told_at(homes, mask)),
        slot,
        reg(FIRST),
    );
    push_straight(out, &[load, test, set])
}

// the store so many words after an address, after other bundles; the space is none of the stack
fn masked_store(
    bundles: &mut Vec<Bundle>,
    told: Pred,
    space: Mem,
    at: Reg,
    words: u32,
) -> Result<(), OutOfMemory>
    requires { words < 128 }
    ensures { OnOk result (bundles.new.items ≡ bundles.old.items ++ specs.masked_store told space at words) }
{
    let value = reg(FIRST);
    match space {
        Mem::S => {}
        Mem::L => bundles.push(store_to(where_so(told), Mem::L, at, value, words))?,
        Mem::C | Mem::M => {
            bundles.push(at_word_0(told, at, words))?;
            bundles.push(store_to(always(), space, at, value, words))?;
        }
    }
    Ok(())
}

/// A variable is set. It is `Err` where memory runs out.
pub fn cell_write(
    out: &mut Vec<Part>,
    homes: Homes,
    mask: u32,
    cell: SpCell,
) -> Result<(), OutOfMemory>
    requires mask { mask < 128 }
    requires formed { cell_formed cell ≡ true }
    ensures { OnOk result (parts_of out.new.items
        ≡ joined (parts_of out.old.items) (one (straight (specs.cell_write homes mask cell)))) }
{
    let mut bundles = Vec::new(*out.allocator());
    bundles.extend_from_slice(&mask_test(homes, mask))?;
    bundles.push(set_number(reg(SPARE), address_of(cell.region, cell.word)))?;
    let told = told_at(homes, mask);
    masked_store(&mut bundles, told, cell_space(cell.region), reg(SPARE), 0)?;
    push_straight(out, &bundles)
}

// the bundles that set an element
fn element_bundles(
    alloc: Global,
    homes: Homes,
    mask: u32,
    array: SpArray,
) -> Result<Vec<Bundle>, OutOfMemory>
    requires mask { mask < 128 }
    requires formed { array_formed array ≡ true }
    ensures { IfOk result (λ bundles. bundles.items ≡ specs.element_write homes mask array) }
{
    let index = register_after(reg(FIRST));
    let (test, second) = (pred(TEST), pred(SECOND));
    let mut bundles = Vec::new(alloc);
    bundles.extend_from_slice(&mask_test(homes, mask))?;
    bundles.extend_from_slice(&[
        set_length(array.length),
        compare_below(second, index, array.length),
        combine(PredFunc::Pand, test, told_at(homes, mask), second),
        set_base(array),
        scale(array, index, index),
    ])?;
    let space = array_space(array.region);
    masked_store(&mut bundles, test, space, index, offset_of(array))?;
    Ok(bundles)
}

/// An element is set, whose index stands in the second register. It is `Err` where memory runs out.
pub fn element_write(
    out: &mut Vec<Part>,
    homes: Homes,
    mask: u32,
    array: SpArray,
) -> Result<(), OutOfMemory>
    requires mask { mask < 128 }
    requires formed { array_formed array ≡ true }
    ensures { OnOk result (parts_of out.new.items
        ≡ joined (parts_of out.old.items) (one (straight (specs.element_write homes mask array)))) }
{
    let bundles = element_bundles(*out.allocator(), homes, mask, array)?;
    push_straight(out, &bundles)?;
    Ok(())
}
