//! Where functions start.
ghost use Rattle.std.specs.Prelude.{◌≡◌, ℕ, ◌+◌, ◌<◌, ◌≤◌, ◌∷◌, IfOk, length, map, slice_index};
ghost use Rattle.patmos_code.specs.declared.images.TheConstants.{MOST_IN_IMAGE};
ghost use Rattle.tc_link.specs.Placed.{others, words_below, place};

use patmos_instr::Addr22;
use std::alloc::Global;
use tc_word::OutOfMemory;

/// The first word of each function, by the numbers of functions.
pub fn places_of(alloc: Global, sizes: &[u32], entry: usize) -> Result<Vec<Addr22>, OutOfMemory>
    requires entry { entry < length sizes.now }
    requires within { words_below (slice_index sizes.now) (length sizes.now) ≤ MOST_IN_IMAGE }
    ensures count { IfOk result (λ places. length places.items ≡ length sizes.now) }
    ensures places { IfOk result (λ places. (k : ℕ) → k < length sizes.now
        → slice_index places.items k ≡ place (slice_index sizes.now) entry k) }
{
    let mut places = Vec::new(alloc);
    let mut next = sizes[entry] + 2;
    for (k, size) in sizes.iter().enumerate() {
        if k == entry {
            places.push(Addr22::low(1))?;
        } else {
            places.push(Addr22::low(next))?;
            next += size + 1;
        }
    }
    Ok(places)
}

/// The starts of the functions in the order of the image.
pub fn in_order(alloc: Global, places: &[Addr22], entry: usize) -> Result<Vec<u32>, OutOfMemory>
    requires { entry < length places.now }
    ensures { IfOk result (λ starts. starts.items
        ≡ map (slice_index places.now) (entry ∷ others entry (length places.now))) }
{
    let mut starts = Vec::new(alloc);
    starts.push(places[entry].number())?;
    for (k, place) in places.iter().enumerate() {
        if k != entry {
            starts.push(place.number())?;
        }
    }
    Ok(starts)
}
