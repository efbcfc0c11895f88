//! The calls of a board. Each but [`Board::new`] is one atomic step of the table and constant work besides,
//! apart from [`Board::give`], which may try its step again and is the only one that may wait, and
//! [`Board::close`], which goes over the words. Each call of a pass hands the pass on: its record grows by
//! exactly what the call did.
ghost use Rattle.std.specs.Prelude.{◌≡◌, ◌≢◌, ℕ, ◌+◌, ◌^◌, ◌<◌, ◌≤◌, ◌↔◌, [], ◌∷◌, length, max, slice_index, vec_capacity, IfOk, IsSome, MatchBool};
ghost use Rattle.std.specs.List.{AllByRecursion as Each};
ghost use Rattle.std.specs.Mem.Slots.{slots_items, slots_len, IsFull};
ghost use Rattle.shared_order.specs.Operation.{load, store};
ghost use Rattle.shared_order.specs.Words.{stored_last};
ghost use Rattle.shared_order.specs.Course.{IsCourse};
ghost use Rattle.clock_board.specs.Record.{clock_of, greatest, empty, with_look, with_stamp, with_operation};
ghost use Rattle.clock_board.specs.View.{own, back, todo, maker, given, with_back, IsGiven, IsMaker, IsNext, HasSeen};
ghost use Rattle.clock_board.specs.Board.{IsPassOf};
ghost use Rattle.clock_board.specs.End.{IsEnd, AllPast};
ghost use Rattle.slot_arbiter.specs.declared.table.TheConstants.{MOST_CORES};

use crate::course::Course;
use crate::known::{Holding, View};
use crate::parts::{Board, Pass};
use crate::rule::{Claims, Looks, Makes, Parts, Publishes};
use atomic_table::{Closed, Seat, Table};
use std::alloc::Global;
use std::marker::PhantomData;
use std::sync::Wait;
use tc_word::{List as Words, OutOfMemory};

impl<C: Course> Board<C> {
    /// A board for a course of `cores` cores, 1 to 16, on `words` shared words, all 0, and the
    /// maker's pass. Contracts alone look at the course. No other call takes memory.
    pub fn new(
        alloc: Global,
        course: &C,
        cores: u32,
        words: u32,
    ) -> Result<(Board<C>, Pass<C>), OutOfMemory>
        requires few { cores ≤ MOST_CORES }
        requires cores { C.cores course.now ≡ cores }
        requires course { IsCourse cores words (C.all course.now) (C.asked course.now) }
        ensures board { IfOk result (λ b.
            (b.0.cores ≡ cores) × (b.0.words ≡ words) × (b.0.course ≡ C.all course.now)) }
        ensures of { IfOk result (λ b. IsPassOf b.0 b.1) }
        ensures maker { IfOk result (λ b. b.1.view ≡ maker cores (C.all course.now)) }
    {
        let spare = Vec::with_capacity(alloc, words as usize)?;
        let zeros = vec![in alloc; 0u64; 2 * cores as usize + words as usize]?;
        let (table, seat) = Table::of_words(alloc, zeros.as_slice(), course)?;
        let board = Board {
            table,
            cores,
            words,
            spare,
        };
        let pass = Pass {
            seat,
            core: 0,
            seen: [0; 16],
            of: PhantomData,
        };
        Ok((board, pass))
    }

    /// The pass of a core, which has made, published and seen nothing. It waits for ever where that
    /// core's pass was given before.
    pub fn give<R: Wait>(&self, rt: &R, maker: &mut Pass<C>, core: u32) -> Pass<C>
        requires of { IsPassOf self.now maker.old }
        requires maker { IsMaker maker.old.view }
        requires among { core < self.now.cores }
        ensures same { maker.new ≡ maker.old }
        ensures of { IsPassOf self.now result }
        ensures given { IsGiven result.view }
        ensures fresh { result.view ≡ given maker.old.view (empty core) }
    {
        let mut seat = self.table.shared.split_seat::<Parts>(&mut maker.seat);
        for _ in rt.forever() {
            if self.claim(&mut seat, core) {
                break;
            }
        }
        Pass {
            seat,
            core,
            seen: [0; 16],
            of: PhantomData,
        }
    }

    /// Swaps 1 into a core's claim word, and says whether 0 was there.
    fn claim(&self, seat: &mut Seat<(), View>, core: u32) -> bool
        requires board { seat.old.table_id ≡ self.now.id }
        requires cores { seat.old.me.0.cores ≡ self.now.cores }
        requires claiming { seat.old.me.0.holding ≡ Holding.Claiming }
        requires among { core < self.now.cores }
        ensures board { seat.new.table_id ≡ seat.old.table_id }
        ensures claimed { MatchBool result
            (seat.new.me ≡ (given seat.old.me.0 (empty core), seat.old.me.1))
            (seat.new.me ≡ seat.old.me) }
    {
        let word = self.cores as usize + core as usize;
        let found = self.table.shared.swap::<Claims>(seat, word, 1);
        found == 0
    }

    /// Core d's clock: the stamp that it has published last, or 0.
    pub fn look(&self, pass: &mut Pass<C>, d: u32) -> u64
        requires of { IsPassOf self.now pass.old }
        requires given { IsGiven pass.old.view }
        requires among { d < self.now.cores }
        ensures of { IsPassOf self.now pass.new }
        ensures given { IsGiven pass.new.view }
        ensures looked { pass.new.view
            ≡ given pass.old.view (with_look (own pass.old.view) d result) }
        ensures seen { greatest d (own pass.new.view).looks
            ≡ max (greatest d (own pass.old.view).looks) result }
        ensures others { (e : ℕ) → e ≢ d
            → greatest e (own pass.new.view).looks ≡ greatest e (own pass.old.view).looks }
    {
        let shown = self.table.shared.load::<Looks>(&mut pass.seat, d as usize);
        pass.seen[d as usize] = pass.seen[d as usize].max(shown);
        shown
    }

    /// What core d's clock shows, or nothing of a core that the board does not have. It is no look: no pass
    /// learns of it.
    pub fn peek(&self, d: u32) -> Option<u64>
        ensures { IsSome result ↔ (d < self.now.cores) }
    {
        if d < self.cores {
            Some(self.table.shared.peek(d as usize))
        } else {
            None
        }
    }

    /// Sets the own clock to a stamp, which says that the core makes no operation of a lesser stamp
    /// from here on.
    pub fn publish(&self, pass: &mut Pass<C>, stamp: u64)
        requires of { IsPassOf self.now pass.old }
        requires given { IsGiven pass.old.view }
        requires late { clock_of (own pass.old.view).published ≤ stamp }
        requires made { Each (λ o. stamp ≤ o.stamp) (todo pass.old.view) }
        ensures of { IsPassOf self.now pass.new }
        ensures given { IsGiven pass.new.view }
        ensures published { pass.new.view
            ≡ given pass.old.view (with_stamp (own pass.old.view) stamp) }
        ensures clock { clock_of (own pass.new.view).published ≡ stamp }
    {
        let clock = pass.core as usize;
        self.table
            .shared
            .store::<Publishes>(&mut pass.seat, clock, stamp);
    }

    /// Makes the core's next operation, a load: the word's value, which is the course's.
    pub fn load(&self, pass: &mut Pass<C>, stamp: u64, word: u32) -> u32
        requires of { IsPassOf self.now pass.old }
        requires given { IsGiven pass.old.view }
        requires next { (value : ℕ) × IsNext pass.old.view (load stamp word value) }
        requires seen { HasSeen pass.old.view stamp }
        ensures of { IsPassOf self.now pass.new }
        ensures given { IsGiven pass.new.view }
        ensures made { pass.new.view
            ≡ given pass.old.view (with_operation (own pass.old.view) (load stamp word result)) }
        ensures left { todo pass.old.view ≡ load stamp word result ∷ todo pass.new.view }
    {
        let place = self.place(word);
        let found = self.table.shared.load::<Makes>(&mut pass.seat, place);
        found as u32
    }

    /// Makes the core's next operation, a store.
    pub fn store(&self, pass: &mut Pass<C>, stamp: u64, word: u32, value: u32)
        requires of { IsPassOf self.now pass.old }
        requires given { IsGiven pass.old.view }
        requires next { IsNext pass.old.view (store stamp word value) }
        requires seen { HasSeen pass.old.view stamp }
        ensures of { IsPassOf self.now pass.new }
        ensures given { IsGiven pass.new.view }
        ensures made { pass.new.view
            ≡ given pass.old.view (with_operation (own pass.old.view) (store stamp word value)) }
        ensures left { todo pass.old.view ≡ store stamp word value ∷ todo pass.new.view }
    {
        let place = self.place(word);
        self.table
            .shared
            .store::<Makes>(&mut pass.seat, place, value as u64);
    }

    /// Where a shared word stands in the table: after the clocks and the claim words.
    fn place(&self, word: u32) -> usize
        ensures { result ≡ self.now.cores + self.now.cores + word }
    {
        2 * self.cores as usize + word as usize
    }

    /// Puts a core's record after those that came back before.
    pub fn take_back(&self, maker: &mut Pass<C>, pass: Pass<C>)
        requires of_maker { IsPassOf self.now maker.old }
        requires of { IsPassOf self.now pass }
        requires maker { IsMaker maker.old.view }
        requires given { IsGiven pass.view }
        ensures of { IsPassOf self.now maker.new }
        ensures back { maker.new.view ≡ with_back maker.old.view (own pass.view) }
    {
        let Pass {
            seat,
            core: _,
            seen: _,
            of: _,
        } = pass;
        self.table.shared.join_seat::<Parts>(&mut maker.seat, seat);
    }

    /// The shared words, after all that was made: after the whole course, where each core's record
    /// came back and has published a stamp past it.
    pub fn close(self, maker: Pass<C>) -> Words<u32>
        requires of { IsPassOf self maker }
        requires maker { IsMaker maker.view }
        ensures len { length result ≡ self.words }
        ensures ended { IsEnd self (back maker.view) result }
        ensures whole { (limit w : ℕ) → AllPast self (back maker.view) limit
            → w < self.words → slice_index result w ≡ stored_last w self.course 0 }
    {
        let Board {
            table,
            cores,
            words,
            mut spare,
        } = self;
        let Pass {
            seat,
            core: _,
            seen: _,
            of: _,
        } = maker;
        let closed = table.close_with(seat);
        copy_words(&closed, 2 * cores as usize, words, &mut spare);
        closed.free();
        Words::of(spare)
    }
}

/// Puts the `count` words from `first` on, which are the last, into an empty `Vec` with room.
fn copy_words(closed: &Closed<(), Global>, first: usize, count: u32, spare: &mut Vec<u32>)
    requires full { IsFull closed.now.words }
    requires within { slots_len closed.now.words ≡ first + count }
    requires small { (j : ℕ) → j < count
        → slice_index (slots_items closed.now.words) (first + j) < 2 ^ 32 }
    requires empty { spare.old.items ≡ [] }
    requires room { count ≤ vec_capacity spare.old }
    ensures len { length spare.new.items ≡ count }
    ensures copied { (j : ℕ) → j < count
        → slice_index spare.new.items j
        ≡ slice_index (slots_items closed.now.words) (first + j) }
{
    for j in 0..count {
        spare.push_reserved(closed.word(first + j as usize) as u32);
    }
}

impl<C> Pass<C> {
    /// The greatest look of this pass at core d's clock, or 0 where there was none.
    pub fn seen(&self, d: u32) -> u64
        requires given { IsGiven self.now.view }
        requires among { d < self.now.view.cores }
        ensures { result ≡ greatest d (own self.now.view).looks }
    {
        self.seen[d as usize]
    }
}
