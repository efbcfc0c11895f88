ghost use Rattle.std.specs.Prelude.{◌≡◌, Some, option_map};
ghost use Rattle.pipe_five.specs.Latches as specs;

use patmos_instr::Reg;
use patmos_sem::{Pending, Regs};

/// A bundle in the memory stage: its results are forwarded to execute, and are not yet in the register file.
#[derive(Clone, Copy, Debug, PartialEq, Eq)]
pub struct Latch {
    pub place: u32,
    pub results: Regs,
}

/// What stands in the stages from execute on, and the register file.
///
/// The results of the bundle in execute are not known before the next one is executed, which finds them forwarded.
/// Those of the bundle in memory are held in its latch, and come into the file as it goes on to write-back.
#[derive(Clone, Copy, Debug, PartialEq, Eq)]
pub struct Latches {
    pub execute: Option<u32>,
    pub memory: Option<Latch>,
    pub write_back: Option<u32>,
    pub file: Regs,
}

impl Latches {
    /// No bundle in any stage; all registers are 0.
    pub fn new() -> Latches
        ensures { result ≡ specs.empty }
    {
        Latches {
            execute: None,
            memory: None,
            write_back: None,
            file: Regs::new(),
        }
    }

    /// Each bundle goes on by a stage, and the one at this place comes into execute, which found these registers.
    #[inline(always)]
    pub fn shift(&mut self, place: u32, found: &Regs)
        ensures { self.new ≡ specs.shifted (Some place) found.now self.old }
    {
        self.retire();
        self.pass_on(found);
        self.execute = Some(place);
    }

    // the bundle that was in execute comes into memory, with the registers that the next one found as its results
    #[inline(always)]
    fn pass_on(&mut self, found: &Regs)
        ensures { self.new ≡ record self.old {
          memory = option_map (λ at. record { place = at; results = found.now }) self.old.execute;
        } }
    {
        match (&mut self.memory, self.execute) {
            (Some(latch), Some(place)) => {
                latch.place = place;
                latch.results = *found;
            }
            (None, Some(place)) => {
                self.memory = Some(Latch {
                    place,
                    results: *found,
                });
            }
            (_, None) => self.memory = None,
        }
    }

    // the bundle that was in memory comes into write-back, and its results into the file
    #[inline(always)]
    fn retire(&mut self)
        ensures { self.new ≡ specs.written_back self.old.memory self.old }
    {
        match &self.memory {
            Some(latch) => {
                self.write_back = Some(latch.place);
                self.file = latch.results;
            }
            None => self.write_back = None,
        }
    }

    /// The place of the bundle in the memory stage.
    #[inline(always)]
    pub fn memory_place(&self) -> Option<u32>
        ensures { result ≡ option_map (λ latch. latch.place) self.now.memory }
    {
        match &self.memory {
            Some(latch) => Some(latch.place),
            None => None,
        }
    }

    /// The word in a register of the file, what is on its way written.
    pub fn file(&self, r: Reg) -> u32
        ensures { result ≡ specs.word_in self.now r }
    {
        match self.file.pending() {
            Pending::Value { rd, value } => {
                if rd == r && r.number() != 0 {
                    value
                } else {
                    self.file.general(r)
                }
            }
            Pending::Nothing | Pending::Product { .. } => self.file.general(r),
        }
    }
}
