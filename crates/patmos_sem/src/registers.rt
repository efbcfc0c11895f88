use crate::files::{preds_number, put_pred, put_preds, put_register};
use crate::pending::Pending;
use crate::writes::Write;
use patmos_instr::{Guard, Pred, Reg, Special, WritableSpecial};
use std::marker::Model;

/// The registers of a core: 32 general ones of 32 bits, eight predicates, the two halves of a product,
/// the base and the offset of a return in words of code, and what is on its way into a register.
///
/// Register 0 is always 0, and predicate 0 always true.
#[derive(Clone, Copy, Debug, PartialEq, Eq)]
pub struct Regs {
    general: [u32; 32],
    preds: [bool; 8],
    sl: u32,
    sh: u32,
    srb: u32,
    sro: u32,
    pending: Pending,
}

impl Model for Regs {
    ghost use Rattle.patmos_sem.specs.Registers.{Registers, FitsRegisters};

    ghost Value = { Registers };

    ghost view = { λ r. record {
      general = r.general;
      preds = r.preds;
      sl = r.sl;
      sh = r.sh;
      srb = r.srb;
      sro = r.sro;
      pending = r.pending;
    } };

    ghost invariant = { λ r. FitsRegisters (record {
      general = r.general;
      preds = r.preds;
      sl = r.sl;
      sh = r.sh;
      srb = r.srb;
      sro = r.sro;
      pending = r.pending;
    }) };

    ghost inverse = { λ r. record {
      general = r.general;
      preds = r.preds;
      sl = r.sl;
      sh = r.sh;
      srb = r.srb;
      sro = r.sro;
      pending = r.pending;
    } };
}

impl Regs {
    ghost use Rattle.std.specs.Prelude.{◌≡◌, false, [], ◌∷◌};
    ghost use Rattle.patmos_sem.specs.Registers.{FitsRegisters, at_start, word_in, pred_in, holds};
    ghost use Rattle.patmos_sem.specs.declared.pending.Pending.TheVariants as pending;
    ghost use Rattle.patmos_sem.specs.declared.writes.Write.{Write};
    ghost use Rattle.patmos_sem.specs.Writes.{after_writes, came};
    ghost use Rattle.patmos_sem.specs.Effects.{special_in};

    /// The registers at the start of a task: all 0, predicate 0 alone true, and nothing pending.
    pub fn new() -> Regs
        ensures { result ≡ at_start }
    {
        Regs {
            general: [0; 32],
            preds: [true, false, false, false, false, false, false, false],
            sl: 0,
            sh: 0,
            srb: 0,
            sro: 0,
            pending: Pending::Nothing,
        }
    }

    /// The word in a general register.
    pub fn general(&self, register: Reg) -> u32
        ensures value { result ≡ word_in self.now register }
        ensures registers { FitsRegisters self.now }
    {
        self.general[register.number() as usize]
    }

    /// Whether a predicate is true.
    pub fn pred(&self, pred: Pred) -> bool
        ensures value { result ≡ pred_in self.now pred }
        ensures registers { FitsRegisters self.now }
    {
        self.preds[pred.number() as usize]
    }

    /// What is on its way into a register.
    pub fn pending(&self) -> Pending
        ensures value { result ≡ self.now.pending }
        ensures registers { FitsRegisters self.now }
    {
        self.pending
    }

    /// The base of a return: the place in the code of the function that it goes to, in words.
    pub fn srb(&self) -> u32
        ensures { result ≡ self.now.srb }
    {
        self.srb
    }

    /// The offset of a return in its function, in words.
    pub fn sro(&self) -> u32
        ensures { result ≡ self.now.sro }
    {
        self.sro
    }

    /// Sets what a return goes to, as a call does when it takes effect: the base, which is the place in
    /// the code of the function that calls, and the offset in it, both in words.
    pub fn set_return(&mut self, base: u32, offset: u32)
        ensures { self.new ≡ record self.old { srb = base; sro = offset } }
    {
        self.srb = base;
        self.sro = offset;
    }

    // whether something is pending
    pub(crate) fn waits(&self) -> bool
        ensures { result ≡ false → self.now.pending ≡ pending.Nothing }
    {
        !matches!(self.pending, Pending::Nothing)
    }

    // makes something pending
    pub(crate) fn set_pending(&mut self, pending: Pending)
        ensures { self.new ≡ record self.old { pending = pending } }
    {
        self.pending = pending;
    }

    /// Whether a guard is true.
    pub fn holds(&self, guard: Guard) -> bool
        ensures { result ≡ holds self.now guard }
    {
        let pred = self.pred(guard.pred);
        if guard.negated { !pred } else { pred }
    }

    // the word in a special register, where the stack's places are st and ss in words
    pub(crate) fn special(&self, special: Special, st: u32, ss: u32) -> u32
        ensures { result ≡ special_in st ss self.now special }
    {
        match special {
            Special::S0 => preds_number(&self.preds),
            Special::Sl => self.sl,
            Special::Sh => self.sh,
            Special::Srb => self.srb,
            Special::Sro => self.sro,
            Special::St => st.wrapping_mul(4),
            Special::Ss => ss.wrapping_mul(4),
        }
    }

    // the end of a bundle: what was pending comes, then the writes of its slots, and a product that it
    // began becomes pending
    #[tactic(auto, using(crate::proofs::Told::in_turn))]
    pub(crate) fn end_bundle(&mut self, first: Write, second: Write, begun: Pending)
        ensures { self.new ≡ record (after_writes (came self.old.pending ∷ first ∷ second
            ∷ []) self.old) { pending = begun } }
    {
        self.come();
        self.write(first);
        self.write(second);
        self.set_pending(begun);
    }

    // the end of a bundle whose second slot is empty
    #[tactic(auto, using(crate::proofs::Told::one_alone))]
    pub(crate) fn end_single(&mut self, first: Write, begun: Pending)
        ensures { self.new ≡ record (after_writes (came self.old.pending ∷ first ∷ Write.Nothing
            ∷ []) self.old) { pending = begun } }
    {
        self.come();
        self.write(first);
        self.set_pending(begun);
    }

    // the end of such a bundle where nothing was pending, and it begins no product
    #[inline(always)]
    #[tactic(auto, using(crate::proofs::Told::still_nothing))]
    pub(crate) fn end_alone(&mut self, first: Write)
        requires nothing { self.old.pending ≡ pending.Nothing }
        ensures { self.new ≡ record (after_writes (came self.old.pending ∷ first ∷ Write.Nothing
            ∷ []) self.old) { pending = pending.Nothing } }
    {
        self.write(first);
    }

    /// The end of a bundle that writes no register itself: what was pending comes, and nothing is then.
    #[inline(always)]
    pub fn settle(&mut self)
        ensures { self.new ≡ record (after_writes (came self.old.pending ∷ []) self.old) { pending = pending.Nothing } }
    {
        match self.pending {
            Pending::Nothing => {}
            Pending::Value { .. } | Pending::Product { .. } => self.come_last(),
        }
    }

    // what was pending comes, and nothing is then
    #[inline(never)]
    fn come_last(&mut self)
        ensures { self.new ≡ record (after_writes (came self.old.pending ∷ []) self.old) { pending = pending.Nothing } }
    {
        self.come();
        self.set_pending(Pending::Nothing);
    }

    // what was pending comes, if anything was
    #[inline(always)]
    fn come(&mut self)
        ensures { self.new ≡ after_writes (came self.old.pending ∷ []) self.old }
    {
        match self.pending {
            Pending::Nothing => {}
            pending => self.write(Write::of_pending(pending)),
        }
    }

    // carries out a write
    #[inline(always)]
    fn write(&mut self, write: Write)
        ensures { self.new ≡ after_writes (write ∷ []) self.old }
    {
        match write {
            Write::Nothing => {}
            Write::Register { rd, value } => put_register(&mut self.general, rd, value),
            Write::Predicate { pd, value } => put_pred(&mut self.preds, pd, value),
            Write::Special { special, value } => match special {
                WritableSpecial::S0 => put_preds(&mut self.preds, value),
                WritableSpecial::Sl => self.sl = value,
                WritableSpecial::Sh => self.sh = value,
                WritableSpecial::Srb => self.srb = value,
                WritableSpecial::Sro => self.sro = value,
            },
            Write::Product { low, high } => {
                self.sl = low;
                self.sh = high;
            }
        }
    }
}
