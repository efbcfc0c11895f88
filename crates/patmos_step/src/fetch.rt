use crate::body::Body;
use crate::code::Decoded;
use patmos_model::Fetched;

impl Body {
    ghost use Rattle.std.specs.Prelude.{◌≡◌, ◌+◌, ◌≤◌, ◌<◌, false, IsNone, IfSome};
    ghost use Rattle.patmos_model.specs.Site.{is_inside};
    ghost use Rattle.patmos_model.specs.Bundle.{fetched_at, IsWithin};
    ghost use Rattle.patmos_step.specs.Code.{StandsAt};

    /// The bundle at the core's offset.
    #[tactic(auto, using(crate::proofs::Fetching::nothing_inside, crate::proofs::Fetching::a_bundle, crate::proofs::Fetching::no_bundle))]
    pub fn fetch(&self) -> Fetched
        ensures bundle { result ≡ fetched_at self.now.image self.now.base self.now.offset }
        ensures within { IsWithin self.now.offset self.now.size result }
    {
        let Some(found) = self.decoded_at(self.offset) else {
            return Fetched::Outside;
        };
        match found.bundle {
            Some(bundle) => Fetched::Found {
                bundle,
                words: found.words,
            },
            None => Fetched::NoBundle,
        }
    }

    /// What begins at an offset of the core's function, if it ends inside the function.
    #[inline(always)]
    #[tactic(auto, using(crate::proofs::Fetching::stands_inside, crate::proofs::Fetching::ends_outside))]
    pub fn decoded_at(&self, offset: u32) -> Option<&Decoded>
        ensures found { IfSome result (λ found. StandsAt self.now.image self.now.base offset found.now) }
        ensures inside { IfSome result (λ found. offset < self.now.size) }
        ensures within { IfSome result (λ found. offset + found.now.words ≤ self.now.size) }
        ensures none { IsNone result → is_inside self.now.image self.now.base offset ≡ false }
    {
        if offset >= self.size {
            return None;
        }
        let found = &self.code[self.base as usize + offset as usize];
        if found.words > self.size - offset {
            return None;
        }
        Some(found)
    }
}
