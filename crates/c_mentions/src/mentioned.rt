//! What is reported of a program.
ghost use Rattle.std.specs.Prelude.{◌≡◌, ◌<◌, ◌^◌};
ghost use Rattle.c_mentions.specs.Bits as bits_specs;
ghost use Rattle.c_mentions.specs.Bits.{has_bit};

/// What a C program mentions of the arrays `comm` and `shared`, which each task is given, and which cores it sends to.
#[derive(Clone, Copy, Debug)]
pub struct Mentions {
    /// A name in it means `comm`.
    pub comm: bool,
    /// A name in it means `shared`.
    pub shared: bool,
    /// It assigns an element of `shared`.
    pub assigns_shared: bool,
    /// Bit d is 1 where it has a `send` to core d, 0 to 15.
    pub sends: u32,
}

impl Mentions {
    /// Whether the program has a `send` to a core.
    #[tactic(auto, using(crate::proofs::Flagged::no_bit))]
    pub fn sends_to(self, core: usize) -> bool
        ensures { result ≡ has_bit core self.sends }
    {
        let sends = self.sends;
        core < 32 && (sends >> core) % 2 == 1
    }
}

/// Flags of the cores 0 to 15 as the bits of a word.
#[tactic(auto, using(crate::proofs::Flagged::one_more))]
pub fn bits_of(flags: [bool; 16]) -> u32
    ensures same { result ≡ bits_specs.bits flags }
    ensures small { result < 2 ^ 16 }
{
    let mut word = 0;
    for done in 0..16 {
        let flag = u32::from(flags[15 - done]);
        word = flag + 2 * word;
    }
    word
}
