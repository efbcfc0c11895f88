ghost use Rattle.std.specs.Prelude.{◌≡◌};
ghost use Rattle.job_gen.specs.Generator as specs;

/// Numbers that look like chance, each of 16 bits. The state decides all that are to come.
#[derive(Drop)]
pub struct Draws {
    pub state: u32,
}

impl Draws {
    /// The draws that begin at a number. Only its low 32 bits decide them.
    #[tactic(auto, unfolding(crate::specs::Generator::next))]
    pub fn new(n: u64) -> Self
        ensures { specs.next result.state ≡ specs.next n }
    {
        Draws {
            state: (n % (1 << 32)) as u32,
        }
    }

    /// Moves the state on, and gives its upper half.
    #[tactic(auto, unfolding(crate::specs::Generator::next))]
    pub fn draw(&mut self) -> u32
        ensures state { self.new.state ≡ specs.next self.old.state }
        ensures drawn { result ≡ specs.draw self.old.state }
    {
        self.state = self
            .state
            .wrapping_mul(1_664_525)
            .wrapping_add(1_013_904_223);
        self.state / 65536
    }
}
