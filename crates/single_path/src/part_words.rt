//! Where the words stand that decide what has an effect.
ghost use Rattle.std.specs.Prelude.{◌≡◌, ◌+◌, ◌<◌, ◌^◌};
ghost use Rattle.single_path.specs.PartWords as specs;

/// Words of a function's frame, by their numbers, as a part of the function has them.
#[derive(Clone, Copy, Debug, PartialEq, Eq)]
pub struct PartWords {
    /// What the function returns: 0 until it does.
    pub result: u32,
    /// The mask of the function: 1 until it returns, and then 0.
    pub function: u32,
    /// The mask of the innermost loop's iteration: 1 while it goes on, 2 after a `continue`, and 0 where the loop was left.
    /// A loop that counts has one only where there may be a `continue`, after which it is 0.
    /// Outside loops it is that of the function.
    pub iteration: u32,
    /// The mask of the part itself: the iteration's, or that of an arm.
    pub own: u32,
    /// The first word that nothing names.
    pub free: u32,
    /// Whether the iteration's mask is one of a loop that counts.
    pub counted: bool,
}

impl PartWords {
    /// The words of a function's body, after its first so many words.
    pub fn outermost(words: u32) -> PartWords
        requires { words + 2 < 2 ^ 32 }
        ensures { result ≡ specs.outermost words }
    {
        let mask = words + 1;
        PartWords {
            result: words,
            function: mask,
            iteration: mask,
            own: mask,
            free: words + 2,
            counted: false,
        }
    }

    /// The words of an arm inside a part.
    pub fn in_arm(self) -> PartWords
        requires { self.free + 1 < 2 ^ 32 }
        ensures { result ≡ specs.in_arm self }
    {
        PartWords {
            own: self.free,
            free: self.free + 1,
            ..self
        }
    }

    /// The words of a loop's body inside a part.
    pub fn in_loop(self) -> PartWords
        requires { self.free + 1 < 2 ^ 32 }
        ensures { result ≡ specs.in_loop self }
    {
        PartWords {
            iteration: self.free,
            own: self.free,
            free: self.free + 1,
            counted: false,
            ..self
        }
    }

    /// The words of the body of a loop that counts, where its iterations have a mask of their own.
    pub fn in_counted(self) -> PartWords
        requires { self.free + 1 < 2 ^ 32 }
        ensures { result ≡ specs.in_counted self }
    {
        PartWords {
            counted: true,
            ..self.in_loop()
        }
    }
}
