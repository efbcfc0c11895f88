ghost use Rattle.std.specs.Prelude.{◌≡◌, ◌↔◌, IsTrue, ◌-◌, IfSome, slice_index};
ghost use Rattle.std.specs.List.{Contains};
ghost use Rattle.std.specs.Option.{SomeIff};
ghost use Rattle.patmos_code.specs.Images.{parts, IsImage, IsFunction, IsRising};

use std::marker::Model;
use tc_word::List;

/// The most words of a function, its size word not counted.
pub const MOST_IN_FUNCTION: usize = 4_096;

/// The most words of code of an image, the size words of its functions counted.
pub const MOST_IN_IMAGE: usize = 32_768;

/// The code and the first memory of one core's task.
///
/// The words of code are for each function its size in words, at most [`MOST_IN_FUNCTION`], and then its
/// words; there is at least one function, and the words are at most [`MOST_IN_IMAGE`] in all. The first
/// function starts at word 1 and is the one that the task begins with.
#[derive(Debug, Drop)]
pub struct Image {
    words: List<u32>,
    starts: List<u32>,
    initial: List<u32>,
    input_at: u32,
    input_room: u32,
}

impl Model for Image {
    ghost use Rattle.patmos_code.specs.Images.{Parts, parts, IsImage};

    ghost Value = { Parts };

    ghost view = { λ i. parts i.words i.starts i.initial i.input_at i.input_room };

    ghost invariant = { λ i. IsImage (parts i.words i.starts i.initial i.input_at i.input_room) };
}

impl Image {
    /// The image of these parts: the words of code, the places at which its functions start, the words
    /// of private memory from word 4 on, and the private word at which the input begins (at least 4) with
    /// the words of room for it; the former and the latter end within the first [`local_store::DATA_WORDS`].
    pub fn of(
        words: List<u32>,
        starts: List<u32>,
        initial: List<u32>,
        input_at: u32,
        input_room: u32,
    ) -> Image
        requires { IsImage (parts words starts initial input_at input_room) }
        ensures { result ≡ parts words starts initial input_at input_room }
    {
        Image {
            words,
            starts,
            initial,
            input_at,
            input_room,
        }
    }

    /// The words of code: for each function its size in words, then its words.
    pub fn words(&self) -> &[u32]
        ensures value { result.now ≡ self.now.words }
        ensures kept { IsImage self.now }
    {
        self.words.as_slice()
    }

    /// The places at which functions start, rising.
    #[tactic(auto, using(crate::proofs::Walks::starts_rise))]
    pub fn starts(&self) -> &[u32]
        ensures value { result.now ≡ self.now.starts }
        ensures rising { IsRising result.now }
        ensures kept { IsImage self.now }
    {
        self.starts.as_slice()
    }

    /// The size in words of the function that starts at a place; None exactly where none starts there.
    /// The words of that function are those from the place on, and all of them are there.
    pub fn function_size(&self, start: u32) -> Option<u32>
        ensures size { SomeIff result (Contains self.now.starts start)
            (slice_index self.now.words (start - 1)) }
        ensures inside { IfSome result (λ _. IsFunction self.now.words start) }
    {
        if !self.has_function(start) {
            return None;
        }
        Some(self.words()[start as usize - 1])
    }

    // whether a function starts at a place, and so lies inside the words
    fn has_function(&self, start: u32) -> bool
        ensures found { IsTrue result ↔ Contains self.now.starts start }
        ensures inside { IsTrue result → IsFunction self.now.words start }
    {
        is_start(self.starts(), start)
    }

    /// The words that private memory has at first, from private word 4 on.
    pub fn initial(&self) -> &[u32]
        ensures value { result.now ≡ self.now.initial }
        ensures kept { IsImage self.now }
    {
        self.initial.as_slice()
    }

    /// The private word at which the input begins.
    pub fn input_at(&self) -> u32
        ensures value { result ≡ self.now.input_at }
        ensures kept { IsImage self.now }
    {
        self.input_at
    }

    /// How many words of input there is room for.
    pub fn input_room(&self) -> u32
        ensures value { result ≡ self.now.input_room }
        ensures kept { IsImage self.now }
    {
        self.input_room
    }
}

// whether a place is among the starts
#[tactic(auto, using(crate::proofs::Walks::searched_start))]
fn is_start(starts: &[u32], place: u32) -> bool
    requires { IsRising starts.now }
    ensures { IsTrue result ↔ Contains starts.now place }
{
    match starts.binary_search(&place) {
        Ok(_) => true,
        Err(_) => false,
    }
}
