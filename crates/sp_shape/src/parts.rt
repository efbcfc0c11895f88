//! Parts of code, and shapes.

use patmos_instr::Bundle;
use tc_word::List;

/// A part of a function's code. Delay slots hold no flow.
#[derive(Debug, Drop)]
pub enum Part {
    /// Bundles without a flow.
    Straight {
        bundles: List<Bundle>,
    },
    /// The body and then the tail, so many times: the tail ends with the branch back to the body's begin, and its two
    /// delay slots.
    Repeat {
        count: u32,
        body: List<Part>,
        tail: List<Bundle>,
    },
    /// A function is called: the call, and its three delay slots.
    CallTo {
        function: u32,
        tail: List<Bundle>,
    },
    /// The function ends: the return, and its three delay slots.
    Leave {
        tail: List<Bundle>,
    },
}

/// A compiled task before its flows have targets: the parts of its functions, of which each calls earlier ones, and the
/// number of the one that is run; the words that private memory begins with, from word 4 on; and the word from which
/// the input lies there, and how many words of it at most.
#[derive(Debug, Drop)]
pub struct Shape {
    pub functions: List<List<Part>>,
    pub entry: u32,
    pub initial: List<u32>,
    pub input_at: u32,
    pub input_room: u32,
}
