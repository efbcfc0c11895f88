ghost use Rattle.std.specs.Prelude.{◌≡◌, ℕ, List, ◌^◌, ◌<◌, length, map, [], None, IfOk, IfErr};
ghost use Rattle.patmos_code.specs.Images.{parts};
ghost use Rattle.patmos_asm.specs.Assembly.{functions_from, names_from, place_of, nothing, first_fault, parts_in, code_of};
ghost use Rattle.patmos_asm.specs.Names.{place_in};
ghost use Rattle.patmos_asm.specs.Refuses.{Refuses};
ghost use Rattle.patmos_syntax.specs.Shown.{shown_items};

use crate::checks::first_fault;
use crate::faults::{AsmError, AsmFault};
use crate::names::{Places, functions_of};
use crate::words::words_of;
use local_store::{FIRST_DATA_WORD, INPUT_WORDS};
use patmos_code::Image;
use patmos_forms::AsmKind;
use patmos_syntax::{Item, items_of};
use std::alloc::{AllocError, Global};
use std::marker::Model;
use tc_word::{List, Text};

// the names of the functions
fn names_of(alloc: Global, items: &[Item]) -> Result<Vec<Text>, AllocError>
    ensures { IfOk result (λ names. names.items ≡ names_from (shown_items items.now)) }
{
    let mut names = Vec::new(alloc);
    for item in items {
        if let Item::Function { name, .. } = item {
            names.push(Text::of(String::from_str(alloc, name.as_str())?))?;
        }
    }
    Ok(names)
}

// the places of their first words
fn starts_of(alloc: Global, items: &[Item]) -> Result<Vec<u32>, AllocError>
    requires { first_fault (place_of (functions_from 0 (shown_items items.now))) (place_of []) nothing
        (shown_items items.now) ≡ None }
    ensures { IfOk result (λ starts. starts.items ≡ map (λ f. f.1) (functions_from 0 (shown_items items.now))) }
{
    let mut starts = Vec::new(alloc);
    let mut at: u32 = 0;
    for item in items {
        match item {
            Item::Function { .. } => {
                at += 1;
                starts.push(at)?;
            }
            Item::Bundle { bundle, .. } => at += bundle.size() as u32,
            Item::Label { .. } | Item::Faulty { .. } => {}
        }
    }
    Ok(starts)
}

/// The code of a text in assembly: the names of its functions, the places of their first words, and the
/// words of the image. It is always the code of some text.
#[derive(Debug, Drop)]
pub struct Code {
    names: List<Text>,
    starts: List<u32>,
    words: List<u32>,
}

impl Model for Code {
    ghost use Rattle.patmos_asm.specs.Assembly.{CodeParts};
    ghost use Rattle.patmos_asm.specs.SomeText.{IsCode};

    ghost Value = { CodeParts };

    ghost view = { λ c. record { names = c.names; starts = c.starts; words = c.words } };

    ghost invariant = { λ c. IsCode (record { names = c.names; starts = c.starts; words = c.words }) };
}

// the code of statements without a fault, whose functions have these places
fn parts_of(
    alloc: Global,
    functions: &Places<'_>,
    items: &[Item],
) -> Result<(Vec<Text>, Vec<u32>, Vec<u32>), AllocError>
    requires places { (q : List ℕ) → place_in functions.now q ≡ place_of (functions_from 0 (shown_items items.now)) q }
    requires faultless { first_fault (place_of (functions_from 0 (shown_items items.now))) (place_of []) nothing
        (shown_items items.now) ≡ None }
    ensures { IfOk result (λ p. record { names = p.0.items; starts = p.1.items; words = p.2.items }
        ≡ parts_in (shown_items items.now)) }
{
    let words = words_of(alloc, functions, items)?;
    let names = names_of(alloc, items)?;
    let starts = starts_of(alloc, items)?;
    Ok((names, starts, words))
}

/// The code of a text in assembly, or the fault of its first faulty statement.
pub fn assemble(alloc: Global, text: &str) -> Result<Code, AsmError>
    requires { length text.now < 2 ^ 32 }
    ensures code { IfOk result (λ c. code_of text.now ≡ Ok c) }
    ensures fault { IfErr result (λ e. Refuses e (code_of text.now)) }
{
    let items = items_of(alloc, text.as_bytes())?;
    if items.is_empty() {
        let fault = AsmKind::NoFunction;
        return Err(AsmError::Fault(AsmFault { fault, line: 1 }));
    }
    let functions = functions_of(alloc, items.as_slice())?;
    if let Some(fault) = first_fault(alloc, &functions, items.as_slice())? {
        return Err(AsmError::Fault(fault));
    }
    let (names, starts, words) = parts_of(alloc, &functions, items.as_slice())?;
    Ok(Code {
        names: List::of(names),
        starts: List::of(starts),
        words: List::of(words),
    })
}

impl Code {
    ghost use Rattle.patmos_asm.specs.SomeText.{IsCode};

    /// The names of the functions, in the order in which they stand in the image.
    pub fn names(&self) -> &[Text]
        ensures value { result.now ≡ self.now.names }
        ensures some_text { IsCode self.now }
    {
        self.names.as_slice()
    }

    /// The places of their first words.
    pub fn starts(&self) -> &[u32]
        ensures value { result.now ≡ self.now.starts }
        ensures some_text { IsCode self.now }
    {
        self.starts.as_slice()
    }

    /// The words of the image: for each function its size in words, and its words.
    pub fn words(&self) -> &[u32]
        ensures value { result.now ≡ self.now.words }
        ensures some_text { IsCode self.now }
    {
        self.words.as_slice()
    }
}

/// The image of an assembly task: the code's words and starts, no words of private memory, and input from
/// private word 4 on with room for [`INPUT_WORDS`].
#[tactic(auto, using(crate::proofs::Images::code_is_image))]
pub fn image_of(code: Code) -> Image
    ensures { result ≡ parts code.words code.starts [] FIRST_DATA_WORD INPUT_WORDS }
{
    let Code {
        names: _,
        starts,
        words,
    } = code;
    let words = words.into_vec();
    let initial = Vec::new(*words.allocator());
    Image::of(
        List::of(words),
        starts,
        List::of(initial),
        FIRST_DATA_WORD,
        INPUT_WORDS,
    )
}
