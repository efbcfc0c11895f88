//! The names of functions.
ghost use Rattle.std.specs.Prelude.{◌≡◌, ◌^◌, ◌<◌, IfOk};
ghost use Rattle.patmos_asm.specs.Assembly.{is_among};
ghost use Rattle.code_text.specs.Names as specs;

use patmos_forms::is_name;
use std::alloc::{AllocError, Global};
use tc_word::Text;

// whether a name is among these
fn is_among_names(name: &str, names: &[Text]) -> bool
    ensures { result ≡ is_among name.now names.now }
{
    names.iter().any(|other| name == other.as_str())
}

// whether these are names as the assembler takes them, none of which comes twice
fn are_names(names: &[Text]) -> bool
    ensures { result ≡ specs.are_names names.now }
{
    let mut names = names;
    'names: while let [first, more @ ..] = names {
        let name = first.as_str();
        if !is_name(name.as_bytes()) || is_among_names(name, more) {
            return false;
        }
        names = more;
    }
    true
}

// so many names that are numbers
fn numbered(alloc: Global, count: usize) -> Result<Vec<Text>, AllocError>
    requires { count < 2 ^ 32 }
    ensures is { IfOk result (λ names. names.items ≡ specs.numbered count) }
    ensures has { IfOk result (λ names. specs.HasNames names.items count) }
{
    let mut names = Vec::new(alloc);
    for number in 0..count {
        names.push(Text::of(format!(in alloc; "f{number}")?))?;
    }
    Ok(names)
}

/// The names of so many functions: these, if the assembler takes them, or else numbers.
pub fn names_for(alloc: Global, names: Vec<Text>, count: usize) -> Result<Vec<Text>, AllocError>
    requires { count < 2 ^ 32 }
    ensures is { IfOk result (λ made. made.items ≡ specs.names_for names.items count) }
    ensures has { IfOk result (λ made. specs.HasNames made.items count) }
{
    if names.len() == count && are_names(names.as_slice()) {
        return Ok(names);
    }
    numbered(alloc, count)
}
