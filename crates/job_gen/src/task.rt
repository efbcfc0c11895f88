ghost use Rattle.std.specs.Prelude.{◌≡◌, ◌-◌, ◌++◌, OnOk};
ghost use Rattle.job_gen.specs.Generator as specs;

use crate::draws::Draws;
use crate::text::{put_line, put_line_with, put_pair};
use tc_io::{put, put_number, put_with};
use tc_word::OutOfMemory;

/// How many functions a task has besides its `main`.
pub const FUNCTIONS: u64 = 24;

/// How many masks there are: a function's mask is below it.
pub const MASKS: u32 = 8;

/// How many factors and terms there are: a function's factor and its term are below it.
pub const VALUES: u32 = 1000;

/// How many words of input a task has.
pub const WORDS: u32 = 16;

/// Appends the task of a core.
#[tactic(auto, unfolding(crate::specs::Generator::task))]
pub fn put_task(text: &mut Vec<u8>, core: u64, draws: &mut Draws) -> Result<(), OutOfMemory>
    ensures appended { OnOk result (text.new.items ≡ text.old.items ++ specs.task core draws.old.state) }
    ensures left { OnOk result (draws.new.state ≡ specs.after_task draws.old.state) }
{
    put_head(text, core)?;
    put_source(text, draws)?;
    put_line(text, "'''")?;
    put_input(text, draws)
}

// what stands above the C text
#[tactic(auto, unfolding(crate::specs::Generator::head_lines))]
fn put_head(text: &mut Vec<u8>, core: u64) -> Result<(), OutOfMemory>
    ensures { OnOk result (text.new.items ≡ text.old.items ++ specs.head_lines core) }
{
    put_line(text, "[[task]]")?;
    put_line_with(text, "core = ", core)?;
    put_line(text, "lang = \"c\"")?;
    put_line(text, "source = '''")
}

// the C text
#[tactic(auto, unfolding(crate::specs::Generator::source))]
fn put_source(text: &mut Vec<u8>, draws: &mut Draws) -> Result<(), OutOfMemory>
    ensures appended { OnOk result (text.new.items ≡ text.old.items ++ specs.source draws.old.state) }
    ensures left { OnOk result (draws.new.state ≡ specs.after_functions draws.old.state) }
{
    put_arrays(text)?;
    put_functions(text, draws)?;
    put_main(text)
}

// the arrays, with which the C text begins
#[tactic(auto, unfolding(crate::specs::Generator::array_lines))]
fn put_arrays(text: &mut Vec<u8>) -> Result<(), OutOfMemory>
    ensures { OnOk result (text.new.items ≡ text.old.items ++ specs.array_lines) }
{
    put_line(text, "int in[16];")?;
    put_line(text, "int out[1];")
}

// the functions, each with what is drawn for it
fn put_functions(text: &mut Vec<u8>, draws: &mut Draws) -> Result<(), OutOfMemory>
    ensures appended { OnOk result (text.new.items ≡ text.old.items ++ specs.functions FUNCTIONS 0 draws.old.state) }
    ensures left { OnOk result (draws.new.state ≡ specs.after_functions draws.old.state) }
{
    for index in 0..FUNCTIONS {
        put_function(text, index, draws)?;
    }
    Ok(())
}

// a function with what is drawn for it: its mask, its factor and its term
#[tactic(auto, unfolding(crate::specs::Generator::function_line, crate::specs::Generator::after))]
fn put_function(text: &mut Vec<u8>, index: u64, draws: &mut Draws) -> Result<(), OutOfMemory>
    ensures appended { OnOk result (text.new.items ≡ text.old.items ++ specs.function_line index draws.old.state) }
    ensures left { OnOk result (draws.new.state ≡ specs.after 3 draws.old.state) }
{
    let mask = draws.draw() % MASKS;
    let factor = draws.draw() % VALUES;
    let term = draws.draw() % VALUES;
    put_function_text(
        text,
        index,
        u64::from(mask),
        u64::from(factor),
        u64::from(term),
    )
}

// the line of a function
#[tactic(auto, unfolding(crate::specs::Generator::function_text))]
fn put_function_text(
    text: &mut Vec<u8>,
    index: u64,
    mask: u64,
    factor: u64,
    term: u64,
) -> Result<(), OutOfMemory>
    ensures { OnOk result (text.new.items ≡ text.old.items ++ specs.function_text index mask factor term) }
{
    put_test(text, index, mask)?;
    put_then(text, factor, term)?;
    put_else(text, factor, term)?;
    put_return(text)
}

// how a function begins
#[tactic(auto, unfolding(crate::specs::Generator::test_text))]
fn put_test(text: &mut Vec<u8>, index: u64, mask: u64) -> Result<(), OutOfMemory>
    ensures { OnOk result (text.new.items ≡ text.old.items ++ specs.test_text index mask) }
{
    put_pair(text, "int f", index, "(int x) { int y = x; if ((x & ", mask)
}

// what a function does where no bit of its mask is set
#[tactic(auto, unfolding(crate::specs::Generator::then_text))]
fn put_then(text: &mut Vec<u8>, factor: u64, term: u64) -> Result<(), OutOfMemory>
    ensures { OnOk result (text.new.items ≡ text.old.items ++ specs.then_text factor term) }
{
    put_pair(text, ") == 0) { y = x * ", factor, " + ", term)
}

// what it does else
#[tactic(auto, unfolding(crate::specs::Generator::else_text))]
fn put_else(text: &mut Vec<u8>, factor: u64, term: u64) -> Result<(), OutOfMemory>
    ensures { OnOk result (text.new.items ≡ text.old.items ++ specs.else_text factor term) }
{
    put_pair(text, "; } else { y = (x ^ ", term, ") - ", factor)
}

// how it ends
#[tactic(auto, unfolding(crate::specs::Generator::return_text))]
fn put_return(text: &mut Vec<u8>) -> Result<(), OutOfMemory>
    ensures { OnOk result (text.new.items ≡ text.old.items ++ specs.return_text) }
{
    put_line(text, "; } return y; }")
}

// the function `main`
#[tactic(auto, unfolding(crate::specs::Generator::main_lines))]
fn put_main(text: &mut Vec<u8>) -> Result<(), OutOfMemory>
    ensures { OnOk result (text.new.items ≡ text.old.items ++ specs.main_lines) }
{
    put_line(
        text,
        "int main() { int s = 0; int i = 0; _Pragma(\"loopbound min 16 max 16\") while (i < 16) { s = s + in[i];",
    )?;
    put_calls(text)?;
    put_line(text, "i = i + 1; } out[0] = s; return s; }")
}

// a call of each function
fn put_calls(text: &mut Vec<u8>) -> Result<(), OutOfMemory>
    ensures { OnOk result (text.new.items ≡ text.old.items ++ specs.calls FUNCTIONS 0) }
{
    for index in 0..FUNCTIONS {
        put_call(text, index)?;
    }
    Ok(())
}

fn put_call(text: &mut Vec<u8>, index: u64) -> Result<(), OutOfMemory>
    ensures { OnOk result (text.new.items ≡ text.old.items ++ specs.call_line index) }
{
    put_with(text, "s = f", index)?;
    put_line(text, "(s);")
}

// the input, a draw for each word
#[tactic(auto, unfolding(crate::specs::Generator::input_line, crate::specs::Generator::after))]
fn put_input(text: &mut Vec<u8>, draws: &mut Draws) -> Result<(), OutOfMemory>
    ensures appended { OnOk result (text.new.items ≡ text.old.items ++ specs.input_line draws.old.state) }
    ensures left { OnOk result (draws.new.state ≡ specs.after WORDS draws.old.state) }
{
    put(text, "input = [")?;
    put_number(text, u64::from(draws.draw()))?;
    put_more_draws(text, draws)?;
    put_line(text, "]")
}

// the input but for its first word
fn put_more_draws(text: &mut Vec<u8>, draws: &mut Draws) -> Result<(), OutOfMemory>
    ensures appended { OnOk result (text.new.items ≡ text.old.items ++ specs.more_draws (WORDS - 1) draws.old.state) }
    ensures left { OnOk result (draws.new.state ≡ specs.after (WORDS - 1) draws.old.state) }
{
    for _place in 1..WORDS {
        put_with(text, ", ", u64::from(draws.draw()))?;
    }
    Ok(())
}
