ghost use Rattle.std.specs.Prelude.{◌≡◌};
ghost use Rattle.tcrest.specs.Command as specs;

use patmos_forms::Radix;
use tc_word::Text;

/// How many digits the number of a generated job has at most.
const MOST_DIGITS: usize = 10;

/// What the words of the command line ask for.
#[derive(Clone, Copy, Debug, PartialEq, Eq)]
pub enum Command {
    /// Something about the job on the input.
    OfJob(JobCommand),
    /// The check of the network schedule on the input.
    Grid,
    /// The text of the generated job of this number.
    Gen { number: u32 },
    /// The report of the run of the generated job of this number.
    Bench { number: u32 },
    /// The words are no command: the usage line.
    Usage,
}

/// What a command asks of the job on the input.
#[derive(Clone, Copy, Debug, PartialEq, Eq)]
pub enum JobCommand {
    /// The report of its run.
    Run,
    /// How many cycles its C tasks take at most.
    Bound,
    /// The words of its assembly tasks.
    Asm,
    /// What the programs of its C tasks mean.
    Mean,
    /// What the five stages of its only core hold, step by step.
    Pipe,
    /// How many cycles its C tasks take at most, and at most where functions stay in the method cache.
    Persist,
}

/// The command that the words call.
pub fn command_of(words: &[Text]) -> Command
    ensures { result ≡ specs.command_of words.now }
{
    match words {
        [word] => lone_word(word.as_str()),
        [word, number] => with_number(word.as_str(), number_in(number.as_str())),
        _ => Command::Usage,
    }
}

// the command that a word alone calls
fn lone_word(word: &str) -> Command
    ensures { result ≡ specs.lone_word word.now }
{
    match word {
        "run" => Command::OfJob(JobCommand::Run),
        "bound" => Command::OfJob(JobCommand::Bound),
        "asm" => Command::OfJob(JobCommand::Asm),
        "mean" => Command::OfJob(JobCommand::Mean),
        "pipe" => Command::OfJob(JobCommand::Pipe),
        "persist" => Command::OfJob(JobCommand::Persist),
        "grid" => Command::Grid,
        _ => Command::Usage,
    }
}

// the command that a word and a number call
fn with_number(word: &str, number: Option<u32>) -> Command
    ensures { result ≡ specs.with_number word.now number }
{
    let Some(number) = number else {
        return Command::Usage;
    };
    match word {
        "gen" => Command::Gen { number },
        "bench" => Command::Bench { number },
        _ => Command::Usage,
    }
}

// the number that a word writes, if it has at most `MOST_DIGITS` digits
fn number_in(word: &str) -> Option<u32>
    ensures { result ≡ specs.number_in word.now }
{
    if word.len() > MOST_DIGITS {
        return None;
    }
    word_of(Radix::Decimal.value_of(word.as_bytes())?)
}

// a number that is at most 2^32 - 1
fn word_of(number: u64) -> Option<u32>
    ensures { result ≡ specs.word_in number }
{
    match u32::try_from(number) {
        Ok(word) => Some(word),
        Err(_) => None,
    }
}
