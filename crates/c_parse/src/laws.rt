ghost use Rattle.std.specs.Prelude.{◌≡◌, ◌↔◌, ℕ, List, None, Some};
ghost use Rattle.c_tree.specs.declared.tokens.Token.{Token};
ghost use Rattle.c_tree.specs.declared.units.Unit.{Unit as Program};
ghost use Rattle.c_tree.specs.Tokens.{tokens_of};
ghost use Rattle.c_tree.specs.Fits.{Fits};
ghost use Rattle.c_tree.specs.Places.{IsProgram, IsPlace};
ghost use Rattle.c_tree.specs.Plain.{plain};
ghost use Rattle.c_tree.specs.Reading.{Trees, IsReading};
ghost use Rattle.c_parse.specs.Answers.{place_of};

/// Tokens are written by one tree alone: two fitting trees with the same tokens differ in nothing but where their boxes
/// lie in memory. So what [`crate::parse`] gives is the only tree of its tokens. A law: it does nothing.
#[tactic(auto, using(crate::proofs::OneProgram::one_tree))]
pub fn one_tree()
    ensures one { (u v : Program) → Fits u → Fits v → tokens_of u ≡ tokens_of v → plain u ≡ plain v }
{}

/// Reading token after token is the grammar: nothing goes wrong exactly where the tokens are a program, and else it is
/// at their place. A law: it does nothing.
#[tactic(auto, using(crate::proofs::ReadWhole::reads_programs))]
pub fn reading_is_the_grammar()
    ensures program { (ts : List Token) → place_of ts ≡ None ↔ IsProgram ts }
    ensures place { (ts : List Token) (at : ℕ) → place_of ts ≡ Some at → IsPlace ts at }
{}

/// There is a reading, a function that gives each program its tree. By [`one_tree`] any two agree on programs. A law:
/// it does nothing.
#[tactic(auto, using(crate::proofs::Reading::a_reading))]
pub fn a_reading_exists()
    ensures { (trees : Trees) × IsReading trees }
{}
