ghost use Rattle.std.specs.Prelude.{◌≡◌};
ghost use Rattle.job_gen.specs.Generator.{draw, input_line, next};
ghost use Rattle.job_gen.specs.declared.task.TheConstants.{FUNCTIONS, MASKS, VALUES, WORDS};
ghost use Rattle.job_gen.specs.declared.whole.TheConstants.{CORES};

/// The numbers of the form of a job.
pub fn limits()
    ensures cores { CORES ≡ 4 }
    ensures functions { FUNCTIONS ≡ 24 }
    ensures words { WORDS ≡ 16 }
    ensures masks { MASKS ≡ 8 }
    ensures values { VALUES ≡ 1000 }
{}

/// The definitions at work: the first draws of the least and of the greatest state.
pub fn worked_draws()
    ensures first_of_least { draw 0 ≡ 15470 }
    ensures second_of_least { draw (next 0) ≡ 18256 }
    ensures third_of_least { draw (next (next 0)) ≡ 53708 }
    ensures first_of_greatest { draw 4294967295 ≡ 15445 }
    ensures second_of_greatest { draw (next 4294967295) ≡ 12311 }
    ensures third_of_greatest { draw (next (next 4294967295)) ≡ 8835 }
{}
