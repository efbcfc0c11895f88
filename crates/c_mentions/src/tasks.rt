//! What the cores of a job run, as far as their data is concerned.
ghost use Rattle.std.specs.Prelude.{◌≡◌};
ghost use Rattle.c_mentions.specs.Tasks.{core_task};

/// A C program of which it is known what it mentions.
pub trait Mentioning {
    ghost use Rattle.std.specs.Prelude.{List};
    ghost use Rattle.c_mentions.specs.Reported.{Tells};
    ghost use Rattle.c_tree.specs.Plain.{PlainItem};

    ghost items: { Self → List PlainItem };

    /// What it mentions.
    fn mentions(&self) -> crate::mentioned::Mentions
        ensures { Tells result (items self.now) };
}

/// What a core of a job runs.
#[derive(Debug, Drop)]
pub enum CoreTask<P> {
    Idle,
    Assembly,
    C(P),
}

impl<P> CoreTask<P> {
    /// What a core with a task runs: a C program, if it is one.
    pub fn of(program: Option<P>) -> CoreTask<P>
        ensures { result ≡ core_task program }
    {
        match program {
            Some(program) => CoreTask::C(program),
            None => CoreTask::Assembly,
        }
    }
}
