//! Where variables hide the arrays that each task is given.
ghost use Rattle.std.specs.Prelude.{◌≡◌, not, ◌&&◌, ◌||◌, bytes_eq, codes};
ghost use Rattle.c_tree.specs.declared.statements.Kind.{Kind};
ghost use Rattle.c_meaning.specs.Meaning.{with_variable};
ghost use Rattle.c_meaning.specs.Values.{Names};

/// A flag for each array that a task is given.
#[derive(Clone, Copy, Debug)]
pub struct Arrays {
    pub comm: bool,
    pub shared: bool,
}

/// Which array a name means, where these are hidden.
pub fn meant(hidden: Arrays, name: &str) -> Arrays
    ensures comm { result.comm ≡ (bytes_eq name.now (codes "comm") && not hidden.comm) }
    ensures shared { result.shared ≡ (bytes_eq name.now (codes "shared") && not hidden.shared) }
{
    Arrays {
        comm: name == "comm" && !hidden.comm,
        shared: name == "shared" && !hidden.shared,
    }
}

/// The arrays that are hidden after a declaration of a name.
pub fn hidden_behind(hidden: Arrays, name: &str) -> Arrays
    ensures comm { result.comm ≡ (hidden.comm || bytes_eq name.now (codes "comm")) }
    ensures shared { result.shared ≡ (hidden.shared || bytes_eq name.now (codes "shared")) }
{
    Arrays {
        comm: hidden.comm || name == "comm",
        shared: hidden.shared || name == "shared",
    }
}
