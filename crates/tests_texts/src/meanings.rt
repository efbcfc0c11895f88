//! That names are resolved, which no clause can say: want of memory may come at any time.
use crate::checks::checked;
use crate::expect::expect_same;
use c_meaning::{Action, Branch, Resolved, resolve};
use sp_tree::{SpBinary, SpExpr};
use std::alloc::Global;

/// The functions of a valid text that is not very long.
fn resolved(alloc: Global, text: &str) -> Option<Resolved> {
    let program = checked(alloc, text)?;
    resolve(alloc, &program).ok()
}

/// Whether a variable is set, functions 0 and 1 are called, and a value is returned.
fn calls_both(body: &[Action]) -> bool {
    matches!(
        body,
        [
            Action::Set { .. },
            Action::Call { function: 0, .. },
            Action::Call { function: 1, .. },
            Action::Return { .. },
        ]
    )
}

#[test]
fn functions_are_numbered(rt: HostRuntime) {
    let text =
        "int f(int a) { return a; } void g() { } int main() { int x = 1; x = f(x); g(); return x; }";
    let program = resolved(rt.alloc(), text).expect(&rt, "resolved");
    expect_same(&rt, program.main, Some(2));
    expect_same(&rt, program.routines.as_slice().len(), 3);
    let main = program.routines.as_slice().last().expect(&rt, "main");
    expect_same(&rt, calls_both(main.body.as_slice()), true);
}

/// What a loop of four iterations with a step does, which is the third of six actions, of which the last returns.
fn loop_of(body: &[Action]) -> Option<&[Action]> {
    match body {
        [
            _declared,
            _first,
            Action::Loop {
                max: 4,
                body,
                step: Some(_),
                ..
            },
            _inner,
            _set,
            Action::Return { .. },
        ] => Some(body.as_slice()),
        _ => None,
    }
}

/// The branches of a choice that is the only action, and what is done otherwise.
fn choice_of(body: &[Action]) -> Option<(&[Branch], &[Action])> {
    match body {
        [
            Action::Choose {
                branches,
                otherwise,
            },
        ] => Some((branches.as_slice(), otherwise.as_slice())),
        _ => None,
    }
}

/// Whether the only branch is taken where one number is no more than another, both unsigned.
fn compares_unsigned(branches: &[Branch]) -> bool {
    let [branch] = branches else {
        return false;
    };
    matches!(
        branch.condition,
        SpExpr::Binary {
            op: SpBinary::LessEqualUnsigned,
            ..
        }
    )
}

#[test]
fn statements_become_actions(rt: HostRuntime) {
    let text = "unsigned a[4]; int main() { int i; \
        _Pragma(\"loopbound min 4 max 4\") for (i = 0; i < 4; i = i + 1) { if (a[i] >= 2) { a[i] = 0; }
            else { continue; } } \
        { int j = 5; i = j; } return 1; }";
    let program = resolved(rt.alloc(), text).expect(&rt, "resolved");
    let main = program.routines.as_slice().first().expect(&rt, "main");
    let body = loop_of(main.body.as_slice()).expect(&rt, "a loop");
    let (branches, otherwise) = choice_of(body).expect(&rt, "a choice");
    expect_same(&rt, matches!(otherwise, [Action::Continue]), true);
    expect_same(&rt, compares_unsigned(branches), true);
}
