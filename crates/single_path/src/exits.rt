//! Ways on that actions may take.
ghost use Rattle.std.specs.Prelude.{◌≡◌};
ghost use Rattle.c_meaning.specs.Actions as plain;
ghost use Rattle.c_meaning.specs.Shown.{plain_action, actions_of, branches_of};
ghost use Rattle.single_path.specs.Made as specs;

use c_meaning::{Action, Branch};

/// Ways on that are asked for.
#[derive(Clone, Copy, Debug, PartialEq, Eq)]
pub struct Exits {
    pub breaks: bool,
    pub continues: bool,
    pub returns: bool,
}

/// All of them.
pub fn any_exit() -> Exits
    ensures { result ≡ specs.any_exit }
{
    Exits {
        breaks: true,
        continues: true,
        returns: true,
    }
}

/// Those by which a loop is left.
pub fn by_leaving() -> Exits
    ensures { result ≡ specs.by_leaving }
{
    Exits {
        breaks: true,
        continues: false,
        returns: true,
    }
}

/// That by which an iteration goes on to its end.
pub fn by_continue() -> Exits
    ensures { result ≡ specs.by_continue }
{
    Exits {
        breaks: false,
        continues: true,
        returns: false,
    }
}

/// That by which a function is left.
pub fn by_return() -> Exits
    ensures { result ≡ specs.by_return }
{
    Exits {
        breaks: false,
        continues: false,
        returns: true,
    }
}

// of a loop's body only a return goes further than the loop
fn out_of_loop(asked: Exits) -> Exits
    ensures { result ≡ specs.out_of_loop asked }
{
    Exits {
        breaks: false,
        continues: false,
        returns: asked.returns,
    }
}

/// Nothing stands after a statement that always goes elsewhere.
#[tactic(auto, unfolding(c_meaning::specs::Shown::plain_action))]
pub fn ends(action: &Action) -> bool
    ensures { result ≡ specs.ends (plain_action action.now) }
{
    matches!(
        action,
        Action::Break | Action::Continue | Action::Return { .. }
    )
}

// whether one of these ways on stands in an action
#[cycle(exits)]
#[tactic(auto, unfolding(c_meaning::specs::Shown::plain_action))]
fn one_exits(asked: Exits, action: &Action) -> bool
    ensures { result ≡ specs.action_exits asked (plain_action action.now) }
{
    match action {
        Action::Choose {
            branches,
            otherwise,
        } => choice_exits(asked, branches.as_slice(), otherwise.as_slice()),
        Action::Loop { body, .. } => body_exits(asked, body.as_slice()),
        Action::Break => asked.breaks,
        Action::Continue => asked.continues,
        Action::Return { .. } => asked.returns,
        _ => false,
    }
}

/// Whether one of these ways on stands in actions, before what always goes elsewhere.
#[cycle(exits)]
#[tactic(auto)]
pub fn may_exit(asked: Exits, actions: &[Action]) -> bool
    ensures { result ≡ specs.actions_exit asked (actions_of actions.now) }
{
    for action in actions {
        if one_exits(asked, action) {
            return true;
        }
        if ends(action) {
            return false;
        }
    }
    false
}

#[cycle(exits)]
#[tactic(auto)]
fn body_exits(asked: Exits, body: &[Action]) -> bool
    ensures { result ≡ specs.actions_exit (specs.out_of_loop asked) (actions_of body.now) }
{
    may_exit(out_of_loop(asked), body)
}

/// Whether one stands in arms or after the last `else`.
#[cycle(exits)]
#[tactic(auto)]
pub fn choice_exits(asked: Exits, branches: &[Branch], otherwise: &[Action]) -> bool
    ensures { result
        ≡ specs.action_exits asked (plain.chooses (branches_of branches.now) (actions_of otherwise.now)) }
{
    if arms_exit(asked, branches) {
        return true;
    }
    may_exit(asked, otherwise)
}

#[cycle(exits)]
#[tactic(auto)]
fn arms_exit(asked: Exits, branches: &[Branch]) -> bool
    ensures { result ≡ specs.branches_exit asked (branches_of branches.now) }
{
    match branches {
        [] => false,
        [branch, rest @ ..] => {
            if may_exit(asked, branch.body.as_slice()) {
                return true;
            }
            arms_exit(asked, rest)
        }
    }
}
