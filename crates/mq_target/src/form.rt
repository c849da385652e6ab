//! Whether a text has the form of a template, whatever its variables.
ghost use Rattle.std.specs.Prelude.{◌≡◌, ◌↔◌, ℕ, ◌++◌, ◌∷◌, [], List, length, IsTrue, MatchOption, ◌==◌, true, false};
ghost use Rattle.mq_target.specs.Classes.{begins};
ghost use Rattle.mq_target.specs.Stepping.{IsStep};
ghost use Rattle.mq_target.specs.Form.{HasForm, HasRuns, IsTwoNames, IsVariable, may_follow, question};

use crate::classes::{are_literals, are_variable_bytes, begins_with_slash, is_delimiter};
use mq_text::{cut, cut_once};

/// Whether a text begins with a slash and goes on with literals and variables, of which the last may be a pair.
pub fn has_form(text: &[u8]) -> bool
    ensures { IsTrue result ↔ HasForm text.now }
{
    begins_with_slash(text) && has_runs(text)
}

/// Whether a text is literals and variables, of which the last may be a pair.
fn has_runs(text: &[u8]) -> bool
    ensures { IsTrue result ↔ HasRuns text.now }
{
    let mut rest = text;
    loop {
        match next_run(rest) {
            Step::Ends(answer) => return answer,
            Step::GoesOn(after) => rest = after,
        }
    }
}

/// Either the answer is known, or it is that of the rest.
#[derive(Clone, Copy)]
enum Step<'a> {
    Ends(bool),
    GoesOn(&'a [u8]),
}

/// Goes over literals and one variable.
fn next_run(text: &[u8]) -> Step<'_>
    ensures { IsStep text.now result }
{
    cut_once();
    let Some((literal, behind)) = cut(b'{', text) else {
        return Step::Ends(are_literals(text));
    };
    let Some((inner, after)) = cut(b'}', behind) else {
        return Step::Ends(false);
    };
    if !are_literals(literal) {
        return Step::Ends(false);
    }
    match pair_of(inner) {
        Some(pair) => Step::Ends(ends_in_pair(pair, after)),
        None if goes_on(inner, after) => Step::GoesOn(after),
        None => Step::Ends(false),
    }
}

/// Whether two names stand between the braces, and nothing behind them.
fn ends_in_pair(pair: &[u8], after: &[u8]) -> bool
    ensures { IsTrue result ↔ ((after.now ≡ []) × IsTwoNames pair.now) }
{
    after.is_empty() && is_pair(pair)
}

/// Whether a name stands between the braces, and behind them what may follow it.
fn goes_on(name: &[u8], after: &[u8]) -> bool
    ensures { IsTrue result ↔ (IsVariable name.now × (may_follow after.now ≡ true)) }
{
    is_variable(name) && may_follow(after)
}

/// What stands behind a question mark.
pub fn pair_of(inner: &[u8]) -> Option<&[u8]>
    ensures { MatchOption result (begins (λ b. b == 63) inner.now ≡ false) (λ pair. inner.now ≡ question ∷ pair.now) }
{
    match inner {
        [b'?', pair @ ..] => Some(pair),
        _ => None,
    }
}

/// Whether a text is the name of a variable.
fn is_variable(name: &[u8]) -> bool
    ensures { IsTrue result ↔ IsVariable name.now }
{
    !name.is_empty() && are_variable_bytes(name)
}

/// Whether a text is two names of variables with a comma between them.
fn is_pair(text: &[u8]) -> bool
    ensures { IsTrue result ↔ IsTwoNames text.now }
{
    cut_once();
    match cut(b',', text) {
        None => false,
        Some((first, second)) => are_variables(first, second),
    }
}

/// Whether both texts are names of variables.
fn are_variables(first: &[u8], second: &[u8]) -> bool
    ensures { IsTrue result ↔ (IsVariable first.now × IsVariable second.now) }
{
    is_variable(first) && is_variable(second)
}

/// Whether this may follow a variable.
fn may_follow(text: &[u8]) -> bool
    ensures { result ≡ may_follow text.now }
{
    match text {
        [] => true,
        [first] => is_delimiter(*first),
        [first, second, ..] => is_delimiter(*first) || (*first == b'{' && *second == b'?'),
    }
}
