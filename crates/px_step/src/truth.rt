//! Which states a set makes true.

ghost use Rattle.std.specs.Prelude.{◌≡◌, ◌<◌, true, length, nat_lt};
ghost use Rattle.std.specs.List.{list_any, list_all};
ghost use mathlib.Core.Bool.{beq};
ghost use Rattle.px_text.specs.Sets.{has};
ghost use Rattle.px_afa.specs.Orders.{IsBodyBelow};
ghost use Rattle.px_afa.specs.Sound.{IsSound};
ghost use Rattle.px_afa.specs.Sets.{true_in, body_in};

use px_afa::{Body, Program, State};
use px_text::Set;

// Whether a state is true in a set.
#[cycle(truth)]
fn is_true(program: &Program, set: &Set, n: u32) -> bool
    requires sound { IsSound program.now }
    requires there { n < length program.now.states }
    ensures truth { result ≡ true_in program.now.states (has set.now) n }
{
    match program.state(n) {
        State::Path { .. } => set.has(n),
        State::Value { .. } => set.has(n),
        State::Not { part } => !is_true(program, set, *part),
        State::And { parts } => !some_part_is(program, set, parts.as_slice(), false),
        State::Or { parts } => some_part_is(program, set, parts.as_slice(), true),
    }
}

// Whether one of the states has this truth in the set.
#[cycle(truth)]
fn some_part_is(program: &Program, set: &Set, parts: &[u64], wanted: bool) -> bool
    requires sound { IsSound program.now }
    requires there { list_all (λ p. nat_lt p (length program.now.states)) parts.now ≡ true }
    ensures some { result ≡ list_any (λ p. beq (true_in program.now.states (has set.now) p) wanted)
        parts.now }
{
    for part in parts {
        if is_true(program, set, *part as u32) == wanted {
            return true;
        }
    }
    false
}

/// Whether a body is true in a set.
pub fn body_is_true(program: &Program, set: &Set, body: Body) -> bool
    requires sound { IsSound program.now }
    requires there { IsBodyBelow body (length program.now.states) }
    ensures truth { result ≡ body_in (true_in program.now.states (has set.now)) body }
{
    match body {
        Body::Always => true,
        Body::State(n) => is_true(program, set, n),
    }
}
