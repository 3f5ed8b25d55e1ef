//! What a text makes true.

ghost use Rattle.std.specs.Prelude.{◌≡◌, ℕ, ◌≤◌, ◌++◌, ◌||◌, ◌&&◌, [], not, cond, IfOk, filter, map, length, take, drop, nat_eq, nat_lt};
ghost use Rattle.std.specs.List.Sorted.{IsNonDecreasingBy};
ghost use Rattle.px_text.specs.Sets.{has};
ghost use Rattle.px_xpath.specs.Meaning.{allows};
ghost use Rattle.px_afa.specs.Truth.{state_at};
ghost use Rattle.px_afa.specs.Classes.{class_compares};
ghost use Rattle.px_afa.specs.Tables.{unequal_texts, own_class, relates_number};
ghost use Rattle.px_afa.specs.Functions.{value_text as text_values, value_number as number_values};
ghost use Rattle.px_step.specs.Valuing.{is_told as told};

use crate::merges::union;
use crate::sorting::ascending;
use px_afa::{Program, Related};
use px_text::Set;
use px_xpath::Relation;
use std::alloc::{AllocError, Global};
use std::cmp::Ordering;

/// The Value states with a string literal that are true of texts of a text class. It takes memory
/// for them, and its only failure is want of memory.
pub fn value_text(alloc: Global, program: &Program, class: u32) -> Result<Set, AllocError>
    ensures values { IfOk result (λ set. set ≡ text_values program.now.states class) }
{
    program.sound();
    let others = unequal(alloc, program, class)?;
    Ok(Set::from_vec(union(alloc, program.equal_texts(class), &others)?))
}

// The Value states `!=` of a literal of another class.
fn unequal(alloc: Global, program: &Program, class: u32) -> Result<Vec<u32>, AllocError>
    ensures others { IfOk result (λ others. others.items ≡
        filter (λ n. not (nat_eq class (own_class program.now.states
        (state_at program.now.states n)))) (unequal_texts program.now.states)) }
{
    let mut others = Vec::new(alloc);
    for n in program.unequal_texts() {
        if class != program.own_class(*n) {
            others.push(*n)?;
        }
    }
    Ok(others)
}

/// The Value states with a number that are true of texts of a number class. It takes memory for
/// them, and its only failure is want of memory.
pub fn value_number(alloc: Global, program: &Program, class: u32) -> Result<Set, AllocError>
    ensures values { IfOk result (λ set. set ≡ number_values program.now.states class) }
{
    program.sound();
    let states = true_numbers(alloc, program, class)?;
    Ok(Set::from_vec(ascending(states)))
}

// The Value states with a number that are true of the class, by their relations.
fn true_numbers(alloc: Global, program: &Program, class: u32) -> Result<Vec<u32>, AllocError>
    ensures members { IfOk result (λ states. (n : ℕ) →
        has states.items n ≡ has (number_values program.now.states class) n) }
{
    let mut states = Vec::new(alloc);
    add_true(program, Relation::Equal, class, &mut states)?;
    add_true(program, Relation::NotEqual, class, &mut states)?;
    add_true(program, Relation::Less, class, &mut states)?;
    add_true(program, Relation::AtMost, class, &mut states)?;
    add_true(program, Relation::Greater, class, &mut states)?;
    add_true(program, Relation::AtLeast, class, &mut states)?;
    Ok(states)
}

// Adds the Value states with this relation that are true of the class: those of lower, the same
// and higher constants, each whole or not at all.
fn add_true(
    program: &Program,
    relation: Relation,
    class: u32,
    states: &mut Vec<u32>,
) -> Result<(), AllocError>
    ensures added { IfOk result (λ _. (n : ℕ) → has states.new.items n ≡ (has states.old.items n ||
        (relates_number relation (state_at program.now.states n) && class_compares relation class
        (own_class program.now.states (state_at program.now.states n))))) }
{
    let entries = program.related(relation);
    let (lower, rest) = entries.split_at(count_below(entries, u64::from(class)));
    let (same, higher) = rest.split_at(count_below(rest, u64::from(class) + 1));
    add_if(is_told(relation, class, Ordering::Greater), lower, states)?;
    add_if(is_told(relation, class, Ordering::Equal), same, states)?;
    add_if(is_told(relation, class, Ordering::Less), higher, states)
}

// How many of the entries, by rising classes, have a class below this one. It is found by halves.
fn count_below(entries: &[Related], class: u64) -> usize
    requires rising { IsNonDecreasingBy (λ (entry : Related). entry.class) entries.now }
    ensures within { result ≤ length entries.now }
    ensures front { take result entries.now ≡
        filter (λ (entry : Related). nat_lt entry.class class) entries.now }
    ensures back { drop result entries.now ≡
        filter (λ (entry : Related). not (nat_lt entry.class class)) entries.now }
{
    entries.partition_point(|entry| u64::from(entry.class) < class)
}

// Adds the states of the entries, if they are wanted.
fn add_if(wanted: bool, entries: &[Related], states: &mut Vec<u32>) -> Result<(), AllocError>
    ensures added { IfOk result (λ _. states.new.items ≡ states.old.items ++
        cond wanted (map (λ (entry : Related). entry.state) entries.now) []) }
{
    if !wanted {
        return Ok(());
    }
    for entry in entries {
        states.push(entry.state)?;
    }
    Ok(())
}

// Whether texts of the class compare true with constants that the class has this order to.
fn is_told(relation: Relation, class: u32, order: Ordering) -> bool
    ensures told { result ≡ told relation class order }
{
    if class == 0 {
        return is_unequal(relation);
    }
    match relation {
        Relation::Equal => order.is_eq(),
        Relation::NotEqual => order.is_ne(),
        Relation::Less => order.is_lt(),
        Relation::AtMost => order.is_le(),
        Relation::Greater => order.is_gt(),
        Relation::AtLeast => order.is_ge(),
    }
}

// Whether the relation is `!=`.
fn is_unequal(relation: Relation) -> bool
    ensures unequal { result ≡ told relation 0 Ordering.Equal }
{
    matches!(relation, Relation::NotEqual)
}
