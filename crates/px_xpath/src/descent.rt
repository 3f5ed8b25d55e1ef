//! The parser of filters, by descent over tokens.
//!
//! Each function takes the tokens that are left and gives what it read and the tokens behind it,
//! or the token that stops the parse. `spare` is the number of brackets that may still be opened.
//! Lists are read by loops, so the calls nest only as deep as brackets stand open.

ghost use Rattle.std.specs.Prelude.{◌≡◌, [], ◌∷◌, List, IfOk};
ghost use Rattle.px_xpath.specs.TokenViews.{all_placed};
ghost use Rattle.px_xpath.specs.Reads.{TakesSeparator, TakesOr, TakesAnd, TakesCloser, OpensSquare, FindsAttribute, TakesCall, FindsTest, OpensRound, BeginsUnary, TakesRelation, NumberOf, ReadsNegative, ReadsOperand, Compares, ReadsUnary, GoesOn, ReadsAnds, ReadsOrs, ReadsClosed, ReadsPreds, StepsOn, ReadsSteps, ReadsFilter};
ghost use Rattle.px_xpath.specs.Grammar as grammar;
ghost use Rattle.px_xpath.specs.Filters.{Way, StepThen, Conditions, CondThen};
ghost use Rattle.px_xpath.specs.Views.{condition as view, conditions, way, ways};
ghost use Rattle.px_xpath.specs.Reads as reads;
ghost use Rattle.px_xpath.specs.Reads.{conditions_onto, ways_onto};

use crate::filter::{Axis, Cond, Path, Relation, Step, Test, Value};
use crate::token::{Numeral, Placed, Token};
use px_text::{Bytes, Decimal};
use sqlite_items::{Boxed, Items};
use std::alloc::{AllocError, Global};

/// Why a token stops a parse.
#[derive(Clone, Copy, Drop)]
pub enum Reason {
    NotAFilter,
    TooNested,
    NumberLong,
}

/// Why a part of a filter was not read: for want of memory, or because of the first of these
/// tokens, or because there is none.
#[derive(Clone, Copy, Drop)]
pub enum Stop<'a> {
    Memory,
    At(Reason, &'a [Placed<'a>]),
}

impl<'a> From<AllocError> for Stop<'a> {
    ghost use Rattle.std.specs.Prelude.{◌≡◌};
    ghost use Rattle.px_xpath.specs.declared.descent.Stop.TheVariants.{Memory};

    ghost from_gives = { λ _ e. e ≡ Memory };

    fn from(_: AllocError) -> Stop<'a> {
        Stop::Memory
    }
}

/// The two kinds of brackets round a condition.
#[derive(Clone, Copy, Drop)]
pub enum Bracket {
    Square,
    Round,
}

/// The test of a step, and the tokens behind it. Behind the last step's no condition may follow.
#[derive(Drop)]
pub enum Found<'a> {
    Last(Test, &'a [Placed<'a>]),
    Element(Test, &'a [Placed<'a>]),
}

/// What a condition begins with: a bracket, or a path along this axis.
#[derive(Clone, Copy, Drop)]
pub enum Head<'a> {
    Inside(bool, u32, &'a [Placed<'a>]),
    Along(Axis, &'a [Placed<'a>]),
}

/// What a list of conditions goes on with: behind one more member, or at its end.
#[derive(Drop)]
pub enum Members<'a> {
    More(Items<Cond>, &'a [Placed<'a>]),
    Whole(Items<Cond>, &'a [Placed<'a>]),
}

/// What a path goes on with: behind one more step, along this axis, or at its end.
#[derive(Drop)]
pub enum Route<'a> {
    More(Items<Step>, Axis, &'a [Placed<'a>]),
    Whole(Items<Step>, &'a [Placed<'a>]),
}

// The separator that comes, as the axis that it stands for.
fn separator<'a>(tokens: &'a [Placed<'a>]) -> Option<(Axis, &'a [Placed<'a>])>
    ensures { TakesSeparator (all_placed tokens.now) result }
{
    match tokens.split_first() {
        Some((first, rest)) => match first.token {
            Token::Slash => Some((Axis::Child, rest)),
            Token::Slashes => Some((Axis::Below, rest)),
            _ => None,
        },
        None => None,
    }
}

// What stands behind an `or`, if one comes.
fn behind_or<'a>(tokens: &'a [Placed<'a>]) -> Option<&'a [Placed<'a>]>
    ensures { TakesOr (all_placed tokens.now) result }
{
    match tokens.split_first() {
        Some((first, rest)) => match first.token {
            Token::OrWord => Some(rest),
            _ => None,
        },
        None => None,
    }
}

// What stands behind an `and`, if one comes.
fn behind_and<'a>(tokens: &'a [Placed<'a>]) -> Option<&'a [Placed<'a>]>
    ensures { TakesAnd (all_placed tokens.now) result }
{
    match tokens.split_first() {
        Some((first, rest)) => match first.token {
            Token::AndWord => Some(rest),
            _ => None,
        },
        None => None,
    }
}

// What stands behind the closing bracket, if it comes.
fn behind_closer<'a>(bracket: Bracket, tokens: &'a [Placed<'a>]) -> Option<&'a [Placed<'a>]>
    ensures { TakesCloser bracket (all_placed tokens.now) result }
{
    match tokens.split_first() {
        Some((first, rest)) => match (bracket, first.token) {
            (Bracket::Square, Token::CloseSquare) => Some(rest),
            (Bracket::Round, Token::Close) => Some(rest),
            _ => None,
        },
        None => None,
    }
}

// What may still be opened and what stands behind a square bracket, if one comes.
fn open_square<'a>(
    spare: u32,
    tokens: &'a [Placed<'a>],
) -> Result<Option<(u32, &'a [Placed<'a>])>, Stop<'a>>
    ensures { OpensSquare spare (all_placed tokens.now) result }
{
    match tokens.split_first() {
        Some((first, rest)) => match first.token {
            Token::OpenSquare => match spare.checked_sub(1) {
                Some(left) => Ok(Some((left, rest))),
                None => Err(Stop::At(Reason::TooNested, tokens)),
            },
            _ => Ok(None),
        },
        None => Ok(None),
    }
}

// The name test of an attribute.
fn attribute<'a>(
    alloc: Global,
    tokens: &'a [Placed<'a>],
) -> Result<(Test, &'a [Placed<'a>]), Stop<'a>>
    ensures { FindsAttribute (all_placed tokens.now) result }
{
    match tokens.split_first() {
        Some((first, rest)) => match first.token {
            Token::Star => Ok((Test::AnyAttribute, rest)),
            Token::NameTest(name) => Ok((Test::Attribute(Bytes::of(alloc, name)?), rest)),
            _ => Err(Stop::At(Reason::NotAFilter, tokens)),
        },
        None => Err(Stop::At(Reason::NotAFilter, tokens)),
    }
}

// What stands behind the brackets of `text()`.
fn behind_call<'a>(tokens: &'a [Placed<'a>]) -> Result<&'a [Placed<'a>], Stop<'a>>
    ensures { TakesCall (all_placed tokens.now) result }
{
    match tokens.split_first() {
        Some((first, inside)) => match first.token {
            Token::Open => match behind_closer(Bracket::Round, inside) {
                Some(rest) => Ok(rest),
                None => Err(Stop::At(Reason::NotAFilter, inside)),
            },
            _ => Err(Stop::At(Reason::NotAFilter, tokens)),
        },
        None => Err(Stop::At(Reason::NotAFilter, tokens)),
    }
}

// What a step looks for.
fn test<'a>(alloc: Global, tokens: &'a [Placed<'a>]) -> Result<Found<'a>, Stop<'a>>
    ensures { FindsTest (all_placed tokens.now) result }
{
    match tokens.split_first() {
        Some((first, rest)) => match first.token {
            Token::At => {
                let (test, rest) = attribute(alloc, rest)?;
                Ok(Found::Last(test, rest))
            }
            Token::TextWord => Ok(Found::Last(Test::Text, behind_call(rest)?)),
            Token::Star => Ok(Found::Element(Test::AnyElement, rest)),
            Token::NameTest(name) => Ok(Found::Element(
                Test::Element(Bytes::of(alloc, name)?),
                rest,
            )),
            _ => Err(Stop::At(Reason::NotAFilter, tokens)),
        },
        None => Err(Stop::At(Reason::NotAFilter, tokens)),
    }
}

// What may still be opened and what stands behind the bracket of `not(`.
fn open_round<'a>(spare: u32, tokens: &'a [Placed<'a>]) -> Result<(u32, &'a [Placed<'a>]), Stop<'a>>
    ensures { OpensRound spare (all_placed tokens.now) result }
{
    match tokens.split_first() {
        Some((first, rest)) => match first.token {
            Token::Open => match spare.checked_sub(1) {
                Some(left) => Ok((left, rest)),
                None => Err(Stop::At(Reason::TooNested, tokens)),
            },
            _ => Err(Stop::At(Reason::NotAFilter, tokens)),
        },
        None => Err(Stop::At(Reason::NotAFilter, tokens)),
    }
}

// What a condition without `and` and `or` begins with.
fn condition_head<'a>(spare: u32, tokens: &'a [Placed<'a>]) -> Result<Head<'a>, Stop<'a>>
    ensures { BeginsUnary spare (all_placed tokens.now) result }
{
    match tokens.split_first() {
        Some((first, rest)) => match first.token {
            Token::NotWord => {
                let (left, rest) = open_round(spare, rest)?;
                Ok(Head::Inside(true, left, rest))
            }
            Token::Open => match spare.checked_sub(1) {
                Some(left) => Ok(Head::Inside(false, left, rest)),
                None => Err(Stop::At(Reason::TooNested, tokens)),
            },
            Token::Dot => match separator(rest) {
                Some((axis, rest)) => Ok(Head::Along(axis, rest)),
                None => Err(Stop::At(Reason::NotAFilter, rest)),
            },
            _ => Ok(Head::Along(Axis::Child, tokens)),
        },
        None => Ok(Head::Along(Axis::Child, tokens)),
    }
}

// The relation that comes, if one does.
fn relation<'a>(tokens: &'a [Placed<'a>]) -> Option<(Relation, &'a [Placed<'a>])>
    ensures { TakesRelation (all_placed tokens.now) result }
{
    match tokens.split_first() {
        Some((first, rest)) => match first.token {
            Token::Related(relation) => Some((relation, rest)),
            _ => None,
        },
        None => None,
    }
}

// Whether a literal may stand behind the relation.
fn is_equality(relation: Relation) -> bool
    ensures { result ≡ grammar.is_equality relation }
{
    matches!(relation, Relation::Equal | Relation::NotEqual)
}

// The number of the digits, if there are at most 18 on each side of the point.
fn decimal(is_negative: bool, numeral: &Numeral<'_>) -> Option<Decimal>
    ensures { NumberOf is_negative numeral.now.whole.now numeral.now.fraction.now result }
{
    if numeral.whole.len() > 18 || numeral.fraction.len() > 18 {
        return None;
    }
    Some(Decimal::of_digits(is_negative, numeral.whole, numeral.fraction))
}

// The number behind a minus.
fn negative<'a>(
    relation: Relation,
    tokens: &'a [Placed<'a>],
) -> Result<(Value, &'a [Placed<'a>]), Stop<'a>>
    ensures { ReadsNegative relation (all_placed tokens.now) result }
{
    match tokens.split_first() {
        Some((first, rest)) => match first.token {
            Token::Numeric(numeral) => match decimal(true, &numeral) {
                Some(number) => Ok((Value::Number(number), rest)),
                None => Err(Stop::At(Reason::NumberLong, tokens)),
            },
            _ => Err(Stop::At(Reason::NotAFilter, tokens)),
        },
        None => Err(Stop::At(Reason::NotAFilter, tokens)),
    }
}

// What stands behind a relation: a literal or a number.
fn operand<'a>(
    alloc: Global,
    relation: Relation,
    tokens: &'a [Placed<'a>],
) -> Result<(Value, &'a [Placed<'a>]), Stop<'a>>
    ensures { ReadsOperand relation (all_placed tokens.now) result }
{
    match tokens.split_first() {
        Some((first, rest)) => match first.token {
            Token::Quoted(text) => {
                if !is_equality(relation) {
                    return Err(Stop::At(Reason::NotAFilter, tokens));
                }
                Ok((Value::Literal(Bytes::of(alloc, text)?), rest))
            }
            Token::Numeric(numeral) => match decimal(false, &numeral) {
                Some(number) => Ok((Value::Number(number), rest)),
                None => Err(Stop::At(Reason::NumberLong, tokens)),
            },
            Token::Minus => negative(relation, rest),
            _ => Err(Stop::At(Reason::NotAFilter, tokens)),
        },
        None => Err(Stop::At(Reason::NotAFilter, tokens)),
    }
}

// A path, and the comparison behind it where there is one.
fn comparison<'a>(
    alloc: Global,
    path: Path,
    tokens: &'a [Placed<'a>],
) -> Result<(Cond, &'a [Placed<'a>]), Stop<'a>>
    ensures { Compares (way path) (all_placed tokens.now) result }
{
    match relation(tokens) {
        Some((relation, rest)) => {
            let (value, rest) = operand(alloc, relation, rest)?;
            Ok((Cond::Compare(path, relation, value), rest))
        }
        None => Ok((Cond::Exists(path), tokens)),
    }
}

// The condition, or where it is negated one that holds where it does not.
#[tactic(auto, using(crate::proofs::FilterViews::views))]
fn negated_if(alloc: Global, is_negated: bool, condition: Cond) -> Result<Cond, AllocError>
    ensures { IfOk result (λ c. view c ≡ reads.negated_if is_negated (view condition)) }
{
    if is_negated {
        Ok(Cond::Not(Boxed::new(alloc, condition)?))
    } else {
        Ok(condition)
    }
}

// A condition that holds where all members do. One member stands for itself.
fn conjunction(members: Items<Cond>) -> Cond
    ensures { view result ≡ reads.each_of (conditions members) }
{
    let mut rest = members;
    if rest.len() != 1 {
        return Cond::And(rest);
    }
    match rest.pop() {
        Some(only) => only,
        None => Cond::And(rest),
    }
}

// A condition that holds where some member does. One member stands for itself.
fn disjunction(members: Items<Cond>) -> Cond
    ensures { view result ≡ reads.some_of (conditions members) }
{
    let mut rest = members;
    if rest.len() != 1 {
        return Cond::Or(rest);
    }
    match rest.pop() {
        Some(only) => only,
        None => Cond::Or(rest),
    }
}

// The conditions, and one more behind them.
fn with_condition(done: Items<Cond>, condition: Cond) -> Result<Items<Cond>, AllocError>
    ensures { IfOk result (λ all. (more : Conditions) →
        conditions_onto all more ≡ conditions_onto done (CondThen (view condition) more)) }
{
    let mut all = done;
    all.push(condition)?;
    Ok(all)
}

// The steps, and one more behind them.
fn with_step(
    done: Items<Step>,
    axis: Axis,
    test: Test,
    conds: Items<Cond>,
) -> Result<Items<Step>, AllocError>
    ensures { IfOk result (λ all. (onward : Way) →
        ways_onto all onward ≡ ways_onto done (StepThen axis test (conditions conds) onward)) }
{
    let mut all = done;
    all.push(Step { axis, test, conds })?;
    Ok(all)
}

// The path of these steps.
#[tactic(auto, using(crate::proofs::FilterViews::views))]
fn path_of(steps: Items<Step>) -> Path
    ensures { way result ≡ ways steps }
{
    Path { steps }
}

// A condition without `and` and `or`.
#[cycle(parser)]
fn unary<'a>(
    alloc: Global,
    spare: u32,
    tokens: &'a [Placed<'a>],
) -> Result<(Cond, &'a [Placed<'a>]), Stop<'a>>
    ensures { ReadsUnary spare (all_placed tokens.now) result }
{
    match condition_head(spare, tokens)? {
        Head::Inside(is_negated, left, rest) => {
            let (found, rest) = closed(alloc, Bracket::Round, left, rest)?;
            Ok((negated_if(alloc, is_negated, found)?, rest))
        }
        Head::Along(axis, rest) => {
            let (steps, rest) = steps(alloc, spare, axis, rest)?;
            comparison(alloc, path_of(steps), rest)
        }
    }
}

// One more of the conditions between which `and` stands, behind those that are done.
#[cycle(parser)]
fn and_member<'a>(
    alloc: Global,
    spare: u32,
    done: Items<Cond>,
    tokens: &'a [Placed<'a>],
) -> Result<Members<'a>, Stop<'a>>
    ensures { GoesOn (ReadsAnds spare) done (all_placed tokens.now) result }
{
    let (found, rest) = unary(alloc, spare, tokens)?;
    let all = with_condition(done, found)?;
    match behind_and(rest) {
        Some(behind) => Ok(Members::More(all, behind)),
        None => Ok(Members::Whole(all, rest)),
    }
}

// The conditions between which `and` stands.
#[cycle(parser)]
fn ands<'a>(
    alloc: Global,
    spare: u32,
    tokens: &'a [Placed<'a>],
) -> Result<(Items<Cond>, &'a [Placed<'a>]), Stop<'a>>
    ensures { ReadsAnds spare [] (all_placed tokens.now) result }
{
    let mut read = and_member(alloc, spare, Items::new(alloc), tokens)?;
    loop {
        match read {
            Members::More(done, behind) => read = and_member(alloc, spare, done, behind)?,
            Members::Whole(done, rest) => return Ok((done, rest)),
        }
    }
}

// One more of the conditions between which `or` stands, behind those that are done.
#[cycle(parser)]
fn or_member<'a>(
    alloc: Global,
    spare: u32,
    done: Items<Cond>,
    tokens: &'a [Placed<'a>],
) -> Result<Members<'a>, Stop<'a>>
    ensures { GoesOn (ReadsOrs spare) done (all_placed tokens.now) result }
{
    let (members, rest) = ands(alloc, spare, tokens)?;
    let all = with_condition(done, conjunction(members))?;
    match behind_or(rest) {
        Some(behind) => Ok(Members::More(all, behind)),
        None => Ok(Members::Whole(all, rest)),
    }
}

// The conditions between which `or` stands.
#[cycle(parser)]
fn ors<'a>(
    alloc: Global,
    spare: u32,
    tokens: &'a [Placed<'a>],
) -> Result<(Items<Cond>, &'a [Placed<'a>]), Stop<'a>>
    ensures { ReadsOrs spare [] (all_placed tokens.now) result }
{
    let mut read = or_member(alloc, spare, Items::new(alloc), tokens)?;
    loop {
        match read {
            Members::More(done, behind) => read = or_member(alloc, spare, done, behind)?,
            Members::Whole(done, rest) => return Ok((done, rest)),
        }
    }
}

// A condition and the bracket that closes behind it.
#[cycle(parser)]
fn closed<'a>(
    alloc: Global,
    bracket: Bracket,
    spare: u32,
    tokens: &'a [Placed<'a>],
) -> Result<(Cond, &'a [Placed<'a>]), Stop<'a>>
    ensures { ReadsClosed bracket spare (all_placed tokens.now) result }
{
    let (members, rest) = ors(alloc, spare, tokens)?;
    match behind_closer(bracket, rest) {
        Some(behind) => Ok((disjunction(members), behind)),
        None => Err(Stop::At(Reason::NotAFilter, rest)),
    }
}

// One more condition of a step, behind those that are done.
#[cycle(parser)]
fn predicate<'a>(
    alloc: Global,
    spare: u32,
    done: Items<Cond>,
    tokens: &'a [Placed<'a>],
) -> Result<Members<'a>, Stop<'a>>
    ensures { GoesOn (ReadsPreds spare) done (all_placed tokens.now) result }
{
    match open_square(spare, tokens)? {
        Some((left, inside)) => {
            let (found, rest) = closed(alloc, Bracket::Square, left, inside)?;
            Ok(Members::More(with_condition(done, found)?, rest))
        }
        None => Ok(Members::Whole(done, tokens)),
    }
}

// The conditions of a step.
#[cycle(parser)]
fn predicates<'a>(
    alloc: Global,
    spare: u32,
    tokens: &'a [Placed<'a>],
) -> Result<(Items<Cond>, &'a [Placed<'a>]), Stop<'a>>
    ensures { ReadsPreds spare [] (all_placed tokens.now) result }
{
    let mut read = predicate(alloc, spare, Items::new(alloc), tokens)?;
    loop {
        match read {
            Members::More(done, behind) => read = predicate(alloc, spare, done, behind)?,
            Members::Whole(done, rest) => return Ok((done, rest)),
        }
    }
}

// One more step of a path, behind those that are done.
#[cycle(parser)]
fn next_step<'a>(
    alloc: Global,
    spare: u32,
    done: Items<Step>,
    axis: Axis,
    tokens: &'a [Placed<'a>],
) -> Result<Route<'a>, Stop<'a>>
    ensures { StepsOn spare done axis (all_placed tokens.now) result }
{
    match test(alloc, tokens)? {
        Found::Last(test, rest) => {
            let all = with_step(done, axis, test, Items::new(alloc))?;
            Ok(Route::Whole(all, rest))
        }
        Found::Element(test, inside) => {
            let (conds, rest) = predicates(alloc, spare, inside)?;
            let all = with_step(done, axis, test, conds)?;
            match separator(rest) {
                Some((next, behind)) => Ok(Route::More(all, next, behind)),
                None => Ok(Route::Whole(all, rest)),
            }
        }
    }
}

// The steps of a path, the first along this axis.
#[cycle(parser)]
fn steps<'a>(
    alloc: Global,
    spare: u32,
    axis: Axis,
    tokens: &'a [Placed<'a>],
) -> Result<(Items<Step>, &'a [Placed<'a>]), Stop<'a>>
    ensures { ReadsSteps spare [] axis (all_placed tokens.now) result }
{
    let mut read = next_step(alloc, spare, Items::new(alloc), axis, tokens)?;
    loop {
        match read {
            Route::More(done, next, behind) => read = next_step(alloc, spare, done, next, behind)?,
            Route::Whole(done, rest) => return Ok((done, rest)),
        }
    }
}

/// The path of a whole filter.
pub fn filter_path<'a>(alloc: Global, tokens: &'a [Placed<'a>]) -> Result<Path, Stop<'a>>
    ensures { ReadsFilter (all_placed tokens.now) result }
{
    match separator(tokens) {
        Some((axis, behind)) => {
            let (steps, rest) = steps(alloc, MOST_OPEN, axis, behind)?;
            if rest.is_empty() {
                Ok(path_of(steps))
            } else {
                Err(Stop::At(Reason::NotAFilter, rest))
            }
        }
        None => Err(Stop::At(Reason::NotAFilter, tokens)),
    }
}

/// How many brackets may be open at once.
const MOST_OPEN: u32 = 64;
