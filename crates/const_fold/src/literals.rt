//! Literals that names are known to hold.
ghost use Rattle.std.specs.Prelude.{◌≡◌, IfOk, map, option_map, slice_get};
ghost use Rattle.krn_base.specs.Numbers.{unary_result};
ghost use Rattle.krn_base.specs.declared.operation.UnOp.TheVariants.{Pow};
ghost use Rattle.eager_rules.specs.Works.{word_result};
ghost use Rattle.const_fold.specs.Folded as spec;

use eager_rules::{CoreSub, Oper, WordOp};
use krn_base::{BinOp, Fault, Kind, NoMemory, Seq, UnOp, elem_op, power_laws, scalar_op, un_op};
use std::alloc::Global;

/// The literal that a name is known to hold.
pub fn known(table: &[Option<Oper>], name: u32) -> Option<Oper>
    ensures { result ≡ spec.known table.now name }
{
    match table.get(name as usize) {
        Some(entry) => *entry,
        None => None,
    }
}

/// An operand, with its literal in place of a name.
pub fn folded(table: &[Option<Oper>], x: Oper) -> Oper
    ensures { result ≡ spec.folded table.now x }
{
    match x {
        Oper::Name(name) => match known(table, name) {
            Some(literal) => literal,
            None => x,
        },
        Oper::Int(_) | Oper::Truth(_) => x,
    }
}

/// Operands, with their literals in place of names.
pub fn folded_all(alloc: Global, table: &[Option<Oper>], xs: &[Oper]) -> Result<Seq<Oper>, NoMemory>
    ensures { IfOk result (λ list. list ≡ map (spec.folded table.now) xs.now) }
{
    let mut list = Seq::new(alloc);
    for x in xs {
        list.push(folded(table, *x))?;
    }
    Ok(list)
}

fn folded_part(table: &[Option<Oper>], part: Option<Oper>) -> Option<Oper>
    ensures { result ≡ option_map (spec.folded table.now) part }
{
    match part {
        None => None,
        Some(x) => Some(folded(table, x)),
    }
}

fn folded_sub(table: &[Option<Oper>], sub: CoreSub) -> CoreSub
    ensures { result ≡ spec.folded_sub table.now sub }
{
    match sub {
        CoreSub::At(x) => CoreSub::At(folded(table, x)),
        CoreSub::Cut(start, stop, step) => CoreSub::Cut(
            folded_part(table, start),
            folded_part(table, stop),
            folded_part(table, step),
        ),
    }
}

/// Subscripts, with the literals of their names.
pub fn folded_subs(
    alloc: Global,
    table: &[Option<Oper>],
    subs: &[CoreSub],
) -> Result<Seq<CoreSub>, NoMemory>
    ensures { IfOk result (λ list. list ≡ map (spec.folded_sub table.now) subs.now) }
{
    let mut list = Seq::new(alloc);
    for sub in subs {
        list.push(folded_sub(table, *sub))?;
    }
    Ok(list)
}

/// The word of an operand that is a literal or a name that is known to hold one.
fn word_of(table: &[Option<Oper>], x: Oper) -> Option<i64>
    ensures { result ≡ spec.word_in (spec.folded table.now x) }
{
    match folded(table, x) {
        Oper::Int(z) => Some(z),
        Oper::Truth(true) => Some(1),
        Oper::Truth(false) => Some(0),
        Oper::Name(_) => None,
    }
}

/// The words of operands, where all are known.
#[tactic(auto, using(crate::proofs::LearnLaws::led_none, crate::proofs::LearnLaws::led_more))]
fn words_of(
    alloc: Global,
    table: &[Option<Oper>],
    xs: &[Oper],
) -> Result<Option<Seq<i64>>, NoMemory>
    ensures { IfOk result (λ words. words ≡ spec.words_in (map (spec.folded table.now) xs.now)) }
{
    let mut words = Seq::new(alloc);
    for x in xs {
        match word_of(table, *x) {
            Some(z) => words.push(z)?,
            None => return Ok(None),
        }
    }
    Ok(Some(words))
}

/// A power with any exponent, which wraps.
fn wrapped_power(a: i64, exponent: u8) -> i64
    ensures { result ≡ unary_result (Pow exponent) a }
{
    power_laws();
    let mut word = 1;
    for _factor in 0..exponent {
        word = elem_op(BinOp::Mul, word, a);
    }
    word
}

fn unary(op: UnOp, a: i64) -> i64
    ensures { result ≡ unary_result op a }
{
    match op {
        UnOp::Pow(exponent) => wrapped_power(a, exponent),
        _ => un_op(op, a),
    }
}

/// What an operation makes of words.
fn result_of(op: WordOp, words: &[i64]) -> Result<i64, Fault>
    ensures { result ≡ word_result op words.now }
{
    match (op, words) {
        (WordOp::Bin(op), [a, b]) => scalar_op(op, *a, *b),
        (WordOp::Un(op), [a]) => Ok(unary(op, *a)),
        _ => Ok(0),
    }
}

/// A word as a truth value.
fn truth_literal(word: i64) -> Option<Oper>
    ensures { result ≡ spec.truth_literal word }
{
    match word {
        0 => Some(Oper::Truth(false)),
        1 => Some(Oper::Truth(true)),
        _ => None,
    }
}

/// A word as a literal of a scalar name's type.
fn literal_as(ty: Option<(Kind, u8)>, word: i64) -> Option<Oper>
    ensures { result ≡ spec.literal_as ty word }
{
    match ty {
        Some((Kind::Int64, 0)) => Some(Oper::Int(word)),
        Some((Kind::Bool, 0)) => truth_literal(word),
        _ => None,
    }
}

/// The type of a name.
fn type_of(types: &[(Kind, u8)], name: u32) -> Option<(Kind, u8)>
    ensures { result ≡ slice_get types.now name }
{
    types.get(name as usize).copied()
}

/// The literal of a type that an operation makes of words, where it doesn't fault.
fn literal_of(ty: Option<(Kind, u8)>, op: WordOp, words: &[i64]) -> Option<Oper>
    ensures { result ≡ spec.made_literal ty (word_result op words.now) }
{
    match result_of(op, words) {
        Ok(word) => literal_as(ty, word),
        Err(_) => None,
    }
}

/// The literal that a statement on scalars makes by what is known, if it is no move.
pub fn makes(
    alloc: Global,
    types: &[(Kind, u8)],
    table: &[Option<Oper>],
    to: u32,
    op: WordOp,
    args: &[Oper],
) -> Result<Option<Oper>, NoMemory>
    ensures { IfOk result (λ literal. literal ≡ spec.makes types.now table.now to op args.now) }
{
    if op == WordOp::Move {
        return Ok(None);
    }
    match words_of(alloc, table, args)? {
        Some(words) => Ok(literal_of(type_of(types, to), op, words.as_slice())),
        None => Ok(None),
    }
}
