// Reductions: the one step of each, and the word that it begins with.
ghost use Rattle.std.specs.Prelude.{◌≡◌, ℤ};
ghost use Rattle.krn_base.specs.Numbers.{join_result, unit_of};
ghost use Rattle.krn_base.specs.Reduce.{InRange, Associates, Exchanges, HasUnit};
ghost use Rattle.krn_base.specs.ReduceLaws.{sum_in_range, sum_associates, sum_exchanges, sum_unit, prod_in_range};
ghost use Rattle.krn_base.specs.ReduceLaws.{prod_associates, prod_exchanges, prod_unit, and_in_range, and_associates};
ghost use Rattle.krn_base.specs.ReduceLaws.{and_exchanges, and_unit, or_in_range, or_associates, or_exchanges, or_unit};
ghost use Rattle.krn_base.specs.ReduceLaws.{xor_in_range, xor_associates, xor_exchanges, xor_unit, max_in_range};
ghost use Rattle.krn_base.specs.ReduceLaws.{max_associates, max_exchanges, max_unit, min_in_range, min_associates};
ghost use Rattle.krn_base.specs.ReduceLaws.{min_exchanges, min_unit};
ghost use Rattle.krn_base.specs.declared.operation.Join.TheVariants as joins;

use crate::operation::Join;
use crate::words;

/// A reduction of words to one: a step that may be taken in any order and grouping, and a word that changes nothing.
///
/// The laws speak of words from -2^63 to 2^63-1 alone.
pub trait Reduce {
    ghost UNIT: { ℤ };
    /// The word that the reduction begins with.
    const UNIT: i64;

    ghost joined: { ℤ → ℤ → ℤ };

    /// One step.
    fn join(a: i64, b: i64) -> i64
        ensures { result ≡ joined a b };

    ghost in_range: { InRange joined };

    ghost associates: { Associates joined };

    ghost exchanges: { Exchanges joined };

    ghost unit: { HasUnit joined UNIT };
}

/// The wrapped sum, from 0.
#[derive(Clone, Copy, Debug, PartialEq, Eq)]
pub struct Sum;

impl Reduce for Sum {
    ghost UNIT = { unit_of joins.Sum };

    const UNIT: i64 = 0;

    ghost joined = { join_result joins.Sum };

    fn join(a: i64, b: i64) -> i64 {
        words::wrapping_sum(a, b)
    }

    ghost in_range = { sum_in_range };

    ghost associates = { sum_associates };

    ghost exchanges = { sum_exchanges };

    ghost unit = { sum_unit };
}

/// The wrapped product, from 1.
#[derive(Clone, Copy, Debug, PartialEq, Eq)]
pub struct Prod;

impl Reduce for Prod {
    ghost UNIT = { unit_of joins.Prod };

    const UNIT: i64 = 1;

    ghost joined = { join_result joins.Prod };

    fn join(a: i64, b: i64) -> i64 {
        words::wrapping_product(a, b)
    }

    ghost in_range = { prod_in_range };

    ghost associates = { prod_associates };

    ghost exchanges = { prod_exchanges };

    ghost unit = { prod_unit };
}

/// The bits that all words have, from -1, which has every bit.
#[derive(Clone, Copy, Debug, PartialEq, Eq)]
pub struct AndAll;

impl Reduce for AndAll {
    ghost UNIT = { unit_of joins.And };

    const UNIT: i64 = -1;

    ghost joined = { join_result joins.And };

    fn join(a: i64, b: i64) -> i64 {
        words::bits_and(a, b)
    }

    ghost in_range = { and_in_range };

    ghost associates = { and_associates };

    ghost exchanges = { and_exchanges };

    ghost unit = { and_unit };
}

/// The bits that some word has, from 0.
#[derive(Clone, Copy, Debug, PartialEq, Eq)]
pub struct OrAll;

impl Reduce for OrAll {
    ghost UNIT = { unit_of joins.Or };

    const UNIT: i64 = 0;

    ghost joined = { join_result joins.Or };

    fn join(a: i64, b: i64) -> i64 {
        words::bits_or(a, b)
    }

    ghost in_range = { or_in_range };

    ghost associates = { or_associates };

    ghost exchanges = { or_exchanges };

    ghost unit = { or_unit };
}

/// The bits that an odd number of words have, from 0.
#[derive(Clone, Copy, Debug, PartialEq, Eq)]
pub struct XorAll;

impl Reduce for XorAll {
    ghost UNIT = { unit_of joins.Xor };

    const UNIT: i64 = 0;

    ghost joined = { join_result joins.Xor };

    fn join(a: i64, b: i64) -> i64 {
        words::bits_xor(a, b)
    }

    ghost in_range = { xor_in_range };

    ghost associates = { xor_associates };

    ghost exchanges = { xor_exchanges };

    ghost unit = { xor_unit };
}

/// The greatest word, from the least that there is.
#[derive(Clone, Copy, Debug, PartialEq, Eq)]
pub struct MaxOf;

impl Reduce for MaxOf {
    ghost UNIT = { unit_of joins.Max };

    const UNIT: i64 = i64::MIN;

    ghost joined = { join_result joins.Max };

    fn join(a: i64, b: i64) -> i64 {
        a.max(b)
    }

    ghost in_range = { max_in_range };

    ghost associates = { max_associates };

    ghost exchanges = { max_exchanges };

    ghost unit = { max_unit };
}

/// The least word, from the greatest that there is.
#[derive(Clone, Copy, Debug, PartialEq, Eq)]
pub struct MinOf;

impl Reduce for MinOf {
    ghost UNIT = { unit_of joins.Min };

    const UNIT: i64 = i64::MAX;

    ghost joined = { join_result joins.Min };

    fn join(a: i64, b: i64) -> i64 {
        a.min(b)
    }

    ghost in_range = { min_in_range };

    ghost associates = { min_associates };

    ghost exchanges = { min_exchanges };

    ghost unit = { min_unit };
}

/// One step of the reduction of this name: the wrapped sum or product, the bits, the greater or the lesser word.
pub fn join(op: Join, a: i64, b: i64) -> i64
    ensures { result ≡ join_result op a b }
{
    match op {
        Join::Sum => Sum::join(a, b),
        Join::Prod => Prod::join(a, b),
        Join::And => AndAll::join(a, b),
        Join::Or => OrAll::join(a, b),
        Join::Xor => XorAll::join(a, b),
        Join::Max => MaxOf::join(a, b),
        Join::Min => MinOf::join(a, b),
    }
}

/// The word that the reduction of this name begins with.
pub fn unit(op: Join) -> i64
    ensures { result ≡ unit_of op }
{
    match op {
        Join::Sum => Sum::UNIT,
        Join::Prod => Prod::UNIT,
        Join::And => AndAll::UNIT,
        Join::Or => OrAll::UNIT,
        Join::Xor => XorAll::UNIT,
        Join::Max => MaxOf::UNIT,
        Join::Min => MinOf::UNIT,
    }
}
