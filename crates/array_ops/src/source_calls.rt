// Going over the elements of an operand.
ghost use Rattle.std.specs.Prelude.{◌≡◌, ℕ, ◌+◌, ◌<◌, length, pos, slice_index_or};
ghost use Rattle.view_places.specs.Spread.{places};
ghost use Rattle.array_ops.specs.Arrays.{elements_at, words_of};
ghost use Rattle.array_ops.specs.Sources.{IsFresh, StandsAt, item_of, list_of};

use crate::place_walk::PlaceWalk;
use crate::source::Source;
use krn_base::Seq;
use view_places::Spread;

/// The word at a place; 0 where there is none.
fn word_in(words: &[i64], place: u32) -> i64
    ensures { result ≡ slice_index_or words.now place (pos 0) }
{
    words.get(place as usize).copied().unwrap_or(0)
}

/// The element at which a source stands.
pub fn value(source: &Source<'_>) -> i64
    ensures { (count k : ℕ) → StandsAt count k source.now → result ≡
        slice_index_or (list_of count source.now) k (pos 0) }
{
    match source {
        Source::Word(z) => *z,
        Source::Array(words, walk) => word_in(words, walk.at()),
    }
}

/// Goes on to the next element.
pub fn advance(source: &mut Source<'_>, count: u32, k: u32)
    requires stands { StandsAt count k source.old }
    requires more { k + 1 < count }
    ensures list { list_of count source.new ≡ list_of count source.old }
    ensures stands { StandsAt count (k + 1) source.new }
{
    if let Source::Array(_, walk) = source {
        walk.step();
    }
}

/// The element at which a source stands; the source goes on to the next one, if there is one.
pub fn next(source: &mut Source<'_>, count: u32, k: u32) -> i64
    requires stands { StandsAt count k source.old }
    requires below { k < count }
    ensures value { result ≡ item_of count source.old k }
    ensures list { list_of count source.new ≡ list_of count source.old }
    ensures stands { k + 1 < count → StandsAt count (k + 1) source.new }
{
    let z = value(source);
    if k + 1 < count {
        advance(source, count, k);
    }
    z
}

/// The words of a buffer; none where it isn't there.
fn words_in<'a>(buffers: &'a [Seq<i64>], buffer: u32) -> &'a [i64]
    ensures { result.now ≡ words_of buffers.now buffer }
{
    match buffers.get(buffer as usize) {
        Some(words) => words.as_slice(),
        None => &[],
    }
}

/// The elements of a spread view, one after another.
pub fn spread_source<'a>(buffers: &'a [Seq<i64>], spread: &Spread) -> Source<'a>
    ensures list { list_of (length (places spread.now)) result ≡
        elements_at buffers.now spread.now.buffer (places spread.now) }
    ensures fresh { IsFresh (length (places spread.now)) result }
{
    if spread.count() == 0 {
        Source::Word(0)
    } else {
        Source::Array(words_in(buffers, spread.buffer), PlaceWalk::start(spread))
    }
}
