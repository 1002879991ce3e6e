// Array stores.
ghost use Rattle.std.specs.Prelude.{◌≡◌, ◌+◌, ◌<◌, length, pos, slice_index, slice_index_or};
ghost use Rattle.array_ops.specs.Arrays.{with_word, with_words};
ghost use Rattle.view_places.specs.Spread.{places};
ghost use Rattle.view_places.specs.View.{places as places_of_view};

use crate::place_walk::PlaceWalk;
use crate::words::set_word;
use krn_base::Seq;
use view_places::{Spread, View};

/// Puts the word with a number at the place with that number, and goes on to the next place if there is one.
fn put_next(buffers: &mut Seq<Seq<i64>>, walk: &mut PlaceWalk, words: &[i64], count: usize)
    requires word { walk.old.number < length words.now }
    requires count { count ≡ length (places walk.old.spread) }
    ensures put { buffers.new ≡ with_word buffers.old walk.old.spread.buffer
        (slice_index (places walk.old.spread) walk.old.number) (slice_index_or words.now walk.old.number (pos 0)) }
    ensures spread { walk.new.spread ≡ walk.old.spread }
    ensures number { walk.old.number + 1 < count → walk.new.number ≡ walk.old.number + 1 }
{
    let number = walk.number as usize;
    set_word(buffers, walk.spread.buffer, walk.at(), words[number]);
    if number + 1 < count {
        walk.step();
    }
}

/// Puts as many words as there are places at those of a spread view, in order.
fn put_all(buffers: &mut Seq<Seq<i64>>, spread: &Spread, words: &[i64], count: usize)
    requires some { 0 < count }
    requires words { count ≡ length words.now }
    requires places { count ≡ length (places spread.now) }
    ensures { buffers.new ≡ with_words buffers.old spread.now.buffer (places spread.now) words.now }
{
    let mut walk = PlaceWalk::start(spread);
    for _k in 0..count {
        put_next(buffers, &mut walk, words, count);
    }
}

/// Puts as many words as a view has elements at its places, in row-major order.
pub fn put_words(buffers: &mut Seq<Seq<i64>>, target: &View, words: &[i64])
    requires { length words.now ≡ length (places_of_view target.now) }
    ensures { buffers.new ≡ with_words buffers.old target.now.buffer (places_of_view target.now) words.now }
{
    let spread = target.as_spread();
    if !words.is_empty() {
        put_all(buffers, &spread, words, words.len());
    }
}
