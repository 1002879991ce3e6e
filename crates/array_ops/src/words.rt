// Words of buffers.
ghost use Rattle.std.specs.Prelude.{◌≡◌, slice_set};
ghost use Rattle.array_ops.specs.Arrays.{word_at, with_word};

use krn_base::Seq;

/// The word at a place of a buffer; 0 where there is none.
pub fn word_at(buffers: &[Seq<i64>], buffer: u32, place: u32) -> i64
    ensures { result ≡ word_at buffers.now buffer place }
{
    match buffers.get(buffer as usize) {
        Some(words) => words.as_slice().get(place as usize).copied().unwrap_or(0),
        None => 0,
    }
}

/// Puts a word at a place of a buffer; where there is no such place nothing changes.
pub fn set_word(buffers: &mut Seq<Seq<i64>>, buffer: u32, place: u32, word: i64)
    ensures { buffers.new ≡ with_word buffers.old buffer place word }
{
    if let Some(words) = buffers.get_mut(buffer as usize) {
        set_item(words, place as usize, word);
    }
}

/// Puts a word at a place of a list, if it has that place.
fn set_item(words: &mut Seq<i64>, place: usize, word: i64)
    ensures { words.new ≡ slice_set words.old place word }
{
    if place < words.len() {
        words.as_mut_slice()[place] = word;
    }
}
