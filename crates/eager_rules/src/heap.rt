// How often buffers are referred to.
ghost use Rattle.std.specs.Prelude.{◌≡◌, [], OnOk, slice_set};
ghost use Rattle.array_ops.specs.Operands.{meaning_of};
ghost use Rattle.eager_rules.specs.Holding.{count_of, counts_to, hold, hold_all, one_less, one_more, release};
ghost use Rattle.eager_rules.specs.Holding.{release_all};
ghost use Rattle.eager_rules.specs.Running.{meanings};

use crate::state::Heap;
use array_ops::Operand;
use krn_base::{NoMemory, Seq};
use std::alloc::Global;

/// Makes counts up to that of a buffer.
fn count_to(counts: &mut Seq<u32>, buffer: u32) -> Result<(), NoMemory>
    ensures { OnOk result (counts.new ≡ counts_to buffer counts.old) }
{
    let missing = (buffer as usize + 1).saturating_sub(counts.len());
    for _buffer in 0..missing {
        counts.push(0)?;
    }
    Ok(())
}

/// One value more refers to a buffer.
fn count_one(counts: &mut Seq<u32>, buffer: u32) -> Result<(), NoMemory>
    ensures { OnOk result (counts.new ≡ one_more buffer counts.old) }
{
    count_to(counts, buffer)?;
    match count_of(counts.as_slice(), buffer).checked_add(1) {
        Some(count) => {
            set_count(counts, buffer, count);
            Ok(())
        }
        None => Err(NoMemory),
    }
}

/// How many values refer to a buffer.
fn count_of(counts: &[u32], buffer: u32) -> u32
    ensures { result ≡ count_of counts.now buffer }
{
    match counts.get(buffer as usize) {
        Some(count) => *count,
        None => 0,
    }
}

/// A value is held: its buffer keeps its words until the value is given back.
pub fn hold(counts: &mut Seq<u32>, value: &Operand) -> Result<(), NoMemory>
    ensures { OnOk result (counts.new ≡ hold (meaning_of value.now) counts.old) }
{
    match value {
        Operand::Array(view) => count_one(counts, view.buffer),
        Operand::Unbound | Operand::Word(_) => Ok(()),
    }
}

/// Values are held.
pub fn hold_all(counts: &mut Seq<u32>, values: &[Operand]) -> Result<(), NoMemory>
    ensures { OnOk result (counts.new ≡ hold_all (meanings values.now) counts.old) }
{
    for value in values {
        hold(counts, value)?;
    }
    Ok(())
}

/// A buffer without its words, if there is one.
fn empty(alloc: Global, buffers: &mut Seq<Seq<i64>>, buffer: u32)
    ensures { buffers.new ≡ slice_set buffers.old buffer [] }
{
    if (buffer as usize) < buffers.len() {
        buffers.set(buffer as usize, Seq::new(alloc));
    }
}

/// Another count for a buffer that has one.
fn set_count(counts: &mut Seq<u32>, buffer: u32, count: u32)
    ensures { counts.new ≡ slice_set counts.old buffer count }
{
    if (buffer as usize) < counts.len() {
        counts.set(buffer as usize, count);
    }
}

/// One value less refers to a buffer. Where it was the last one, the buffer's words are given back.
fn count_off(alloc: Global, heap: &mut Heap, buffer: u32)
    ensures { heap.new ≡ one_less buffer (count_of heap.old.counts buffer) heap.old }
{
    let count = count_of(heap.counts.as_slice(), buffer);
    if count == 1 {
        empty(alloc, &mut heap.buffers, buffer);
        set_count(&mut heap.counts, buffer, 0);
    } else if count > 1 {
        set_count(&mut heap.counts, buffer, count - 1);
    }
}

/// A value that was held is given back.
pub fn release(alloc: Global, heap: &mut Heap, value: &Operand)
    ensures { heap.new ≡ release (meaning_of value.now) heap.old }
{
    if let Operand::Array(view) = value {
        count_off(alloc, heap, view.buffer);
    }
}

/// Values that were held are given back.
pub fn release_all(alloc: Global, heap: &mut Heap, values: &[Operand])
    ensures { heap.new ≡ release_all (meanings values.now) heap.old }
{
    for value in values {
        release(alloc, heap, value);
    }
}
