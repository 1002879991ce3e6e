//! Test 7: the array files, in word order.
ghost use Rattle.std.specs.Prelude.{◌≡◌, ◌<◌, ◌≤◌, ◌^◌, IfOk, IfSome, IsErrOf, List, ℕ, length};
ghost use Rattle.std.specs.List.{All};
ghost use Rattle.std.specs.Str.{IsUtf8};
ghost use Rattle.host_io.specs.Counts.{Rose};
ghost use Rattle.call_binding.specs.Files.{IsReading, IsRead, IsTooLong};
ghost use Rattle.call_binding.specs.Filling.{FillsItem, Fills};
ghost use Rattle.call_binding.specs.Sound.{IsArray, IsSound};

use crate::head::BindStop;
use crate::items::Item;
use host_io::{Files, LoadFault};
use krn_base::{Seq, Text};
use np_file::{NpyFault, file_laws, read_npy};
use std::alloc::{AllocError, Global};
use std::str;
use view_places::Array;

/// An array file has at most so many bytes.
const ARRAY_LIMIT: usize = 34_000_000;

/// UTF-8 as text.
pub fn as_text(bytes: &[u8]) -> &str
    requires { IsUtf8 bytes.now }
    ensures { result.now ≡ bytes.now }
{
    match str::from_utf8(bytes) {
        Ok(text) => text,
        Err(_) => unreachable!(),
    }
}

/// The array whose file these bytes are, or None where they are none.
fn read_bytes(alloc: Global, bytes: &[u8]) -> Result<Option<Array>, AllocError>
    ensures reading { IfOk result (IsReading bytes.now) }
    ensures array { IfOk result (λ read. IfSome read IsArray) }
{
    file_laws();
    match read_npy(alloc, bytes) {
        Ok(array) => Ok(Some(array)),
        Err(NpyFault::Memory) => Err(AllocError),
        Err(_) => Ok(None),
    }
}

/// The array of a file, or None where its bytes are none.
fn load_array<F: Files>(
    alloc: Global,
    files: &mut F,
    path: &str,
) -> Result<Option<Array>, LoadFault>
    ensures count { F.faults files.old ≤ F.faults files.new }
    ensures kept { (other : List ℕ) → F.held files.new other ≡ F.held files.old other }
    ensures read { IfOk result (IsRead (F.held files.old path.now)) }
    ensures array { IfOk result (λ read. IfSome read IsArray) }
    ensures failed { IsErrOf result LoadFault.Failed → Rose (F.faults files.old) (F.faults files.new) }
    ensures long { IsErrOf result LoadFault.TooLong → IsTooLong (F.held files.old path.now) }
{
    let mut bytes = Vec::new(alloc);
    match files.load(path, ARRAY_LIMIT, &mut bytes) {
        Ok(()) => Ok(read_bytes(alloc, bytes.as_slice())?),
        Err(fault) => Err(fault),
    }
}

/// The buffer of a loaded file, where the file with this number among the items is one.
fn fill_file<F: Files>(
    alloc: Global,
    files: &mut F,
    number: u32,
    name: &Text,
    path: &Text,
) -> Result<Item, BindStop>
    requires { IsUtf8 path.now }
    ensures count { F.faults files.old ≤ F.faults files.new }
    ensures kept { (other : List ℕ) → F.held files.new other ≡ F.held files.old other }
    ensures fills { FillsItem (F.held files.old path.now) (F.faults files.old) (F.faults files.new) number name.now
        result }
{
    match load_array(alloc, files, as_text(path.as_slice())) {
        Ok(Some(array)) => {
            let name = Seq::from_vec(Vec::from_slice(alloc, name.as_slice())?);
            Ok(Item::Buffer { name, array })
        }
        Ok(None) => Err(BindStop::Item(number)),
        Err(LoadFault::Failed) => Err(BindStop::LoadFailed),
        Err(LoadFault::TooLong) => Err(BindStop::TooLong),
        Err(LoadFault::Memory) => Err(BindStop::Memory),
    }
}

/// The items with arrays in place of files, each of which is loaded in word order and refused before the next one is
/// loaded. The
/// bytes of one file at a time are held beside the arrays.
pub fn fill<F: Files>(alloc: Global, files: &mut F, items: Seq<Item>) -> Result<Seq<Item>, BindStop>
    requires few { length items < 2 ^ 32 }
    requires sound { All IsSound items }
    ensures count { F.faults files.old ≤ F.faults files.new }
    ensures kept { (other : List ℕ) → F.held files.new other ≡ F.held files.old other }
    ensures fills { Fills (F.held files.old) (F.faults files.old) (F.faults files.new) items result }
    ensures few { IfOk result (λ full. length full ≡ length items) }
    ensures sound { IfOk result (λ full. All IsSound full) }
{
    let mut full = items.into_vec();
    for at in 0..full.len() {
        let buffer = match &full[at] {
            Item::Loaded { name, path } => fill_file(alloc, files, at as u32 + 1, name, path)?,
            _ => continue,
        };
        full[at] = buffer;
    }
    Ok(Seq::from_vec(full))
}
