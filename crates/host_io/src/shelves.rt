ghost use Rattle.std.specs.Prelude.{◌≡◌, ◌≢◌, ℕ, ◌+◌, ◌<◌, ◌≤◌, false, List, length, take, min, position, vec_capacity};
ghost use Rattle.std.specs.Prelude.{IsTrue, IfOk, OnOk, OnErr, IsErrOf, MatchOption};
ghost use Rattle.std.specs.Str.{bytes_eq};
ghost use Rattle.host_io.specs.Files.{Missing, Bytes, stored, has_failed};
ghost use Rattle.host_io.specs.Shelves.{held_in, slot_file, shelf_file, slot_files, shelf_files};
ghost use Rattle.host_io.specs.Shelves.{rooms, room_in, can_hold};

use crate::files::LoadFault;
use crate::shelf::Shelf;
use crate::slot::Slot;
use std::alloc::{AllocError, Global};

/// The slot's file, with all the room that it may need.
fn shelve(slot: Slot) -> Result<Shelf, AllocError>
    ensures { IfOk result (λ shelf. shelf_file shelf ≡ slot_file slot) }
{
    let Slot {
        name,
        mut bytes,
        there,
        room,
    } = slot;
    let limit = bytes.len().max(room as usize);
    let spare = limit - bytes.len();
    bytes.reserve_exact(spare)?;
    Ok(Shelf {
        name,
        bytes,
        there,
        limit,
    })
}

/// The slots' files, in order.
pub fn shelve_all(alloc: Global, slots: Vec<Slot>) -> Result<Vec<Shelf>, AllocError>
    ensures { IfOk result (λ shelves. shelf_files shelves.items ≡ slot_files slots.items) }
{
    let mut shelves = Vec::new(alloc);
    for slot in slots {
        shelves.push(shelve(slot)?)?;
    }
    Ok(shelves)
}

/// The bytes of the file of this name, or none where no file is there.
pub fn file_at<'a>(shelves: &'a [Shelf], name: &str) -> Option<&'a [u8]>
    ensures { MatchOption result (held_in (shelf_files shelves.now) name.now ≡ Missing)
        (λ bytes. held_in (shelf_files shelves.now) name.now ≡ Bytes bytes.now) }
{
    for shelf in shelves {
        if shelf.name.as_slice() == name.as_bytes() {
            return if shelf.there {
                Some(shelf.bytes.as_slice())
            } else {
                None
            };
        }
    }
    None
}

/// The place of the file of this name, if there is one.
fn place_of(shelves: &[Shelf], name: &str) -> Option<usize>
    ensures { result ≡ position (λ shelf. bytes_eq shelf.name name.now) shelves.now }
{
    shelves.iter().position(|shelf| shelf.has_name(name))
}

/// Puts the bytes in place of what the file of this name holds, if it may hold so many, and says whether it may.
/// Nothing changes where it may not, or where there is no file of this name.
pub fn store_bytes(shelves: &mut [Shelf], name: &str, bytes: &[u8]) -> bool
    ensures fits { result ≡ can_hold (room_in (rooms (shelf_files shelves.old)) name.now) (length bytes.now) }
    ensures stored { IsTrue result → held_in (shelf_files shelves.new) name.now ≡ Bytes bytes.now }
    ensures replaced { IsTrue result → held_in (shelf_files shelves.new) name.now
        ≡ stored (held_in (shelf_files shelves.old) name.now) bytes.now }
    ensures others { (other : List ℕ) → other ≢ name.now →
        held_in (shelf_files shelves.new) other ≡ held_in (shelf_files shelves.old) other }
    ensures unchanged { result ≡ false → shelf_files shelves.new ≡ shelf_files shelves.old }
    ensures rooms { rooms (shelf_files shelves.new) ≡ rooms (shelf_files shelves.old) }
{
    match place_of(shelves, name) {
        Some(place) => shelves[place].fill(bytes),
        None => false,
    }
}

/// Puts these bytes alone into `into`.
fn replace(bytes: &[u8], into: &mut Vec<u8>) -> Result<(), AllocError>
    ensures ok { OnOk result (into.new.items ≡ bytes.now) }
    ensures memory { OnErr result (vec_capacity into.old < length bytes.now) }
{
    into.clear();
    into.extend_from_slice(bytes)
}

/// Puts the bytes into `into`, or the first `most + 1` of them where there are more than `most`.
pub fn load_bytes(bytes: &[u8], most: usize, into: &mut Vec<u8>) -> Result<(), LoadFault>
    ensures ok { OnOk result ((length bytes.now ≤ most) × (into.new.items ≡ bytes.now)) }
    ensures cut { IsErrOf result LoadFault.TooLong →
        (most < length bytes.now) × (into.new.items ≡ take (most + 1) bytes.now) }
    ensures told { has_failed result ≡ false }
    ensures memory { IsErrOf result LoadFault.Memory →
        vec_capacity into.old < min (length bytes.now) (most + 1) }
{
    if bytes.len() <= most {
        replace(bytes, into)?;
        Ok(())
    } else {
        replace(&bytes[..most + 1], into)?;
        Err(LoadFault::TooLong)
    }
}
