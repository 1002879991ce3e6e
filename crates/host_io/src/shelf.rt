ghost use Rattle.std.specs.Prelude.{◌≡◌, ◌≤◌, true, length, nat_le, vec_len, vec_capacity, if◌then◌else◌};
ghost use Rattle.std.specs.Str.{bytes_eq};

use krn_base::Text;

/// A file in memory with room for `limit` bytes, which was taken when the shelf was made.
#[derive(Debug, Drop)]
pub struct Shelf {
    pub name: Text,
    pub bytes: Vec<u8>,
    pub there: bool,
    pub limit: usize,
    ghost within: { vec_len bytes ≤ limit },
    ghost has_room: { limit ≤ vec_capacity bytes },
}

impl Shelf {
    /// Whether the file has this name.
    pub fn has_name(&self, name: &str) -> bool
        ensures { result ≡ bytes_eq self.now.name name.now }
    {
        self.name.as_slice() == name.as_bytes()
    }

    /// Puts the bytes in place of what the file holds, if it may hold so many, and says whether it may.
    pub fn fill(&mut self, bytes: &[u8]) -> bool
        ensures fits { result ≡ nat_le (length bytes.now) self.old.limit }
        ensures bytes { self.new.bytes.items ≡ (if result then bytes.now else self.old.bytes.items) }
        ensures there { self.new.there ≡ (if result then true else self.old.there) }
        ensures name { self.new.name ≡ self.old.name }
        ensures limit { self.new.limit ≡ self.old.limit }
    {
        if bytes.len() > self.limit {
            return false;
        }
        self.bytes.clear();
        self.bytes.extend_from_slice(bytes).unwrap();
        self.there = true;
        true
    }
}
