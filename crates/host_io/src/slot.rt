use krn_base::Text;

/// A file in memory, as `MemFiles::new` takes it.
#[derive(Debug, Drop)]
pub struct Slot {
    /// The file's name, as its bytes.
    pub name: Text,
    /// What the file holds, where it is there.
    pub bytes: Vec<u8>,
    /// Whether the file is there.
    pub there: bool,
    /// How many bytes the file may hold, where that is more than the length of `bytes`.
    pub room: u32,
}
