// Names with their numbers.
ghost use Rattle.std.specs.Prelude.{◌≡◌, ◌++◌, ◌∷◌, [], OnOk, List, ℕ};
ghost use Rattle.array_types.specs.Find.{find, Held};

use indexmap::IndexMap;
use krn_base::{Seq, Text};
use std::alloc::{AllocError, Global};
use std::marker::Model;

/// Numbers of texts in the order in which they were added; the first number of a text counts. A number is found in
/// constant time.
#[derive(Drop)]
pub struct Known {
    list: Vec<(Text, u32)>,
    index: IndexMap<Vec<u8>, u32>,
}

impl Model for Known {
    ghost use Rattle.std.specs.Prelude.{List, ℕ};
    ghost use Rattle.std.specs.Coded.{coded_list, coded×, coded_ℕ};
    ghost use Rattle.array_types.specs.Find.{Held};

    ghost Value = { List (List ℕ × ℕ) };

    ghost coded = { coded_list (coded× (coded_list coded_ℕ) coded_ℕ) };

    ghost view = { λ a. a.list.items };

    ghost invariant = { λ a. Held a.index a.list.items };
}

fn add_to(
    list: &mut Vec<(Text, u32)>,
    index: &mut IndexMap<Vec<u8>, u32>,
    text: Text,
    n: u32,
) -> Result<(), AllocError>
    requires { Held index.now list.now.items }
    ensures added { OnOk result (list.new.items ≡ list.old.items ++ (text, n) ∷ []) }
    ensures held { Held index.new list.new.items }
{
    let key = text.try_copy()?.into_vec();
    let count = list.len();
    let is_there = index.contains_key(text.as_slice());
    list.push((text, n))?;
    if is_there {
        return Ok(());
    }
    match index.insert(key, n) {
        Ok(_) => Ok(()),
        Err(_) => {
            list.truncate(count);
            Err(AllocError)
        }
    }
}

impl Known {
    /// No names. Takes no memory.
    pub fn new(alloc: Global) -> Known
        ensures { result ≡ [] }
    {
        Known {
            list: Vec::new(alloc),
            index: IndexMap::new(alloc),
        }
    }

    /// The number of a text, if it has one.
    pub fn get(&self, text: &[u8]) -> Option<u32>
        ensures { result ≡ find text.now self.now }
    {
        self.index.get(text).copied()
    }

    /// The texts with their numbers, in the order in which they were added.
    pub fn entries(&self) -> &[(Text, u32)]
        ensures { result.now ≡ self.now }
    {
        self.list.as_slice()
    }

    /// Adds a number for a text.
    pub fn add(&mut self, text: Text, n: u32) -> Result<(), AllocError>
        ensures { OnOk result (self.new ≡ self.old ++ (text, n) ∷ []) }
    {
        add_to(&mut self.list, &mut self.index, text, n)
    }
}
