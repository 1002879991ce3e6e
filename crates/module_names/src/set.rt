//! Sets of names.

ghost use Rattle.std.specs.Prelude.{◌≡◌, ◌||◌, IfOk, OnOk, false, List, ℕ};
ghost use Rattle.std.specs.Str.{bytes_eq};
ghost use Rattle.module_names.specs.Sets.{holds};

use indexmap::IndexMap;
use std::alloc::{AllocError, Global};

/// Names that were met, each a text of the module.
#[derive(Drop)]
pub struct NameSet<'a> {
    map: IndexMap<&'a [u8], ()>,
}

/// No names. Takes no memory.
pub fn no_names<'a>(alloc: Global) -> NameSet<'a>
    ensures { (text : List ℕ) → holds result text ≡ false }
{
    NameSet {
        map: IndexMap::new(alloc),
    }
}

/// Whether a name is among those.
pub fn is_held(set: &NameSet<'_>, text: &[u8]) -> bool
    ensures { result ≡ holds set.now text.now }
{
    set.map.contains_key(&text)
}

/// Adds a name, and answers whether it was there.
pub fn add<'a>(set: &mut NameSet<'a>, text: &'a [u8]) -> Result<bool, AllocError>
    ensures answer { IfOk result (λ met. met ≡ holds set.old text.now) }
    ensures others { OnOk result ((other : List ℕ) → holds set.new other ≡ (holds set.old other
        || bytes_eq text.now other)) }
{
    Ok(set.map.insert(text, ())?.is_some())
}
