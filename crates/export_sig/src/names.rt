//! Names by their text: those of reductions, and those of functions.

ghost use Rattle.std.specs.Prelude.{◌≡◌, IfOk, map, []};
ghost use Rattle.export_sig.specs.Listing.{are_apart};

use indexmap::IndexSet;
use krn_base::Join;
use py_parse::Name;
use std::alloc::{AllocError, Global};

/// Whether no name stands twice, in one pass.
pub fn are_apart(alloc: Global, pairs: &[(Join, Name)]) -> Result<bool, AllocError>
    ensures { IfOk result (λ b. b ≡ are_apart [] (map (λ p. p.1.text) pairs.now)) }
{
    let mut seen: IndexSet<&[u8]> = IndexSet::new(alloc);
    for pair in pairs {
        if !seen.insert(pair.1.text.as_slice())? {
            return Ok(false);
        }
    }
    Ok(true)
}
