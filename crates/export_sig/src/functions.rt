//! The functions of a module by their names.

ghost use Rattle.std.specs.Prelude.{◌≡◌, IfOk, ℕ, List};
ghost use Rattle.export_sig.specs.Exports.{parameter_count};
ghost use Rattle.export_sig.specs.Counts.{HoldsCounts, count_in};

use indexmap::IndexMap;
use py_parse::Function;
use std::alloc::{AllocError, Global};

/// How many parameters the first function of each name has.
#[derive(Drop)]
pub struct ParameterCounts<'a> {
    map: IndexMap<&'a [u8], usize>,
}

/// How many parameters the first function of each name has, in one pass from the last function on.
#[tactic(auto, unfolding(crate::specs::Counts::count_in))]
pub fn count_parameters<'a>(
    alloc: Global,
    functions: &'a [Function],
) -> Result<ParameterCounts<'a>, AllocError>
    ensures { IfOk result (HoldsCounts functions.now) }
{
    let mut map = IndexMap::new(alloc);
    let mut left = functions.len();
    while left > 0 {
        left -= 1;
        let function = &functions[left];
        map.insert(
            function.name.text.as_slice(),
            function.params.as_slice().len(),
        )?;
    }
    Ok(ParameterCounts { map })
}

/// How many parameters the function of this name has, if there is one.
#[tactic(auto, unfolding(crate::specs::Counts::count_in))]
pub fn parameter_count(counts: &ParameterCounts<'_>, name: &[u8]) -> Option<usize>
    ensures { result ≡ count_in counts.now name.now }
{
    counts.map.get(&name).copied()
}
