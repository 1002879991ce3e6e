//! Directives by the places of their targets.

ghost use Rattle.std.specs.Prelude.{◌≡◌, IfOk};
ghost use Rattle.module_terms.specs.Targets.{Finds, number_from};

use export_sig::Directive;
use indexmap::IndexMap;
use krn_base::Loc;
use std::alloc::{AllocError, Global};

/// Numbers of directives by line and column of their targets.
type Index = IndexMap<(u32, u32), usize>;

/// The directives of a module. The one of a loop is found in constant time.
#[derive(Drop)]
pub struct Targets<'a> {
    pub directives: &'a [Directive],
    index: Index,
    ghost held: { Finds index 0 directives.now },
}

/// The directives by their targets. Of two with one target the first one counts, so it is put in last.
fn index_of(alloc: Global, directives: &[Directive]) -> Result<Index, AllocError>
    ensures { IfOk result (λ index. Finds index 0 directives.now) }
{
    let mut index = IndexMap::new(alloc);
    for behind in 0..directives.len() {
        let n = directives.len() - 1 - behind;
        let target = directives[n].target;
        index.insert((target.line, target.col), n)?;
    }
    Ok(index)
}

/// Gathers the targets of these directives.
pub fn targets_of(alloc: Global, directives: &[Directive]) -> Result<Targets<'_>, AllocError>
    ensures { IfOk result (λ targets. targets.directives.now ≡ directives.now) }
{
    let index = index_of(alloc, directives)?;
    Ok(Targets { directives, index })
}

/// The number of the first directive whose target is this place.
pub fn number_at(targets: &Targets<'_>, at: Loc) -> Option<usize>
    ensures { result ≡ number_from 0 at targets.now.directives.now }
{
    targets.index.get(&(at.line, at.col)).copied()
}
