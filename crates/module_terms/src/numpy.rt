//! The names under which a module has `numpy`.

ghost use Rattle.std.specs.Prelude.{◌≡◌, ◌||◌, ◌++◌, ◌∷◌, [], IfOk, OnOk, List, ℕ, false};
ghost use Rattle.std.specs.Str.{bytes_eq};
ghost use Rattle.py_parse.specs.declared.tree.Import.{Import};
ghost use Rattle.module_terms.specs.Numpy.{holds, Holds, is_numpy};

use crate::rows::is_word;
use indexmap::IndexMap;
use py_parse::{Import, Name};
use std::alloc::{AllocError, Global};

/// Names, each a text of the module.
#[derive(Drop)]
struct NameSet<'a> {
    map: IndexMap<&'a [u8], ()>,
}

fn no_names<'a>(alloc: Global) -> NameSet<'a>
    ensures { (text : List ℕ) → holds result text ≡ false }
{
    NameSet {
        map: IndexMap::new(alloc),
    }
}

fn is_held(set: &NameSet<'_>, text: &[u8]) -> bool
    ensures { result ≡ holds set.now text.now }
{
    set.map.contains_key(&text)
}

fn add<'a>(set: &mut NameSet<'a>, text: &'a [u8]) -> Result<(), AllocError>
    ensures { OnOk result ((other : List ℕ) → holds set.new other ≡ (holds set.old other
        || bytes_eq text.now other)) }
{
    set.map.insert(text, ())?;
    Ok(())
}

fn add_import<'a>(names: &mut NameSet<'a>, import: &'a Import) -> Result<(), AllocError>
    ensures { OnOk result ((before : List Import) → Holds names.old before
        → Holds names.new (before ++ import.now ∷ [])) }
{
    if is_word(b"numpy", &import.module) {
        add(names, import.alias.text.as_slice())?;
    }
    Ok(())
}

fn numpy_names(alloc: Global, imports: &[Import]) -> Result<NameSet<'_>, AllocError>
    ensures { IfOk result (λ names. Holds names imports.now) }
{
    let mut names = no_names(alloc);
    for import in imports {
        add_import(&mut names, import)?;
    }
    Ok(names)
}

/// The imports of a module, with the names that they give `numpy`.
#[derive(Drop)]
pub struct Numpy<'a> {
    pub alloc: Global,
    pub imports: &'a [Import],
    names: NameSet<'a>,
    ghost held: { Holds names imports.now },
}

/// Gathers the names that these imports give `numpy`.
pub fn numpy_of(alloc: Global, imports: &[Import]) -> Result<Numpy<'_>, AllocError>
    ensures { IfOk result (λ numpy. numpy.imports.now ≡ imports.now) }
{
    let names = numpy_names(alloc, imports)?;
    Ok(Numpy {
        alloc,
        imports,
        names,
    })
}

/// Whether a name is one of those of `numpy`.
pub fn is_numpy(numpy: &Numpy<'_>, name: &Name) -> bool
    ensures { result ≡ is_numpy numpy.now.imports.now name.now }
{
    is_held(&numpy.names, name.text.as_slice())
}
