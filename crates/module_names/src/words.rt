//! The words of the language, and the names of a module.

ghost use Rattle.std.specs.Prelude.{◌≡◌, IfOk, OnOk, List, map, ◌++◌, ◌∷◌, []};
ghost use Rattle.std.specs.List.{list_any};
ghost use Rattle.std.specs.Str.{bytes_eq};
ghost use Rattle.module_names.specs.Sets.{Holds};
ghost use Rattle.module_names.specs.Words as spec;

use crate::set::{NameSet, add, is_held, no_names};
use py_parse::{Function, Import, Module, Name};
use std::alloc::{AllocError, Global};

/// The built-in names.
const BUILT_IN: [&[u8]; 7] = [b"len", b"abs", b"min", b"max", b"int", b"bool", b"range"];

/// The built-in functions that a call may name.
const CALLABLE: [&[u8]; 6] = [b"len", b"abs", b"min", b"max", b"int", b"range"];

/// The functions of `numpy`.
const FUNCTIONS: [&[u8]; 15] = [
    b"abs", b"minimum", b"maximum", b"where", b"sum", b"prod", b"min", b"max", b"any", b"all",
    b"zeros", b"ones", b"empty", b"arange", b"copy",
];

/// The methods of an array.
const METHODS: [&[u8]; 7] = [b"sum", b"prod", b"min", b"max", b"any", b"all", b"copy"];

/// The attributes of an array that aren't called.
const FIELDS: [&[u8]; 3] = [b"T", b"size", b"shape"];

/// The functions of `numpy` that make an array of a shape.
const FILLED: [&[u8]; 3] = [b"zeros", b"ones", b"empty"];

/// The kinds that are built-in names.
const OWN_KINDS: [&[u8]; 2] = [b"int", b"bool"];

/// The kinds that are attributes of `numpy`.
const NUMPY_KINDS: [&[u8]; 2] = [b"int64", b"bool_"];

fn contains(mut words: &[&[u8]], word: &[u8]) -> bool
    ensures { result ≡ list_any (bytes_eq word.now) (map (λ w. w.now) words.entry.now) }
{
    while let [first, others @ ..] = words {
        if word == *first {
            return true;
        }
        words = others;
    }
    false
}

/// Whether a name is this word.
pub fn is_word(word: &[u8], name: &Name) -> bool
    ensures { result ≡ spec.is_word word.now name.now }
{
    name.text.as_slice() == word
}

/// Whether a name is built in.
#[tactic(auto, unfolding(crate::specs::Words::built_in))]
pub fn is_built_in(name: &Name) -> bool
    ensures { result ≡ spec.is_among spec.built_in name.now }
{
    contains(&BUILT_IN, name.text.as_slice())
}

/// Whether a name is that of a built-in function that a call may name.
#[tactic(auto, unfolding(crate::specs::Words::callable))]
pub fn is_callable(name: &Name) -> bool
    ensures { result ≡ spec.is_among spec.callable name.now }
{
    contains(&CALLABLE, name.text.as_slice())
}

/// Whether `numpy` has a function of this name.
#[tactic(auto, unfolding(crate::specs::Words::functions))]
pub fn is_numpy_function(name: &Name) -> bool
    ensures { result ≡ spec.is_among spec.functions name.now }
{
    contains(&FUNCTIONS, name.text.as_slice())
}

/// Whether an array has a method of this name.
#[tactic(auto, unfolding(crate::specs::Words::methods))]
pub fn is_method(name: &Name) -> bool
    ensures { result ≡ spec.is_among spec.methods name.now }
{
    contains(&METHODS, name.text.as_slice())
}

/// Whether an array has an attribute of this name that isn't called.
#[tactic(auto, unfolding(crate::specs::Words::fields))]
pub fn is_field(name: &Name) -> bool
    ensures { result ≡ spec.is_among spec.fields name.now }
{
    contains(&FIELDS, name.text.as_slice())
}

/// Whether the function of `numpy` with this name makes an array of a shape.
#[tactic(auto, unfolding(crate::specs::Words::filled))]
pub fn is_filled(name: &Name) -> bool
    ensures { result ≡ spec.is_among spec.filled name.now }
{
    contains(&FILLED, name.text.as_slice())
}

/// Whether a name is a kind by itself.
#[tactic(auto, unfolding(crate::specs::Words::own_kinds))]
pub fn is_own_kind(name: &Name) -> bool
    ensures { result ≡ spec.is_among spec.own_kinds name.now }
{
    contains(&OWN_KINDS, name.text.as_slice())
}

/// Whether `numpy` has a kind of this name.
#[tactic(auto, unfolding(crate::specs::Words::numpy_kinds))]
pub fn is_numpy_kind(name: &Name) -> bool
    ensures { result ≡ spec.is_among spec.numpy_kinds name.now }
{
    contains(&NUMPY_KINDS, name.text.as_slice())
}

fn function_names(alloc: Global, functions: &[Function]) -> Result<NameSet<'_>, AllocError>
    ensures { IfOk result (λ names. Holds spec.is_called names functions.now) }
{
    let mut names = no_names(alloc);
    for function in functions {
        add(&mut names, function.name.text.as_slice())?;
    }
    Ok(names)
}

fn import_names(alloc: Global, imports: &[Import]) -> Result<NameSet<'_>, AllocError>
    ensures { IfOk result (λ names. Holds spec.gives names imports.now) }
{
    let mut names = no_names(alloc);
    for import in imports {
        add(&mut names, import.alias.text.as_slice())?;
    }
    Ok(names)
}

fn add_numpy<'a>(names: &mut NameSet<'a>, import: &'a Import) -> Result<(), AllocError>
    ensures { OnOk result ((before : List Import) → Holds spec.gives_numpy names.old before
        → Holds spec.gives_numpy names.new (before ++ import.now ∷ [])) }
{
    if is_word(b"numpy", &import.module) {
        add(names, import.alias.text.as_slice())?;
    }
    Ok(())
}

fn numpy_names(alloc: Global, imports: &[Import]) -> Result<NameSet<'_>, AllocError>
    ensures { IfOk result (λ names. Holds spec.gives_numpy names imports.now) }
{
    let mut names = no_names(alloc);
    for import in imports {
        add_numpy(&mut names, import)?;
    }
    Ok(names)
}

/// The names of a module, to look up.
#[derive(Drop)]
pub struct Words<'a> {
    pub tree: &'a Module,
    functions: NameSet<'a>,
    imports: NameSet<'a>,
    numpy: NameSet<'a>,
    ghost functions_are: { Holds spec.is_called functions tree.now.functions },
    ghost imports_are: { Holds spec.gives imports tree.now.imports },
    ghost numpy_are: { Holds spec.gives_numpy numpy tree.now.imports },
}

/// Gathers the names of a module.
pub fn words_of(alloc: Global, tree: &Module) -> Result<Words<'_>, AllocError>
    ensures { IfOk result (λ words. words.tree.now ≡ tree.now) }
{
    Ok(Words {
        tree,
        functions: function_names(alloc, tree.functions.as_slice())?,
        imports: import_names(alloc, tree.imports.as_slice())?,
        numpy: numpy_names(alloc, tree.imports.as_slice())?,
    })
}

/// Whether a function of the module has this name.
pub fn is_function(words: &Words<'_>, name: &Name) -> bool
    ensures { result ≡ spec.is_function words.now.tree.now name.now }
{
    is_held(&words.functions, name.text.as_slice())
}

/// Whether an import of the module gives this name.
pub fn is_import(words: &Words<'_>, name: &Name) -> bool
    ensures { result ≡ spec.is_import words.now.tree.now name.now }
{
    is_held(&words.imports, name.text.as_slice())
}

/// Whether an import of `numpy` gives this name.
pub fn is_numpy(words: &Words<'_>, name: &Name) -> bool
    ensures { result ≡ spec.is_numpy words.now.tree.now name.now }
{
    is_held(&words.numpy, name.text.as_slice())
}
