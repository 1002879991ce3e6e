//! Sets of names: those that each path so far has bound, and those that the parts of an `if` have in common.

ghost use Rattle.std.specs.Prelude.{◌≡◌, IfOk, OnOk, List, map};
ghost use Rattle.use_def.specs.Flows.{nothing, everything, both, with_text};
ghost use Rattle.use_def.specs.Sets as spec;

use indexmap::IndexMap;
use std::alloc::{AllocError, Global};
use std::mem;

/// The names that each path so far has bound.
#[derive(Drop)]
pub struct Names<'a> {
    /// Whether each name that was met is bound.
    marks: IndexMap<&'a [u8], bool>,
    /// The names that were bound since the block began.
    fresh: Vec<&'a [u8]>,
    /// Whether no path comes here.
    ended: bool,
}

/// What a block puts aside until its end: the names that were bound in the block around it, and whether no path comes
/// to it.
#[derive(Drop)]
pub struct Outer<'a> {
    fresh: Vec<&'a [u8]>,
    ended: bool,
}

/// The names that each part of an `if` so far has bound and that weren't bound before; none are known as long as no
/// path comes to the end of a part.
#[derive(Drop)]
pub struct Common<'a> {
    texts: Option<Vec<&'a [u8]>>,
}

/// No names, where a function begins. Takes no memory.
pub fn no_names<'a>(alloc: Global) -> Names<'a>
    ensures { spec.assigned result ≡ nothing }
{
    Names {
        marks: IndexMap::new(alloc),
        fresh: Vec::new(alloc),
        ended: false,
    }
}

fn is_marked(names: &Names<'_>, text: &[u8]) -> bool
    ensures { result ≡ spec.marked names.now text.now }
{
    names.marks.get(&text).copied().unwrap_or(false)
}

/// Whether each path so far has bound a name.
pub fn is_bound(names: &Names<'_>, text: &[u8]) -> bool
    ensures { result ≡ spec.assigned names.now text.now }
{
    names.ended || is_marked(names, text)
}

fn set_mark<'a>(names: &mut Names<'a>, text: &'a [u8], value: bool) -> Result<(), AllocError>
    ensures marks { OnOk result (spec.marked names.new ≡ spec.changed text.now value (spec.marked names.old)) }
    ensures fresh { OnOk result (names.new.fresh.items ≡ names.old.fresh.items) }
    ensures ended { OnOk result (names.new.ended ≡ names.old.ended) }
{
    names.marks.insert(text, value)?;
    Ok(())
}

/// Binds a name.
pub fn bind<'a>(names: &mut Names<'a>, text: &'a [u8]) -> Result<(), AllocError>
    ensures assigned { OnOk result (spec.assigned names.new ≡ with_text text.now (spec.assigned names.old)) }
    ensures outside { OnOk result (spec.outside names.new ≡ spec.outside names.old) }
{
    if !is_bound(names, text) {
        set_mark(names, text, true)?;
        names.fresh.push(text)?;
    }
    Ok(())
}

/// Ends each path that comes here.
pub fn end_paths(names: &mut Names<'_>)
    ensures assigned { spec.assigned names.new ≡ everything }
    ensures outside { spec.outside names.new ≡ spec.outside names.old }
{
    names.ended = true;
}

/// Begins a block, and gives what [`end_block`] needs.
pub fn begin_block<'a>(alloc: Global, names: &mut Names<'a>) -> Outer<'a>
    ensures fresh { result.fresh.items ≡ names.old.fresh.items }
    ensures ended { result.ended ≡ names.old.ended }
    ensures assigned { spec.assigned names.new ≡ spec.assigned names.old }
    ensures outside { spec.outside names.new ≡ spec.marked names.old }
{
    Outer {
        fresh: mem::replace(&mut names.fresh, Vec::new(alloc)),
        ended: names.ended,
    }
}

fn unmark<'a>(names: &mut Names<'a>, texts: &[&'a [u8]]) -> Result<(), AllocError>
    ensures marks { OnOk result (spec.marked names.new ≡ spec.without (map (λ t. t.now) texts.now)
        (spec.marked names.old)) }
    ensures fresh { OnOk result (names.new.fresh.items ≡ names.old.fresh.items) }
    ensures ended { OnOk result (names.new.ended ≡ names.old.ended) }
{
    for text in texts {
        set_mark(names, *text, false)?;
    }
    Ok(())
}

/// Ends a block, and takes back what was bound in it.
pub fn end_block<'a>(names: &mut Names<'a>, outer: Outer<'a>) -> Result<(), AllocError>
    ensures marks { OnOk result (spec.marked names.new ≡ spec.outside names.old) }
    ensures fresh { OnOk result (names.new.fresh.items ≡ outer.entry.fresh.items) }
    ensures ended { OnOk result (names.new.ended ≡ outer.entry.ended) }
{
    names.ended = outer.ended;
    let fresh = mem::replace(&mut names.fresh, outer.fresh);
    unmark(names, fresh.as_slice())
}

/// What no parts have in common: everything.
pub fn no_parts<'a>() -> Common<'a>
    ensures { spec.common_texts result ≡ None }
{
    Common { texts: None }
}

/// Adds a text, where it is marked.
fn push_marked<'a>(
    names: &Names<'a>,
    text: &'a [u8],
    out: &mut Vec<&'a [u8]>,
) -> Result<(), AllocError>
    ensures { OnOk result (spec.is_one_of (map (λ t. t.now) out.new.items) ≡ spec.with_one text.now
        (spec.marked names.now text.now) (spec.is_one_of (map (λ t. t.now) out.old.items))) }
{
    if is_marked(names, text) {
        out.push(text)?;
    }
    Ok(())
}

/// Those of these texts that are marked.
fn marked_of<'a>(
    alloc: Global,
    names: &Names<'a>,
    texts: &[&'a [u8]],
) -> Result<Vec<&'a [u8]>, AllocError>
    ensures { IfOk result (λ kept. spec.is_one_of (map (λ t. t.now) kept.items)
        ≡ both (spec.is_one_of (map (λ t. t.now) texts.now)) (spec.marked names.now)) }
{
    let mut kept = Vec::new(alloc);
    for text in texts {
        push_marked(names, *text, &mut kept)?;
    }
    Ok(kept)
}

/// What parts have in common with one more.
fn kept<'a>(
    alloc: Global,
    names: &Names<'a>,
    common: &Common<'a>,
) -> Result<Vec<&'a [u8]>, AllocError>
    ensures { IfOk result (λ texts. spec.with_texts (map (λ t. t.now) texts.items) (spec.outside names.now)
        ≡ both (spec.common_set (spec.outside names.now) common.now) (spec.marked names.now)) }
{
    match &common.texts {
        None => marked_of(alloc, names, names.fresh.as_slice()),
        Some(texts) => marked_of(alloc, names, texts.as_slice()),
    }
}

/// Adds a part that ends here.
pub fn meet<'a>(alloc: Global, names: &Names<'a>, common: &mut Common<'a>) -> Result<(), AllocError>
    ensures { OnOk result (spec.common_set (spec.outside names.now) common.new
        ≡ both (spec.common_set (spec.outside names.now) common.old) (spec.assigned names.now)) }
{
    if !names.ended {
        common.texts = Some(kept(alloc, names, common)?);
    }
    Ok(())
}

fn bind_all<'a>(names: &mut Names<'a>, texts: &[&'a [u8]]) -> Result<(), AllocError>
    ensures assigned { OnOk result (spec.assigned names.new ≡ spec.with_texts (map (λ t. t.now) texts.now)
        (spec.assigned names.old)) }
    ensures outside { OnOk result (spec.outside names.new ≡ spec.outside names.old) }
{
    for text in texts {
        bind(names, *text)?;
    }
    Ok(())
}

/// Goes on behind parts, with what they have in common.
pub fn join<'a>(names: &mut Names<'a>, common: &Common<'a>) -> Result<(), AllocError>
    ensures assigned { OnOk result (spec.assigned names.new ≡ spec.common_set (spec.marked names.old) common.now) }
    ensures outside { OnOk result (spec.outside names.new ≡ spec.outside names.old) }
{
    match &common.texts {
        None => {
            end_paths(names);
            Ok(())
        }
        Some(texts) => {
            names.ended = false;
            bind_all(names, texts.as_slice())
        }
    }
}
