//! The rule Unassigned.

ghost use Rattle.std.specs.Prelude.{◌≡◌, IfOk, IfErr, OnOk, None};
ghost use Rattle.krn_base.specs.declared.place.Loc.{Loc};
ghost use Rattle.module_names.specs.Places.{IsOnlyYes, IsOnlyAt, soonest};
ghost use Rattle.call_chains.specs.Sets.{marked};
ghost use Rattle.use_def.specs.Flows.{all_marks, marks_where};
ghost use Rattle.use_def.specs.Unassigned as spec;

use crate::walk::in_function;
use call_chains::{own_calls, reached};
use krn_base::{Loc, Rule, Stop};
use module_names::{Words, answer_first, words_of};
use py_parse::{Function, Module};
use std::alloc::{AllocError, Global};

fn is_marked(marks: &[bool], number: usize) -> bool
    ensures { result ≡ marked marks.now number }
{
    number < marks.len() && marks[number]
}

/// The first of the reads so far of unassigned names, with those of a function that is looked at.
fn with_function(
    alloc: Global,
    words: &Words<'_>,
    function: &Function,
    looked: bool,
    first: Option<Loc>,
) -> Result<Option<Loc>, AllocError>
    ensures { IfOk result (λ least. least ≡ soonest first (marks_where words.now.tree.now looked function.now)) }
{
    if looked {
        in_function(alloc, words, function, first)
    } else {
        Ok(first)
    }
}

/// The first read of an unassigned name in the functions that are reached.
fn first_of(alloc: Global, tree: &Module, reached: &[bool]) -> Result<Option<Loc>, AllocError>
    ensures { IfOk result (λ first. first ≡ soonest None (all_marks tree.now reached.now)) }
{
    let words = words_of(alloc, tree)?;
    let functions = tree.functions.as_slice();
    let mut first = None;
    for at in 0..functions.len() {
        first = with_function(alloc, &words, &functions[at], is_marked(reached, at), first)?;
    }
    Ok(first)
}

/// Tests the rule Unassigned alone, for a module and the numbers of its exported functions in the order of the text.
///
/// A read is refused where some path through its function leaves the name unassigned, and the function is exported, or
/// an exported one reaches it by calls. An `if` has a path through each of its parts, and one past them where there is
/// no `else`, whatever its condition is; a loop may be skipped, or run any number of turns, and each binds the variable
/// anew; a `return` ends a path. The names of functions, imports and what is built in are never refused. The answer is
/// yes exactly where no read is refused; [`Stop::Refused`] by `Rule::Unassigned` at the first one in the text that is;
/// or [`Stop::Memory`].
///
/// Takes time linear in the tree, but for the maps of names.
pub fn assigned(alloc: Global, tree: &Module, exported: &[usize]) -> Result<(), Stop>
    ensures ok { OnOk result (spec.IsAccepted tree.now exported.now) }
    ensures refused { IfErr result (spec.Refuses tree.now exported.now) }
    ensures only { spec.IsAccepted tree.now exported.now → IsOnlyYes result }
    ensures place { (at : Loc) → spec.IsFirst tree.now exported.now at → IsOnlyAt Rule.Unassigned at result }
    ensures settled { OnOk result (spec.AreReadsSettled tree.now exported.now) }
{
    let rows = own_calls(alloc, tree)?;
    let marks = reached(alloc, rows.as_slice(), exported)?;
    let first = first_of(alloc, tree, marks.as_slice())?;
    answer_first(Rule::Unassigned, first)
}
