//! Nests: in place or through a temporary.
ghost use Rattle.std.specs.Prelude.{◌≡◌, ◌<◌, ◌≤◌, ℕ, IfOk, None, OnErr, OnOk, false, length, slice_index_or, true};
ghost use Rattle.std.specs.List.{flat_map, list_all, list_any};
ghost use Rattle.array_ops.specs.Arrays.{array_of};
ghost use Rattle.array_ops.specs.Elements.{extents_of, spreads_to};
ghost use Rattle.eager_rules.specs.Works.{array_in};
ghost use Rattle.eager_rules.specs.declared.outcome.Counts.{Counts as AnyCounts};
ghost use Rattle.view_places.specs.View.{extents};
ghost use Rattle.loop_prog.specs.Conditions.{small_step};
ghost use Rattle.loop_prog.specs.State.{view};
ghost use Rattle.loop_prog.specs.Templates.{clashes, leaf_values, nested};
ghost use Rattle.loop_prog.specs.Templates.{some_clash as some_clash_of, spread_leaf};
ghost use Rattle.loop_prog.specs.Works.{nest as nest_of};
ghost use Rattle.loop_prog.specs.declared.program.TemplateStep.TheVariants as step;
ghost use Rattle.loop_exec.specs.Banks.{state_of, views_bound};
ghost use Rattle.loop_exec.specs.Elements.{IsReady, each_of};
ghost use Rattle.loop_exec.specs.Nests.{behind, nested_by};
ghost use Rattle.loop_exec.specs.Numbered.{leaves_clash, leaves_spread};
ghost use Rattle.loop_prog.specs.Serial.{no_counts};
ghost use Rattle.krn_base.specs.declared.place.Loc.{Loc};
ghost use Rattle.loop_exec.specs.Leaves.{HasExtent, HasExtents, places_of, read_by};

use crate::bank::Bank;
use crate::element::Element;
use crate::element_calls::spread_step;
use crate::leaf::Leaf;
use crate::nested::Nested;
use crate::registers::array;
use crate::walks::{make_each, store_each};
use array_ops::put_words;
use krn_base::{NoMemory, Seq};
use loop_prog::TemplateStep;
use overlap::{Verdict, verdict};
use std::alloc::Global;
use view_places::View;

/// Puts what each step reads, spread to the shape of a view, into `leaves`. Whether all of it spreads.
pub fn spread_leaves(
    steps: &[TemplateStep],
    views: &[Option<View>],
    frame: &View,
    leaves: &mut [Option<Leaf>; 64],
) -> bool
    requires few { length steps.now ≤ 64 }
    ensures fits { result ≡ list_all (λ from. spreads_to from (extents frame.now))
        (flat_map extents_of (leaf_values (views_bound views.now) steps.now)) }
    ensures spread { result ≡ true → (i : ℕ) → i < length steps.now →
        places_of (slice_index_or leaves.new i None) ≡
        spread_leaf (extents frame.now) (read_by (views_bound views.now) (slice_index_or steps.now i step.Select)) }
    ensures extent { result ≡ true → (i : ℕ) → i < length steps.now →
        HasExtent frame.now.extent (slice_index_or leaves.new i None) }
    ensures same_extents { result ≡ true → (i : ℕ) → i < length steps.now →
        HasExtents (extents frame.now) (slice_index_or leaves.new i None) }
{
    let shape = frame.shape();
    for i in 0..steps.len() {
        match spread_step(steps[i], views, &shape) {
            Some(leaf) => leaves[i] = leaf,
            None => return false,
        }
    }
    true
}

/// Whether the verdict on a leaf, if there is one, is `Clash`.
fn is_clash(frame: &View, leaf: &Option<Leaf>) -> bool
    requires { HasExtents (extents frame.now) leaf.now }
    ensures { result ≡ list_any (clashes (array_of frame.now)) (places_of leaf.now) }
{
    match leaf {
        Some(leaf) => match verdict(frame, &leaf.spread) {
            Verdict::Clash => true,
            Verdict::Apart | Verdict::Same | Verdict::Ahead => false,
        },
        None => false,
    }
}

/// Whether the verdict on some leaf is `Clash`.
pub fn some_clash(e: &Element<'_>) -> bool
    requires { IsReady e.now }
    ensures { result ≡ some_clash_of (array_of e.now.frame.now) (leaf_values (views_bound e.now.views.now)
        e.now.steps.now) }
{
    for i in 0..e.steps.len() {
        if is_clash(e.frame, &e.leaves[i]) {
            return true;
        }
    }
    false
}

/// All elements made first, then stored.
fn store_made(alloc: Global, e: &Element<'_>, buffers: &mut Seq<Seq<i64>>) -> Result<(), NoMemory>
    requires { IsReady e.now }
    ensures stored { OnOk result (buffers.new ≡ nested true (each_of e.now) (array_of e.now.frame.now) buffers.old) }
    ensures unchanged { OnErr result (buffers.new ≡ buffers.old) }
{
    let words = make_each(alloc, e, buffers.as_slice())?;
    put_words(buffers, e.frame, words.as_slice());
    Ok(())
}

/// Stores the elements of a nest: through a temporary exactly where some verdict is `Clash`, which it tells.
fn store(alloc: Global, e: &Element<'_>, buffers: &mut Seq<Seq<i64>>) -> Result<bool, NoMemory>
    requires { IsReady e.now }
    ensures clash { IfOk result (λ used. used ≡ some_clash_of (array_of e.now.frame.now)
        (leaf_values (views_bound e.now.views.now) e.now.steps.now)) }
    ensures stored { IfOk result (λ used. buffers.new ≡
        nested used (each_of e.now) (array_of e.now.frame.now) buffers.old) }
    ensures unchanged { OnErr result (buffers.new ≡ buffers.old) }
{
    if some_clash(e) {
        store_made(alloc, e, buffers)?;
        return Ok(true);
    }
    store_each(e, buffers);
    Ok(false)
}

/// A nest of a template into a view register.
pub fn nest(
    alloc: Global,
    to: u32,
    steps: &[TemplateStep],
    bank: &mut Bank,
) -> Result<Nested, NoMemory>
    requires few { length steps.now ≤ 64 }
    requires small { list_all small_step steps.now ≡ true }
    ensures meaning { IfOk result (λ n. (at : Loc) (counts : AnyCounts) → behind n at counts bank.new ≡
        nest_of (array_in (view (state_of counts bank.old) to)) steps.now at (state_of counts bank.old)) }
    ensures told { IfOk result (λ n. n ≡ nested_by (leaves_spread to steps.now (state_of no_counts bank.old))
        (leaves_clash to steps.now (state_of no_counts bank.old))) }
    ensures given { bank.new.given ≡ bank.old.given }
    ensures unchanged { OnErr result (bank.new ≡ bank.old) }
{
    let frame = array(bank.views.as_slice(), to);
    let mut leaves = [None; 64];
    if !spread_leaves(steps, bank.views.as_slice(), &frame, &mut leaves) {
        return Ok(Nested::Unfit);
    }
    let e = Element {
        steps,
        words: bank.words.as_slice(),
        views: bank.views.as_slice(),
        frame: &frame,
        leaves: &leaves,
    };
    if store(alloc, &e, &mut bank.buffers)? {
        Ok(Nested::Temporary)
    } else {
        Ok(Nested::Direct)
    }
}

/// The same without a verdict, where none is `Clash` and the leaves spread. Takes no memory.
pub fn nest_direct(to: u32, steps: &[TemplateStep], bank: &mut Bank)
    requires few { length steps.now ≤ 64 }
    requires small { list_all small_step steps.now ≡ true }
    requires spread { leaves_spread to steps.now (state_of no_counts bank.old) ≡ true }
    requires clear { leaves_clash to steps.now (state_of no_counts bank.old) ≡ false }
    ensures meaning { (at : Loc) (counts : AnyCounts) → behind Nested.Direct at counts bank.new ≡
        nest_of (array_in (view (state_of counts bank.old) to)) steps.now at (state_of counts bank.old) }
    ensures given { bank.new.given ≡ bank.old.given }
{
    let frame = array(bank.views.as_slice(), to);
    let mut leaves = [None; 64];
    spread_leaves(steps, bank.views.as_slice(), &frame, &mut leaves);
    let e = Element {
        steps,
        words: bank.words.as_slice(),
        views: bank.views.as_slice(),
        frame: &frame,
        leaves: &leaves,
    };
    store_each(&e, &mut bank.buffers);
}
