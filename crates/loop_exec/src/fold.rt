//! Folds: the join of all elements of a template.
ghost use Rattle.std.specs.Prelude.{◌≡◌, ◌≤◌, ℕ, IfOk, IsTrue, length, pos, slice_index_or, true};
ghost use Rattle.std.specs.List.{flat_map, list_all};
ghost use Rattle.array_ops.specs.Elements.{extents_of, joined, spreads_to};
ghost use Rattle.krn_base.specs.declared.kind.Kind.TheVariants.{Int64};
ghost use Rattle.view_places.specs.Arrays.{is_small};
ghost use Rattle.view_places.specs.Shape.{IsShape, extents};
ghost use Rattle.loop_exec.specs.Banks.{views_bound, words_bound};
ghost use Rattle.loop_exec.specs.Running.{end_of, reached};
ghost use Rattle.loop_prog.specs.Conditions.{steps_fit};
ghost use Rattle.loop_prog.specs.Serial.{kind_of};
ghost use Rattle.loop_prog.specs.State.{count_nest, one_more};
ghost use Rattle.loop_prog.specs.Templates.{elements, leaf_values};
ghost use Rattle.loop_prog.specs.Works.{as_kind, fold_to};

use crate::element::Element;
use crate::nest::spread_leaves;
use crate::registers::bind_word;
use crate::running::{Ending, Running};
use crate::shapes::shape_of_leaves;
use crate::walks::join_each;
use eager_rules::Counts;
use krn_base::{Join, Kind, Loc, NoMemory, Seq};
use loop_prog::TemplateStep;
use view_places::{Shape, View};

/// The join of all elements of a shape to which the leaves spread.
fn join_elements(
    op: Join,
    steps: &[TemplateStep],
    words: &[Option<i64>],
    views: &[Option<View>],
    shape: &Shape,
    buffers: &[Seq<i64>],
) -> i64
    requires fit { steps_fit steps.now ≡ true }
    requires shape { IsShape shape.now }
    requires small { IsTrue (is_small (extents shape.now)) }
    requires spread { list_all (λ from. spreads_to from (extents shape.now))
        (flat_map extents_of (leaf_values (views_bound views.now) steps.now)) ≡ true }
    ensures { result ≡ joined op (elements (words_bound words.now) (views_bound views.now) steps.now
        (extents shape.now) buffers.now) }
{
    let frame = View::whole(0, shape);
    let mut leaves = [None; 64];
    spread_leaves(steps, views, &frame, &mut leaves);
    let e = Element {
        steps,
        words,
        views,
        frame: &frame,
        leaves: &leaves,
    };
    frame.places_are_distinct();
    join_each(op, &e, buffers)
}

/// What a register of a kind gets of a join.
fn as_kind(kind: Kind, z: i64) -> i64
    ensures { result ≡ as_kind kind z }
{
    match kind {
        Kind::Int64 => z,
        Kind::Bool => if z == 0 { 0 } else { 1 },
    }
}

/// The kind of a scalar register.
pub fn kind_of(kinds: &[Kind], r: u32) -> Kind
    ensures { result ≡ kind_of kinds.now r }
{
    match kinds.get(r as usize) {
        Some(kind) => *kind,
        None => Kind::Int64,
    }
}

/// One more; a count stays at 2^64 - 1 once it is there.
fn one_more(count: u64) -> u64
    ensures { result ≡ one_more count }
{
    count.saturating_add(1)
}

/// Counts a nest or a fold that ran to its end.
pub fn count_nest(used: bool, counts: &mut Counts)
    ensures { counts.new ≡ count_nest used counts.old }
{
    counts.nests = one_more(counts.nests);
    if used {
        counts.temps = one_more(counts.temps);
    }
}

/// A fold of a template into a scalar register of a kind.
pub fn fold(
    to: u32,
    kind: Kind,
    op: Join,
    steps: &[TemplateStep],
    at: Loc,
    run: &mut Running,
) -> Result<Ending, NoMemory>
    requires { steps_fit steps.now ≡ true }
    ensures { IfOk result (λ e. (reached run.new, end_of e) ≡ fold_to to kind op steps.now at (reached run.old)) }
{
    match shape_of_leaves(run.bank.views.as_slice(), steps, &mut run.shapes)? {
        Ok(shape) => {
            let total = join_elements(
                op,
                steps,
                run.bank.words.as_slice(),
                run.bank.views.as_slice(),
                &shape,
                run.bank.buffers.as_slice(),
            );
            bind_word(&mut run.bank.words, to as usize, Some(as_kind(kind, total)));
            count_nest(false, &mut run.counts);
            Ok(Ending::GoesOn)
        }
        Err(fault) => Ok(Ending::Faulted(fault, at)),
    }
}
