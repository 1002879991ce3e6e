// Ranks of views, numbers of subscripts, and returned values.
ghost use Rattle.std.specs.Prelude.{◌≡◌, length, map, max, nat_le};
ghost use Rattle.std.specs.List.{list_all};
ghost use Rattle.eager_rules.specs.Types.{removed, same_types};
ghost use Rattle.loop_prog.specs.Conditions.{axis_fits, back_type, greatest, ranks_fit, some_views, subs_fit};
ghost use Rattle.loop_prog.specs.Conditions.{view_rank};
ghost use Rattle.loop_prog.specs.Templates.{leaves};
ghost use Rattle.loop_prog.specs.declared.program.Statement.{out-Statement};

use crate::kinds::{is_count, oper_kind, same_kind, view_type};
use crate::program::{Back, Kernel, Statement, TemplateStep};
use eager_rules::CoreSub;
use krn_base::Kind;

/// The rank of a view register.
pub fn view_rank(kernel: &Kernel, v: u32) -> u8
    ensures { result ≡ view_rank kernel.now v }
{
    view_type(kernel, v).1
}

/// Whether an array of a rank has a dimension.
fn axis_fits(axis: Option<u8>, rank: u8) -> bool
    ensures { result ≡ axis_fits axis rank }
{
    match axis {
        None => true,
        Some(axis) => axis < rank,
    }
}

/// How many dimensions subscripts remove.
fn removed(subs: &[CoreSub]) -> usize
    ensures { result ≡ removed subs.now }
{
    subs.iter()
        .filter(|sub| matches!(sub, CoreSub::At(_)))
        .count()
}

/// Whether subscripts of a view of rank `of` leave a view of rank `to`.
fn subs_fit(to: u8, of: u8, subs: &[CoreSub]) -> bool
    ensures { result ≡ subs_fit to of subs.now }
{
    let rank = usize::from(of);
    if subs.len() > rank {
        return false;
    }
    let gone = removed(subs);
    gone < rank && usize::from(to) == rank - gone
}

/// The greater of two ranks.
fn greater(a: u8, b: u8) -> u8
    ensures { result ≡ max a b }
{
    if a < b { b } else { a }
}

/// The greatest rank of views.
fn greatest(kernel: &Kernel, views: &[u32]) -> u8
    ensures { result ≡ greatest (map (view_rank kernel.now) views.now) }
{
    let mut most = 0;
    for v in views {
        most = greater(most, view_rank(kernel, *v));
    }
    most
}

/// The kind and rank of a returned value; rank 0 means a word.
fn back_type(kernel: &Kernel, value: Back) -> (Kind, u8)
    ensures { result ≡ back_type kernel.now value }
{
    match value {
        Back::Word(x) => (oper_kind(kernel, x), 0),
        Back::View(v) => view_type(kernel, v),
    }
}

/// Whether returned values have the head's kinds and ranks.
fn backs_fit(kernel: &Kernel, values: &[Back], rets: &[(Kind, u8)]) -> bool
    ensures { result ≡ same_types (map (back_type kernel.now) values.now) rets.now }
{
    let mut left = values;
    let mut wanted = rets;
    while let [value, more @ ..] = left {
        let [ret, others @ ..] = wanted else {
            return false;
        };
        let found = back_type(kernel, *value);
        if !(same_kind(found.0, ret.0) && found.1 == ret.1) {
            return false;
        }
        left = more;
        wanted = others;
    }
    wanted.is_empty()
}

/// Whether no leaf has a higher rank than the target.
fn leaves_fit(kernel: &Kernel, most: u8, steps: &[TemplateStep]) -> bool
    ensures { result ≡ list_all (λ v. nat_le (view_rank kernel.now v) most) (leaves steps.now) }
{
    for step in steps {
        if let TemplateStep::Leaf(v) = step {
            if view_rank(kernel, *v) > most {
                return false;
            }
        }
    }
    true
}

/// Whether the ranks of a statement fit.
pub fn ranks_fit(kernel: &Kernel, statement: &Statement) -> bool
    ensures { result ≡ ranks_fit kernel.now (out-Statement statement.now) }
{
    match statement {
        Statement::Extent { of, axis, .. } => axis_fits(*axis, view_rank(kernel, *of)),
        Statement::Get { of, index, .. } => index.len() == usize::from(view_rank(kernel, *of)),
        Statement::Put { of, index, .. } => index.len() == usize::from(view_rank(kernel, *of)),
        Statement::ViewOf { to, of, subs, .. } => subs_fit(
            view_rank(kernel, *to),
            view_rank(kernel, *of),
            subs.as_slice(),
        ),
        Statement::Flip { to, of } => view_rank(kernel, *to) == view_rank(kernel, *of),
        Statement::Same { to, of } => view_rank(kernel, *to) == view_rank(kernel, *of),
        Statement::Fresh { to, dims, fill, .. } => {
            usize::from(view_rank(kernel, *to)) == dims.len()
                && (!is_count(*fill) || dims.len() == 1)
        }
        Statement::Like { to, views, .. } => {
            views.len() != 0 && view_rank(kernel, *to) == greatest(kernel, views.as_slice())
        }
        Statement::Nest { to, template, .. } => {
            leaves_fit(kernel, view_rank(kernel, *to), template.steps.as_slice())
        }
        Statement::Return { values } => {
            backs_fit(kernel, values.as_slice(), kernel.rets.as_slice())
        }
        _ => true,
    }
}
