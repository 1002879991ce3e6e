// Where a body returns.
ghost use Rattle.std.specs.Prelude.{◌≡◌};
ghost use Rattle.eager_rules.specs.Sound as spec;
ghost use Rattle.array_types.specs.Shapes as shapes;
ghost use Rattle.array_types.specs.Shapes.{shape_seen};

use crate::state::Ty;
use eager_rules::Core;

/// Where a block returns. `plain`: nowhere. `tail`: at the end of blocks in tail position alone. `shut`: and there
/// always.
#[derive(Clone, Copy, Drop)]
pub struct Returns {
    plain: bool,
    tail: bool,
    shut: bool,
}

const SIMPLE: Returns = Returns {
    plain: true,
    tail: true,
    shut: false,
};

/// Where one statement returns.
#[cycle(shape)]
fn of_core(core: &Core) -> Returns
    ensures { shape_seen result ≡ shapes.shape_of core.now }
{
    match core {
        Core::If { cond: _, yes, no } => {
            let a = of_block(yes.as_slice());
            let b = of_block(no.as_slice());
            Returns {
                plain: a.plain && b.plain,
                tail: a.tail && b.tail,
                shut: a.shut && b.shut,
            }
        }
        Core::For {
            var: _,
            lo: _,
            hi: _,
            step: _,
            at: _,
            omp: _,
            body,
        } => {
            let a = of_block(body.as_slice());
            Returns {
                plain: a.plain,
                tail: a.plain,
                shut: false,
            }
        }
        Core::Return { values: _ } => Returns {
            plain: false,
            tail: true,
            shut: true,
        },
        _ => SIMPLE,
    }
}

/// Where a block returns.
#[cycle(shape)]
fn of_block(block: &[Core]) -> Returns
    ensures { shape_seen result ≡ spec.shape_of_body block.now }
{
    if block.is_empty() {
        return SIMPLE;
    }
    let mut left = block.len() - 1;
    let mut end = of_core(&block[left]);
    while 0 < left {
        left -= 1;
        end = before(of_core(&block[left]), end);
    }
    end
}

/// Where a block returns after one more statement before it.
fn before(x: Returns, later: Returns) -> Returns
    ensures { shape_seen result ≡ shapes.before (shape_seen x) (shape_seen later) }
{
    Returns {
        plain: x.plain && later.plain,
        tail: x.plain && later.tail,
        shut: x.plain && later.shut,
    }
}

/// Whether a body returns values of its types on every path, or on none.
pub fn ends_well(rets: &[Ty], body: &[Core]) -> bool
    ensures { result ≡ spec.returns_values rets.now (spec.shape_of_body body.now) }
{
    let end = of_block(body);
    match rets {
        [] => end.tail,
        _ => end.tail && end.shut,
    }
}
