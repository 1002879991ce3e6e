// The ends of a kernel without value.
ghost use Rattle.std.specs.Prelude.{◌≡◌, ◌∷◌, ◌++◌, [], IfOk};
ghost use Rattle.lazy_expr.specs.Plain as spec;
ghost use Rattle.lazy_expr.specs.Lowered.{closing_in};
ghost use Rattle.loop_prog.specs.declared.program.Statement.{out-Statement};

use krn_base::{Kind, NoMemory, Seq};
use loop_prog::Statement;
use std::alloc::Global;

/// The last statement of a block in tail position, and a Return of nothing behind it, or at the ends of its own blocks.
#[cycle(close)]
fn close_last(
    last: Statement,
    alloc: Global,
    mut before: Seq<Statement>,
) -> Result<Seq<Statement>, NoMemory>
    ensures { IfOk result (λ list. list ≡ before ++ closing_in last (out-Statement last)) }
{
    match last {
        Statement::If { cond, yes, no } => {
            let yes = close(yes, alloc)?;
            let no = close(no, alloc)?;
            before.push(Statement::If { cond, yes, no })?;
            Ok(before)
        }
        Statement::Return { values } => {
            before.push(Statement::Return { values })?;
            Ok(before)
        }
        other => {
            before.push(other)?;
            before.push(Statement::Return {
                values: Seq::new(alloc),
            })?;
            Ok(before)
        }
    }
}

/// A block in tail position, with its ends. Moves the statements and copies none.
#[cycle(close)]
fn close(body: Seq<Statement>, alloc: Global) -> Result<Seq<Statement>, NoMemory>
    ensures { IfOk result (λ list. list ≡ spec.closed body) }
{
    let mut items = body.into_vec();
    match items.pop() {
        None => {
            let mut only = Seq::new(alloc);
            only.push(Statement::Return {
                values: Seq::new(alloc),
            })?;
            Ok(only)
        }
        Some(last) => close_last(last, alloc, Seq::from_vec(items)),
    }
}

/// The body of a kernel with these values: where it has none, a Return of nothing stands at each of its ends.
pub fn close_for(
    rets: &[(Kind, u8)],
    body: Seq<Statement>,
    alloc: Global,
) -> Result<Seq<Statement>, NoMemory>
    ensures { IfOk result (λ list. list ≡ spec.closed_for rets.now body) }
{
    match rets {
        [] => close(body, alloc),
        _ => Ok(body),
    }
}
