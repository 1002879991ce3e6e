//! Nests by the numbers of their statements.
ghost use Rattle.std.specs.Prelude.{◌≡◌, IfOk, List, OnErr, false};
ghost use Rattle.krn_base.specs.declared.kind.Kind.{Kind as AnyKind};
ghost use Rattle.eager_rules.specs.Blocks.{GoesOn};
ghost use Rattle.eager_rules.specs.declared.outcome.Counts.{Counts as AnyCounts};
ghost use Rattle.loop_exec.specs.Banks.{state_of};
ghost use Rattle.loop_exec.specs.Numbered.{IsNestAt, IsReadyNest, clash_at, clash_in, does_at};
ghost use Rattle.loop_prog.specs.Serial.{meaning, no_counts};
ghost use Rattle.loop_prog.specs.State.{count_nest};
ghost use Rattle.loop_prog.specs.declared.program.Statement.{out-Statement};

use crate::bank::Bank;
use crate::finding::find_in;
use crate::nest::{nest, nest_direct};
use crate::nested::Nested;
use krn_base::NoMemory;
use loop_prog::{Kernel, Statement};
use std::alloc::Global;

/// A nest. Whether it went through a temporary.
fn run_statement(alloc: Global, statement: &Statement, bank: &mut Bank) -> Result<bool, NoMemory>
    requires { IsReadyNest (out-Statement statement.now) (state_of no_counts bank.old) }
    ensures meaning { IfOk result (λ used. (kinds : List AnyKind) (counts : AnyCounts) →
        meaning kinds statement.now (state_of counts bank.old) ≡
        (state_of (count_nest used counts) bank.new, GoesOn)) }
    ensures clash { IfOk result (λ used. used ≡ clash_in (out-Statement statement.now) (state_of no_counts bank.old)) }
    ensures given { bank.new.given ≡ bank.old.given }
    ensures unchanged { OnErr result (bank.new ≡ bank.old) }
{
    match statement {
        Statement::Nest { to, template, .. } => {
            match nest(alloc, *to, template.steps.as_slice(), bank)? {
                Nested::Temporary => Ok(true),
                Nested::Direct => Ok(false),
                Nested::Unfit => Ok(false),
            }
        }
        _ => Ok(false),
    }
}

/// A nest none of whose verdicts is `Clash`.
fn run_statement_direct(statement: &Statement, bank: &mut Bank)
    requires nest { IsReadyNest (out-Statement statement.now) (state_of no_counts bank.old) }
    requires clear { clash_in (out-Statement statement.now) (state_of no_counts bank.old) ≡ false }
    ensures meaning { (kinds : List AnyKind) (counts : AnyCounts) →
        meaning kinds statement.now (state_of counts bank.old) ≡
        (state_of (count_nest false counts) bank.new, GoesOn) }
    ensures given { bank.new.given ≡ bank.old.given }
{
    if let Statement::Nest { to, template, .. } = statement {
        nest_direct(*to, template.steps.as_slice(), bank);
    }
}

/// Runs the nest with this number in the kernel, whose leaves spread to its target: element after element, or through
/// a temporary exactly where some verdict is `Clash`. Whether a temporary was used.
///
/// All memory is taken before the first store: where it is wanting, nothing has changed. Takes time linear in the
/// elements and steps, and in the number.
pub fn run_nest(alloc: Global, kernel: &Kernel, at: u32, bank: &mut Bank) -> Result<bool, NoMemory>
    requires { IsNestAt kernel.now at (state_of no_counts bank.old) }
    ensures meaning { IfOk result (λ used. (counts : AnyCounts) → does_at kernel.now at (state_of counts bank.old) ≡
        (state_of (count_nest used counts) bank.new, GoesOn)) }
    ensures clash { IfOk result (λ used. used ≡ clash_at kernel.now at (state_of no_counts bank.old)) }
    ensures given { bank.new.given ≡ bank.old.given }
    ensures unchanged { OnErr result (bank.new ≡ bank.old) }
{
    let mut number = at;
    match find_in(kernel.body.as_slice(), &mut number) {
        Some(statement) => run_statement(alloc, statement, bank),
        None => Ok(false),
    }
}

/// The same where no verdict is `Clash`. Takes no memory.
pub fn run_direct(kernel: &Kernel, at: u32, bank: &mut Bank)
    requires nest { IsNestAt kernel.now at (state_of no_counts bank.old) }
    requires clear { clash_at kernel.now at (state_of no_counts bank.old) ≡ false }
    ensures meaning { (counts : AnyCounts) → does_at kernel.now at (state_of counts bank.old) ≡
        (state_of (count_nest false counts) bank.new, GoesOn) }
    ensures given { bank.new.given ≡ bank.old.given }
{
    let mut number = at;
    if let Some(statement) = find_in(kernel.body.as_slice(), &mut number) {
        run_statement_direct(statement, bank);
    }
}
