//! The statements of a body as one list.
ghost use Rattle.std.specs.Prelude.{◌≡◌, ◌++◌, IfOk, OnOk, map};
ghost use Rattle.eager_rules.specs.Statements as spec;
ghost use Rattle.eager_rules.specs.declared.program.Core.{out-Core};
ghost use Rattle.purity.specs.Uses.{listed};

use eager_rules::Core;
use std::alloc::{AllocError, Global};

/// A statement of a body.
#[derive(Clone, Copy, Drop)]
pub struct Line<'a> {
    pub core: &'a Core,
}

/// Puts the statements of a statement's blocks behind others.
#[cycle(listing)]
#[tactic(auto, using(crate::proofs::Lists::statements_append, std::proofs::lemmas::Grind::common_steps))]
fn list_parts<'a>(core: &'a Core, lines: &mut Vec<Line<'a>>) -> Result<(), AllocError>
    ensures { OnOk result (listed lines.new.items ≡
        listed lines.old.items ++ spec.statements (spec.blocks_of (out-Core core.now))) }
{
    match core {
        Core::If { yes, no, .. } => {
            list_block(yes.as_slice(), lines)?;
            list_block(no.as_slice(), lines)
        }
        Core::For { body, .. } => list_block(body.as_slice(), lines),
        _ => Ok(()),
    }
}

#[cycle(listing)]
#[tactic(auto, using(crate::proofs::Lists::inner_are))]
fn list_inner<'a>(core: &'a Core, lines: &mut Vec<Line<'a>>) -> Result<(), AllocError>
    ensures { OnOk result (listed lines.new.items ≡ listed lines.old.items ++ spec.inner core.now) }
{
    list_parts(core, lines)
}

#[cycle(listing)]
fn list_block<'a>(block: &'a [Core], lines: &mut Vec<Line<'a>>) -> Result<(), AllocError>
    ensures { OnOk result (listed lines.new.items ≡ listed lines.old.items ++ spec.statements block.now) }
{
    for core in block {
        lines.push(Line { core })?;
        list_inner(core, lines)?;
    }
    Ok(())
}

/// The statements of a body, those with blocks before those in their blocks.
pub fn statements(alloc: Global, body: &[Core]) -> Result<Vec<Line<'_>>, AllocError>
    ensures { IfOk result (λ lines. listed lines.items ≡ spec.statements body.now) }
{
    let mut lines = Vec::new(alloc);
    list_block(body, &mut lines)?;
    Ok(lines)
}
