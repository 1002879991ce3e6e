//! Statements by their numbers.
ghost use Rattle.std.specs.Prelude.{◌≡◌, ◌+◌, ◌++◌, IfNone, IfSome, Some, length, slice_get};
ghost use Rattle.loop_prog.specs.Statements.{blocks_of, statements};
ghost use Rattle.loop_prog.specs.declared.program.Statement.{out-Statement};

use loop_prog::Statement;

/// The statement with a number among those of a block. Where it has fewer, the number is less by as many.
#[cycle(find)]
pub fn find_in<'a>(block: &'a [Statement], number: &mut u32) -> Option<&'a Statement>
    ensures found { IfSome result (λ s. slice_get (statements block.now) number.old ≡ Some s.now) }
    ensures none { IfNone result (number.old ≡ number.new + length (statements block.now)) }
{
    for statement in block {
        if *number == 0 {
            return Some(statement);
        }
        *number -= 1;
        match find_below(statement, number) {
            Some(found) => return Some(found),
            None => {}
        }
    }
    None
}

/// The same among the statements of two blocks.
#[cycle(find)]
fn find_parts<'a>(
    yes: &'a [Statement],
    no: &'a [Statement],
    number: &mut u32,
) -> Option<&'a Statement>
    ensures found { IfSome result (λ s. slice_get (statements (yes.now ++ no.now)) number.old ≡ Some s.now) }
    ensures none { IfNone result (number.old ≡ number.new + length (statements (yes.now ++ no.now))) }
{
    match find_in(yes, number) {
        Some(found) => Some(found),
        None => find_in(no, number),
    }
}

/// The same among the statements of the blocks of one.
#[cycle(find)]
fn find_below<'a>(statement: &'a Statement, number: &mut u32) -> Option<&'a Statement>
    ensures found { IfSome result (λ s.
        slice_get (statements (blocks_of (out-Statement statement.now))) number.old ≡ Some s.now) }
    ensures none { IfNone result (number.old ≡
        number.new + length (statements (blocks_of (out-Statement statement.now)))) }
{
    match statement {
        Statement::If { yes, no, .. } => find_parts(yes.as_slice(), no.as_slice(), number),
        Statement::For { body, .. } => find_in(body.as_slice(), number),
        Statement::ParFor { body, .. } => find_in(body.as_slice(), number),
        _ => None,
    }
}
