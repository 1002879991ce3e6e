//! The one pass over a source.

ghost use Rattle.std.specs.Prelude.{◌≡◌, ◌+◌, ◌^◌, ◌≤◌, length, IfOk, IfErr, OnOk};
ghost use Rattle.py_lex.specs.Pieces.{pieces};
ghost use Rattle.py_lex.specs.Layout as spec;
ghost use Rattle.py_lex.specs.Lexed.{IsLexed, IsRefusal, IsOnly};
ghost use Rattle.std.specs.List.{AllByRecursion};
ghost use Rattle.py_lex.specs.Laws.{IsLongest, IsInBlocks, IsBalanced, AreNotes, IsViable};
ghost use Rattle.py_lex.specs.declared.token.Tokens.{Tokens};
ghost use Rattle.py_lex.specs.Views.{view, Steps, Lists, IsFit};

use crate::layout::Layout;
use crate::piece::first_piece;
use crate::token::Tokens;
use krn_base::Stop;
use std::alloc::Global;

fn lay_out(layout: &mut Layout, source: &[u8]) -> Result<(), Stop>
    requires near { IsFit layout.old }
    requires room { layout.old.place.offset + length source.now ≤ 2 ^ 31 }
    ensures value { Steps (spec.layout (pieces source.now) (view layout.old)) result (view layout.new) }
    ensures within { OnOk result (layout.new.place.offset ≤ 2 ^ 31) }
{
    let mut rest = source;
    while !rest.is_empty() {
        let piece = first_piece(rest);
        let (text, after) = rest.split_at(piece.len);
        match layout.step(piece.class, text) {
            Ok(()) => rest = after,
            Err(stop) => return Err(stop),
        }
    }
    Ok(())
}

#[tactic(auto, unfolding(crate::specs::Layout::tokens_of))]
fn listed(alloc: Global, source: &[u8]) -> Result<Tokens, Stop>
    requires { length source.now ≤ 2 ^ 31 }
    ensures { Lists (spec.tokens_of source.now) result }
{
    let mut layout = Layout::first(alloc);
    lay_out(&mut layout, source)?;
    layout.finish()?;
    Ok(layout.into_tokens())
}

/// The tokens and notes of a module's source, by the rules of Python's language reference, "Lexical analysis", with
/// ASCII alone outside comments and texts and with this project's limits: numbers of at most 2^63-1, and at most
/// 200,000 tokens.
///
/// The answer is the one list that these rules give; [`Stop::Refused`] by `Rule::Lex`, exactly where they give none, at
/// the byte or token that breaks them; or [`Stop::Memory`]. Each byte is looked at a bounded number of times.
pub fn tokens(alloc: Global, source: &[u8]) -> Result<Tokens, Stop>
    requires { length source.now ≤ 2 ^ 31 }
    ensures lexed { IfOk result (λ ts. IsLexed source.now ts) }
    ensures refused { IfErr result (IsRefusal source.now) }
    ensures longest { IfOk result (λ ts. AllByRecursion (IsLongest source.now) ts.tokens) }
    ensures blocks { IfOk result (λ ts. IsInBlocks source.now ts.tokens) }
    ensures balanced { IfOk result (λ ts. IsBalanced ts.tokens) }
    ensures notes { IfOk result (λ ts. AreNotes source.now ts) }
    ensures viable { IfErr result (IsViable source.now) }
    ensures only { (ts : Tokens) → IsLexed source.now ts → IsOnly ts result }
{
    listed(alloc, source)
}
