//! The parts of a module: its imports and its functions.

ghost use Rattle.std.specs.Prelude.{◌≡◌, []};
ghost use Rattle.py_parse.specs.declared.terminal.Terminal.TheVariants as t;
ghost use Rattle.py_parse.specs.Blocks as spec;
ghost use Rattle.py_parse.specs.Parser.{Reads, kind, name, some, more};

use crate::block::block;
use crate::cursor::Cursor;
use crate::failure::Failure;
use crate::terminal::Terminal;
use crate::tree::{Function, Import, Name, Stmt};
use krn_base::Seq;
use std::alloc::Global;

// An import from what follows the module's name on. Without an `as` the module has its own name.
fn aliased(alloc: Global, tokens: &mut Cursor<'_>, module: Name) -> Result<Import, Failure>
    ensures { Reads (spec.alias_by «module» (kind tokens.old) tokens.old) result tokens.new }
{
    let alias = if tokens.kind() == Terminal::As {
        tokens.take();
        tokens.name(alloc)?
    } else {
        Name {
            text: module.text.try_copy()?,
            loc: module.loc,
        }
    };
    tokens.expect(Terminal::Newline)?;
    Ok(Import { module, alias })
}

#[tactic(auto, unfolding(crate::specs::Blocks::imported))]
fn imported(alloc: Global, tokens: &mut Cursor<'_>) -> Result<Import, Failure>
    ensures { Reads (spec.imported tokens.old) result tokens.new }
{
    tokens.take();
    let module = tokens.name(alloc)?;
    aliased(alloc, tokens, module)
}

#[tactic(auto, using(crate::proofs::Turn::up), unfolding(crate::specs::Parser::some, crate::specs::Parser::some_from))]
fn some_names(alloc: Global, tokens: &mut Cursor<'_>) -> Result<Seq<Name>, Failure>
    ensures { Reads (some t.CloseParen name [] tokens.old) result tokens.new }
{
    let mut found = Vec::new(alloc);
    for _turn in 0..tokens.left() + 1 {
        let name = tokens.name(alloc)?;
        found.push(name)?;
        if !tokens.comma() || tokens.sees(Terminal::CloseParen) {
            return Ok(Seq::from_vec(found));
        }
    }
    Err(Failure::Refused)
}

// Parameters with commas between them and maybe one behind.
#[tactic(auto, unfolding(crate::specs::Parser::more))]
fn params(alloc: Global, tokens: &mut Cursor<'_>) -> Result<Seq<Name>, Failure>
    ensures { Reads (more t.CloseParen name [] tokens.old) result tokens.new }
{
    if tokens.sees(Terminal::CloseParen) {
        Ok(Seq::from_vec(Vec::new(alloc)))
    } else {
        some_names(alloc, tokens)
    }
}

// The name, the parameters and the block of a function.
#[tactic(auto, unfolding(crate::specs::Blocks::defined))]
fn defined(
    alloc: Global,
    tokens: &mut Cursor<'_>,
    depth: u8,
) -> Result<(Name, Seq<Name>, Seq<Stmt>), Failure>
    ensures { Reads (spec.defined depth tokens.old) result tokens.new }
{
    tokens.take();
    let name = tokens.name(alloc)?;
    tokens.expect(Terminal::OpenParen)?;
    let params = params(alloc, tokens)?;
    tokens.expect(Terminal::CloseParen)?;
    tokens.expect(Terminal::Colon)?;
    let body = block(alloc, tokens, depth)?;
    Ok((name, params, body))
}

#[tactic(auto, unfolding(crate::specs::Blocks::function))]
fn function(alloc: Global, tokens: &mut Cursor<'_>, depth: u8) -> Result<Function, Failure>
    ensures { Reads (spec.function depth tokens.old) result tokens.new }
{
    let before = tokens.left();
    let (name, params, body) = defined(alloc, tokens, depth)?;
    Ok(Function {
        name,
        params,
        body,
        weight: before.saturating_sub(tokens.left()) as u32,
    })
}

/// The imports and the functions of a module, up to its End, which isn't taken.
#[tactic(auto, using(crate::proofs::Turn::up), unfolding(crate::specs::Blocks::parts, crate::specs::Blocks::parts_n))]
pub fn parts(
    alloc: Global,
    tokens: &mut Cursor<'_>,
    depth: u8,
) -> Result<(Seq<Import>, Seq<Function>), Failure>
    ensures { Reads (spec.parts depth tokens.old) result tokens.new }
{
    let mut imports = Vec::new(alloc);
    let mut functions = Vec::new(alloc);
    for _turn in 0..tokens.left() + 1 {
        match tokens.kind() {
            Terminal::Import => imports.push(imported(alloc, tokens)?)?,
            Terminal::Def => functions.push(function(alloc, tokens, depth)?)?,
            Terminal::Text => {
                tokens.take();
                tokens.expect(Terminal::Newline)?;
            }
            Terminal::End => return Ok((Seq::from_vec(imports), Seq::from_vec(functions))),
            _ => return Err(Failure::Refused),
        }
    }
    Err(Failure::Refused)
}
