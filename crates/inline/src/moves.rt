//! Values that go to names, in place of a call's arguments and of what it returns.
ghost use Rattle.std.specs.Prelude.{◌≡◌, ◌++◌, ◌∷◌, [], IfOk, OnOk};
ghost use Rattle.eager_rules.specs.Types.{is_array};
ghost use Rattle.eager_rules.specs.declared.program.Core.TheVariants as core;
ghost use Rattle.eager_rules.specs.declared.program.WordOp.TheVariants.{Move};
ghost use Rattle.inline.specs.Places as spec;

use eager_rules::{Core, Oper, WordOp};
use krn_base::{Kind, Loc, NoMemory, Seq};
use std::alloc::Global;

/// The kind and rank of a name; rank 0 means a scalar.
pub type Ty = (Kind, u8);

/// A name to which a value goes.
#[derive(Clone, Copy, Debug, PartialEq, Eq, Drop)]
pub struct Target {
    pub ty: Ty,
    pub name: u32,
}

/// What stands for a Return: a Return, or moves to names.
#[derive(Debug, PartialEq, Eq, Drop)]
pub enum Out {
    Returns,
    Moves(Seq<Target>),
}

/// A move can't fault, and one that stands for a call has no place in the text.
const NOWHERE: Loc = Loc { line: 0, col: 0 };

/// Names with their types, as far as there are both.
pub fn targets(alloc: Global, types: &[Ty], names: &[u32]) -> Result<Seq<Target>, NoMemory>
    ensures { IfOk result (λ list. list ≡ spec.targets types.now names.now) }
{
    let mut list = Seq::new(alloc);
    for at in 0..types.len().min(names.len()) {
        list.push(Target {
            ty: types[at],
            name: names[at],
        })?;
    }
    Ok(list)
}

/// Names of these types, numbered from a first one on.
pub fn numbered(alloc: Global, first: u32, types: &[Ty]) -> Result<Seq<Target>, NoMemory>
    ensures { IfOk result (λ list. list ≡ spec.numbered first types.now) }
{
    let mut list = Seq::new(alloc);
    let mut name = first;
    for ty in types {
        list.push(Target { ty: *ty, name })?;
        name = match name.checked_add(1) {
            Some(next) => next,
            None => return Err(NoMemory),
        };
    }
    Ok(list)
}

fn single(alloc: Global, x: Oper) -> Result<Seq<Oper>, NoMemory>
    ensures { IfOk result (λ list. list ≡ x ∷ []) }
{
    let mut list = Seq::new(alloc);
    list.push(x)?;
    Ok(list)
}

fn word_move(alloc: Global, name: u32, x: Oper, body: &mut Seq<Core>) -> Result<(), NoMemory>
    ensures { OnOk result (body.new ≡ body.old ++ core.Word name Move (x ∷ []) spec.nowhere ∷ []) }
{
    let args = single(alloc, x)?;
    body.push(Core::Word {
        to: name,
        op: WordOp::Move,
        args,
        at: NOWHERE,
    })?;
    Ok(())
}

fn add_named(alloc: Global, target: Target, from: u32, body: &mut Seq<Core>) -> Result<(), NoMemory>
    ensures { OnOk result (body.new ≡ body.old ++ spec.name_or_word (is_array target.ty) target.name from ∷ []) }
{
    if target.ty.1 != 0 {
        body.push(Core::Alias {
            to: target.name,
            of: from,
        })?;
        Ok(())
    } else {
        word_move(alloc, target.name, Oper::Name(from), body)
    }
}

/// A value goes to a name; nothing is made where it has that name.
fn add_move(alloc: Global, target: Target, x: Oper, body: &mut Seq<Core>) -> Result<(), NoMemory>
    ensures { OnOk result (body.new ≡ body.old ++ spec.moved target x) }
{
    match x {
        Oper::Name(from) => {
            if from == target.name {
                Ok(())
            } else {
                add_named(alloc, target, from, body)
            }
        }
        Oper::Int(_) => word_move(alloc, target.name, x, body),
        Oper::Truth(_) => word_move(alloc, target.name, x, body),
    }
}

/// Values go to names, as far as there are both.
pub fn add_moves(
    alloc: Global,
    targets: &[Target],
    xs: &[Oper],
    body: &mut Seq<Core>,
) -> Result<(), NoMemory>
    ensures { OnOk result (body.new ≡ body.old ++ spec.moves targets.now xs.now) }
{
    for at in 0..targets.len().min(xs.len()) {
        add_move(alloc, targets[at], xs[at], body)?;
    }
    Ok(())
}

/// What stands for a Return of these values.
pub fn add_given(
    alloc: Global,
    out: &Out,
    xs: Seq<Oper>,
    body: &mut Seq<Core>,
) -> Result<(), NoMemory>
    ensures { OnOk result (body.new ≡ body.old ++ spec.given_back out.now xs) }
{
    match out {
        Out::Returns => {
            body.push(Core::Return { values: xs })?;
            Ok(())
        }
        Out::Moves(targets) => add_moves(alloc, targets.as_slice(), xs.as_slice(), body),
    }
}
