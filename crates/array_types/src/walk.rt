// The steps that every form is made of.
ghost use Rattle.std.specs.Prelude.{◌≡◌, None, slice_get};
ghost use Rattle.array_types.specs.Walk as spec;
ghost use Rattle.array_types.specs.Walk.{Walks};
ghost use Rattle.array_types.specs.Forms as forms;

use crate::known::Known;
use crate::rows::same_type;
use crate::state::{State, Target, Ty, Value};
use eager_rules::{Core, Oper};
use krn_base::{Kind, Loc, Refusal, Rule, Seq, Stop, Text};
use py_parse::Name;
use std::alloc::{AllocError, Global};

/// The place of a statement that can't fault.
pub const NOWHERE: Loc = Loc { line: 0, col: 0 };

/// A row, or a refusal at its place.
pub fn need<T: Drop>(row: Option<T>, at: Loc, state: &State) -> Result<T, Stop>
    ensures { Walks (spec.need row at state.now) result state.now }
{
    match row {
        None => Err(Stop::Refused(Refusal {
            rule: Rule::Types,
            loc: at,
        })),
        Some(x) => Ok(x),
    }
}

/// A refusal where a test fails.
pub fn test(holds: bool, at: Loc, state: &State) -> Result<(), Stop>
    ensures { Walks (spec.test holds at state.now) result state.now }
{
    if holds {
        Ok(())
    } else {
        Err(Stop::Refused(Refusal {
            rule: Rule::Types,
            loc: at,
        }))
    }
}

/// The number of a text.
pub fn number_for(text: &[u8], names: &Known) -> Option<u32>
    ensures { result ≡ spec.find text.now names.now }
{
    names.get(text)
}

/// Puts a statement behind those of the block.
pub fn emit(core: Core, state: &mut State) -> Result<(), Stop>
    ensures { Walks (spec.emit core state.old) result state.new }
{
    state.out.push(core)?;
    Ok(())
}

/// A new name.
pub fn add(ty: Ty, state: &mut State) -> Result<u32, Stop>
    ensures { Walks (spec.add ty state.old) result state.new }
{
    let n = state.types.len();
    if n > u32::MAX as usize {
        return Err(Stop::Memory);
    }
    state.types.push(ty)?;
    Ok(n as u32)
}

/// The place of a name that waits.
pub fn place_of(i: u32, places: &[Loc]) -> Loc
    ensures { result ≡ spec.place_of i places.now }
{
    match places.get(i as usize) {
        Some(at) => *at,
        None => NOWHERE,
    }
}

fn awaited(waiting: Option<u32>, ty: Ty, state: &State) -> Result<(), Stop>
    ensures { Walks (spec.awaited waiting ty state.now) result state.now }
{
    match waiting {
        None => Ok(()),
        Some(i) => test(
            same_type(ty, (Kind::Int64, 0)),
            place_of(i, state.places.as_slice()),
            state,
        ),
    }
}

/// A new name of the text.
fn add_text(text: Text, ty: Ty, state: &mut State) -> Result<u32, Stop>
    ensures { Walks (spec.add_text text ty state.old) result state.new }
{
    awaited(number_for(text.as_slice(), &state.awaited), ty, state)?;
    let n = add(ty, state)?;
    state.known.add(text, n)?;
    Ok(n)
}

/// The type of a name.
fn type_of(n: u32, types: &[Ty]) -> Option<Ty>
    ensures { result ≡ slice_get types.now n }
{
    types.get(n as usize).copied()
}

/// A binding of a name that has a type.
fn rebind(n: u32, ty: Ty, first: Loc, state: &State) -> Result<u32, Stop>
    ensures { Walks (spec.rebind n ty (slice_get state.now.types n) first state.now) result state.now }
{
    match type_of(n, state.types.as_slice()) {
        None => Err(Stop::Refused(Refusal {
            rule: Rule::Name,
            loc: first,
        })),
        Some(old) => {
            if same_type(old, ty) {
                Ok(n)
            } else {
                Err(Stop::Refused(Refusal {
                    rule: Rule::Retype,
                    loc: first,
                }))
            }
        }
    }
}

/// A binding of a text's name, by its number if it has one.
fn bind_text(
    found: Option<u32>,
    text: Text,
    ty: Ty,
    first: Loc,
    state: &mut State,
) -> Result<u32, Stop>
    ensures { Walks (spec.bind_text text first ty found state.old) result state.new }
{
    match found {
        None => add_text(text, ty, state),
        Some(n) => rebind(n, ty, first, state),
    }
}

/// The number of the target: a name of its own, or the text's name, which must have this type if it has one.
pub fn bind(target: Target, ty: Ty, state: &mut State) -> Result<u32, Stop>
    ensures { Walks (spec.bind target ty state.old) result state.new }
{
    match target {
        Target::Own => add(ty, state),
        Target::Into(text, first, _) => {
            let found = number_for(text.as_slice(), &state.known);
            bind_text(found, text, ty, first, state)
        }
    }
}

/// The value of a name.
pub fn read(name: &Name, state: &State) -> Result<Value, Stop>
    ensures { Walks (spec.read name.now state.now) result state.now }
{
    match number_for(name.text.as_slice(), &state.known) {
        None => Err(Stop::Refused(Refusal {
            rule: Rule::Name,
            loc: name.loc,
        })),
        Some(n) => match type_of(n, state.types.as_slice()) {
            None => Err(Stop::Refused(Refusal {
                rule: Rule::Name,
                loc: name.loc,
            })),
            Some(ty) => Ok(Value {
                oper: Oper::Name(n),
                ty,
            }),
        },
    }
}

/// The number of a name, if it has a type.
pub fn name_of(name: &Name, state: &State) -> Option<u32>
    ensures { result ≡ spec.find name.now.text state.now.known }
{
    number_for(name.text.as_slice(), &state.known)
}

/// A reduction's name waits for its number; the answer is its place among those that wait.
pub fn wait(name: &Name, at: Loc, state: &mut State) -> Result<u32, Stop>
    ensures { Walks (forms.wait name.now.text at state.old) result state.new }
{
    let i = state.places.len();
    if i > u32::MAX as usize {
        return Err(Stop::Memory);
    }
    state.awaited.add(name.text.try_copy()?, i as u32)?;
    state.places.push(at)?;
    Ok(i as u32)
}
