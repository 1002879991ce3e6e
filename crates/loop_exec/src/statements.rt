//! One function for each kind of statement without blocks. The clause of each is its line of the definition.
ghost use Rattle.std.specs.Prelude.{◌≡◌, ◌∷◌, [], ℤ, List, IfOk, map, true};
ghost use Rattle.std.specs.List.{flat_map};
ghost use Rattle.eager_rules.specs.Works.{extent_work, flip_work, fresh_work, get_work, move_work, pick_work, put_work};
ghost use Rattle.eager_rules.specs.Works.{sub_operands, word_work};
ghost use Rattle.loop_exec.specs.Running.{end_of, nothing_done, reached, view_done, word_done};
ghost use Rattle.loop_prog.specs.Conditions.{small_word};
ghost use Rattle.loop_prog.specs.Serial.{finish, operands};
ghost use Rattle.loop_prog.specs.State.{State, operand, view, with_buffers};
ghost use Rattle.loop_prog.specs.Works.{check_work, like_work};
ghost use Rattle.loop_prog.specs.declared.program.Reg.TheVariants as reg;

use crate::array_work::{fresh as fresh_made, picked};
use crate::registers::{array, bind_view, bind_word, view_in, word};
use crate::running::{Ending, NothingMade, Running, Trouble, ViewMade, WordMade};
use crate::shape_work::{check as check_made, like as like_made};
use crate::word_work::{element, extent as extent_made, put_element, word_op, words_of};
use array_ops::{Fill, flip as flipped};
use krn_base::{Loc, NoMemory};
use loop_prog::{CoreSub, Oper, Test, WordOp};
use std::alloc::Global;

/// The end of a statement that binds a scalar register, whose work is done.
fn finish_word(to: u32, made: WordMade, run: &mut Running) -> Ending
    ensures { (reached run.new, end_of result) ≡
        finish (reg.Word to ∷ []) (word_done run.old.bank.buffers made) (reached run.old) }
{
    match made {
        Ok(value) => {
            bind_word(&mut run.bank.words, to as usize, value);
            Ending::GoesOn
        }
        Err(Trouble::Failed(fault, at)) => Ending::Faulted(fault, at),
        Err(Trouble::Blocked) => Ending::Stuck,
    }
}

/// The end of a statement that binds a view register, whose work is done.
fn finish_view(to: u32, made: ViewMade, run: &mut Running) -> Ending
    ensures { (reached run.new, end_of result) ≡
        finish (reg.View to ∷ []) (view_done run.old.bank.buffers made) (reached run.old) }
{
    match made {
        Ok(value) => {
            bind_view(&mut run.bank.views, to as usize, value);
            Ending::GoesOn
        }
        Err(Trouble::Failed(fault, at)) => Ending::Faulted(fault, at),
        Err(Trouble::Blocked) => Ending::Stuck,
    }
}

/// The end of a statement that binds no register, whose work is done.
fn finish_none(made: NothingMade) -> Ending
    ensures { (buffers : List (List ℤ)) (t : State) →
        (with_buffers buffers t, end_of result) ≡ finish [] (nothing_done buffers made) t }
{
    match made {
        Ok(()) => Ending::GoesOn,
        Err(Trouble::Failed(fault, at)) => Ending::Faulted(fault, at),
        Err(Trouble::Blocked) => Ending::Stuck,
    }
}

/// A scalar operation, or a move.
pub fn set(to: u32, op: WordOp, args: &[Oper], at: Loc, run: &mut Running) -> Ending
    requires { small_word op ≡ true }
    ensures { (reached run.new, end_of result) ≡
        finish (reg.Word to ∷ []) (word_work op at (operands (reached run.old) args.now) run.old.bank.buffers)
        (reached run.old) }
{
    let made = word_op(op, at, run.bank.words.as_slice(), args);
    finish_word(to, made, run)
}

/// The extent of a dimension, or the number of elements.
pub fn extent(to: u32, of: u32, axis: Option<u8>, run: &mut Running) -> Ending
    ensures { (reached run.new, end_of result) ≡
        finish (reg.Word to ∷ []) (extent_work axis (view (reached run.old) of ∷ []) run.old.bank.buffers)
        (reached run.old) }
{
    let made = extent_made(axis, &array(run.bank.views.as_slice(), of));
    finish_word(to, made, run)
}

/// One element read.
pub fn get(
    alloc: Global,
    to: u32,
    of: u32,
    index: &[Oper],
    at: Loc,
    run: &mut Running,
) -> Result<Ending, NoMemory>
    ensures { IfOk result (λ e. (reached run.new, end_of e) ≡
        finish (reg.Word to ∷ [])
        (get_work at (view (reached run.old) of ∷ operands (reached run.old) index.now) run.old.bank.buffers)
        (reached run.old)) }
{
    let index = words_of(alloc, run.bank.words.as_slice(), index)?;
    let from = array(run.bank.views.as_slice(), of);
    let made = element(at, &from, index.as_slice(), run.bank.buffers.as_slice());
    Ok(finish_word(to, made, run))
}

/// One element written.
pub fn put(
    alloc: Global,
    of: u32,
    index: &[Oper],
    value: Oper,
    at: Loc,
    run: &mut Running,
) -> Result<Ending, NoMemory>
    ensures { IfOk result (λ e. (reached run.new, end_of e) ≡
        finish []
        (put_work at (view (reached run.old) of ∷ operand (reached run.old) value
        ∷ operands (reached run.old) index.now) run.old.bank.buffers) (reached run.old)) }
{
    let index = words_of(alloc, run.bank.words.as_slice(), index)?;
    let target = array(run.bank.views.as_slice(), of);
    let value = word(run.bank.words.as_slice(), value);
    let made = put_element(at, &target, value, index.as_slice(), &mut run.bank.buffers);
    Ok(finish_none(made))
}

/// A view by subscripts.
pub fn view_of(
    to: u32,
    of: u32,
    subs: &[CoreSub],
    at: Loc,
    run: &mut Running,
) -> Result<Ending, NoMemory>
    ensures { IfOk result (λ e. (reached run.new, end_of e) ≡
        finish (reg.View to ∷ []) (pick_work subs.now at
        (view (reached run.old) of ∷ operands (reached run.old) (flat_map sub_operands subs.now)) run.old.bank.buffers)
        (reached run.old)) }
{
    let from = array(run.bank.views.as_slice(), of);
    let words = run.bank.words.as_slice();
    let made = picked(at, words, &from, subs, &mut run.subscripts)?;
    Ok(finish_view(to, made, run))
}

/// A view with the dimensions reversed.
pub fn flip(to: u32, of: u32, run: &mut Running) -> Ending
    ensures { (reached run.new, end_of result) ≡
        finish (reg.View to ∷ []) (flip_work (view (reached run.old) of ∷ []) run.old.bank.buffers) (reached run.old) }
{
    let from = array(run.bank.views.as_slice(), of);
    bind_view(&mut run.bank.views, to as usize, Some(flipped(&from)));
    Ending::GoesOn
}

/// The same view in another register.
pub fn same(to: u32, of: u32, run: &mut Running) -> Ending
    ensures { (reached run.new, end_of result) ≡
        finish (reg.View to ∷ []) (move_work (view (reached run.old) of ∷ []) run.old.bank.buffers) (reached run.old) }
{
    let value = view_in(run.bank.views.as_slice(), of);
    bind_view(&mut run.bank.views, to as usize, value);
    Ending::GoesOn
}

/// A new buffer by its dimensions.
pub fn fresh(
    alloc: Global,
    to: u32,
    dims: &[Oper],
    fill: Fill,
    at: Loc,
    run: &mut Running,
) -> Result<Ending, NoMemory>
    ensures { IfOk result (λ e. (reached run.new, end_of e) ≡
        finish (reg.View to ∷ []) (fresh_work fill at (operands (reached run.old) dims.now) run.old.bank.buffers)
        (reached run.old)) }
{
    let made = fresh_made(
        alloc,
        fill,
        at,
        run.bank.words.as_slice(),
        dims,
        &mut run.bank.buffers,
    )?;
    Ok(finish_view(to, made, run))
}

/// A new buffer of zeros with the broadcast shape of views.
pub fn like(
    alloc: Global,
    to: u32,
    views: &[u32],
    at: Loc,
    run: &mut Running,
) -> Result<Ending, NoMemory>
    ensures { IfOk result (λ e. (reached run.new, end_of e) ≡
        finish (reg.View to ∷ []) (like_work at (map (view (reached run.old)) views.now) run.old.bank.buffers)
        (reached run.old)) }
{
    let made = like_made(
        alloc,
        at,
        run.bank.views.as_slice(),
        views,
        &mut run.shapes,
        &mut run.bank.buffers,
    )?;
    Ok(finish_view(to, made, run))
}

/// A test of the shapes of views.
pub fn check(test: Test, views: &[u32], at: Loc, run: &mut Running) -> Result<Ending, NoMemory>
    ensures { IfOk result (λ e. (reached run.new, end_of e) ≡
        finish [] (check_work test at (map (view (reached run.old)) views.now) run.old.bank.buffers)
        (reached run.old)) }
{
    let made = check_made(test, at, run.bank.views.as_slice(), views, &mut run.shapes)?;
    Ok(finish_none(made))
}
