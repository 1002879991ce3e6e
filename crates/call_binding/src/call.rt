//! The call of a kernel.
ghost use Rattle.std.specs.Prelude.{◌≡◌, ◌<◌, ◌≤◌, ◌^◌, ◌∷◌, ◌++◌, [], IfOk, OnOk, IfSome, IsErrOf, List, ℕ, length};
ghost use Rattle.std.specs.Prelude.{map, Ok, Some, None};
ghost use Rattle.std.specs.List.{All, filter_map, position};
ghost use Rattle.host_io.specs.Counts.{Rose};
ghost use Rattle.call_binding.specs.Binding as spec;
ghost use Rattle.call_binding.specs.Binding.{ComesTo, Refused, asked, paths, meaning, HasOneAnswer};
ghost use Rattle.call_binding.specs.Files.{Whole, AreTold};
ghost use Rattle.call_binding.specs.Fitting.{IsFitting, IsSave};
ghost use Rattle.call_binding.specs.Outcome.{Binds, IsGood, MeetsLong};
ghost use Rattle.call_binding.specs.Planning.{refusal_of, unfitting_among, late_among, planned_call, IsPlan};
ghost use Rattle.call_binding.specs.Planning.{IsPlanAmong, IsPlanOf};
ghost use Rattle.call_binding.specs.Reading.{read_from, texts_of};
ghost use Rattle.call_binding.specs.Seen as seen;
ghost use Rattle.call_binding.specs.Sound.{IsArray, IsSound};
ghost use Rattle.call_binding.specs.Tests.{early};
ghost use Rattle.call_binding.specs.Views as views;

use crate::files::fill;
use crate::fitting::{Passed, all_passed, args_for, fitting};
use crate::head::{BindStop, BoundCall, KernelHead, Save};
use crate::items::Item;
use crate::order::early_refusal;
use crate::read::read_items;
use crate::views::{NamedArray, buffers, faulty, place_of_name};
use eager_rules::{Arg, Call};
use host_io::Files;
use krn_base::{Seq, Text};
use np_file::file_laws;
use std::alloc::{AllocError, Global};
use view_places::Array;

/// The buffer that an item saves, with its path.
fn save_by(buffers: &[NamedArray<'_>], item: &Item) -> Result<Option<Save>, AllocError>
    requires few { length buffers.now < 2 ^ 32 }
    ensures { IfOk result (λ save. save ≡ spec.save_by (map seen.named buffers.now) item.now) }
{
    let Item::Saved { name, path } = item else {
        return Ok(None);
    };
    match place_of_name(buffers, name.as_slice()) {
        Some(number) => Ok(Some(Save {
            buffer: number as u32,
            path: path.try_copy()?,
        })),
        None => Ok(None),
    }
}

/// Adds what an item saves.
fn push_save(
    saves: &mut Vec<Save>,
    buffers: &[NamedArray<'_>],
    item: &Item,
) -> Result<(), AllocError>
    requires few { length buffers.now < 2 ^ 32 }
    ensures { OnOk result (saves.new.items ≡ saves.old.items
        ++ filter_map (spec.save_by (map seen.named buffers.now)) (item.now ∷ [])) }
{
    if let Some(save) = save_by(buffers, item)? {
        saves.push(save)?;
    }
    Ok(())
}

/// What the items save, in word order.
fn saves(alloc: Global, buffers: &[NamedArray<'_>], items: &[Item]) -> Result<Seq<Save>, AllocError>
    requires few { length buffers.now < 2 ^ 32 }
    ensures { IfOk result (λ saves. saves ≡ filter_map (spec.save_by (map seen.named buffers.now)) items.now) }
{
    let mut saves = Vec::new(alloc);
    for item in items {
        push_save(&mut saves, buffers, item)?;
    }
    Ok(Seq::from_vec(saves))
}

/// What is made of items while they still hold their arrays.
#[derive(Drop)]
struct Plan {
    /// The number of the kernel.
    kernel: usize,
    args: Seq<Arg>,
    saves: Seq<Save>,
}

/// The arguments of a kernel that fits, and what is saved.
fn plan_at(
    alloc: Global,
    kernels: &[KernelHead],
    name: &[u8],
    kernel: usize,
    items: &[Item],
    buffers: &[NamedArray<'_>],
    given: &[Passed<'_>],
) -> Result<Plan, AllocError>
    requires found { position (spec.fits name.now (map seen.passed given.now)) kernels.now ≡ Some kernel }
    requires within { kernel < length kernels.now }
    requires few { length buffers.now < 2 ^ 32 }
    ensures { IfOk result
        (IsPlanOf kernels.now name.now (map seen.passed given.now) (map seen.named buffers.now) items.now) }
{
    let args = args_for(alloc, given, kernels[kernel].params.as_slice())?;
    let saves = saves(alloc, buffers, items)?;
    Ok(Plan {
        kernel,
        args,
        saves,
    })
}

/// The plan of the first kernel that fits, or 0 where none does.
fn plan_fitting(
    alloc: Global,
    kernels: &[KernelHead],
    name: &[u8],
    items: &[Item],
    buffers: &[NamedArray<'_>],
    given: &[Passed<'_>],
) -> Result<Result<Plan, u32>, AllocError>
    requires few { length buffers.now < 2 ^ 32 }
    ensures refusal { IfOk result (λ plan. refusal_of plan
        ≡ spec.unfitting (position (spec.fits name.now (map seen.passed given.now)) kernels.now)) }
    ensures made { IfOk result
        (λ plan. IfOk plan (IsPlanOf kernels.now name.now (map seen.passed given.now) (map seen.named buffers.now)
        items.now)) }
{
    match fitting(kernels, name, given) {
        Some(kernel) => Ok(Ok(plan_at(alloc, kernels, name, kernel, items, buffers, given)?)),
        None => Ok(Err(0)),
    }
}

/// The plan of what items pass among these buffers, or 0 where no kernel fits.
fn plan_given(
    alloc: Global,
    kernels: &[KernelHead],
    name: &[u8],
    items: &[Item],
    buffers: &[NamedArray<'_>],
) -> Result<Result<Plan, u32>, AllocError>
    requires few { length buffers.now < 2 ^ 32 }
    requires arrays { seen.AreArrays (map seen.named buffers.now) }
    ensures refusal { IfOk result (λ plan. refusal_of plan
        ≡ unfitting_among kernels.now name.now items.now (map seen.named buffers.now)) }
    ensures made { IfOk result
        (λ plan. IfOk plan (IsPlanAmong kernels.now name.now items.now (map seen.named buffers.now))) }
{
    let given = all_passed(alloc, buffers, items)?;
    plan_fitting(alloc, kernels, name, items, buffers, given.as_slice())
}

/// The plan of items among whose buffers views are looked for, or the number of the item that the tests 8 and 9 refuse.
fn plan_among(
    alloc: Global,
    kernels: &[KernelHead],
    name: &[u8],
    items: &[Item],
    buffers: &[NamedArray<'_>],
) -> Result<Result<Plan, u32>, AllocError>
    requires items { length items.now < 2 ^ 32 }
    requires few { length buffers.now < 2 ^ 32 }
    requires arrays { seen.AreArrays (map seen.named buffers.now) }
    ensures refusal { IfOk result (λ plan. refusal_of plan
        ≡ late_among kernels.now name.now items.now (map seen.named buffers.now)) }
    ensures made { IfOk result
        (λ plan. IfOk plan (IsPlanAmong kernels.now name.now items.now (map seen.named buffers.now))) }
{
    match faulty(buffers, items) {
        Some(number) => Ok(Err(number)),
        None => plan_given(alloc, kernels, name, items, buffers),
    }
}

/// The kernel and its arguments, or the number of the item that the tests 8 and 9 refuse.
fn make_plan(
    alloc: Global,
    kernels: &[KernelHead],
    name: &[u8],
    items: &[Item],
) -> Result<Result<Plan, u32>, AllocError>
    requires items { length items.now < 2 ^ 32 }
    requires sound { All IsSound items.now }
    ensures refusal { IfOk result (λ plan. refusal_of plan ≡ spec.late kernels.now name.now items.now) }
    ensures made { IfOk result (λ plan. IfOk plan (IsPlan kernels.now name.now items.now)) }
{
    let buffers = buffers(alloc, items)?;
    plan_among(alloc, kernels, name, items, buffers.as_slice())
}

/// The name and the array of a buffer.
fn into_buffer(item: Item) -> Option<(Text, Array)>
    ensures { result ≡ views.buffer_of item }
{
    match item {
        Item::Buffer { name, array } => Some((name, array)),
        _other => None,
    }
}

/// The buffers' names and arrays. Each array is moved.
fn take_apart(alloc: Global, items: Seq<Item>) -> Result<(Seq<Text>, Seq<Array>), AllocError>
    ensures names { IfOk result (λ parts. parts.0 ≡ map (λ buffer. buffer.0) (views.buffers items)) }
    ensures arrays { IfOk result (λ parts. parts.1 ≡ map (λ buffer. buffer.1) (views.buffers items)) }
{
    let mut names = Vec::new(alloc);
    let mut arrays = Vec::new(alloc);
    for item in items.into_vec() {
        if let Some(buffer) = into_buffer(item) {
            names.push(buffer.0)?;
            arrays.push(buffer.1)?;
        }
    }
    Ok((Seq::from_vec(names), Seq::from_vec(arrays)))
}

/// The call of a plan. The items' arrays are moved into it.
fn bind_plan(alloc: Global, items: Seq<Item>, plan: Plan) -> Result<BoundCall, AllocError>
    requires { plan.kernel < 2 ^ 32 }
    ensures { IfOk result (λ bound. meaning bound ≡ planned_call plan items) }
{
    let (names, buffers) = take_apart(alloc, items)?;
    let Plan {
        kernel,
        args,
        saves,
    } = plan;
    Ok(BoundCall {
        kernel: kernel as u32,
        names,
        call: Call { buffers, args },
        saves,
    })
}

/// The call of items whose arrays are all there, or the number of the item that the tests 8 and 9 refuse.
fn bind_filled(
    alloc: Global,
    kernels: &[KernelHead],
    name: &[u8],
    items: Seq<Item>,
) -> Result<Result<BoundCall, u32>, AllocError>
    requires kernels { length kernels.now < 2 ^ 32 }
    requires items { length items < 2 ^ 32 }
    requires sound { All IsSound items }
    ensures bound { IfOk result (λ bound. spec.answer bound ≡ spec.bind_filled kernels.now name.now (Whole items)) }
    ensures good { IfOk result (λ bound. IfOk bound (IsGood kernels.now name.now)) }
{
    match make_plan(alloc, kernels, name, items.as_slice())? {
        Ok(plan) => Ok(Ok(bind_plan(alloc, items, plan)?)),
        Err(number) => Ok(Err(number)),
    }
}

/// The call of items that the tests 2 to 6 let through, by the tests 7 to 9.
fn bind_late<F: Files>(
    alloc: Global,
    kernels: &[KernelHead],
    name: &[u8],
    items: Seq<Item>,
    files: &mut F,
) -> Result<BoundCall, BindStop>
    requires kernels { length kernels.now < 2 ^ 32 }
    requires items { length items < 2 ^ 32 }
    requires sound { All IsSound items }
    requires early { early kernels.now name.now items ≡ None }
    ensures count { F.faults files.old ≤ F.faults files.new }
    ensures kept { (other : List ℕ) → F.held files.new other ≡ F.held files.old other }
    ensures binds { Binds (F.held files.old) (F.faults files.old) (F.faults files.new) kernels.now name.now (Ok items)
        result }
    ensures good { IfOk result (IsGood kernels.now name.now) }
{
    let full = fill(alloc, files, items)?;
    match bind_filled(alloc, kernels, name, full)? {
        Ok(bound) => Ok(bound),
        Err(number) => Err(BindStop::Item(number)),
    }
}

/// The call of items that are read, by the tests 2 to 9.
fn bind_items<F: Files>(
    alloc: Global,
    kernels: &[KernelHead],
    name: &[u8],
    items: Seq<Item>,
    files: &mut F,
) -> Result<BoundCall, BindStop>
    requires kernels { length kernels.now < 2 ^ 32 }
    requires items { length items < 2 ^ 32 }
    requires sound { All IsSound items }
    ensures count { F.faults files.old ≤ F.faults files.new }
    ensures kept { (other : List ℕ) → F.held files.new other ≡ F.held files.old other }
    ensures binds { Binds (F.held files.old) (F.faults files.old) (F.faults files.new) kernels.now name.now (Ok items)
        result }
    ensures good { IfOk result (IsGood kernels.now name.now) }
{
    match early_refusal(alloc, kernels, name, items.as_slice())? {
        Some(number) => Err(BindStop::Item(number)),
        None => bind_late(alloc, kernels, name, items, files),
    }
}

/// The call of words.
fn bind_words<F: Files>(
    alloc: Global,
    kernels: &[KernelHead],
    kernel: &str,
    items: &[&str],
    files: &mut F,
) -> Result<BoundCall, BindStop>
    requires kernels { length kernels.now < 2 ^ 32 }
    requires items { length items.now < 2 ^ 32 }
    ensures count { F.faults files.old ≤ F.faults files.new }
    ensures kept { (other : List ℕ) → F.held files.new other ≡ F.held files.old other }
    ensures binds { Binds (F.held files.old) (F.faults files.old) (F.faults files.new) kernels.now kernel.now
        (read_from 1 (texts_of items.now)) result }
    ensures good { IfOk result (IsGood kernels.now kernel.now) }
{
    match read_items(alloc, items)? {
        Ok(items) => bind_items(alloc, kernels, kernel.as_bytes(), items, files),
        Err(number) => Err(BindStop::Item(number)),
    }
}

/// Binds the words behind a module and a kernel to a call of the first kernel of that name that they fit.
///
/// The words are items: `buf:NAME(DIMS)=ELEMENTS` and `npy:NAME=PATH` give the call's buffers, numbered in word order,
/// `out:NAME=PATH` saves a buffer, and `PARAMETER=VALUE` passes an integer, `True`, `False` or a view
/// `@NAME[SUBSCRIPTS]` to a parameter. Each of nine tests goes over all items before the next one begins:
///
/// 1. An item is misspelled, its shape doesn't fit its elements, or an extent or the number of elements is above 2^22.
/// 2. It is the second for its buffer, parameter or saved buffer, or gives the 17th buffer.
/// 3. It speaks of a buffer that isn't there.
/// 4. The kernel is unknown (0).
/// 5. An item is for a parameter that the first kernel of the name doesn't have.
/// 6. A parameter of that kernel has no item (0).
/// 7. The array files are loaded in word order, each up to 34,000,000 bytes, and refused before the next one is loaded.
/// 8. The view of an item has a fault, too many subscripts, or no dimension left.
/// 9. No kernel of the name fits (0). A parameter takes a word of its kind, or a view of its kind and rank, whose
///    places are consecutive and rising where its type is flat.
///
/// It takes time linear in the words and the files, up to the logarithm of the number of items, as long as kernels have
/// few parameters. Elements are held once, and beside them the bytes of one file at a time.
pub fn bind<F: Files>(
    alloc: Global,
    kernels: &[KernelHead],
    kernel: &str,
    items: &[&str],
    files: &mut F,
) -> Result<BoundCall, BindStop>
    requires kernels { length kernels.now < 2 ^ 32 }
    requires items { length items.now < 2 ^ 32 }

    // No count falls, and what the names hold stays.
    ensures count { F.faults files.old ≤ F.faults files.new }
    ensures kept { (other : List ℕ) → F.held files.new other ≡ F.held files.old other }

    // The call is the one that the words come to with what their array files hold.
    ensures bound { IfOk result (λ bound.
        ComesTo (F.held files.old) (asked kernels.now kernel.now (texts_of items.now))
        (spec.Call (meaning bound))) }
    // An item is refused exactly by the tests, with what the files hold that come before it.
    ensures refused { (n : ℕ) → IsErrOf result (BindStop.Item n) →
        ComesTo (F.held files.old) (asked kernels.now kernel.now (texts_of items.now)) (Refused n) }
    // A load fails only where the count rose.
    ensures load_failed { IsErrOf result BindStop.LoadFailed → Rose (F.faults files.old) (F.faults files.new) }
    // The file that is to be loaded next is too long.
    ensures too_long { IsErrOf result BindStop.TooLong →
        MeetsLong (F.held files.old) (asked kernels.now kernel.now (texts_of items.now)) }

    // Where the files are told, the words come to one answer.
    ensures one_answer { AreTold (F.held files.old)
        (paths (asked kernels.now kernel.now (texts_of items.now))) →
        HasOneAnswer (F.held files.old) (asked kernels.now kernel.now (texts_of items.now)) }

    // The call fits its kernel.
    ensures fits { IfOk result (IsFitting kernels.now kernel.now) }
    // Its buffers hold arrays of rank 1 to 4 within the limits.
    ensures arrays { IfOk result (λ bound. All IsArray bound.call.buffers) }
    // What is saved is one of its buffers, under a path that is UTF-8.
    ensures saves { IfOk result (λ bound. All (IsSave bound.call.buffers) bound.saves) }
{
    file_laws();
    bind_words(alloc, kernels, kernel, items, files)
}
