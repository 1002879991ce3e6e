ghost use Rattle.std.specs.Prelude.{◌≡◌, ◌<◌, ◌≤◌, ◌^◌, length, IfOk};
ghost use Rattle.std.specs.List.{All};
ghost use Rattle.call_binding.specs.Binding.{meaning as bound_meaning};
ghost use Rattle.call_binding.specs.Fitting.{IsSave};
ghost use Rattle.call_binding.specs.Sound.{IsArray};
ghost use Rattle.call_report.specs.Report.{report_of};
ghost use Rattle.pythran_main.specs.Answer.{product_of, source_of};
ghost use Rattle.pythran_main.specs.Answer as spec;
ghost use Rattle.pythran_main.specs.Flattening.{IsKept};
ghost use Rattle.pythran_main.specs.Loads.{Whole};
ghost use Rattle.call_words.specs.Request.{meaning};
ghost use Rattle.pythran_main.specs.Steps.{product, IsCall, Prepares, CallsTo, LeadsTo};
ghost use Rattle.pythran_main.specs.World.{files_of, AreKept};

use crate::flattening::Flattened;
use crate::program::{Finished, heads_of, run};
use crate::reading::read_module;
use crate::saved_file::{SavedFile, run_files};
use crate::trouble::Trouble;
use call_binding::{BoundCall, bind};
use call_report::{BufferHead, report};
use call_words::{Command, Request};
use eager_rules::{Counts, Outcome};
use host_io::Files;
use krn_base::{NoMemory, Seq, Text};
use std::alloc::{AllocError, Global};
use view_places::Array;

/// What a command writes and stores, ready before its first byte is out.
#[derive(Debug, PartialEq, Eq, Drop)]
pub struct Report {
    pub text: Seq<u8>,
    /// Whether the text has a fault line.
    pub has_fault: bool,
    /// The files to be stored, in order.
    pub saves: Seq<SavedFile>,
}

/// The buffers' names, kinds and shapes.
fn buffer_heads(
    alloc: Global,
    names: &[Text],
    arrays: &[Array],
) -> Result<Vec<BufferHead>, AllocError>
    ensures { IfOk result (λ heads. heads.items ≡ spec.buffer_heads names.now arrays.now) }
{
    let mut heads = Vec::new(alloc);
    for (name, array) in names.iter().zip(arrays) {
        heads.push(BufferHead {
            name: name.try_copy()?,
            kind: array.kind,
            shape: array.shape,
        })?;
    }
    Ok(heads)
}

/// The report of a call with these buffers.
fn text_of(
    alloc: Global,
    names: &[Text],
    buffers: &[Array],
    outcome: &Outcome,
    counts: Option<Counts>,
) -> Result<Seq<u8>, NoMemory>
    ensures { IfOk result (λ text. text ≡
        report_of (spec.buffer_heads names.now buffers.now) outcome.now counts) }
{
    let heads = buffer_heads(alloc, names, buffers)?;
    let text = report(alloc, heads.as_slice(), outcome, counts)?;
    Ok(Seq::from_vec(text))
}

/// The report of a kernel's run on a bound call, and the files of its saved buffers.
fn run_bound(
    alloc: Global,
    command: Command,
    found: &Flattened,
    bound: BoundCall,
) -> Result<Report, NoMemory>
    requires kept { IsKept found.now }
    requires fits { IsCall found.now.program bound.kernel bound.call }
    requires arrays { All IsArray bound.call.buffers }
    requires saves { All (IsSave bound.call.buffers) bound.saves }
    ensures { IfOk result (λ made. product made ≡
        product_of (bound_meaning bound) ((source_of command found.now).run (bound_meaning bound))) }
{
    let BoundCall {
        kernel,
        names,
        call,
        saves,
    } = bound;
    let Finished { outcome, counts } = run(alloc, command, found, kernel, &call)?;
    let text = text_of(
        alloc,
        names.as_slice(),
        call.buffers.as_slice(),
        &outcome,
        counts,
    )?;
    let has_fault = outcome.fault.is_some();
    Ok(Report {
        text,
        has_fault,
        saves: run_files(alloc, call.buffers, outcome.buffers, saves.as_slice())?,
    })
}

/// What a request of this program with its flat form comes to. Kernels are numbered within 31 bits.
fn answer_program<F: Files>(
    alloc: Global,
    found: Flattened,
    request: &Request<'_>,
    files: &mut F,
) -> Result<Report, Trouble>
    requires kept { IsKept found }
    requires items { length request.now.items.items < 2 ^ 31 }
    ensures count { F.faults files.old ≤ F.faults files.new }
    ensures kept { AreKept (files_of F.Files files.old files.new) }
    ensures prepared { Prepares (CallsTo (meaning request.now) (source_of request.now.command found))
        (files_of F.Files files.old files.new) result }
{
    let heads = heads_of(alloc, &found.program)?;
    if heads.len() >= 1 << 31 {
        return Err(Trouble::Memory);
    }
    match bind(
        alloc,
        heads.as_slice(),
        request.kernel,
        request.items.as_slice(),
        files,
    ) {
        Ok(bound) => Ok(run_bound(alloc, request.command, &found, bound)?),
        Err(stop) => Err(Trouble::from(stop)),
    }
}

/// What a request comes to with this source's bytes. Items are numbered within 32 bits.
pub fn answer_request<F: Files>(
    alloc: Global,
    file: &[u8],
    request: &Request<'_>,
    files: &mut F,
) -> Result<Report, Trouble>
    requires { length file.now ≤ 2 ^ 31 }
    ensures count { F.faults files.old ≤ F.faults files.new }
    ensures kept { AreKept (files_of F.Files files.old files.new) }
    ensures prepared { Prepares (LeadsTo (meaning request.now) (Whole file.now))
        (files_of F.Files files.old files.new) result }
{
    if request.items.len() >= 1 << 31 {
        return Err(Trouble::Memory);
    }
    match read_module(alloc, file)? {
        Ok(found) => answer_program(alloc, found, request, files),
        Err(refusal) => Err(Trouble::Refused(refusal)),
    }
}
