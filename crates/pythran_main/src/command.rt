ghost use Rattle.std.specs.Prelude.{◌≡◌, ℕ, ◌≤◌, List, Some};
ghost use Rattle.krn_base.specs.declared.refusal.Refusal.{Refusal};
ghost use Rattle.pythran_main.specs.Ending.{Ends, IsDone, IsTold};
ghost use Rattle.call_words.specs.Request.{request as asked_by, meaning, texts};
ghost use Rattle.pythran_main.specs.Steps.{Works};
ghost use Rattle.pythran_main.specs.Theorem.{IsFailed, IsDeclined, IsComplete};
ghost use Rattle.pythran_main.specs.World.{files_of, sink_of, world};

use crate::deliver::{deliver, tell_trouble};
use crate::load::prepare;
use crate::trouble::Trouble;
use call_words::{Request, read_request};
use host_io::{Files, Gate, Sink};
use std::alloc::Global;
use std::thread::Threads;

/// Serves a request, up to the text of a trouble. Says whether the report has a fault line.
fn serve_request<F: Files, O: Sink>(
    alloc: Global,
    request: &Request<'_>,
    files: &mut F,
    out: &mut O,
) -> Result<bool, Trouble>
    ensures { (words : List (List ℕ)) → asked_by words ≡ Some (meaning request.now) →
        Works words (files_of F.Files files.old files.new) (sink_of O.Sink out.old out.new) result }
{
    match prepare(alloc, request, files) {
        Ok(report) => deliver(&report, files, out),
        Err(trouble) => Err(trouble),
    }
}

/// Serves the words, up to the text of a trouble.
fn serve<F: Files, O: Sink>(
    alloc: Global,
    words: &[String],
    files: &mut F,
    out: &mut O,
) -> Result<bool, Trouble>
    ensures { Works (texts words.now) (files_of F.Files files.old files.new) (sink_of O.Sink out.old out.new) result }
{
    match read_request(alloc, words)? {
        Some(request) => serve_request(alloc, &request, files, out),
        None => Err(Trouble::NoRequest),
    }
}

/// Serves the words, and says the exit status.
fn end<F: Files, O: Sink, E: Sink>(
    alloc: Global,
    words: &[String],
    files: &mut F,
    out: &mut O,
    err: &mut E,
) -> u8
    ensures { Ends (texts words.now)
        (world F.Files files.old files.new O.Sink out.old out.new E.Sink err.old err.new) result }
{
    match serve(alloc, words, files, out) {
        Ok(has_fault) => u8::from(has_fault),
        Err(trouble) => tell_trouble(alloc, trouble, err),
    }
}

/// Runs a command: reads its words, which exclude the program's name, and writes its report on `out` or its error text
/// on `err`.
///
/// The exit status is 0 for a report without a fault and 1 for one with a fault; 2 where the words are no request; 3
/// where the module is refused; 4 where an item is; 5 where a load, a write or a store failed; 6 where memory was
/// wanting; 7 where the module is longer than 1,048,576 bytes, or an array file longer than 34,000,000.
///
/// Files are loaded before anything is written: the module, and then the array files of the items in word order. The
/// saved buffers are stored once the whole report is out, in word order, also after a fault of the kernel.
pub fn pythran<R: Threads + Sync, F: Files, O: Sink, E: Sink, G: Gate + Sync>(
    _rt: &R,
    alloc: Global,
    words: &[String],
    files: &mut F,
    out: &mut O,
    err: &mut E,
    _gate: &G,
) -> u8
    // 0 and 1: all that the request makes is written and stored; 1 exactly for a fault.
    ensures done { result ≤ 1 → IsDone (texts words.now)
        (world F.Files files.old files.new O.Sink out.old out.new E.Sink err.old err.new) result }

    // 2: the words are no request; and then it comes, unless the error text broke off or memory was wanting.
    ensures no_request { result ≡ 2 → IsTold (texts words.now)
        (world F.Files files.old files.new O.Sink out.old out.new E.Sink err.old err.new) Trouble.NoRequest }
    ensures words { IsDeclined (texts words.now)
        (world F.Files files.old files.new O.Sink out.old out.new E.Sink err.old err.new) result }

    // 3: the source is refused, by the refusal that is told.
    ensures refused { result ≡ 3 → (refusal : Refusal) × IsTold (texts words.now)
        (world F.Files files.old files.new O.Sink out.old out.new E.Sink err.old err.new) (Trouble.Refused refusal) }

    // 4: the source stands and an item is refused, by the number that is told.
    ensures item { result ≡ 4 → (number : ℕ) × IsTold (texts words.now)
        (world F.Files files.old files.new O.Sink out.old out.new E.Sink err.old err.new) (Trouble.RefusedItem number) }

    // 5: a count of faults rose in this call, and a first part of what was due is there.
    ensures failed { result ≡ 5 → IsFailed (texts words.now)
        (world F.Files files.old files.new O.Sink out.old out.new E.Sink err.old err.new) }

    // 6: nothing is written or stored.
    ensures memory { result ≡ 6 → IsTold (texts words.now)
        (world F.Files files.old files.new O.Sink out.old out.new E.Sink err.old err.new) Trouble.Memory }

    // 7: a file is longer than its limit.
    ensures long { result ≡ 7 → IsTold (texts words.now)
        (world F.Files files.old files.new O.Sink out.old out.new E.Sink err.old err.new) Trouble.TooLong }

    ensures statuses { result ≤ 7 }

    // Where no count of faults rose and the files are told, the answer is served that they give, or memory was wanting.
    ensures complete { IsComplete (texts words.now)
        (world F.Files files.old files.new O.Sink out.old out.new E.Sink err.old err.new) result }
{
    end(alloc, words, files, out, err)
}
