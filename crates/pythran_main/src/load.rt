ghost use Rattle.std.specs.Prelude.{◌<◌, ◌≤◌, IfOk, IfErr};
ghost use Rattle.pythran_main.specs.Answer.{source_limit, Reaches};
ghost use Rattle.pythran_main.specs.Loads.{Gives, Whole};
ghost use Rattle.call_words.specs.Request.{meaning};
ghost use Rattle.pythran_main.specs.Steps.{IsUnloaded, Prepares};
ghost use Rattle.pythran_main.specs.World.{files_of, AreKept};

use crate::answer::{Report, answer_request};
use crate::trouble::Trouble;
use call_words::Request;
use host_io::{Files, LoadFault};
use std::alloc::Global;

/// A source has at most so many bytes.
const SOURCE_LIMIT: usize = 1_048_576;

/// The bytes of a request's source.
fn load_source<F: Files>(alloc: Global, files: &mut F, path: &str) -> Result<Vec<u8>, Trouble>
    ensures count { F.faults files.old ≤ F.faults files.new }
    ensures kept { AreKept (files_of F.Files files.old files.new) }
    ensures content { IfOk result (λ file. Gives (F.held files.old path.now) source_limit (Whole file.items)) }
    ensures failed { IfErr result (IsUnloaded (files_of F.Files files.old files.new) path.now) }
{
    let mut file = Vec::new(alloc);
    match files.load(path, SOURCE_LIMIT, &mut file) {
        Ok(()) => Ok(file),
        Err(LoadFault::Failed) => Err(Trouble::LoadFailed),
        Err(LoadFault::TooLong) => Err(Trouble::TooLong),
        Err(LoadFault::Memory) => Err(Trouble::Memory),
    }
}

/// Loads the request's files and makes all that is to be written.
pub fn prepare<F: Files>(
    alloc: Global,
    request: &Request<'_>,
    files: &mut F,
) -> Result<Report, Trouble>
    ensures count { F.faults files.old ≤ F.faults files.new }
    ensures prepared { Prepares (Reaches (meaning request.now)) (files_of F.Files files.old files.new) result }
    ensures kept { AreKept (files_of F.Files files.old files.new) }
{
    match load_source(alloc, files, request.source) {
        Ok(file) => answer_request(alloc, file.as_slice(), request, files),
        Err(trouble) => Err(trouble),
    }
}
