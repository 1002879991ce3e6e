//! The command `pythran`: exported NumPy kernels over int64 arrays, read, checked and run.
//!
//! `main` collects the words and makes the real files and streams. What the command does with them is `pythran`.
#![tactic(auto)]

ghost use Rattle.std.specs.Prelude.{◌≡◌, ◌≢◌, [], drop, IfOk, IfErr, IsErr, IsOkAnd};
ghost use Rattle.std.specs.IoError.{error_kind};
ghost use Rattle.std.specs.Vec.Iter.{into_iter_items};

mod answer;
mod command;
mod compile;
#[cfg(test)]
mod compile_tests;
mod deliver;
#[cfg(test)]
mod eager_tests;
#[cfg(test)]
mod file_tests;
#[cfg(test)]
mod flat_tests;
mod flattening;
mod load;
#[cfg(test)]
mod loop_tests;
mod program;
mod reading;
mod saved_file;
mod served;
#[cfg(test)]
mod tests;
mod trouble;

use command::pythran;
use host_io::{OpenGate, OsFiles, OsSink};
use std::alloc::{AllocError, Global};
use std::env;
use std::io::{self, ErrorKind};
use std::process::ExitCode;

/// The arguments after the program's name, all of them, in order.
fn after_name(alloc: Global, args: env::Args) -> Result<Vec<String>, AllocError>
    ensures { IfOk result (λ words. words.items ≡ drop 1 (into_iter_items args)) }
{
    args.skip(1).collect(alloc)
}

/// The words of a command: the arguments after the program's name, or none where they can't be had, as where one of
/// them isn't UTF-8, since no words make no request. Want of memory is the one error.
fn words_of(alloc: Global, args: io::Result<env::Args>) -> Result<Vec<String>, AllocError>
    ensures all { IfOk args (λ args. IfOk result (λ words. words.items ≡ drop 1 (into_iter_items args))) }
    ensures none { IfErr args (λ error. error_kind error ≢ ErrorKind.OutOfMemory →
        IsOkAnd result (λ words. words.items ≡ [])) }
    ensures memory { IfErr args (λ error. error_kind error ≡ ErrorKind.OutOfMemory → IsErr result) }
{
    match args {
        Ok(args) => after_name(alloc, args),
        Err(error) => match error.kind() {
            ErrorKind::OutOfMemory => Err(AllocError),
            _ => Ok(Vec::new(alloc)),
        },
    }
}

fn main(rt: HostRuntime) -> ExitCode {
    let Ok(words) = words_of(rt.alloc(), env::args(&rt)) else {
        return ExitCode::from(6);
    };
    let mut files = OsFiles::new(&rt);
    let mut out = OsSink::new(rt.stdout());
    let mut err = OsSink::new(rt.stderr());
    ExitCode::from(pythran(
        &rt,
        rt.alloc(),
        words.as_slice(),
        &mut files,
        &mut out,
        &mut err,
        &OpenGate,
    ))
}
