ghost use Rattle.std.specs.Prelude.{◌≡◌, ◌≤◌, IfOk, IfSome, map, option_map};
ghost use Rattle.std.specs.String.{string_bytes};
ghost use Rattle.call_words.specs.CommandLine.{texts_in};
ghost use Rattle.call_words.specs.Request as spec;
ghost use Rattle.call_words.specs.Request.{meaning, texts};

use crate::command_line::sorted;
use std::alloc::{AllocError, Global};

/// What is to be done with a kernel.
#[derive(Clone, Copy, Debug, PartialEq, Eq)]
pub enum Command {
    /// It is run, its parallel loops by this many workers, from 1 to 64.
    Run { workers: u8 },
    /// It is evaluated, one whole-array operation after another.
    Eager,
}

/// What the words of a command ask for.
#[derive(Debug, Drop)]
pub struct Request<'a> {
    pub command: Command,
    /// The path of the module.
    pub source: &'a str,
    pub kernel: &'a str,
    pub items: Vec<&'a str>,
}

/// The number with one more digit behind it, where the byte is a digit and the number at most 64.
fn with_digit(number: u8, byte: u8) -> Option<u8>
    requires { number ≤ 64 }
    ensures value { result ≡ spec.with_digit number byte }
    ensures small { IfSome result (λ n. n ≤ 64) }
{
    if !byte.is_ascii_digit() {
        return None;
    }
    let more = u16::from(number) * 10 + u16::from(byte - b'0');
    if more <= 64 { Some(more as u8) } else { None }
}

/// The number of these digits, where it is at most 64.
fn digits(text: &[u8]) -> Option<u8>
    ensures { result ≡ spec.digits_from 0 text.now }
{
    let mut number = 0;
    for byte in text {
        match with_digit(number, *byte) {
            Some(more) => number = more,
            None => return None,
        }
    }
    Some(number)
}

/// The number from 1 to 64 that a text is, in decimal digits without a zero in front.
fn number(text: &str) -> Option<u8>
    ensures { result ≡ spec.number text.now }
{
    match text.as_bytes() {
        [] => None,
        [b'0', ..] => None,
        bytes => digits(bytes),
    }
}

/// How many workers the values of `--workers` ask for: 1 where there are none, and None where there are several.
fn workers(values: Option<&[&str]>) -> Option<u8>
    ensures { result ≡ spec.workers (texts_in values.entry) }
{
    match values {
        None => Some(1),
        Some([]) => Some(1),
        Some([value]) => number(*value),
        Some(_) => None,
    }
}

/// The request of a command on a module, a kernel and items.
fn of_words<'a>(
    alloc: Global,
    command: Command,
    words: Option<&[&'a str]>,
) -> Result<Option<Request<'a>>, AllocError>
    ensures { IfOk result (λ request. option_map meaning request ≡ spec.of_words command (texts_in words.entry)) }
{
    match words {
        Some([source, kernel, items @ ..]) => Ok(Some(Request {
            command,
            source: *source,
            kernel: *kernel,
            items: Vec::from_slice(alloc, items)?,
        })),
        _ => Ok(None),
    }
}

/// The request of `run`.
fn run<'a>(
    alloc: Global,
    words: Option<&[&'a str]>,
    values: Option<&[&str]>,
) -> Result<Option<Request<'a>>, AllocError>
    ensures { IfOk result (λ request. option_map meaning request
        ≡ spec.run_of (texts_in words.entry, texts_in values.entry)) }
{
    match workers(values) {
        Some(workers) => of_words(alloc, Command::Run { workers }, words),
        None => Ok(None),
    }
}

fn read_run<'a>(alloc: Global, words: &'a [String]) -> Result<Option<Request<'a>>, AllocError>
    ensures { IfOk result (λ request. option_map meaning request ≡ spec.read_run (texts words.entry.now)) }
{
    match sorted(alloc, true, words)? {
        Some(matches) => run(alloc, matches.get_strs("word"), matches.get_strs("workers")),
        None => Ok(None),
    }
}

fn read_eager<'a>(alloc: Global, words: &'a [String]) -> Result<Option<Request<'a>>, AllocError>
    ensures { IfOk result (λ request. option_map meaning request ≡ spec.read_eager (texts words.entry.now)) }
{
    match sorted(alloc, false, words)? {
        Some(matches) => of_words(alloc, Command::Eager, matches.get_strs("word")),
        None => Ok(None),
    }
}

/// The request that words make, which exclude the program's name, or None where they make none.
///
/// The first word is the command. `run` and `eager` take a module, a kernel and any number of items. `--workers N` or
/// `--workers=N` may stand anywhere behind `run`, once, where N is 1 to 64 in decimal digits; it is 1 where the option
/// is left out. The first `--` is dropped, and each word behind it is an ordinary one. Before it, any other word that
/// begins with `-` and isn't `-` alone is refused.
///
/// It takes time linear in the words.
pub fn read_request<'a>(
    alloc: Global,
    words: &'a [String],
) -> Result<Option<Request<'a>>, AllocError>
    ensures { IfOk result (λ request. option_map meaning request ≡ spec.request (texts words.entry.now)) }
{
    match words {
        [command, rest @ ..] if command.as_str() == "run" => read_run(alloc, rest),
        [command, rest @ ..] if command.as_str() == "eager" => read_eager(alloc, rest),
        _ => Ok(None),
    }
}
