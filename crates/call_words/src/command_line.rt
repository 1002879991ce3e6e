//! The words behind a command, as `clap` sorts them.
ghost use Rattle.std.specs.Prelude.{◌≡◌, IfOk, false, map, option_map};
ghost use Rattle.std.specs.String.{string_bytes};
ghost use Rattle.clap.specs.Words.{app_of, with_rule};
ghost use Rattle.call_words.specs.CommandLine.{app, words_app, workers_rule, sorted_of};
ghost use Rattle.call_words.specs.Request.{sort};

use clap::error::ErrorKind;
use clap::{Arg, ArgAction, ArgMatches, Command};
use std::alloc::{AllocError, Global};

/// The command line of ordinary words, any number of them.
fn words_line<'a>(alloc: Global) -> Result<Command<'a>, AllocError>
    ensures { IfOk result (λ line. app_of line ≡ words_app) }
{
    let word = Arg::new(alloc, "word").action(ArgAction::Append);
    Command::new(alloc, "words")
        .no_binary_name(true)
        .disable_help_flag(true)
        .disable_version_flag(true)
        .arg(word)
}

/// The command line with the option `--workers`, any number of times.
fn with_workers<'a>(alloc: Global, line: Command<'a>) -> Result<Command<'a>, AllocError>
    ensures { IfOk result (λ more. app_of more ≡ with_rule (app_of line.entry) workers_rule) }
{
    let workers = Arg::new(alloc, "workers")
        .long("workers")
        .action(ArgAction::Append);
    line.arg(workers)
}

/// The command line behind a command. How many words there are, and how often the option stands, is judged of what is
/// read.
fn command_line<'a>(alloc: Global, takes_workers: bool) -> Result<Command<'a>, AllocError>
    ensures { IfOk result (λ line. app_of line ≡ app takes_workers) }
{
    let line = words_line(alloc)?;
    if takes_workers {
        with_workers(alloc, line)
    } else {
        Ok(line)
    }
}

/// The words behind a command, sorted into the ordinary ones and the values of `--workers`, or None where one of them
/// is refused. It takes time linear in the words.
pub fn sorted<'a>(
    alloc: Global,
    takes_workers: bool,
    words: &'a [String],
) -> Result<Option<ArgMatches<'a>>, AllocError>
    ensures { IfOk result (λ matches. option_map sorted_of matches
        ≡ sort takes_workers false (map string_bytes words.entry.now)) }
{
    let line = command_line(alloc, takes_workers)?;
    match line.try_get_matches_from(words) {
        Ok(matches) => Ok(Some(matches)),
        Err(error) => match error.kind() {
            ErrorKind::OutOfMemory => Err(AllocError),
            _ => Ok(None),
        },
    }
}
