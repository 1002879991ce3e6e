ghost use Rattle.std.specs.Prelude.{◌≡◌, map, IfOk, IfErr, string_bytes};
ghost use Rattle.pythran_main.specs.Ending.{text_of};
ghost use Rattle.pythran_main.specs.Steps.{product, save_of, Delivers, Tells, TellsOf, IsWorded};
ghost use Rattle.pythran_main.specs.World.{files_of, sink_of, AreStored, BrokeOff};
ghost use Rattle.pythran_main.specs.declared.trouble.Trouble.TheVariants as troubles;

use crate::answer::Report;
use crate::saved_file::SavedFile;
use crate::trouble::Trouble;
use host_io::{Files, Sink, StoreFault};
use krn_base::Refusal;
use std::alloc::{AllocError, Global};

/// Stores files, one after another, up to the first that can't be stored.
fn store_all<F: Files>(saves: &[SavedFile], files: &mut F) -> Result<(), StoreFault>
    ensures stored { IfOk result (λ done. AreStored (files_of F.Files files.old files.new) (map save_of saves.now)) }
    ensures failed { IfErr result (λ fault. BrokeOff (files_of F.Files files.old files.new) (map save_of saves.now)) }
{
    for save in saves {
        if let Err(fault) = files.store(save.path.as_str(), save.bytes.as_slice()) {
            return Err(fault);
        }
    }
    Ok(())
}

/// Writes a report on the output and then stores its files, and says whether it has a fault line.
pub fn deliver<F: Files, O: Sink>(
    report: &Report,
    files: &mut F,
    out: &mut O,
) -> Result<bool, Trouble>
    ensures { Delivers (product report.now) (files_of F.Files files.old files.new) (sink_of O.Sink out.old out.new)
        result }
{
    if out.put(report.text.as_slice()).is_err() {
        return Err(Trouble::WriteFailed);
    }
    match store_all(report.saves.as_slice(), files) {
        Ok(()) => Ok(report.has_fault),
        Err(_) => Err(Trouble::StoreFailed),
    }
}

/// Writes the text of a trouble on the error output, and says the status of the command.
fn tell<E: Sink>(err: &mut E, text: &[u8], trouble: Trouble) -> u8
    requires { text.now ≡ text_of trouble }
    ensures { Tells trouble (sink_of E.Sink err.old err.new) result }
{
    match err.put(text) {
        Ok(()) => trouble.status(),
        Err(_) => 5,
    }
}

/// The text of a refused module.
fn refused_line(alloc: Global, refusal: Refusal) -> Result<String, AllocError>
    ensures { IfOk result (λ text. string_bytes text ≡ text_of (troubles.Refused refusal)) }
{
    let rule = refusal.rule.name();
    let line = refusal.loc.line;
    let col = refusal.loc.col;
    format!(in alloc; "refused {rule} {line}:{col}\n")
}

/// The text of a refused item.
fn item_line(alloc: Global, number: u32) -> Result<String, AllocError>
    ensures { IfOk result (λ text. string_bytes text ≡ text_of (troubles.RefusedItem number)) }
{
    format!(in alloc; "error item {number}\n")
}

/// Tells a trouble by a text for which there may have been no memory.
fn tell_line<E: Sink>(err: &mut E, line: Result<String, AllocError>, trouble: Trouble) -> u8
    requires line { IfOk line (λ text. string_bytes text ≡ text_of trouble) }
    requires worded { IsWorded trouble }
    ensures { TellsOf trouble (sink_of E.Sink err.old err.new) result }
{
    match line {
        Ok(text) => tell(err, text.as_bytes(), trouble),
        Err(_) => tell(err, b"error memory\n", Trouble::Memory),
    }
}

/// Tells a trouble on the error output, and says the status of the command: that of the trouble; 6 where memory for its
/// text was wanting; 5 where the text could not be written whole.
pub fn tell_trouble<E: Sink>(alloc: Global, trouble: Trouble, err: &mut E) -> u8
    ensures { TellsOf trouble (sink_of E.Sink err.old err.new) result }
{
    match trouble {
        Trouble::Refused(refusal) => tell_line(err, refused_line(alloc, refusal), trouble),
        Trouble::RefusedItem(number) => tell_line(err, item_line(alloc, number), trouble),
        Trouble::NoRequest => tell(err, b"error words\n", trouble),
        Trouble::LoadFailed => tell(err, b"error load\n", trouble),
        Trouble::WriteFailed => tell(err, b"error write\n", trouble),
        Trouble::StoreFailed => tell(err, b"error store\n", trouble),
        Trouble::Memory => tell(err, b"error memory\n", trouble),
        Trouble::TooLong => tell(err, b"error long\n", trouble),
    }
}
