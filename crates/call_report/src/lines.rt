ghost use Rattle.std.specs.Prelude.{◌≡◌, ◌++◌, OnOk, codes, map};
ghost use Rattle.std.specs.Fmt.{decimal};
ghost use Rattle.std.specs.List.{zip};
ghost use Rattle.call_report.specs.Report.{value_text, return_line, fault_line, ending_lines, buffer_line, counts_line};
ghost use Rattle.call_report.specs.Report.{counts_lines, lines_text};

use crate::elements::{append_array, append_bytes, append_element, append_kind, append_number};
use crate::head::BufferHead;
use eager_rules::{Counts, Outcome, Value};
use krn_base::{Fault, Loc, NoMemory, Seq};
use std::alloc::Global;

fn append_value(alloc: Global, out: &mut Vec<u8>, value: &Value) -> Result<(), NoMemory>
    ensures { OnOk result (out.new.items ≡ out.old.items ++ value_text value.now) }
{
    match value {
        Value::Word(kind, word) => {
            append_kind(out, *kind)?;
            append_element(alloc, out, *kind, *word)
        }
        Value::Array(array) => append_array(
            alloc,
            out,
            array.kind,
            &array.shape,
            array.words.as_slice(),
        ),
    }
}

fn append_return_line(alloc: Global, out: &mut Vec<u8>, value: &Value) -> Result<(), NoMemory>
    ensures { OnOk result (out.new.items ≡ out.old.items ++ (return_line value.now ++ codes "\n")) }
{
    append_bytes(out, b"return ")?;
    append_value(alloc, out, value)?;
    append_bytes(out, b"\n")
}

fn append_return_lines(alloc: Global, out: &mut Vec<u8>, values: &[Value]) -> Result<(), NoMemory>
    ensures { OnOk result (out.new.items ≡ out.old.items ++ lines_text (map return_line values.now)) }
{
    for value in values {
        append_return_line(alloc, out, value)?;
    }
    Ok(())
}

fn append_fault_line(
    alloc: Global,
    out: &mut Vec<u8>,
    fault: Fault,
    at: Loc,
) -> Result<(), NoMemory>
    ensures { OnOk result (out.new.items ≡ out.old.items ++ (fault_line (fault, at) ++ codes "\n")) }
{
    append_bytes(out, b"fault ")?;
    append_bytes(out, fault.name().as_bytes())?;
    append_bytes(out, b" ")?;
    append_number(alloc, out, u64::from(at.line))?;
    append_bytes(out, b":")?;
    append_number(alloc, out, u64::from(at.col))?;
    append_bytes(out, b"\n")
}

/// Appends the lines that say how the call ended.
pub fn append_ending(alloc: Global, out: &mut Vec<u8>, outcome: &Outcome) -> Result<(), NoMemory>
    ensures { OnOk result (out.new.items ≡
        out.old.items ++ lines_text (ending_lines outcome.now.fault outcome.now.ret)) }
{
    match outcome.fault {
        Some((fault, at)) => append_fault_line(alloc, out, fault, at),
        None => match outcome.ret.as_slice() {
            [] => append_bytes(out, b"return none\n"),
            values => append_return_lines(alloc, out, values),
        },
    }
}

fn append_buffer_line(
    alloc: Global,
    out: &mut Vec<u8>,
    head: &BufferHead,
    words: &[i64],
) -> Result<(), NoMemory>
    ensures { OnOk result (out.new.items ≡ out.old.items ++ (buffer_line (head.now, words.now) ++ codes "\n")) }
{
    append_bytes(out, b"buffer ")?;
    append_bytes(out, head.name.as_slice())?;
    append_bytes(out, b" ")?;
    append_array(alloc, out, head.kind, &head.shape, words)?;
    append_bytes(out, b"\n")
}

/// Appends a line for each buffer.
pub fn append_buffers(
    alloc: Global,
    out: &mut Vec<u8>,
    heads: &[BufferHead],
    buffers: &[Seq<i64>],
) -> Result<(), NoMemory>
    ensures { OnOk result (out.new.items ≡ out.old.items ++ lines_text (map buffer_line (zip heads.now buffers.now))) }
{
    for (head, words) in heads.iter().zip(buffers) {
        append_buffer_line(alloc, out, head, words.as_slice())?;
    }
    Ok(())
}

fn append_count(alloc: Global, out: &mut Vec<u8>, name: &[u8], count: u64) -> Result<(), NoMemory>
    ensures { OnOk result (out.new.items ≡ out.old.items ++ (name.now ++ decimal count)) }
{
    append_bytes(out, name)?;
    append_number(alloc, out, count)
}

fn append_counts_line(alloc: Global, out: &mut Vec<u8>, counts: &Counts) -> Result<(), NoMemory>
    ensures { OnOk result (out.new.items ≡ out.old.items ++ (counts_line counts.now ++ codes "\n")) }
{
    append_count(alloc, out, b"counts nests ", counts.nests)?;
    append_count(alloc, out, b" temps ", counts.temps)?;
    append_count(alloc, out, b" parallel ", counts.parallel)?;
    append_count(alloc, out, b" serial ", counts.serial)?;
    append_bytes(out, b"\n")
}

/// Appends the line of the counts where they are given.
pub fn append_counts(
    alloc: Global,
    out: &mut Vec<u8>,
    counts: &Option<Counts>,
) -> Result<(), NoMemory>
    ensures { OnOk result (out.new.items ≡ out.old.items ++ lines_text (counts_lines counts.now)) }
{
    match counts {
        Some(counts) => append_counts_line(alloc, out, counts),
        None => Ok(()),
    }
}
