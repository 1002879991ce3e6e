// Modules from their texts: those that have types, with their core, and those that are refused, with the place. What
// is expected was written by hand from the rules of the types.
//
// The kernel of most tables has the parameters i: int, b: bool, v: an array of ints, w: one of bools, m and p: the
// same of rank 2, q: one of ints of rank 4. They are its names 0 to 6.
use crate::{Signature, typed_terms};
use eager_rules::Program;
use export_sig::{directives, exports};
use krn_base::{Refusal, Seq, Stop};
use module_terms::{Routine, resolve};
use py_lex::tokens;
use py_parse::parse;
use std::alloc::{AllocError, Global};
use std::fmt::Write;

// The signatures with the numbers of their functions.
fn numbered(
    alloc: Global,
    found: Seq<export_sig::Signature>,
    routines: &[Routine],
) -> Result<Seq<Signature>, Stop> {
    let mut signatures = Seq::new(alloc);
    for s in found.into_vec() {
        let mut function = 0;
        for k in 0..routines.len().min(1 << 20) {
            if routines[k].name.text == s.name.text {
                function = k as u32;
            }
        }
        signatures.push(Signature {
            function,
            params: s.params,
            loc: s.loc,
        })?;
    }
    Ok(signatures)
}

pub fn program_of(alloc: Global, source: &[u8]) -> Result<Program, Stop> {
    if source.len() > 1 << 31 {
        return Err(Stop::Memory);
    }
    let found = tokens(alloc, source)?;
    let module = parse(alloc, source, &found)?;
    let exported = exports(alloc, &module)?;
    let notes = directives(alloc, &module)?;
    let routines = resolve(alloc, &module, notes.as_slice())?;
    let signatures = numbered(alloc, exported, routines.as_slice())?;
    typed_terms(alloc, routines.as_slice(), signatures.as_slice())
}

// Printed forms in fewer words: lists in brackets, names in parentheses, places as `@line:col`.
fn brief(alloc: Global, printed: &str) -> Result<String, AllocError> {
    printed
        .replace(alloc, "Seq { items: [", "[")?
        .replace(alloc, "Loc { line: ", "@")?
        .replace(alloc, ", col: ", ":")?
        .replace(alloc, "{ to: ", "")?
        .replace(alloc, "{ ", "")?
        .replace(alloc, " }", "")?
        .replace(alloc, "Name(", "(")?
        .replace(alloc, "op: ", "")?
        .replace(alloc, "args: ", "")?
        .replace(alloc, "at: ", "")?
        .replace(alloc, "Int64", "I")?
        .replace(alloc, "Bool", "B")
}

fn refusal(alloc: Global, r: Refusal) -> Result<String, AllocError> {
    let mut out = String::new(alloc);
    write!(&mut out, "{} {}:{}", r.rule.name(), r.loc.line, r.loc.col)?;
    Ok(out)
}

// The names behind the parameters with their types, and the body of the first instance.
fn kernel(alloc: Global, program: &Program) -> Result<String, AllocError> {
    let mut out = String::new(alloc);
    if let Some(f) = program.instances.as_slice().first() {
        let names = f.names.as_slice();
        let own = &names[names.len().min(7)..];
        write!(&mut out, "{own:?} {:?}", f.body)?;
    }
    brief(alloc, out.as_str())
}

pub fn kernel_text(alloc: Global, source: &[u8]) -> Result<String, Stop> {
    match program_of(alloc, source) {
        Ok(program) => Ok(kernel(alloc, &program)?),
        Err(Stop::Refused(r)) => Ok(refusal(alloc, r)?),
        Err(Stop::Memory) => Err(Stop::Memory),
    }
}

pub fn program_text(alloc: Global, source: &[u8]) -> Result<String, Stop> {
    match program_of(alloc, source) {
        Ok(program) => {
            let mut out = String::new(alloc);
            write!(&mut out, "{program:?}")?;
            Ok(brief(alloc, out.as_str())?)
        }
        Err(Stop::Refused(r)) => Ok(refusal(alloc, r)?),
        Err(Stop::Memory) => Err(Stop::Memory),
    }
}

static HEAD: &str =
    "import numpy as np\n#pythran export f(int, bool, int[::], bool[::], int[::,::], bool[::,::], \
    int[:,:,:,:])\ndef f(i, b, v, w, m, p, q):\n";

pub fn source_of(alloc: Global, start: &str, body: &str) -> Result<String, AllocError> {
    let mut source = String::new(alloc);
    source.push_str(HEAD)?;
    source.push_str(start)?;
    source.push_str(body)?;
    source.push_str("\n")?;
    Ok(source)
}

// A module with a kernel `f` of this body, behind these functions.
pub fn with_kernel(alloc: Global, functions: &str, body: &str) -> Result<String, AllocError> {
    let mut source = String::new(alloc);
    source.push_str("#pythran export f(int)\n")?;
    source.push_str(functions)?;
    source.push_str("def f(a):\n")?;
    source.push_str(body)?;
    Ok(source)
}
