// The text of a loop program.
ghost use Rattle.std.specs.Prelude.{◌≡◌, ◌++◌, true, OnOk, IfOk};
ghost use Rattle.std.specs.List.{flat_map, list_all};
ghost use Rattle.cpp_print.specs.Printable.{is_printable, kernel_printable};
ghost use Rattle.cpp_print.specs.Programs.{kernel_text, program_text};

use crate::output::Output;
use crate::programs::put_kernel;
use krn_base::NoMemory;
use loop_prog::{Kernel, LoopProgram};
use std::alloc::Global;

fn put_kernels(out: &mut Output, kernels: &[Kernel]) -> Result<(), NoMemory>
    requires { list_all kernel_printable kernels.now ≡ true }
    ensures { OnOk result (out.new ≡ out.old ++ flat_map kernel_text kernels.now) }
{
    for kernel in kernels {
        put_kernel(out, kernel)?;
    }
    Ok(())
}

/// The C++ text of a printable program, as ASCII lines that each end with a line feed. A program is printable where
/// each name is a letter or `_` and then letters, digits and `_`, each template is one tree, each `Set` has as many
/// operands as its operation takes, the parameters' registers have the parameters' kinds and ranks, and no statement
/// stands in more than 128 others. The one error is want of memory. Takes the time of the text.
pub fn print(alloc: Global, program: &LoopProgram) -> Result<Vec<u8>, NoMemory>
    requires { is_printable program.now ≡ true }
    ensures { IfOk result (λ text. text.items ≡ program_text program.now) }
{
    let mut out = Output::new(alloc);
    out.put(b"// krn text 1\n#include \"krn.hpp\"\n")?;
    put_kernels(&mut out, program.kernels.as_slice())?;
    Ok(out.into_bytes())
}
