// Modules past the sizes at which a walk might give up.
use super::cases::{program_of, with_kernel};
use std::alloc::{AllocError, Global};
use std::fmt::Write;
use std::test::Fail;

#[test]
fn many_names_are_numbered(rt: HostRuntime) -> Result<(), Fail> {
    let alloc = rt.alloc();
    let mut body = String::new(alloc);
    for n in 0..20000u32 {
        write!(&mut body, " x{n} = a\n")?;
    }
    for n in 0..20000u32 {
        write!(&mut body, " x{n} = a\n")?;
    }
    let source = with_kernel(alloc, "", body.as_str())?;
    let program = program_of(alloc, source.as_bytes())?;
    let f = program.instances.as_slice().first().ok_or("no instance")?;
    assert_eq!(rt; f.names.len(), 20001);
    assert_eq!(rt; f.body.len(), 40000);
    Ok(())
}

#[test]
fn many_functions_are_walked(rt: HostRuntime) -> Result<(), Fail> {
    let alloc = rt.alloc();
    let mut functions = String::new(alloc);
    let mut body = String::new(alloc);
    for n in 0..5000u32 {
        write!(&mut functions, "def g{n}(a):\n return a\n")?;
        write!(&mut body, " g{n}(a)\n")?;
    }
    let source = with_kernel(alloc, functions.as_str(), body.as_str())?;
    let program = program_of(alloc, source.as_bytes())?;
    assert_eq!(rt; program.instances.len(), 5001);
    Ok(())
}

// Arguments of a call, ints and bools by the binary digits of a number.
fn arguments(alloc: Global, number: u32) -> Result<String, AllocError> {
    let mut out = String::new(alloc);
    let mut left = number;
    for _ in 0..9 {
        out.push_str(if left % 2 == 0 { "1, " } else { "True, " })?;
        left /= 2;
    }
    out.push_str(if left % 2 == 0 { "1" } else { "True" })?;
    Ok(out)
}

#[test]
fn each_list_of_types_has_an_instance(rt: HostRuntime) -> Result<(), Fail> {
    let alloc = rt.alloc();
    let mut body = String::new(alloc);
    for n in 0..2048u32 {
        let arguments = arguments(alloc, n % 1024)?;
        write!(&mut body, " g({})\n", arguments.as_str())?;
    }
    let function = "def g(a, b, c, d, e, f, h, i, j, k):\n return a\n";
    let source = with_kernel(alloc, function, body.as_str())?;
    let program = program_of(alloc, source.as_bytes())?;
    assert_eq!(rt; program.instances.len(), 1025);
    Ok(())
}

// One expression of many operators, one of many attributes, and subscripts of subscripts.
fn long_lines(alloc: Global) -> Result<String, AllocError> {
    let mut source = String::new(alloc);
    source.push_str("#pythran export f(int[])\ndef f(a):\n x = a")?;
    for _ in 0..20000 {
        source.push_str(" + 1")?;
    }
    source.push_str("\n y = x")?;
    for _ in 0..20000 {
        source.push_str(".T")?;
    }
    source.push_str("\n y")?;
    for _ in 0..20000 {
        source.push_str("[1:]")?;
    }
    source.push_str(" = x\n")?;
    Ok(source)
}

#[test]
fn long_lines_are_walked(rt: HostRuntime) -> Result<(), Fail> {
    let alloc = rt.alloc();
    let source = long_lines(alloc)?;
    let program = program_of(alloc, source.as_bytes())?;
    let f = program.instances.as_slice().first().ok_or("no instance")?;
    assert_eq!(rt; f.body.len(), 60001);
    Ok(())
}
