// Own calls and their instances.
use super::cases::{program_of, program_text};
use std::alloc::{AllocError, Global};
use std::fmt::Write;
use std::test::Fail;

// Modules with calls, and their programs or where they are refused.
static MODULES: [(&str, &str); 27] = [
    ("", "Program instances: [], kernels: []"),
    (
        "def f(a):\n return -a + b\n",
        "Program instances: [], kernels: []",
    ),
    (
        "#pythran export f(bool)\ndef g(a):\n return a + a\ndef f(a):\n return a\n",
        "Program instances: [Instance name: [102], weight: 12, params: [([97], Scalar(B))], rets: [(B, 0)], \
         names: [(B, 0)], body: [Return values: [(0)]]], kernels: [0]",
    ),
    (
        "#pythran export f(int[], bool[::])\ndef f(a, b):\n pass\n",
        "Program instances: [Instance name: [102], weight: 13, params: [([97], Flat(I, 1)), ([98], Strided(B, \
         1))], rets: [], names: [(I, 1), (B, 1)], body: []], kernels: [0]",
    ),
    (
        "#pythran export f(int)\n#pythran export f(bool)\ndef f(a):\n return a\n",
        "Program instances: [Instance name: [102], weight: 12, params: [([97], Scalar(I))], rets: [(I, 0)], \
         names: [(I, 0)], body: [Return values: [(0)]], Instance name: [102], weight: 12, params: [([97], \
         Scalar(B))], rets: [(B, 0)], names: [(B, 0)], body: [Return values: [(0)]]], kernels: [0, 1]",
    ),
    (
        "#pythran export f(int[])\ndef f(a):\n return g(a) + 1\ndef g(x):\n return x[0]\n",
        "Program instances: [Instance name: [102], weight: 17, params: [([97], Flat(I, 1))], rets: [(I, 0)], \
         names: [(I, 1), (I, 0), (I, 0)], body: [Call [1], instance: 1, [(0)], Word 2, Bin(Add), [(1), Int(1)], \
         @3:14, Return values: [(2)]], Instance name: [103], weight: 15, params: [([120], Strided(I, 1))], rets: \
         [(I, 0)], names: [(I, 1), (I, 0)], body: [Get 1, of: 0, index: [Int(0)], @5:10, Return values: [(1)]]], \
         kernels: [0]",
    ),
    (
        "#pythran export f(int, bool)\ndef f(a, b):\n x = g(a)\n y = g(b)\n z = g(1)\ndef g(t):\n return t\n",
        "Program instances: [Instance name: [102], weight: 32, params: [([97], Scalar(I)), ([98], Scalar(B))], \
         rets: [], names: [(I, 0), (B, 0), (I, 0), (B, 0), (I, 0)], body: [Call [2], instance: 1, [(0)], Call \
         [3], instance: 2, [(1)], Call [4], instance: 1, [Int(1)]], Instance name: [103], weight: 12, params: \
         [([116], Scalar(I))], rets: [(I, 0)], names: [(I, 0)], body: [Return values: [(0)]], Instance name: \
         [103], weight: 12, params: [([116], Scalar(B))], rets: [(B, 0)], names: [(B, 0)], body: [Return values: \
         [(0)]]], kernels: [0]",
    ),
    (
        "#pythran export f(int)\ndef f(a):\n g(a)\n h(a, a)\ndef g(t):\n return t, t\ndef h(u, v):\n u = v\n",
        "Program instances: [Instance name: [102], weight: 21, params: [([97], Scalar(I))], rets: [], names: \
         [(I, 0)], body: [Call [], instance: 1, [(0)], Call [], instance: 2, [(0), (0)]], Instance name: [103], \
         weight: 14, params: [([116], Scalar(I))], rets: [(I, 0), (I, 0)], names: [(I, 0)], body: [Return \
         values: [(0), (0)]], Instance name: [104], weight: 15, params: [([117], Scalar(I)), ([118], \
         Scalar(I))], rets: [], names: [(I, 0), (I, 0)], body: [Word 0, Move, [(1)], @8:4]], kernels: [0]",
    ),
    (
        "#pythran export f(int)\n#pythran export g(int)\ndef f(a):\n return g(h(a))\ndef g(t):\n return \
         h(t)\ndef h(u):\n return u\n",
        "Program instances: [Instance name: [102], weight: 18, params: [([97], Scalar(I))], rets: [(I, 0)], \
         names: [(I, 0), (I, 0), (I, 0)], body: [Call [1], instance: 1, [(0)], Call [2], instance: 2, [(1)], \
         Return values: [(2)]], Instance name: [104], weight: 12, params: [([117], Scalar(I))], rets: [(I, 0)], \
         names: [(I, 0)], body: [Return values: [(0)]], Instance name: [103], weight: 15, params: [([116], \
         Scalar(I))], rets: [(I, 0)], names: [(I, 0), (I, 0)], body: [Call [1], instance: 1, [(0)], Return \
         values: [(1)]], Instance name: [103], weight: 15, params: [([116], Scalar(I))], rets: [(I, 0)], names: \
         [(I, 0), (I, 0)], body: [Call [1], instance: 1, [(0)], Return values: [(1)]]], kernels: [0, 3]",
    ),
    (
        "import numpy as np\n#pythran export f(int[:,:])\ndef f(a):\n return g(a), g(a[0])\ndef g(t):\n return \
         np.sum(t)\n",
        "Program instances: [Instance name: [102], weight: 23, params: [([97], Flat(I, 2))], rets: [(I, 0), (I, \
         0)], names: [(I, 2), (I, 0), (I, 1), (I, 0)], body: [Call [1], instance: 1, [(0)], Pick 2, of: 0, subs: \
         [At(Int(0))], @4:18, Call [3], instance: 2, [(2)], Return values: [(1), (3)]], Instance name: [103], \
         weight: 17, params: [([116], Strided(I, 2))], rets: [(I, 0)], names: [(I, 2), (I, 0)], body: [Reduce 1, \
         Sum, of: 0, @6:12, Return values: [(1)]], Instance name: [103], weight: 17, params: [([116], Strided(I, \
         1))], rets: [(I, 0)], names: [(I, 1), (I, 0)], body: [Reduce 1, Sum, of: 0, @6:12, Return values: \
         [(1)]]], kernels: [0]",
    ),
    (
        "#pythran export f(int)\ndef f(a):\n return g(a)\ndef g(t, u):\n return t\n",
        "Type 3:9",
    ),
    (
        "#pythran export f(int)\ndef f(a):\n g()\ndef g(t):\n return t\n",
        "Type 3:2",
    ),
    (
        "#pythran export f(int)\ndef f(a):\n x = g(a)\ndef g(t):\n pass\n",
        "Type 3:6",
    ),
    (
        "#pythran export f(int)\ndef f(a):\n x = 1 + g(a)\ndef g(t):\n return t, t\n",
        "Type 3:10",
    ),
    (
        "#pythran export f(int)\ndef f(a):\n return a, g(a)\ndef g(t):\n return\n",
        "Type 3:12",
    ),
    (
        "#pythran export f(bool)\ndef f(a):\n return g(-a)\ndef g(t):\n return t + u\n",
        "Type 3:11",
    ),
    (
        "#pythran export f(bool)\ndef f(a):\n return g(a, -a)\ndef g(t):\n return -t\n",
        "Type 3:14",
    ),
    (
        "#pythran export f(bool)\ndef f(a):\n return g(a) + -a\ndef g(t):\n return -t\n",
        "Type 5:9",
    ),
    (
        "#pythran export f(bool)\ndef f(a):\n x = -a\n return g(a)\ndef g(t):\n return -t\n",
        "Type 3:6",
    ),
    (
        "#pythran export f(bool)\ndef f(a):\n return g(1) + g(a)\ndef g(t):\n return t * True\n",
        "Type 5:11",
    ),
    (
        "#pythran export f(int)\ndef f(a):\n return g(a < 1)\ndef g(t):\n if t:\n  return 1\n",
        "Type 4:5",
    ),
    (
        "#pythran export f(bool)\ndef f(a):\n x = 1\n x = g(a)\ndef g(t):\n return t\n",
        "Retype 4:2",
    ),
    (
        "#pythran export f(bool)\ndef f(a):\n x = 1\n x = g(a)\ndef g(t):\n y = 1\n y = t\n return t\n",
        "Retype 7:2",
    ),
    (
        "#pythran export f(int)\n#pythran export f(bool)\ndef f(a):\n return -a\n",
        "Type 4:9",
    ),
    (
        "#pythran export g(int)\n#pythran export f(bool)\ndef f(a):\n return -a\ndef g(b):\n return not b\n",
        "Type 6:9",
    ),
    (
        "#pythran export f(bool)\ndef f(a):\n for i in range(3):\n  x = g(a)\ndef g(t):\n return 1 << t, 2\n",
        "Type 4:7",
    ),
    (
        "#pythran export f(int[])\ndef f(a):\n g(a)[0] = True\n g(a)[0] = -True\ndef g(t):\n return t\n",
        "Type 4:12",
    ),
];

#[test]
fn calls_have_instances(rt: HostRuntime) -> Result<(), Fail> {
    let alloc = rt.alloc();
    for row in &MODULES {
        let text = program_text(alloc, row.0.as_bytes())?;
        assert_eq!(rt; text.as_str(), row.1, "{}", row.0);
    }
    Ok(())
}

static TYPES: [&str; 8] = [
    "int", "bool", "int[]", "bool[]", "int[::]", "bool[::]", "int[][]", "bool[][]",
];

#[test]
fn each_signature_has_a_kernel(rt: HostRuntime) -> Result<(), Fail> {
    let alloc = rt.alloc();
    let mut source = String::new(alloc);
    for a in &TYPES {
        for b in &TYPES {
            write!(&mut source, "#pythran export f({a}, {b})\n")?;
        }
    }
    source.push_str("def f(a, b):\n return g(a), g(b)\ndef g(x):\n return x\n")?;
    let program = program_of(alloc, source.as_bytes())?;
    assert_eq!(rt; program.kernels.len(), 64);
    // `int[]` and `int[::]` are one argument type
    assert_eq!(rt; program.instances.len(), 70);
    Ok(())
}

// Functions of which each calls the next one, behind a kernel that calls the first: `calls` calls in all.
fn chain(alloc: Global, calls: u32) -> Result<String, AllocError> {
    let mut source = String::new(alloc);
    source.push_str("#pythran export h0(int)\n")?;
    for n in 0..calls {
        write!(
            &mut source,
            "def h{n}(a):\n return h{}(a)\n",
            n.wrapping_add(1)
        )?;
    }
    write!(&mut source, "def h{calls}(a):\n return a\n")?;
    Ok(source)
}

#[test]
fn chains_of_calls_are_walked(rt: HostRuntime) -> Result<(), Fail> {
    let alloc = rt.alloc();
    let source = chain(alloc, 32)?;
    let program = program_of(alloc, source.as_bytes())?;
    assert_eq!(rt; program.instances.len(), 33);
    let text = "#pythran export f(int)\ndef f(a):\n return g(a)\ndef g(a):\n return f(a)\n";
    let text = program_text(alloc, text.as_bytes())?;
    assert_eq!(rt; text.as_str(), "Recursion 3:9");
    Ok(())
}
