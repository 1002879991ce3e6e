//! Calls of `eager`: modules of every form that the rules accept. What is expected was worked out by hand from NumPy's
//! and Python's rules.

use crate::tests::{Call, call_all};
use std::test::Fail;

/// A sum of two arrays.
pub const ADD: &str = "#pythran export add(int[], int[])\ndef add(a, b):\n    return a + b\n";

/// A store that may read what it writes.
pub const DOUBLE: &str =
    "#pythran export dbl(int[::], int[::])\ndef dbl(a, b):\n    a[:] = b * 2\n";

/// An array that is made before a store to its operand.
pub const KEEP: &str =
    "#pythran export keep(int[::], int[::])\ndef keep(a, b):\n    t = a + 1\n    b[:] = 0\n    \
    return t * 2\n";

/// The same without the store.
pub const KEPT: &str =
    "#pythran export keep(int[::], int[::])\ndef keep(a, b):\n    t = a + 1\n    return t * 2\n";

/// Floors and rests, by 0 among them.
pub const DIVIDE: &str =
    "#pythran export div(int[], int[])\ndef div(a, b):\n    return a // b, a % b\n";

/// An element stored before a fault.
pub const CUT: &str =
    "#pythran export cut(int[], int)\ndef cut(a, n):\n    a[0] = 9\n    return 5 // n\n";

/// Reductions, of no elements among them.
pub const LOW: &str =
    "import numpy as np\n#pythran export total(int[])\n#pythran export low(int[])\ndef total(a):\n    \
    return np.sum(a), np.any(a), np.all(a)\ndef low(a):\n    return np.min(a)\n";

/// An element operation whose result may pass the size limit.
pub const BIG: &str = "import numpy as np\n#pythran export big(int)\ndef big(n):\n    \
    return np.sum(np.zeros((n, 1), dtype=int) + np.arange(n))\n";

const DOT: &str = "#pythran export dot(int[], int[])\ndef dot(a, b):\n    s = 0\n    \
    #omp parallel for reduction(+:s)\n    for i in range(len(a)):\n        s += a[i] * b[i]\n    return s\n";

/// A call of an own function in an expression.
pub const STATS: &str =
    "import numpy as np\n#pythran export stats(int[])\ndef sq(x):\n    return x * x\n\
    def stats(a):\n    return np.sum(sq(a)), a.max()\n";

/// A matrix by a row.
pub const OUTER: &str =
    "#pythran export outer(int[:,:], int[])\ndef outer(a, b):\n    return a * b\n";

/// A truth value among numbers.
pub const LESS: &str = "#pythran export add(int[], int[])\ndef add(a, b):\n    return a - True\n";

const TRUTHS: &str = "#pythran export add(int[], int[])\ndef add(a, b):\n    return True + True\n";

const RETYPE: &str = "#pythran export maybe(int)\ndef maybe(n):\n    n = True\n";

/// Three signatures of one name: a sum, a choice by a truth value, and of arrays.
pub const PICK: &str = "#pythran export pick(int, int)\n#pythran export pick(bool, int)\n\
    #pythran export pick(int[], int)\ndef pick(a, b):\n    return a + b\n";

/// A loop over elements, with what it leaves where it faults.
pub const FILL: &str =
    "#pythran export fill(int[::], int)\ndef fill(a, n):\n    for i in range(n):\n        \
    if i % 2 == 0:\n            a[i] = i * i\n        else:\n            a[i] -= 1\n    return a.T\n";

/// Ranks up to four.
pub const CUBE: &str = "import numpy as np\n#pythran export cube(int[:,:,:,:])\ndef cube(a):\n    \
    return a[1, :, ::-1], a.shape[3], np.sum(a[0])\n";

static ARRAYS: [Call; 8] = [
    (
        ADD,
        "eager m.py add buf:A=1,2,3 a=@A b=@A",
        0,
        "return int64 (3,) 2 4 6\nbuffer A int64 (3,) 1 2 3\n",
        "",
    ),
    (
        ADD,
        "eager m.py add buf:A=1,2,3 buf:B=1,2 a=@A b=@B",
        1,
        "fault ValueError 3:14\nbuffer A int64 (3,) 1 2 3\nbuffer B int64 (2,) 1 2\n",
        "",
    ),
    (
        DOUBLE,
        "eager m.py dbl buf:A=1,2,3,4,5 a=@A[1:5] b=@A[0:4]",
        0,
        "return none\nbuffer A int64 (5,) 1 2 4 6 8\n",
        "",
    ),
    (
        DOUBLE,
        "eager m.py dbl buf:A=1,2,3,4,5 a=@A[0:4] b=@A[1:5]",
        0,
        "return none\nbuffer A int64 (5,) 4 6 8 10 5\n",
        "",
    ),
    (
        DOUBLE,
        "eager m.py dbl buf:A=1,2,3,4,5,6 a=@A[0:6:2] b=@A[1:6:2]",
        0,
        "return none\nbuffer A int64 (6,) 4 2 8 4 12 6\n",
        "",
    ),
    (
        DOUBLE,
        "eager m.py dbl buf:A=1,2,3 a=@A[::-1] b=@A",
        0,
        "return none\nbuffer A int64 (3,) 6 4 2\n",
        "",
    ),
    (
        ADD,
        "eager m.py add buf:A=9223372036854775807 buf:B=1 a=@A b=@B",
        0,
        "return int64 (1,) -9223372036854775808\nbuffer A int64 (1,) 9223372036854775807\nbuffer B int64 (1,) 1\n",
        "",
    ),
    (
        OUTER,
        "eager m.py outer buf:A(2,1)=1,2 buf:B=1,2,3 a=@A b=@B",
        0,
        "return int64 (2, 3) 1 2 3 2 4 6\nbuffer A int64 (2, 1) 1 2\nbuffer B int64 (3,) 1 2 3\n",
        "",
    ),
];

static NAMES: [Call; 8] = [
    (
        KEEP,
        "eager m.py keep buf:A=1,2 a=@A b=@A",
        0,
        "return int64 (2,) 4 6\nbuffer A int64 (2,) 0 0\n",
        "",
    ),
    (
        KEPT,
        "eager m.py keep buf:A=1,2 a=@A b=@A",
        0,
        "return int64 (2,) 4 6\nbuffer A int64 (2,) 1 2\n",
        "",
    ),
    (
        DIVIDE,
        "eager m.py div buf:A=-7,7,5 buf:B=2,-2,0 a=@A b=@B",
        0,
        "return int64 (3,) -4 -4 0\nreturn int64 (3,) 1 -1 0\nbuffer A int64 (3,) -7 7 5\nbuffer B int64 (3,) 2 -2 0\n",
        "",
    ),
    (
        DIVIDE,
        "eager m.py div buf:A=-9223372036854775808 buf:B=-1 a=@A b=@B",
        0,
        "return int64 (1,) -9223372036854775808\nreturn int64 (1,) 0\nbuffer A int64 (1,) -9223372036854775808\n\
        buffer B int64 (1,) -1\n",
        "",
    ),
    (
        CUT,
        "eager m.py cut buf:A=1,2 a=@A n=0",
        1,
        "fault ZeroDivisionError 4:14\nbuffer A int64 (2,) 9 2\n",
        "",
    ),
    (
        CUT,
        "eager m.py cut buf:A=1,2 a=@A n=-2",
        0,
        "return int64 -3\nbuffer A int64 (2,) 9 2\n",
        "",
    ),
    (
        LOW,
        "eager m.py total buf:A= a=@A",
        0,
        "return int64 0\nreturn bool False\nreturn bool True\nbuffer A int64 (0,)\n",
        "",
    ),
    (
        LOW,
        "eager m.py low buf:A= a=@A",
        1,
        "fault ValueError 7:15\nbuffer A int64 (0,)\n",
        "",
    ),
];

static KERNELS: [Call; 8] = [
    (
        BIG,
        "eager m.py big n=2048",
        0,
        "return int64 4292870144\n",
        "",
    ),
    (
        BIG,
        "eager m.py big n=2049",
        1,
        "fault SizeLimit 4:47\n",
        "",
    ),
    (BIG, "eager m.py big n=0", 0, "return int64 0\n", ""),
    (BIG, "eager m.py big n=-1", 1, "fault ValueError 4:22\n", ""),
    (
        STATS,
        "eager m.py stats buf:A=1,2,3 a=@A",
        0,
        "return int64 14\nreturn int64 3\nbuffer A int64 (3,) 1 2 3\n",
        "",
    ),
    (
        FILL,
        "eager m.py fill buf:A=7,7,7 a=@A n=3",
        0,
        "return int64 (3,) 0 6 4\nbuffer A int64 (3,) 0 6 4\n",
        "",
    ),
    (
        FILL,
        "eager m.py fill buf:A=7,7,7 a=@A[::-1] n=4",
        1,
        "fault IndexError 7:14\nbuffer A int64 (3,) 4 6 0\n",
        "",
    ),
    (
        CUBE,
        "eager m.py cube buf:A(2,1,3,1)=1,2,3,4,5,6 a=@A",
        0,
        "return int64 (1, 3, 1) 6 5 4\nreturn int64 1\nreturn int64 6\nbuffer A int64 (2, 1, 3, 1) 1 2 3 4 5 6\n",
        "",
    ),
];

static SCALARS: [Call; 8] = [
    (PICK, "eager m.py pick a=3 b=-0", 0, "return int64 3\n", ""),
    (
        PICK,
        "eager m.py pick a=True b=4",
        0,
        "return int64 5\n",
        "",
    ),
    (
        PICK,
        "eager m.py pick buf:A=1,2 a=@A b=4",
        0,
        "return int64 (2,) 5 6\nbuffer A int64 (2,) 1 2\n",
        "",
    ),
    (PICK, "eager m.py pick a=3 b=False", 4, "", "error item 0\n"),
    (PICK, "eager m.py pick a=3", 4, "", "error item 0\n"),
    (PICK, "eager m.py pick a=3 b=4 c=5", 4, "", "error item 3\n"),
    (PICK, "eager m.py pick a=3 b=true", 4, "", "error item 2\n"),
    (PICK, "eager m.py pick a=3 a=4 b=1", 4, "", "error item 2\n"),
];

static REFUSED: [Call; 8] = [
    (
        DOT,
        "eager m.py dot buf:A=1 a=@A b=@A",
        3,
        "",
        "refused Profile 4:5\n",
    ),
    (
        DOT,
        "run m.py dot buf:A=1 a=@A b=@A",
        3,
        "",
        "refused Profile 4:5\n",
    ),
    (
        RETYPE,
        "eager m.py maybe n=1",
        3,
        "",
        "refused Retype 3:5\n",
    ),
    (
        TRUTHS,
        "eager m.py add buf:A=1 a=@A b=@A",
        3,
        "",
        "refused Type 3:17\n",
    ),
    (
        LESS,
        "eager m.py add buf:A=3,4 a=@A b=@A",
        0,
        "return int64 (2,) 2 3\nbuffer A int64 (2,) 3 4\n",
        "",
    ),
    (ADD, "eager m.py add buf:A=1 a=@A", 4, "", "error item 0\n"),
    (ADD, "eager n.py add a=@A", 5, "", "error load\n"),
    (ADD, "eager m.py sum", 4, "", "error item 0\n"),
];

static WORDS_1: [Call; 9] = [
    (ADD, "compile", 2, "", "error words\n"),
    (ADD, "compile -x", 2, "", "error words\n"),
    (ADD, "compile m.py", 2, "", "error words\n"),
    (ADD, "sample 2049", 2, "", "error words\n"),
    (ADD, "exec m.py add", 2, "", "error words\n"),
    (ADD, "run --workers 0 m.py add", 2, "", "error words\n"),
    (ADD, "run m.py add --workers=65", 2, "", "error words\n"),
    (ADD, "run m.py add --workers", 2, "", "error words\n"),
    (ADD, "eager m.py add --workers 2", 2, "", "error words\n"),
];

static WORDS_2: [Call; 7] = [
    (ADD, "eager m.py", 2, "", "error words\n"),
    (ADD, "eager -x m.py add", 2, "", "error words\n"),
    (ADD, "-- eager m.py add", 2, "", "error words\n"),
    (ADD, "eager -- m.py add -x", 4, "", "error item 1\n"),
    (ADD, "eager m.py add -", 4, "", "error item 1\n"),
    (
        ADD,
        "run --workers 64 m.py -- add buf:A=1,2,3 a=@A b=@A",
        0,
        "return int64 (3,) 2 4 6\nbuffer A int64 (3,) 1 2 3\ncounts nests 1 temps 0 parallel 0 serial 0\n",
        "",
    ),
    (
        ADD,
        "eager m.py add buf:A=2 a=@A -- b=@A",
        0,
        "return int64 (1,) 4\nbuffer A int64 (1,) 2\n",
        "",
    ),
];

#[test]
fn eager_calls_on_arrays(rt: HostRuntime) -> Result<(), Fail> {
    call_all(&rt, rt.alloc(), ARRAYS.as_slice())
}

#[test]
fn eager_calls_with_names(rt: HostRuntime) -> Result<(), Fail> {
    call_all(&rt, rt.alloc(), NAMES.as_slice())
}

#[test]
fn eager_calls_of_kernels(rt: HostRuntime) -> Result<(), Fail> {
    call_all(&rt, rt.alloc(), KERNELS.as_slice())
}

#[test]
fn eager_calls_with_scalars(rt: HostRuntime) -> Result<(), Fail> {
    call_all(&rt, rt.alloc(), SCALARS.as_slice())
}

#[test]
fn eager_calls_that_are_refused(rt: HostRuntime) -> Result<(), Fail> {
    call_all(&rt, rt.alloc(), REFUSED.as_slice())
}

#[test]
fn words_of_calls(rt: HostRuntime) -> Result<(), Fail> {
    call_all(&rt, rt.alloc(), WORDS_1.as_slice())
}

#[test]
fn more_words_of_calls(rt: HostRuntime) -> Result<(), Fail> {
    call_all(&rt, rt.alloc(), WORDS_2.as_slice())
}
