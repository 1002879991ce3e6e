//! Calls of `run`: the reports of `eager` with the counts of the plain form, which has one nest for each element
//! operation and each store and one fold for each reduction.

use crate::eager_tests::{
    ADD, BIG, CUBE, CUT, DIVIDE, DOUBLE, FILL, KEEP, KEPT, LESS, LOW, OUTER, PICK,
};
use crate::tests::{Call, call_all};
use std::test::Fail;

/// Reductions of truth values, and of an integer array by each name.
const TESTS: &str = "import numpy as np\n#pythran export tests(bool[:,:])\ndef tests(a):\n    \
    return a.min(), a.max(), a.any(), a.all(), np.sum(a), np.prod(a)\n";

/// A name that is an operand of its own operation, in a loop, and a choice by a mask.
const GROW: &str =
    "import numpy as np\n#pythran export grow(int[], int)\ndef grow(a, n):\n    t = a + 0\n    \
    for i in range(n):\n        t = t * 2 + i\n    return np.where(t > 5, t, -1)\n";

/// A kernel that returns nothing, with blocks at its end.
const MARK: &str =
    "#pythran export mark(int[], int)\ndef mark(a, n):\n    if n > 2:\n        a[:] = n\n    \
    elif n > 0:\n        for i in range(n):\n            a[i] = i\n    else:\n        pass\n";

static ROWS_1: [Call; 9] = [
    (
        ADD,
        "run m.py add buf:A=1,2,3 a=@A b=@A",
        0,
        "return int64 (3,) 2 4 6\nbuffer A int64 (3,) 1 2 3\ncounts nests 1 temps 0 parallel 0 serial 0\n",
        "",
    ),
    (
        ADD,
        "run m.py add buf:A=1,2,3 buf:B=1,2 a=@A b=@B",
        1,
        "fault ValueError 3:14\nbuffer A int64 (3,) 1 2 3\nbuffer B int64 (2,) 1 2\n\
        counts nests 0 temps 0 parallel 0 serial 0\n",
        "",
    ),
    (
        DOUBLE,
        "run m.py dbl buf:A=1,2,3,4,5 a=@A[1:5] b=@A[0:4]",
        0,
        "return none\nbuffer A int64 (5,) 1 2 4 6 8\ncounts nests 2 temps 0 parallel 0 serial 0\n",
        "",
    ),
    (
        DOUBLE,
        "run m.py dbl buf:A=1,2,3,4,5 a=@A[0:4] b=@A[1:5]",
        0,
        "return none\nbuffer A int64 (5,) 4 6 8 10 5\ncounts nests 2 temps 0 parallel 0 serial 0\n",
        "",
    ),
    (
        DOUBLE,
        "run m.py dbl buf:A=1,2,3,4,5,6 a=@A[0:6:2] b=@A[1:6:2]",
        0,
        "return none\nbuffer A int64 (6,) 4 2 8 4 12 6\ncounts nests 2 temps 0 parallel 0 serial 0\n",
        "",
    ),
    (
        DOUBLE,
        "run m.py dbl buf:A=1,2,3 a=@A[::-1] b=@A",
        0,
        "return none\nbuffer A int64 (3,) 6 4 2\ncounts nests 2 temps 0 parallel 0 serial 0\n",
        "",
    ),
    (
        ADD,
        "run m.py add buf:A=9223372036854775807 buf:B=1 a=@A b=@B",
        0,
        "return int64 (1,) -9223372036854775808\nbuffer A int64 (1,) 9223372036854775807\nbuffer B int64 (1,) 1\n\
        counts nests 1 temps 0 parallel 0 serial 0\n",
        "",
    ),
    (
        KEEP,
        "run m.py keep buf:A=1,2 a=@A b=@A",
        0,
        "return int64 (2,) 4 6\nbuffer A int64 (2,) 0 0\ncounts nests 3 temps 0 parallel 0 serial 0\n",
        "",
    ),
    (
        KEPT,
        "run m.py keep buf:A=1,2 a=@A b=@A",
        0,
        "return int64 (2,) 4 6\nbuffer A int64 (2,) 1 2\ncounts nests 2 temps 0 parallel 0 serial 0\n",
        "",
    ),
];

static ROWS_2: [Call; 9] = [
    (
        DIVIDE,
        "run m.py div buf:A=-7,7,5 buf:B=2,-2,0 a=@A b=@B",
        0,
        "return int64 (3,) -4 -4 0\nreturn int64 (3,) 1 -1 0\nbuffer A int64 (3,) -7 7 5\nbuffer B int64 (3,) 2 -2 0\n\
        counts nests 2 temps 0 parallel 0 serial 0\n",
        "",
    ),
    (
        CUT,
        "run m.py cut buf:A=1,2 a=@A n=0",
        1,
        "fault ZeroDivisionError 4:14\nbuffer A int64 (2,) 9 2\ncounts nests 0 temps 0 parallel 0 serial 0\n",
        "",
    ),
    (
        CUT,
        "run m.py cut buf:A=1,2 a=@A n=-2",
        0,
        "return int64 -3\nbuffer A int64 (2,) 9 2\ncounts nests 0 temps 0 parallel 0 serial 0\n",
        "",
    ),
    (
        LOW,
        "run m.py total buf:A= a=@A",
        0,
        "return int64 0\nreturn bool False\nreturn bool True\nbuffer A int64 (0,)\n\
        counts nests 3 temps 0 parallel 0 serial 0\n",
        "",
    ),
    (
        LOW,
        "run m.py low buf:A= a=@A",
        1,
        "fault ValueError 7:15\nbuffer A int64 (0,)\ncounts nests 0 temps 0 parallel 0 serial 0\n",
        "",
    ),
    (
        BIG,
        "run m.py big n=2049",
        1,
        "fault SizeLimit 4:47\ncounts nests 0 temps 0 parallel 0 serial 0\n",
        "",
    ),
    (
        BIG,
        "run m.py big n=0",
        0,
        "return int64 0\ncounts nests 2 temps 0 parallel 0 serial 0\n",
        "",
    ),
    (
        OUTER,
        "run m.py outer buf:A(2,1)=1,2 buf:B=1,2,3 a=@A b=@B",
        0,
        "return int64 (2, 3) 1 2 3 2 4 6\nbuffer A int64 (2, 1) 1 2\nbuffer B int64 (3,) 1 2 3\n\
        counts nests 1 temps 0 parallel 0 serial 0\n",
        "",
    ),
    (
        LESS,
        "run m.py add buf:A=3,4 a=@A b=@A",
        0,
        "return int64 (2,) 2 3\nbuffer A int64 (2,) 3 4\ncounts nests 1 temps 0 parallel 0 serial 0\n",
        "",
    ),
];

static KERNELS: [Call; 9] = [
    (
        FILL,
        "run m.py fill buf:A=7,7,7 a=@A n=3",
        0,
        "return int64 (3,) 0 6 4\nbuffer A int64 (3,) 0 6 4\ncounts nests 0 temps 0 parallel 0 serial 0\n",
        "",
    ),
    (
        FILL,
        "run m.py fill buf:A=7,7,7 a=@A[::-1] n=4",
        1,
        "fault IndexError 7:14\nbuffer A int64 (3,) 4 6 0\ncounts nests 0 temps 0 parallel 0 serial 0\n",
        "",
    ),
    (
        CUBE,
        "run m.py cube buf:A(2,1,3,1)=1,2,3,4,5,6 a=@A",
        0,
        "return int64 (1, 3, 1) 6 5 4\nreturn int64 1\nreturn int64 6\nbuffer A int64 (2, 1, 3, 1) 1 2 3 4 5 6\n\
        counts nests 1 temps 0 parallel 0 serial 0\n",
        "",
    ),
    (
        PICK,
        "run m.py pick a=True b=4",
        0,
        "return int64 5\ncounts nests 0 temps 0 parallel 0 serial 0\n",
        "",
    ),
    (
        TESTS,
        "run m.py tests buf:A(2,2)=True,False,True,True a=@A",
        0,
        "return bool False\nreturn bool True\nreturn bool True\nreturn bool False\nreturn int64 3\nreturn int64 0\n\
        buffer A bool (2, 2) True False True True\ncounts nests 6 temps 0 parallel 0 serial 0\n",
        "",
    ),
    (
        GROW,
        "run m.py grow buf:A=1,2 a=@A n=2",
        0,
        "return int64 (2,) -1 9\nbuffer A int64 (2,) 1 2\ncounts nests 7 temps 0 parallel 0 serial 0\n",
        "",
    ),
    (
        MARK,
        "run m.py mark buf:A=5,6 a=@A n=3",
        0,
        "return none\nbuffer A int64 (2,) 3 3\ncounts nests 1 temps 0 parallel 0 serial 0\n",
        "",
    ),
    (
        MARK,
        "run m.py mark buf:A=5,6 a=@A n=2",
        0,
        "return none\nbuffer A int64 (2,) 0 1\ncounts nests 0 temps 0 parallel 0 serial 0\n",
        "",
    ),
    (
        MARK,
        "run m.py mark buf:A=5,6 a=@A n=0",
        0,
        "return none\nbuffer A int64 (2,) 5 6\ncounts nests 0 temps 0 parallel 0 serial 0\n",
        "",
    ),
];

#[test]
fn loops_of_rows(rt: HostRuntime) -> Result<(), Fail> {
    call_all(&rt, rt.alloc(), ROWS_1.as_slice())
}

#[test]
fn loops_of_more_rows(rt: HostRuntime) -> Result<(), Fail> {
    call_all(&rt, rt.alloc(), ROWS_2.as_slice())
}

#[test]
fn loops_of_kernels(rt: HostRuntime) -> Result<(), Fail> {
    call_all(&rt, rt.alloc(), KERNELS.as_slice())
}
