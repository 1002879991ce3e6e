//! Sources with their trees, which CPython's `ast` gives for what is Python, with the places of its tokenizer, and
//! sources with the token at which no text of the grammar goes on, found by a general parser of the printed grammar.

use crate::{Module, parse};
use krn_base::Stop;
use py_lex::tokens;
use std::alloc::{AllocError, Global};
use std::fmt::Write;
use std::test::Fail;

// Functions, and their blocks.
static STATEMENTS: [(&[u8], &[&str]); 34] = [
    (b"def f(): pass", &["[Pass]"]),
    (b"def f():\n  'a'\n  pass\n", &["[Doc, Pass]"]),
    (b"def f(): return", &["[Return(1:10, [])]"]),
    (
        b"def f(): return a,",
        &["[Return(1:10, [Name([97] 1:17)])]"],
    ),
    (
        b"def f(): return (a, b),",
        &["[Return(1:10, [Tuple(1:17, [Name([97] 1:18), Name([98] 1:21)])])]"],
    ),
    (
        b"def f(): return a, (b,)",
        &["[Return(1:10, [Name([97] 1:17), Tuple(1:20, [Name([98] 1:21)])])]"],
    ),
    (b"def f(): a", &["[Alone(Name([97] 1:10))]"]),
    (
        b"def f(): a.b[c](d).e",
        &[
            "[Alone(Primary(Name([97] 1:10), [Attr([98] 1:12), Pick(1:13, ",
            "[At(Name([99] 1:14))]), Call(1:16, [Arg { key: None, value: Name([100] 1:17)]), ",
            "Attr([101] 1:20)]))]",
        ],
    ),
    (
        b"def f(): a = b or c and not d or e",
        &[
            "[Assign(Name([97] 1:10), 1:12, Logic(false, Name([98] 1:14), [(1:16, Logic(true, ",
            "Name([99] 1:19), [(1:21, Not(1:25, Name([100] 1:29)))])), (1:31, ",
            "Name([101] 1:34))]))]",
        ],
    ),
    (
        b"def f(): a = (b or c) or d",
        &[
            "[Assign(Name([97] 1:10), 1:12, Logic(false, Logic(false, Name([98] 1:15), [(1:17, ",
            "Name([99] 1:20))]), [(1:23, Name([100] 1:26))]))]",
        ],
    ),
    (
        b"def f(): a = b | c ^ d & e << g + h * -i",
        &[
            "[Assign(Name([97] 1:10), 1:12, Chain(Name([98] 1:14), [(Or, 1:16, ",
            "Chain(Name([99] 1:18), [(Xor, 1:20, Chain(Name([100] 1:22), [(And, 1:24, ",
            "Chain(Name([101] 1:26), [(Shl, 1:28, Chain(Name([103] 1:31), [(Add, 1:33, ",
            "Chain(Name([104] 1:35), [(Mul, 1:37, Prefix(45, 1:39, ",
            "Name([105] 1:40)))]))]))]))]))]))]))]",
        ],
    ),
    (
        b"def f(): a = b - c + d - (e - g)",
        &[
            "[Assign(Name([97] 1:10), 1:12, Chain(Name([98] 1:14), [(Sub, 1:16, ",
            "Name([99] 1:18)), (Add, 1:20, Name([100] 1:22)), (Sub, 1:24, ",
            "Chain(Name([101] 1:27), [(Sub, 1:29, Name([103] 1:31))]))]))]",
        ],
    ),
    (
        b"def f(): a = (b - c) - d",
        &[
            "[Assign(Name([97] 1:10), 1:12, Chain(Chain(Name([98] 1:15), [(Sub, 1:17, ",
            "Name([99] 1:19))]), [(Sub, 1:22, Name([100] 1:24))]))]",
        ],
    ),
    (
        b"def f(): a = b // c % d * e",
        &[
            "[Assign(Name([97] 1:10), 1:12, Chain(Name([98] 1:14), [(FloorDiv, 1:16, ",
            "Name([99] 1:19)), (Mod, 1:21, Name([100] 1:23)), (Mul, 1:25, Name([101] 1:27))]))]",
        ],
    ),
    (
        b"def f(): a = b << c >> d",
        &[
            "[Assign(Name([97] 1:10), 1:12, Chain(Name([98] 1:14), [(Shl, 1:16, ",
            "Name([99] 1:19)), (Shr, 1:21, Name([100] 1:24))]))]",
        ],
    ),
    (
        b"def f(): a = not b == c",
        &[
            "[Assign(Name([97] 1:10), 1:12, Not(1:14, Chain(Name([98] 1:18), [(Eq, 1:20, ",
            "Name([99] 1:23))])))]",
        ],
    ),
    (
        b"def f(): a = b != (c < d)",
        &[
            "[Assign(Name([97] 1:10), 1:12, Chain(Name([98] 1:14), [(Ne, 1:16, ",
            "Chain(Name([99] 1:20), [(Lt, 1:22, Name([100] 1:24))]))]))]",
        ],
    ),
    (
        b"def f(): a = (b <= c) > (d >= e)",
        &[
            "[Assign(Name([97] 1:10), 1:12, Chain(Chain(Name([98] 1:15), [(Le, 1:17, ",
            "Name([99] 1:20))]), [(Gt, 1:23, Chain(Name([100] 1:26), [(Ge, 1:28, ",
            "Name([101] 1:31))]))]))]",
        ],
    ),
    (
        b"def f(): a = -b ** 2",
        &["[Assign(Name([97] 1:10), 1:12, Prefix(45, 1:14, Power(Name([98] 1:15), 1:17, 2)))]"],
    ),
    (
        b"def f(): a = (-b) ** 0 + c[d] ** 62",
        &[
            "[Assign(Name([97] 1:10), 1:12, Chain(Power(Prefix(45, 1:15, Name([98] 1:16)), 1:19, ",
            "0), [(Add, 1:24, Power(Primary(Name([99] 1:26), [Pick(1:27, ",
            "[At(Name([100] 1:28))])]), 1:31, 62))]))]",
        ],
    ),
    (
        b"def f(): a = ~+-not_b",
        &[
            "[Assign(Name([97] 1:10), 1:12, Prefix(126, 1:14, Prefix(43, 1:15, Prefix(45, 1:16, ",
            "Name([110, 111, 116, 95, 98] 1:17)))))]",
        ],
    ),
    (
        b"def f(): a = (b.c)()",
        &[
            "[Assign(Name([97] 1:10), 1:12, Primary(Name([98] 1:15), [Attr([99] 1:17), ",
            "Call(1:19, [])]))]",
        ],
    ),
    (
        b"def f(): a = (b)[c].d",
        &[
            "[Assign(Name([97] 1:10), 1:12, Primary(Name([98] 1:15), [Pick(1:17, ",
            "[At(Name([99] 1:18))]), Attr([100] 1:21)]))]",
        ],
    ),
    (
        b"def f(): a = b(c, d=e, g=(h, i),)",
        &[
            "[Assign(Name([97] 1:10), 1:12, Primary(Name([98] 1:14), [Call(1:15, ",
            "[Arg { key: None, value: Name([99] 1:16), Arg { key: Some(Name([100] 1:19)), ",
            "value: Name([101] 1:21), Arg { key: Some(Name([103] 1:24)), value: Tuple(1:26, ",
            "[Name([104] 1:27), Name([105] 1:30)])])]))]",
        ],
    ),
    (
        b"def f(): a = b[1:2:3, :, ::, c, 1:, :2, ::3, 0,]",
        &[
            "[Assign(Name([97] 1:10), 1:12, Primary(Name([98] 1:14), [Pick(1:15, ",
            "[Cut(Some(Int(1, 1:16)), Some(Int(2, 1:18)), Some(Int(3, 1:20))), Cut(None, None, ",
            "None), Cut(None, None, None), At(Name([99] 1:30)), Cut(Some(Int(1, 1:33)), None, ",
            "None), Cut(None, Some(Int(2, 1:38)), None), Cut(None, None, Some(Int(3, 1:43))), ",
            "At(Int(0, 1:46))])]))]",
        ],
    ),
    (
        b"def f(): a[b, :] <<= 0x10",
        &[
            "[Augment(Primary(Name([97] 1:10), [Pick(1:11, [At(Name([98] 1:12)), Cut(None, None, ",
            "None)])]), Shl, 1:18, Int(16, 1:22))]",
        ],
    ),
    (
        b"def f(): a = (True, False,)",
        &[
            "[Assign(Name([97] 1:10), 1:12, Tuple(1:14, [Truth(true, 1:15), Truth(false, ",
            "1:21)]))]",
        ],
    ),
    (
        b"def f(): a = (((b)))",
        &["[Assign(Name([97] 1:10), 1:12, Name([98] 1:17))]"],
    ),
    (
        b"def f(): a = (b\n  + # c\n  d)",
        &[
            "[Assign(Name([97] 1:10), 1:12, Chain(Name([98] 1:15), [(Add, 2:3, ",
            "Name([100] 3:3))]))]",
        ],
    ),
    (
        b"def f():\n  a += b\n  a -= b\n  a *= b\n  a //= b\n  a %= b\n  \
          a <<= b\n  a >>= b\n  a &= b\n  a |= b\n  a ^= b\n",
        &[
            "[Augment(Name([97] 2:3), Add, 2:5, Name([98] 2:8)), Augment(Name([97] 3:3), Sub, ",
            "3:5, Name([98] 3:8)), Augment(Name([97] 4:3), Mul, 4:5, Name([98] 4:8)), ",
            "Augment(Name([97] 5:3), FloorDiv, 5:5, Name([98] 5:9)), Augment(Name([97] 6:3), ",
            "Mod, 6:5, Name([98] 6:8)), Augment(Name([97] 7:3), Shl, 7:5, Name([98] 7:9)), ",
            "Augment(Name([97] 8:3), Shr, 8:5, Name([98] 8:9)), Augment(Name([97] 9:3), And, ",
            "9:5, Name([98] 9:8)), Augment(Name([97] 10:3), Or, 10:5, Name([98] 10:8)), ",
            "Augment(Name([97] 11:3), Xor, 11:5, Name([98] 11:8))]",
        ],
    ),
    (
        b"def f():\n  if a: b\n  c\n",
        &["[If([(2:3, Name([97] 2:6), [Alone(Name([98] 2:9))])], []), Alone(Name([99] 3:3))]"],
    ),
    (
        b"def f():\n  if a:\n    if b: c\n  else: d\n",
        &[
            "[If([(2:3, Name([97] 2:6), [If([(3:5, Name([98] 3:8), [Alone(Name([99] 3:11))])], ",
            "[])])], [Alone(Name([100] 4:9))])]",
        ],
    ),
    (
        b"def f():\n  if a: b\n  elif c:\n    d\n  elif e: g\n  else:\n    h\n  i\n",
        &[
            "[If([(2:3, Name([97] 2:6), [Alone(Name([98] 2:9))]), (3:3, Name([99] 3:8), ",
            "[Alone(Name([100] 4:5))]), (5:3, Name([101] 5:8), [Alone(Name([103] 5:11))])], ",
            "[Alone(Name([104] 7:5))]), Alone(Name([105] 8:3))]",
        ],
    ),
    (
        b"def f():\n  for a in b:\n    for c in d(): e\n    g\n  h\n",
        &[
            "[For(2:3, [97] 2:7, Name([98] 2:12), [For(3:5, [99] 3:9, Primary(Name([100] 3:14), ",
            "[Call(3:15, [])]), [Alone(Name([101] 3:19))]), Alone(Name([103] 4:5))]), ",
            "Alone(Name([104] 5:3))]",
        ],
    ),
];

// Modules, and their trees.
static MODULES: [(&[u8], &[&str]); 4] = [
    (b"", &["Module { imports: [], functions: [], notes: []"]),
    (
        b"'a'\n",
        &["Module { imports: [], functions: [], notes: []"],
    ),
    (
        b"import a\nimport b as c\n'd'\ndef f(a, b,): return a\ndef g():\n  if a:\n    b\n",
        &[
            "Module { imports: [Import { module: [97] 1:8, alias: [97] 1:8, ",
            "Import { module: [98] 2:8, alias: [99] 2:13], ",
            "functions: [Function { name: [102] 4:5, params: [[97] 4:7, [98] 4:10], ",
            "body: [Return(4:15, [Name([97] 4:22)])], weight: 12, Function { name: [103] 5:5, ",
            "params: [], body: [If([(6:3, Name([97] 6:6), [Alone(Name([98] 7:5))])], [])], ",
            "weight: 16], notes: []",
        ],
    ),
    (
        b"# omp a\nimport a\n# pythran b\n\n#omp\ndef f():\n  if b:\n    c\n    # omp d\n  # omp e\n\
          # omp f\n  g\n# omp h\n",
        &[
            "Module { imports: [Import { module: [97] 2:8, alias: [97] 2:8], ",
            "functions: [Function { name: [102] 6:5, params: [], body: [If([(7:3, ",
            "Name([98] 7:6), [Alone(Name([99] 8:5))])], []), Alone(Name([103] 12:3))], ",
            "weight: 18], notes: [Note { text: [35, 32, 111, 109, 112, 32, 97] 1:1, ",
            "next: Token { kind: Keyword, start: 8, end: 14 2:1, Note { text: [35, 32, 112, 121, ",
            "116, 104, 114, 97, 110, 32, 98] 3:1, next: Token { kind: Keyword, start: 35, ",
            "end: 38 6:1, Note { text: [35, 111, 109, 112] 5:1, next: Token { kind: Keyword, ",
            "start: 35, end: 38 6:1, Note { text: [35, 32, 111, 109, 112, 32, 100] 9:5, ",
            "next: Token { kind: Name, start: 90, end: 91 12:3, Note { text: [35, 32, 111, 109, ",
            "112, 32, 101] 10:3, next: Token { kind: Name, start: 90, end: 91 12:3, ",
            "Note { text: [35, 32, 111, 109, 112, 32, 102] 11:1, next: Token { kind: Name, ",
            "start: 90, end: 91 12:3, Note { text: [35, 32, 111, 109, 112, 32, 104] 13:1, ",
            "next: Token { kind: End, start: 100, end: 100 14:1]",
        ],
    ),
];

// Sources whose parts or heads of functions are refused, and where.
static REFUSED_PARTS: [(&[u8], &str); 31] = [
    (b"x", "Syntax 1:1"),
    (b"x = 1\n", "Syntax 1:1"),
    (b"import", "Syntax 1:7"),
    (b"import 1", "Syntax 1:8"),
    (b"import a as", "Syntax 1:12"),
    (b"import a.b", "Syntax 1:9"),
    (b"import a b", "Syntax 1:10"),
    (b"import a, b", "Syntax 1:9"),
    (b"import a as b as c", "Syntax 1:15"),
    (b"from a import b", "Syntax 1:1"),
    (b"'a' 'b'", "Syntax 1:5"),
    (b"'a'.b", "Syntax 1:4"),
    (b"def", "Syntax 1:4"),
    (b"def 1", "Syntax 1:5"),
    (b"def f", "Syntax 1:6"),
    (b"def f(", "Syntax 1:7"),
    (b"def f(a b)", "Syntax 1:9"),
    (b"def f(,)", "Syntax 1:7"),
    (b"def f(a,,b)", "Syntax 1:9"),
    (b"def f(a=1): pass", "Syntax 1:8"),
    (b"def f(a): ", "Syntax 1:11"),
    (b"def f(a)\n", "Syntax 1:9"),
    (b"def f(a):\npass", "Syntax 2:1"),
    (b"def f(a): if a: pass", "Syntax 1:11"),
    (b"def f(a):\n  import b", "Syntax 2:3"),
    (b"def f(a):\n  def g(): pass", "Syntax 2:3"),
    (b"def f(a):\n  pass\n   pass", "Syntax 3:4"),
    (b"  def f(): pass", "Syntax 1:3"),
    (b"class A: pass", "Syntax 1:1"),
    (b"# pythran export f()\nx", "Syntax 2:1"),
    (b"def f(a\n", "Syntax 2:1"),
];

// Lines that are refused, and where.
static REFUSED_LINES: [(&[u8], &str); 26] = [
    (b"pass", "Syntax 1:1"),
    (b"def f(): pass pass", "Syntax 1:15"),
    (b"def f(): 'a' + b", "Syntax 1:14"),
    (b"def f(): 1", "Syntax 1:10"),
    (b"def f(): -a", "Syntax 1:10"),
    (b"def f(): (a)", "Syntax 1:10"),
    (b"def f(): (a) = 1", "Syntax 1:10"),
    (b"def f(): a, b = 1", "Syntax 1:11"),
    (b"def f(): a, b", "Syntax 1:11"),
    (b"def f(): a + b", "Syntax 1:12"),
    (b"def f(): a = b = c", "Syntax 1:16"),
    (b"def f(): a == b", "Syntax 1:12"),
    (b"def f(): a = ", "Syntax 1:14"),
    (b"def f(): a += ", "Syntax 1:15"),
    (b"def f(): a ** 2", "Syntax 1:12"),
    (b"def f(): a: int = 1", "Syntax 1:11"),
    (b"def f(): a = b if c else d", "Syntax 1:16"),
    (b"def f(): a = lambda: b", "Syntax 1:14"),
    (b"def f(): a = 'b'", "Syntax 1:14"),
    (b"def f(): a = None", "Syntax 1:14"),
    (b"def f(): return ,", "Syntax 1:17"),
    (b"def f(): return a b", "Syntax 1:19"),
    (b"def f(): return a,,", "Syntax 1:19"),
    (b"def f(): return 'a'", "Syntax 1:17"),
    (b"def f(): a = 1 2", "Syntax 1:16"),
    (b"def f(): a = )", "Syntax 1:14"),
];

// Expressions that are refused, and where.
static REFUSED_EXPRESSIONS: [(&[u8], &str); 32] = [
    (b"def f(): a = not", "Syntax 1:17"),
    (b"def f(): a = b not in c", "Syntax 1:16"),
    (b"def f(): a = b in c", "Syntax 1:16"),
    (b"def f(): a = b is c", "Syntax 1:16"),
    (b"def f(): a = b < c < d", "Syntax 1:20"),
    (b"def f(): a = b == c != d", "Syntax 1:21"),
    (b"def f(): a = not b + not c", "Syntax 1:22"),
    (b"def f(): a = b ** -1", "Syntax 1:19"),
    (b"def f(): a = b ** c", "Syntax 1:19"),
    (b"def f(): a = b ** 2 ** 3", "Syntax 1:21"),
    (b"def f(): a = ()", "Syntax 1:15"),
    (b"def f(): a = (b", "Syntax 1:16"),
    (b"def f(): a = (,)", "Syntax 1:15"),
    (b"def f(): a = (b,,)", "Syntax 1:17"),
    (b"def f(): a = (b c)", "Syntax 1:17"),
    (b"def f(): a = (b]", "Syntax 1:16"),
    (b"def f(): a = [b]", "Syntax 1:14"),
    (b"def f(): a = b[]", "Syntax 1:16"),
    (b"def f(): a = b[,]", "Syntax 1:16"),
    (b"def f(): a = b[c,,d]", "Syntax 1:18"),
    (b"def f(): a = b[c:d:e:g]", "Syntax 1:21"),
    (b"def f(): a = b[c)", "Syntax 1:17"),
    (b"def f(): a = b.1", "Syntax 1:16"),
    (b"def f(): a = b.", "Syntax 1:16"),
    (b"def f(): a = b(,)", "Syntax 1:16"),
    (b"def f(): a = b(c=)", "Syntax 1:18"),
    (b"def f(): a = b(c=d=e)", "Syntax 1:19"),
    (b"def f(): a = b(*c)", "Syntax 1:16"),
    (b"def f(): a = b(c for d in e)", "Syntax 1:18"),
    (b"def f(): a = b(c := d)", "Syntax 1:18"),
    (b"def f(): a[b:=c]", "Syntax 1:14"),
    (b"def f():\n  a = (b\n  c = 1\n", "Syntax 3:3"),
];

// Blocks that are refused, and where.
static REFUSED_BLOCKS: [(&[u8], &str); 21] = [
    (b"def f():\n  if: pass", "Syntax 2:5"),
    (b"def f():\n  if a pass", "Syntax 2:8"),
    (b"def f():\n  if a:\n  pass", "Syntax 3:3"),
    (b"def f():\n  if a: pass else: pass", "Syntax 2:14"),
    (b"def f():\n  else: pass", "Syntax 2:3"),
    (b"def f():\n  elif a: pass", "Syntax 2:3"),
    (
        b"def f():\n  if a: pass\n  else: pass\n  else: pass",
        "Syntax 4:3",
    ),
    (
        b"def f():\n  if a: pass\n  else: pass\n  elif a: pass",
        "Syntax 4:3",
    ),
    (b"def f():\n  if a: pass\n  else a: pass", "Syntax 3:8"),
    (b"def f():\n  for 1 in a: pass", "Syntax 2:7"),
    (b"def f():\n  for a, b in c: pass", "Syntax 2:8"),
    (b"def f():\n  for a[0] in c: pass", "Syntax 2:8"),
    (b"def f():\n  for a of c: pass", "Syntax 2:9"),
    (b"def f():\n  for a in: pass", "Syntax 2:11"),
    (b"def f():\n  for a in b, c: pass", "Syntax 2:13"),
    (b"def f():\n  for a in b: pass\n  else: pass", "Syntax 3:3"),
    (b"def f():\n  while a: pass", "Syntax 2:3"),
    (b"def f():\n  if a: for b in c: pass", "Syntax 2:9"),
    (b"def f():\n  break", "Syntax 2:3"),
    (b"def f():\n  True = 1", "Syntax 2:3"),
    (b"def f():\n  a.True", "Syntax 2:5"),
];

// Sources by their parts, each so many times in a row, and the weights of their functions or where they are refused.
static LEVELS: [(&[(&[u8], usize)], &str); 24] = [
    (
        &[(b"def f(): a = ", 1), (b"(", 64), (b"b", 1), (b")", 64)],
        "137 ",
    ),
    (
        &[(b"def f(): a = ", 1), (b"(", 65), (b"b", 1), (b")", 65)],
        "Syntax 1:78",
    ),
    (
        &[(b"def f(): a = ", 1), (b"b[", 64), (b"c", 1), (b"]", 64)],
        "201 ",
    ),
    (
        &[(b"def f(): a = ", 1), (b"b[", 65), (b"c", 1), (b"]", 65)],
        "Syntax 1:143",
    ),
    (&[(b"def f(): a = ", 1), (b"b", 1), (b"(c)", 65)], "204 "),
    (&[(b"def f(): a = ", 1), (b"-", 64), (b"b", 1)], "73 "),
    (
        &[(b"def f(): a = ", 1), (b"-", 65), (b"b", 1)],
        "Syntax 1:78",
    ),
    (&[(b"def f(): a = ", 1), (b"not ", 64), (b"b", 1)], "73 "),
    (
        &[(b"def f(): a = ", 1), (b"not ", 65), (b"b", 1)],
        "Syntax 1:270",
    ),
    (
        &[(b"def f(): a = ", 1), (b"not ", 32), (b"~", 32), (b"b", 1)],
        "73 ",
    ),
    (
        &[(b"def f(): a = ", 1), (b"not ", 32), (b"~", 33), (b"b", 1)],
        "Syntax 1:174",
    ),
    (&[(b"def f(): a = ", 1), (b"-", 63), (b"(b)", 1)], "74 "),
    (
        &[(b"def f(): a = ", 1), (b"-", 64), (b"(b)", 1)],
        "Syntax 1:78",
    ),
    (&[(b"def f(): a = ", 1), (b"-", 64), (b"b[c]", 1)], "76 "),
    (
        &[
            (b"def f(): a = ", 1),
            (b"-", 63),
            (b"(", 1),
            (b"-", 63),
            (b"b)", 1),
        ],
        "137 ",
    ),
    (
        &[
            (b"def f(): a = ", 1),
            (b"-", 63),
            (b"(", 1),
            (b"-", 64),
            (b"b)", 1),
        ],
        "Syntax 1:141",
    ),
    (
        &[
            (b"def f(): a = ", 1),
            (b"-", 64),
            (b"b", 1),
            (b" + ", 1),
            (b"-", 64),
            (b"c", 1),
        ],
        "139 ",
    ),
    (
        &[(b"def f():\n if a: b\n", 1), (b" elif a: b\n", 63)],
        "328 ",
    ),
    (
        &[(b"def f():\n if a: b\n", 1), (b" elif a: b\n", 64)],
        "Syntax 66:2",
    ),
    (
        &[
            (b"def f():\n if a: b\n", 1),
            (b" elif a: b\n", 62),
            (b" elif (a): b\n", 1),
        ],
        "Syntax 65:7",
    ),
    (
        &[
            (b"def f():\n if a: b\n", 1),
            (b" elif a: b\n", 62),
            (b" elif a: (b)\n", 0),
            (b" else: a = (b)\n", 1),
        ],
        "331 ",
    ),
    (
        &[
            (b"def f():\n if a: b\n", 1),
            (b" elif a: b\n", 63),
            (b" else: a = (b)\n", 1),
        ],
        "Syntax 66:12",
    ),
    (
        &[
            (b"def f():\n if a: b\n", 1),
            (b" elif a: b\n", 63),
            (b" else:\n  b\n", 1),
        ],
        "Syntax 67:3",
    ),
    (
        &[
            (b"def f():\n if a: b\n", 1),
            (b" elif a: b\n", 63),
            (b" if a: b\n", 1),
            (b" elif a: b\n", 63),
            (b" a = (b)\n", 1),
        ],
        "654 ",
    ),
];

// The printed tree in fewer words: lists in brackets, a place as `line:col`, a name as its bytes and place.
fn brief(alloc: Global, printed: &str) -> Result<String, AllocError> {
    printed
        .replace(alloc, "Seq { items: [", "[")?
        .replace(alloc, "Loc { line: ", "")?
        .replace(alloc, ", col: ", ":")?
        .replace(alloc, "Boxed { inner: ", "")?
        .replace(alloc, "Name { text: ", "")?
        .replace(alloc, ", loc: ", " ")?
        .replace(alloc, " }", "")
}

fn refused(alloc: Global, stop: Stop) -> Result<String, AllocError> {
    let mut out = String::new(alloc);
    match stop {
        Stop::Refused(refusal) => {
            let rule = refusal.rule;
            let line = refusal.loc.line;
            let col = refusal.loc.col;
            write!(&mut out, "{rule:?} {line}:{col}")?;
        }
        Stop::Memory => out.push_str("no memory")?,
    }
    Ok(out)
}

fn read(alloc: Global, source: &[u8]) -> Result<Module, Stop> {
    if source.len() > 1 << 31 {
        return Err(Stop::Memory);
    }
    let found = tokens(alloc, source)?;
    parse(alloc, source, &found)
}

fn shown(alloc: Global, source: &[u8]) -> Result<String, AllocError> {
    match read(alloc, source) {
        Ok(module) => {
            let mut out = String::new(alloc);
            write!(&mut out, "{module:?}")?;
            brief(alloc, out.as_str())
        }
        Err(stop) => refused(alloc, stop),
    }
}

// The block of the first function alone.
fn body_shown(alloc: Global, source: &[u8]) -> Result<String, AllocError> {
    match read(alloc, source) {
        Ok(module) => {
            let mut out = String::new(alloc);
            for function in module.functions.as_slice() {
                let body = &function.body;
                write!(&mut out, "{body:?}")?;
            }
            brief(alloc, out.as_str())
        }
        Err(stop) => refused(alloc, stop),
    }
}

// The weights of the functions, or the refusal.
fn weights(alloc: Global, source: &[u8]) -> Result<String, AllocError> {
    match read(alloc, source) {
        Ok(module) => {
            let mut out = String::new(alloc);
            for function in module.functions.as_slice() {
                let weight = function.weight;
                write!(&mut out, "{weight} ")?;
            }
            Ok(out)
        }
        Err(stop) => refused(alloc, stop),
    }
}

fn push_times(out: &mut Vec<u8>, part: &[u8], count: usize) -> Result<(), AllocError> {
    for _ in 0..count {
        out.extend_from_slice(part)?;
    }
    Ok(())
}

// These parts in a row, each so many times.
fn joined(alloc: Global, parts: &[(&[u8], usize)]) -> Result<Vec<u8>, AllocError> {
    let mut out = Vec::new(alloc);
    for part in parts {
        push_times(&mut out, part.0, part.1)?;
    }
    Ok(out)
}

// A text by its pieces.
fn whole(alloc: Global, pieces: &[&str]) -> Result<String, AllocError> {
    let mut out = String::new(alloc);
    for piece in pieces {
        out.push_str(piece)?;
    }
    Ok(out)
}

// A function whose block nests so deep.
fn nested(alloc: Global, deep: usize) -> Result<Vec<u8>, AllocError> {
    let mut out = Vec::from_slice(alloc, b"def f():\n")?;
    for spaces in 1..deep {
        push_times(&mut out, b" ", spaces)?;
        out.extend_from_slice(b"if a:\n")?;
    }
    push_times(&mut out, b" ", deep)?;
    out.extend_from_slice(b"pass\n")?;
    Ok(out)
}

#[test]
fn reads_statements(rt: HostRuntime) -> Result<(), Fail> {
    for (source, wanted) in &STATEMENTS {
        let found = body_shown(rt.alloc(), source)?;
        let wanted = whole(rt.alloc(), wanted)?;
        assert_eq!(rt; found.as_str(), wanted.as_str());
    }
    Ok(())
}

#[test]
fn reads_modules(rt: HostRuntime) -> Result<(), Fail> {
    for (source, wanted) in &MODULES {
        let found = shown(rt.alloc(), source)?;
        let wanted = whole(rt.alloc(), wanted)?;
        assert_eq!(rt; found.as_str(), wanted.as_str());
    }
    Ok(())
}

#[test]
fn refuses_parts_and_heads(rt: HostRuntime) -> Result<(), Fail> {
    for (source, wanted) in &REFUSED_PARTS {
        let found = shown(rt.alloc(), source)?;
        assert_eq!(rt; found.as_str(), *wanted);
    }
    Ok(())
}

#[test]
fn refuses_lines(rt: HostRuntime) -> Result<(), Fail> {
    for (source, wanted) in &REFUSED_LINES {
        let found = shown(rt.alloc(), source)?;
        assert_eq!(rt; found.as_str(), *wanted);
    }
    Ok(())
}

#[test]
fn refuses_expressions(rt: HostRuntime) -> Result<(), Fail> {
    for (source, wanted) in &REFUSED_EXPRESSIONS {
        let found = shown(rt.alloc(), source)?;
        assert_eq!(rt; found.as_str(), *wanted);
    }
    Ok(())
}

#[test]
fn refuses_blocks(rt: HostRuntime) -> Result<(), Fail> {
    for (source, wanted) in &REFUSED_BLOCKS {
        let found = shown(rt.alloc(), source)?;
        assert_eq!(rt; found.as_str(), *wanted);
    }
    Ok(())
}

#[test]
fn counts_levels(rt: HostRuntime) -> Result<(), Fail> {
    for (parts, wanted) in &LEVELS {
        let source = joined(rt.alloc(), parts)?;
        let found = weights(rt.alloc(), source.as_slice())?;
        assert_eq!(rt; found.as_str(), *wanted);
    }
    for (deep, wanted) in [(64, "388 "), (65, "Syntax 66:66")] {
        let source = nested(rt.alloc(), deep)?;
        let found = weights(rt.alloc(), source.as_slice())?;
        assert_eq!(rt; found.as_str(), wanted);
    }
    Ok(())
}

// 40 notes, imports, parameters, arguments, subscripts, trailers, links and values each.
#[test]
fn reads_many_of_each(rt: HostRuntime) -> Result<(), Fail> {
    let parts: [(&[u8], usize); 16] = [
        (b"# omp a\n", 40),
        (b"import a\n", 40),
        (b"def f(", 1),
        (b"a, ", 40),
        (b"):\n b = c(", 1),
        (b"d, ", 40),
        (b")[", 1),
        (b"e:f, ", 40),
        (b"]", 1),
        (b"[g]", 40),
        (b" + h", 40),
        (b" and i", 40),
        (b" or j", 40),
        (b"\n return ", 1),
        (b"k, ", 40),
        (b"\n", 1),
    ];
    let source = joined(rt.alloc(), &parts)?;
    let Ok(module) = read(rt.alloc(), source.as_slice()) else {
        return Err(Fail::from("no tree"));
    };
    assert_eq!(rt; module.notes.as_slice().len(), 40);
    assert_eq!(rt; module.imports.as_slice().len(), 40);
    let found = weights(rt.alloc(), source.as_slice())?;
    assert_eq!(rt; found.as_str(), "778 ");
    Ok(())
}

// As many tokens as a source may have: many statements, one expression and one list.
#[test]
fn reads_as_many_tokens_as_there_may_be(rt: HostRuntime) -> Result<(), Fail> {
    let parts: [(&[u8], usize); 7] = [
        (b"def f():\n", 1),
        (b" a = b\n", 20_000),
        (b" a = b", 1),
        (b" + c", 30_000),
        (b"\n return ", 1),
        (b"c, ", 29_992),
        (b"c\n", 1),
    ];
    let source = joined(rt.alloc(), &parts)?;
    let found = weights(rt.alloc(), source.as_slice())?;
    assert_eq!(rt; found.as_str(), "199999 ");
    Ok(())
}
