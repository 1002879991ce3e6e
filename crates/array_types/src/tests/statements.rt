// Statements: the types of the names that they make, and their core.
use super::cases::{kernel_text, source_of};
use std::test::Fail;

// Bodies of the function: the types of its names, and its statements.
static BODIES: [(&str, &str); 40] = [
    (
        " x = 1\n x = i",
        "[(I, 0)] [Word 7, Move, [Int(1)], @4:4, Word 7, Move, [(0)], @5:4]",
    ),
    (
        " x = i\n x += 1",
        "[(I, 0)] [Word 7, Move, [(0)], @4:4, Word 7, Bin(Add), [(7), Int(1)], @5:4]",
    ),
    (" i += b", "[] [Word 0, Bin(Add), [(0), (1)], @4:4]"),
    (
        " b &= True",
        "[] [Word 1, Bin(And), [(1), Truth(true)], @4:4]",
    ),
    (" i = i * 2", "[] [Word 0, Bin(Mul), [(0), Int(2)], @4:8]"),
    (
        " v += 1",
        "[(I, 1)] [Map 7, Bin(Add), [(2), Int(1)], @4:4, Store of: 2, value: (7), @4:4]",
    ),
    (
        " w |= b",
        "[(B, 1)] [Map 7, Bin(Or), [(3), (1)], @4:4, Store of: 3, value: (7), @4:4]",
    ),
    (" v = m[0]", "[] [Pick 2, of: 4, subs: [At(Int(0))], @4:7]"),
    (
        " m += v",
        "[(I, 2)] [Map 7, Bin(Add), [(4), (2)], @4:4, Store of: 4, value: (7), @4:4]",
    ),
    (
        " v[0] = 1",
        "[] [Put of: 2, index: [Int(0)], value: Int(1), @4:3]",
    ),
    (
        " w[i] = b",
        "[] [Put of: 3, index: [(0)], value: (1), @4:3]",
    ),
    (
        " v[i] = b",
        "[] [Put of: 2, index: [(0)], value: (1), @4:3]",
    ),
    (
        " v[1:] = 0",
        "[(I, 1)] [Pick 7, of: 2, subs: [Cut(Some(Int(1)), None, None)], @4:3, Store of: 7, value: Int(0), @4:8]",
    ),
    (
        " v[:] = w",
        "[(I, 1)] [Pick 7, of: 2, subs: [Cut(None, None, None)], @4:3, Store of: 7, value: (3), @4:7]",
    ),
    (
        " m[0] = v",
        "[(I, 1)] [Pick 7, of: 4, subs: [At(Int(0))], @4:3, Store of: 7, value: (2), @4:7]",
    ),
    (
        " m[0, i] = v[0]",
        "[(I, 0)] [Get 7, of: 2, index: [Int(0)], @4:13, Put of: 4, index: [Int(0), (0)], value: (7), @4:3]",
    ),
    (
        " m[i - 1, 0] = i + 1",
        "[(I, 0), (I, 0)] [Word 7, Bin(Add), [(0), Int(1)], @4:18, Word 8, Bin(Sub), [(0), Int(1)], @4:6, Put \
         of: 4, index: [(8), Int(0)], value: (7), @4:3]",
    ),
    (
        " v[0] += 1",
        "[(I, 0), (I, 0)] [Get 7, of: 2, index: [Int(0)], @4:3, Word 8, Bin(Add), [(7), Int(1)], @4:7, Put of: \
         2, index: [Int(0)], value: (8), @4:3]",
    ),
    (
        " m[0] *= v",
        "[(I, 1), (I, 1)] [Pick 7, of: 4, subs: [At(Int(0))], @4:3, Map 8, Bin(Mul), [(7), (2)], @4:7, Store of: \
         7, value: (8), @4:7]",
    ),
    (
        " m[i + 1, 0] -= v[i]",
        "[(I, 0), (I, 0), (I, 0), (I, 0)] [Word 7, Bin(Add), [(0), Int(1)], @4:6, Get 8, of: 4, index: [(7), \
         Int(0)], @4:3, Get 9, of: 2, index: [(0)], @4:18, Word 10, Bin(Sub), [(8), (9)], @4:14, Put of: 4, \
         index: [(7), Int(0)], value: (10), @4:3]",
    ),
    (
        " m.T[0] = 1",
        "[(I, 2), (I, 1)] [Flip 7, of: 4, Pick 8, of: 7, subs: [At(Int(0))], @4:5, Store of: 8, value: Int(1), \
         @4:9]",
    ),
    (" pass\n 'text'", "[] []"),
    (
        " if b:\n  x = 1\n else:\n  x = 2",
        "[(I, 0)] [If cond: (1), yes: [Word 7, Move, [Int(1)], @5:5], no: [Word 7, Move, [Int(2)], @7:5]]",
    ),
    (
        " if b:\n  pass\n elif i < 1:\n  x = i\n else:\n  y = v",
        "[(B, 0), (I, 0), (I, 1)] [If cond: (1), yes: [], no: [Word 7, Bin(Lt), [(0), Int(1)], @6:9, If cond: \
         (7), yes: [Word 8, Move, [(0)], @7:5], no: [Alias 9, of: 2]]]",
    ),
    (
        " for k in range(3):\n  x = k",
        "[(I, 0), (I, 0)] [For var: 7, lo: Int(0), hi: Int(3), step: Int(1), @4:11, omp: None, body: [Word 8, \
         Move, [(7)], @5:5]]",
    ),
    (
        " for k in range(i, 9):\n  v[k] = 0",
        "[(I, 0)] [For var: 7, lo: (0), hi: Int(9), step: Int(1), @4:11, omp: None, body: [Put of: 2, index: \
         [(7)], value: Int(0), @5:4]]",
    ),
    (
        " for i in range(i, len(v), -2):\n  pass",
        "[(I, 0), (I, 0)] [Extent 7, of: 2, axis: Some(0), Word 8, Un(Neg), [Int(2)], @4:28, For var: 0, lo: \
         (0), hi: (7), step: (8), @4:11, omp: None, body: []]",
    ),
    (
        " s = 0\n #omp parallel for reduction(+:s)\n for k in range(3):\n  s += k",
        "[(I, 0), (I, 0)] [Word 7, Move, [Int(0)], @4:4, For var: 8, lo: Int(0), hi: Int(3), step: Int(1), \
         @6:11, omp: Some([(Sum, 7)]), body: [Word 7, Bin(Add), [(7), (8)], @7:5]]",
    ),
    (
        " #omp parallel for reduction(max:s)\n for k in range(3):\n  s = k",
        "[(I, 0), (I, 0)] [For var: 7, lo: Int(0), hi: Int(3), step: Int(1), @5:11, omp: Some([(Max, 8)]), body: \
         [Word 8, Move, [(7)], @6:5]]",
    ),
    (
        " #omp parallel for reduction(*:k)\n for k in range(3):\n  pass",
        "[(I, 0)] [For var: 7, lo: Int(0), hi: Int(3), step: Int(1), @5:11, omp: Some([(Prod, 7)]), body: []]",
    ),
    (
        " #omp parallel for reduction(+:s)\n for k in range(3):\n  pass\n s = 1",
        "[(I, 0), (I, 0)] [For var: 7, lo: Int(0), hi: Int(3), step: Int(1), @5:11, omp: Some([(Sum, 8)]), body: \
         [], Word 8, Move, [Int(1)], @7:4]",
    ),
    (
        " #omp parallel for\n for k in range(3):\n  pass",
        "[(I, 0)] [For var: 7, lo: Int(0), hi: Int(3), step: Int(1), @5:11, omp: Some([]), body: []]",
    ),
    (" return", "[] [Return values: []]"),
    (" return i, w", "[] [Return values: [(0), (3)]]"),
    (" return (i,)", "[] [Return values: [(0)]]"),
    (" return (i, v),", "[] [Return values: [(0), (2)]]"),
    (
        " return (i + 1, 2)",
        "[(I, 0)] [Word 7, Bin(Add), [(0), Int(1)], @4:12, Return values: [(7), Int(2)]]",
    ),
    (
        " if b:\n  return i\n else:\n  return 2",
        "[] [If cond: (1), yes: [Return values: [(0)]], no: [Return values: [Int(2)]]]",
    ),
    (
        " if b:\n  return\n else:\n  pass",
        "[] [If cond: (1), yes: [Return values: []], no: []]",
    ),
    (
        " x = b and v[0] < 1",
        "[(B, 0), (I, 0), (B, 0), (B, 0)] [Word 7, Move, [(1)], @0:0, If cond: (7), yes: [Get 8, of: 2, index: \
         [Int(0)], @4:13, Word 9, Bin(Lt), [(8), Int(1)], @4:17, Word 7, Move, [(9)], @0:0], no: [], Word 10, \
         Move, [(7)], @4:4]",
    ),
];

#[test]
fn statements_have_types_and_core(rt: HostRuntime) -> Result<(), Fail> {
    let alloc = rt.alloc();
    for row in &BODIES {
        let source = source_of(alloc, "", row.0)?;
        let text = kernel_text(alloc, source.as_bytes())?;
        assert_eq!(rt; text.as_str(), row.1, "{}", row.0);
    }
    Ok(())
}
