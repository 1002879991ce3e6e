// Expressions: the types of the names that they make, and their core.
use super::cases::{kernel_text, source_of};
use std::test::Fail;

// `x = ..` with this expression: the types of the names that it makes, and its statements.
static EXPRESSIONS_1: [(&str, &str); 38] = [
    ("i + 1", "[(I, 0)] [Word 7, Bin(Add), [(0), Int(1)], @4:8]"),
    ("i - b", "[(I, 0)] [Word 7, Bin(Sub), [(0), (1)], @4:8]"),
    ("b * i", "[(I, 0)] [Word 7, Bin(Mul), [(1), (0)], @4:8]"),
    (
        "True // i",
        "[(I, 0)] [Word 7, Bin(FloorDiv), [Truth(true), (0)], @4:11]",
    ),
    ("i % 7", "[(I, 0)] [Word 7, Bin(Mod), [(0), Int(7)], @4:8]"),
    ("i << b", "[(I, 0)] [Word 7, Bin(Shl), [(0), (1)], @4:8]"),
    ("b >> i", "[(I, 0)] [Word 7, Bin(Shr), [(1), (0)], @4:8]"),
    ("v + i", "[(I, 1)] [Map 7, Bin(Add), [(2), (0)], @4:8]"),
    ("b + v", "[(I, 1)] [Map 7, Bin(Add), [(1), (2)], @4:8]"),
    ("v - w", "[(I, 1)] [Map 7, Bin(Sub), [(2), (3)], @4:8]"),
    ("v * m", "[(I, 2)] [Map 7, Bin(Mul), [(2), (4)], @4:8]"),
    ("m + v", "[(I, 2)] [Map 7, Bin(Add), [(4), (2)], @4:8]"),
    (
        "m // q",
        "[(I, 4)] [Map 7, Bin(FloorDiv), [(4), (6)], @4:8]",
    ),
    ("w % i", "[(I, 1)] [Map 7, Bin(Mod), [(3), (0)], @4:8]"),
    ("p << v", "[(I, 2)] [Map 7, Bin(Shl), [(5), (2)], @4:8]"),
    ("2 >> q", "[(I, 4)] [Map 7, Bin(Shr), [Int(2), (6)], @4:8]"),
    (
        "i + i * 2 - 1",
        "[(I, 0), (I, 0), (I, 0)] [Word 7, Bin(Mul), [(0), Int(2)], @4:12, Word 8, Bin(Add), [(0), (7)], @4:8, \
         Word 9, Bin(Sub), [(8), Int(1)], @4:16]",
    ),
    ("i & 3", "[(I, 0)] [Word 7, Bin(And), [(0), Int(3)], @4:8]"),
    (
        "b & True",
        "[(B, 0)] [Word 7, Bin(And), [(1), Truth(true)], @4:8]",
    ),
    ("b | i", "[(I, 0)] [Word 7, Bin(Or), [(1), (0)], @4:8]"),
    ("w ^ w", "[(B, 1)] [Map 7, Bin(Xor), [(3), (3)], @4:8]"),
    ("w & v", "[(I, 1)] [Map 7, Bin(And), [(3), (2)], @4:8]"),
    ("p | b", "[(B, 2)] [Map 7, Bin(Or), [(5), (1)], @4:8]"),
    ("v ^ b", "[(I, 1)] [Map 7, Bin(Xor), [(2), (1)], @4:8]"),
    (
        "np.minimum(b, b)",
        "[(B, 0)] [Word 7, Bin(Min), [(1), (1)], @4:9]",
    ),
    (
        "np.maximum(i, b)",
        "[(I, 0)] [Word 7, Bin(Max), [(0), (1)], @4:9]",
    ),
    (
        "np.minimum(v, w)",
        "[(I, 1)] [Map 7, Bin(Min), [(2), (3)], @4:9]",
    ),
    (
        "np.maximum(p, w)",
        "[(B, 2)] [Map 7, Bin(Max), [(5), (3)], @4:9]",
    ),
    (
        "min(i, 2)",
        "[(I, 0)] [Word 7, Bin(Min), [(0), Int(2)], @4:6]",
    ),
    (
        "max(3, i)",
        "[(I, 0)] [Word 7, Bin(Max), [Int(3), (0)], @4:6]",
    ),
    ("i == b", "[(B, 0)] [Word 7, Bin(Eq), [(0), (1)], @4:8]"),
    ("b != b", "[(B, 0)] [Word 7, Bin(Ne), [(1), (1)], @4:8]"),
    ("v < 0", "[(B, 1)] [Map 7, Bin(Lt), [(2), Int(0)], @4:8]"),
    ("m <= v", "[(B, 2)] [Map 7, Bin(Le), [(4), (2)], @4:8]"),
    ("w > w", "[(B, 1)] [Map 7, Bin(Gt), [(3), (3)], @4:8]"),
    (
        "True >= i",
        "[(B, 0)] [Word 7, Bin(Ge), [Truth(true), (0)], @4:11]",
    ),
    ("-i", "[(I, 0)] [Word 7, Un(Neg), [(0)], @4:6]"),
    ("-v", "[(I, 1)] [Map 7, Un(Neg), [(2)], @4:6]"),
];

static EXPRESSIONS_2: [(&str, &str); 38] = [
    ("+i", "[(I, 0)] [Word 7, Bin(Add), [(0), Int(0)], @4:6]"),
    ("+m", "[(I, 2)] [Map 7, Bin(Add), [(4), Int(0)], @4:6]"),
    ("abs(i)", "[(I, 0)] [Word 7, Un(Abs), [(0)], @4:6]"),
    ("abs(v)", "[(I, 1)] [Map 7, Un(Abs), [(2)], @4:6]"),
    ("np.abs(m)", "[(I, 2)] [Map 7, Un(Abs), [(4)], @4:9]"),
    ("i ** 3", "[(I, 0)] [Word 7, Un(Pow(3)), [(0)], @4:8]"),
    ("v ** 0", "[(I, 1)] [Map 7, Un(Pow(0)), [(2)], @4:8]"),
    ("m ** 62", "[(I, 2)] [Map 7, Un(Pow(62)), [(4)], @4:8]"),
    ("~i", "[(I, 0)] [Word 7, Un(Inv), [(0)], @4:6]"),
    ("~v", "[(I, 1)] [Map 7, Un(Inv), [(2)], @4:6]"),
    ("~p", "[(B, 2)] [Map 7, Un(Flip), [(5)], @4:6]"),
    ("not b", "[(B, 0)] [Word 7, Un(Flip), [(1)], @4:6]"),
    ("int(b)", "[(I, 0)] [Word 7, Bin(Add), [(1), Int(0)], @4:6]"),
    ("int(i)", "[(I, 0)] [Word 7, Bin(Add), [(0), Int(0)], @4:6]"),
    (
        "b and True",
        "[(B, 0), (B, 0)] [Word 7, Move, [(1)], @0:0, If cond: (7), yes: [Word 7, Move, [Truth(true)], @0:0], \
         no: [], Word 8, Move, [(7)], @4:4]",
    ),
    (
        "b or i < 1",
        "[(B, 0), (B, 0), (B, 0)] [Word 7, Move, [(1)], @0:0, If cond: (7), yes: [], no: [Word 8, Bin(Lt), [(0), \
         Int(1)], @4:13, Word 7, Move, [(8)], @0:0], Word 9, Move, [(7)], @4:4]",
    ),
    (
        "b and b and b",
        "[(B, 0), (B, 0), (B, 0)] [Word 7, Move, [(1)], @0:0, If cond: (7), yes: [Word 7, Move, [(1)], @0:0], \
         no: [], Word 8, Move, [(7)], @0:0, If cond: (8), yes: [Word 8, Move, [(1)], @0:0], no: [], Word 9, \
         Move, [(8)], @4:4]",
    ),
    (
        "np.where(w, v, 1)",
        "[(I, 1)] [Map 7, Select, [(3), (2), Int(1)], @4:9]",
    ),
    (
        "np.where(b, v, w)",
        "[(I, 1)] [Map 7, Select, [(1), (2), (3)], @4:9]",
    ),
    (
        "np.where(p, True, b)",
        "[(B, 2)] [Map 7, Select, [(5), Truth(true), (1)], @4:9]",
    ),
    (
        "np.where(w, m, v)",
        "[(I, 2)] [Map 7, Select, [(3), (4), (2)], @4:9]",
    ),
    (
        "np.where(b, i, p)",
        "[(I, 2)] [Map 7, Select, [(1), (0), (5)], @4:9]",
    ),
    ("len(v)", "[(I, 0)] [Extent 7, of: 2, axis: Some(0)]"),
    ("len(q)", "[(I, 0)] [Extent 7, of: 6, axis: Some(0)]"),
    ("m.size", "[(I, 0)] [Extent 7, of: 4, axis: None]"),
    ("q.shape[3]", "[(I, 0)] [Extent 7, of: 6, axis: Some(3)]"),
    ("q.shape[-4]", "[(I, 0)] [Extent 7, of: 6, axis: Some(0)]"),
    ("m.shape[-1]", "[(I, 0)] [Extent 7, of: 4, axis: Some(1)]"),
    ("np.sum(m)", "[(I, 0)] [Reduce 7, Sum, of: 4, @4:9]"),
    ("w.sum()", "[(I, 0)] [Reduce 7, Sum, of: 3, @4:8]"),
    ("np.prod(m)", "[(I, 0)] [Reduce 7, Prod, of: 4, @4:9]"),
    ("w.prod()", "[(I, 0)] [Reduce 7, Prod, of: 3, @4:8]"),
    ("np.min(m)", "[(I, 0)] [Reduce 7, Min, of: 4, @4:9]"),
    ("w.min()", "[(B, 0)] [Reduce 7, Min, of: 3, @4:8]"),
    ("np.max(m)", "[(I, 0)] [Reduce 7, Max, of: 4, @4:9]"),
    ("w.max()", "[(B, 0)] [Reduce 7, Max, of: 3, @4:8]"),
    ("np.any(m)", "[(B, 0)] [Reduce 7, Any, of: 4, @4:9]"),
    ("w.any()", "[(B, 0)] [Reduce 7, Any, of: 3, @4:8]"),
];

static EXPRESSIONS_3: [(&str, &str); 38] = [
    ("np.all(m)", "[(B, 0)] [Reduce 7, All, of: 4, @4:9]"),
    ("w.all()", "[(B, 0)] [Reduce 7, All, of: 3, @4:8]"),
    (
        "np.zeros(3, int)",
        "[(I, 1)] [Fresh 7, dims: [Int(3)], fill: Zero, @4:9]",
    ),
    (
        "np.zeros(i, dtype=bool)",
        "[(B, 1)] [Fresh 7, dims: [(0)], fill: Zero, @4:9]",
    ),
    (
        "np.ones((2, i), np.int64)",
        "[(I, 2)] [Fresh 7, dims: [Int(2), (0)], fill: One, @4:9]",
    ),
    (
        "np.empty((1, 2, i, 4), np.bool_)",
        "[(B, 4)] [Fresh 7, dims: [Int(1), Int(2), (0), Int(4)], fill: Zero, @4:9]",
    ),
    (
        "np.zeros((i,), int)",
        "[(I, 1)] [Fresh 7, dims: [(0)], fill: Zero, @4:9]",
    ),
    (
        "np.ones(m.shape, bool)",
        "[(I, 0), (I, 0), (B, 2)] [Extent 7, of: 4, axis: Some(0), Extent 8, of: 4, axis: Some(1), Fresh 9, \
         dims: [(7), (8)], fill: One, @4:9]",
    ),
    (
        "np.empty(w.shape, dtype=int)",
        "[(I, 0), (I, 1)] [Extent 7, of: 3, axis: Some(0), Fresh 8, dims: [(7)], fill: Zero, @4:9]",
    ),
    (
        "np.zeros(len(v) + 1, int)",
        "[(I, 0), (I, 0), (I, 1)] [Extent 7, of: 2, axis: Some(0), Word 8, Bin(Add), [(7), Int(1)], @4:22, Fresh \
         9, dims: [(8)], fill: Zero, @4:9]",
    ),
    (
        "np.arange(i)",
        "[(I, 1)] [Fresh 7, dims: [(0)], fill: Count, @4:9]",
    ),
    (
        "np.arange(3, dtype=int)",
        "[(I, 1)] [Fresh 7, dims: [Int(3)], fill: Count, @4:9]",
    ),
    (
        "np.arange(i, dtype=np.int64)",
        "[(I, 1)] [Fresh 7, dims: [(0)], fill: Count, @4:9]",
    ),
    ("np.copy(v)", "[(I, 1)] [Map 7, Un(Copy), [(2)], @4:9]"),
    ("p.copy()", "[(B, 2)] [Map 7, Un(Copy), [(5)], @4:8]"),
    ("m.T", "[(I, 2)] [Flip 7, of: 4]"),
    ("w.T", "[(B, 1)] [Flip 7, of: 3]"),
    ("v", "[(I, 1)] [Alias 7, of: 2]"),
    ("i", "[(I, 0)] [Word 7, Move, [(0)], @4:4]"),
    ("5", "[(I, 0)] [Word 7, Move, [Int(5)], @4:4]"),
    ("False", "[(B, 0)] [Word 7, Move, [Truth(false)], @4:4]"),
    ("v[0]", "[(I, 0)] [Get 7, of: 2, index: [Int(0)], @4:7]"),
    ("w[i]", "[(B, 0)] [Get 7, of: 3, index: [(0)], @4:7]"),
    (
        "v[-1]",
        "[(I, 0), (I, 0)] [Word 7, Un(Neg), [Int(1)], @4:8, Get 8, of: 2, index: [(7)], @4:7]",
    ),
    (
        "m[i, 1]",
        "[(I, 0)] [Get 7, of: 4, index: [(0), Int(1)], @4:7]",
    ),
    (
        "q[0, 1, 2, i]",
        "[(I, 0)] [Get 7, of: 6, index: [Int(0), Int(1), Int(2), (0)], @4:7]",
    ),
    ("m[0]", "[(I, 1)] [Pick 7, of: 4, subs: [At(Int(0))], @4:7]"),
    (
        "m[1:]",
        "[(I, 2)] [Pick 7, of: 4, subs: [Cut(Some(Int(1)), None, None)], @4:7]",
    ),
    (
        "p[:, i]",
        "[(B, 1)] [Pick 7, of: 5, subs: [Cut(None, None, None), At((0))], @4:7]",
    ),
    (
        "m[::2, :i]",
        "[(I, 2)] [Pick 7, of: 4, subs: [Cut(None, None, Some(Int(2))), Cut(None, Some((0)), None)], @4:7]",
    ),
    (
        "q[0, 1, 2]",
        "[(I, 1)] [Pick 7, of: 6, subs: [At(Int(0)), At(Int(1)), At(Int(2))], @4:7]",
    ),
    (
        "q[0, :, 1:2]",
        "[(I, 3)] [Pick 7, of: 6, subs: [At(Int(0)), Cut(None, None, None), Cut(Some(Int(1)), Some(Int(2)), \
         None)], @4:7]",
    ),
    (
        "p[0][1]",
        "[(B, 1), (B, 0)] [Pick 7, of: 5, subs: [At(Int(0))], @4:7, Get 8, of: 7, index: [Int(1)], @4:10]",
    ),
    (
        "v[m[0, 0]]",
        "[(I, 0), (I, 0)] [Get 7, of: 4, index: [Int(0), Int(0)], @4:9, Get 8, of: 2, index: [(7)], @4:7]",
    ),
    (
        "m.T[0]",
        "[(I, 2), (I, 1)] [Flip 7, of: 4, Pick 8, of: 7, subs: [At(Int(0))], @4:9]",
    ),
    (
        "(v + 1)[0]",
        "[(I, 1), (I, 0)] [Map 7, Bin(Add), [(2), Int(1)], @4:9, Get 8, of: 7, index: [Int(0)], @4:13]",
    ),
    (
        "v[1:].sum() * 2",
        "[(I, 1), (I, 0), (I, 0)] [Pick 7, of: 2, subs: [Cut(Some(Int(1)), None, None)], @4:7, Reduce 8, Sum, \
         of: 7, @4:12, Word 9, Bin(Mul), [(8), Int(2)], @4:18]",
    ),
    (
        "m[i + 1:, i - 1]",
        "[(I, 0), (I, 0), (I, 1)] [Word 7, Bin(Add), [(0), Int(1)], @4:10, Word 8, Bin(Sub), [(0), Int(1)], \
         @4:18, Pick 9, of: 4, subs: [Cut(Some((7)), None, None), At((8))], @4:7]",
    ),
];

#[test]
fn first_expressions_have_types_and_core(rt: HostRuntime) -> Result<(), Fail> {
    let alloc = rt.alloc();
    for row in &EXPRESSIONS_1 {
        let source = source_of(alloc, " x = ", row.0)?;
        let text = kernel_text(alloc, source.as_bytes())?;
        assert_eq!(rt; text.as_str(), row.1, "{}", row.0);
    }
    Ok(())
}

#[test]
fn second_expressions_have_types_and_core(rt: HostRuntime) -> Result<(), Fail> {
    let alloc = rt.alloc();
    for row in &EXPRESSIONS_2 {
        let source = source_of(alloc, " x = ", row.0)?;
        let text = kernel_text(alloc, source.as_bytes())?;
        assert_eq!(rt; text.as_str(), row.1, "{}", row.0);
    }
    Ok(())
}

#[test]
fn third_expressions_have_types_and_core(rt: HostRuntime) -> Result<(), Fail> {
    let alloc = rt.alloc();
    for row in &EXPRESSIONS_3 {
        let source = source_of(alloc, " x = ", row.0)?;
        let text = kernel_text(alloc, source.as_bytes())?;
        assert_eq!(rt; text.as_str(), row.1, "{}", row.0);
    }
    Ok(())
}
