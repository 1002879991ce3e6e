use crate::{is_printable, print};
use eager_rules::{CoreSub, Oper, WordOp};
use krn_base::{BinOp, Join, Kind, Loc, NoMemory, ParamType, Seq, UnOp};
use loop_prog::{
    Axis, Back, Dims, Fill, Form, Guard, GuardPart, Kernel, LoopProgram, Reg, Statement, Symbol,
    Template, TemplateStep, Test,
};
use std::alloc::Global;
use std::test::Fail;

const ADD: &str = "// krn text 1
#include \"krn.hpp\"
auto k_add(krn::flat<int64_t, 1> p_a, krn::flat<int64_t, 1> p_b) -> krn::ret<krn::view<int64_t, 1>> {
 krn::view<int64_t, 1> v0 = p_a;
 krn::view<int64_t, 1> v1 = p_b;
 krn::view<int64_t, 1> v2;
 krn::fits(krn::at(3, 14), v0, v1);
 v2 = krn::like(krn::at(3, 14), v0, v1);
 krn::nest(krn::at(3, 14), v2, krn::add(v0, v1));
 return krn::ret(v2);
}
";

const DOT: &str = "// krn text 1
#include \"krn.hpp\"
auto k_dot(krn::flat<int64_t, 1> p_a, krn::flat<int64_t, 1> p_b) -> krn::ret<int64_t> {
 krn::view<int64_t, 1> v0 = p_a;
 krn::view<int64_t, 1> v1 = p_b;
 int64_t r0;
 int64_t r1;
 int64_t r2;
 int64_t r3;
 int64_t r4;
 int64_t r5;
 r0 = krn::move(krn::at(3, 7), 0);
 r1 = v0.extent(0);
#pragma omp parallel for if (krn::guard(krn::loop(r2, krn::form(0), krn::form(0, 1, r1), 1), \
krn::inside(v0, 0, krn::form(0, 1, r2)), krn::inside(v1, 0, krn::form(0, 1, r2)))) \
reduction(+: r0) private(r2, r3, r4, r5)
 for (int64_t q : krn::range(krn::at(5, 14), 0, r1, 1)) {
  r2 = q;
  r3 = v0.get(krn::at(6, 15), r2);
  r4 = v1.get(krn::at(6, 22), r2);
  r5 = krn::mul(krn::at(6, 19), r3, r4);
  r0 = krn::add(krn::at(6, 11), r0, r5);
 }
 return krn::ret(r0);
}
";

/// A kernel with each statement, type and kind of operand.
const MANY: &str = "// krn text 1
#include \"krn.hpp\"
auto k_many(bool p_t, krn::view<bool, 2> p_m, int64_t p_n) -> krn::ret<int64_t, krn::view<bool, 2>> {
 krn::view<bool, 2> v0 = p_m;
 krn::view<int64_t, 4> v1;
 bool r0 = p_t;
 int64_t r1 = p_n;
 int64_t r2;
 r2 = krn::pow(krn::at(1, 2), r1, 3);
 r2 = krn::neg(krn::at(1, 2), -9223372036854775808);
 r0 = krn::move(krn::at(1, 2), true);
 r2 = v0.size();
 v0.put(krn::at(1, 2), false, r2, 0);
 v1 = v0.pick(krn::at(1, 2), 7, krn::cut(r1, krn::none, -1));
 v1 = v0.flip();
 v1 = v0;
 v1 = krn::fresh(krn::at(1, 2), krn::count, r2, 3);
 krn::some(krn::at(1, 2));
 r2 = krn::fold_max(krn::at(1, 2), krn::select(krn::test(v0), krn::pow(v1, 2), krn::sub(r1, 5)));
 if (r0) {
  v1.release();
 } else {
 }
 for (int64_t q : krn::range(krn::at(4294967295, 0), 0, r1, -2)) {
  r2 = q;
#pragma omp parallel for if (krn::guard(krn::apart(v0, v1), krn::fits(krn::dims(v0.extent(0), \
v1.count(1, krn::form(-1, 2, v0.extent(1)), krn::none, krn::none)), krn::dims()), krn::some(), \
krn::into(krn::dims(v0.extent(255)), krn::dims()))) reduction(max: r2) reduction(|: r1) private()
  for (int64_t q : krn::range(krn::at(1, 2), 0, 1, 1)) {
   r2 = q;
  }
 }
 return krn::ret(r2, v0);
}
auto k__() -> krn::ret<> {
}
";

fn at(line: u32, col: u32) -> Loc {
    Loc { line, col }
}

fn list<T: Copy>(alloc: Global, items: &[T]) -> Result<Seq<T>, NoMemory> {
    let mut made = Seq::new(alloc);
    for item in items {
        made.push(*item)?;
    }
    Ok(made)
}

fn template(alloc: Global, steps: &[TemplateStep]) -> Result<Template, NoMemory> {
    Ok(Template {
        steps: list(alloc, steps)?,
    })
}

fn form(alloc: Global, constant: i64, terms: &[(i64, Symbol)]) -> Result<Form, NoMemory> {
    Ok(Form {
        constant,
        terms: list(alloc, terms)?,
    })
}

fn of_body(
    alloc: Global,
    mut kernel: Kernel,
    body: Seq<Statement>,
) -> Result<LoopProgram, NoMemory> {
    let mut kernels = Seq::new(alloc);
    kernel.body = body;
    kernels.push(kernel)?;
    Ok(LoopProgram { kernels })
}

fn two_arrays(
    alloc: Global,
    name: &[u8],
    rets: &[(Kind, u8)],
    views: usize,
    words: usize,
) -> Result<Kernel, NoMemory> {
    let mut params = Seq::new(alloc);
    params.push((list(alloc, b"a")?, ParamType::Flat(Kind::Int64, 1)))?;
    params.push((list(alloc, b"b")?, ParamType::Flat(Kind::Int64, 1)))?;
    let mut kinds = Seq::new(alloc);
    for _word in 0..words {
        kinds.push(Kind::Int64)?;
    }
    let mut types = Seq::new(alloc);
    for _view in 0..views {
        types.push((Kind::Int64, 1))?;
    }
    Ok(Kernel {
        name: list(alloc, name)?,
        params,
        regs: kinds,
        views: types,
        rets: list(alloc, rets)?,
        body: Seq::new(alloc),
    })
}

fn add(alloc: Global) -> Result<LoopProgram, NoMemory> {
    let mut body = Seq::new(alloc);
    let at = at(3, 14);
    body.push(Statement::Check {
        test: Test::Fits,
        views: list(alloc, &[0, 1])?,
        at,
    })?;
    body.push(Statement::Like {
        to: 2,
        views: list(alloc, &[0, 1])?,
        at,
    })?;
    let steps = [
        TemplateStep::Leaf(0),
        TemplateStep::Leaf(1),
        TemplateStep::Bin(BinOp::Add),
    ];
    body.push(Statement::Nest {
        to: 2,
        template: template(alloc, &steps)?,
        at,
    })?;
    body.push(Statement::Return {
        values: list(alloc, &[Back::View(2)])?,
    })?;
    of_body(
        alloc,
        two_arrays(alloc, b"add", &[(Kind::Int64, 1)], 3, 0)?,
        body,
    )
}

fn dot_guard(alloc: Global) -> Result<Guard, NoMemory> {
    let mut parts = Seq::new(alloc);
    parts.push(GuardPart::Loop {
        var: 2,
        lo: form(alloc, 0, &[])?,
        hi: form(alloc, 0, &[(1, Symbol::Reg(1))])?,
        step: 1,
    })?;
    for view in [0, 1] {
        parts.push(GuardPart::Inside {
            view,
            axis: 0,
            form: form(alloc, 0, &[(1, Symbol::Reg(2))])?,
        })?;
    }
    Ok(Guard { parts })
}

fn set(alloc: Global, to: u32, op: WordOp, args: &[Oper], at: Loc) -> Result<Statement, NoMemory> {
    Ok(Statement::Set {
        to,
        op,
        args: list(alloc, args)?,
        at,
    })
}

fn dot_body(alloc: Global) -> Result<Seq<Statement>, NoMemory> {
    let mut body = Seq::new(alloc);
    for (to, of, col) in [(3, 0, 15), (4, 1, 22)] {
        body.push(Statement::Get {
            to,
            of,
            index: list(alloc, &[Oper::Name(2)])?,
            at: at(6, col),
        })?;
    }
    let product = [Oper::Name(3), Oper::Name(4)];
    body.push(set(alloc, 5, WordOp::Bin(BinOp::Mul), &product, at(6, 19))?)?;
    let sum = [Oper::Name(0), Oper::Name(5)];
    body.push(set(alloc, 0, WordOp::Bin(BinOp::Add), &sum, at(6, 11))?)?;
    Ok(body)
}

fn dot(alloc: Global) -> Result<LoopProgram, NoMemory> {
    let mut body = Seq::new(alloc);
    body.push(set(alloc, 0, WordOp::Move, &[Oper::Int(0)], at(3, 7))?)?;
    body.push(Statement::Extent {
        to: 1,
        of: 0,
        axis: Some(0),
    })?;
    let privates = [Reg::Word(2), Reg::Word(3), Reg::Word(4), Reg::Word(5)];
    body.push(Statement::ParFor {
        var: 2,
        lo: Oper::Int(0),
        hi: Oper::Name(1),
        step: Oper::Int(1),
        at: at(5, 14),
        guard: dot_guard(alloc)?,
        reductions: list(alloc, &[(Join::Sum, 0)])?,
        privates: list(alloc, &privates)?,
        body: dot_body(alloc)?,
    })?;
    body.push(Statement::Return {
        values: list(alloc, &[Back::Word(Oper::Name(0))])?,
    })?;
    of_body(
        alloc,
        two_arrays(alloc, b"dot", &[(Kind::Int64, 0)], 2, 6)?,
        body,
    )
}

fn many_guard(alloc: Global) -> Result<Guard, NoMemory> {
    let mut axes = Seq::new(alloc);
    axes.push(Axis::Extent(0, 0))?;
    let start = form(alloc, -1, &[(2, Symbol::Extent(0, 1))])?;
    axes.push(Axis::Count(1, 1, Some(start), None, None))?;
    let mut shapes = Seq::new(alloc);
    shapes.push(Dims { axes })?;
    shapes.push(Dims {
        axes: Seq::new(alloc),
    })?;
    let mut into = Seq::new(alloc);
    into.push(Axis::Extent(0, 255))?;
    let mut leaves = Seq::new(alloc);
    leaves.push(Dims {
        axes: Seq::new(alloc),
    })?;
    let mut parts = Seq::new(alloc);
    parts.push(GuardPart::Apart { a: 0, b: 1 })?;
    parts.push(GuardPart::Fits(shapes))?;
    parts.push(GuardPart::Filled(Seq::new(alloc)))?;
    parts.push(GuardPart::Into {
        to: Dims { axes: into },
        leaves,
    })?;
    Ok(Guard { parts })
}

fn push_simple(alloc: Global, body: &mut Seq<Statement>) -> Result<(), NoMemory> {
    let at = at(1, 2);
    body.push(set(alloc, 2, WordOp::Un(UnOp::Pow(3)), &[Oper::Name(1)], at)?)?;
    body.push(set(alloc, 2, WordOp::Un(UnOp::Neg), &[Oper::Int(i64::MIN)], at)?)?;
    body.push(set(alloc, 0, WordOp::Move, &[Oper::Truth(true)], at)?)?;
    body.push(Statement::Extent {
        to: 2,
        of: 0,
        axis: None,
    })?;
    body.push(Statement::Put {
        of: 0,
        index: list(alloc, &[Oper::Name(2), Oper::Int(0)])?,
        value: Oper::Truth(false),
        at,
    })?;
    let cut = CoreSub::Cut(Some(Oper::Name(1)), None, Some(Oper::Int(-1)));
    body.push(Statement::ViewOf {
        to: 1,
        of: 0,
        subs: list(alloc, &[CoreSub::At(Oper::Int(7)), cut])?,
        at,
    })?;
    body.push(Statement::Flip { to: 1, of: 0 })?;
    body.push(Statement::Same { to: 1, of: 0 })?;
    body.push(Statement::Fresh {
        to: 1,
        dims: list(alloc, &[Oper::Name(2), Oper::Int(3)])?,
        fill: Fill::Count,
        at,
    })?;
    body.push(Statement::Check {
        test: Test::Filled,
        views: Seq::new(alloc),
        at,
    })?;
    let steps = [
        TemplateStep::Leaf(0),
        TemplateStep::Un(UnOp::Test),
        TemplateStep::Leaf(1),
        TemplateStep::Un(UnOp::Pow(2)),
        TemplateStep::Word(Oper::Name(1)),
        TemplateStep::Word(Oper::Int(5)),
        TemplateStep::Bin(BinOp::Sub),
        TemplateStep::Select,
    ];
    body.push(Statement::Fold {
        to: 2,
        join: Join::Max,
        template: template(alloc, &steps)?,
        at,
    })?;
    Ok(())
}

fn many_body(alloc: Global) -> Result<Seq<Statement>, NoMemory> {
    let mut body = Seq::new(alloc);
    push_simple(alloc, &mut body)?;
    let mut yes = Seq::new(alloc);
    yes.push(Statement::Release { view: 1 })?;
    body.push(Statement::If {
        cond: Oper::Name(0),
        yes,
        no: Seq::new(alloc),
    })?;
    let mut inner = Seq::new(alloc);
    inner.push(Statement::ParFor {
        var: 2,
        lo: Oper::Int(0),
        hi: Oper::Int(1),
        step: Oper::Int(1),
        at: at(1, 2),
        guard: many_guard(alloc)?,
        reductions: list(alloc, &[(Join::Max, 2), (Join::Or, 1)])?,
        privates: Seq::new(alloc),
        body: Seq::new(alloc),
    })?;
    body.push(Statement::For {
        var: 2,
        lo: Oper::Int(0),
        hi: Oper::Name(1),
        step: Oper::Int(-2),
        at: at(u32::MAX, 0),
        body: inner,
    })?;
    body.push(Statement::Return {
        values: list(alloc, &[Back::Word(Oper::Name(2)), Back::View(0)])?,
    })?;
    Ok(body)
}

fn many(alloc: Global) -> Result<LoopProgram, NoMemory> {
    let mut params = Seq::new(alloc);
    params.push((list(alloc, b"t")?, ParamType::Scalar(Kind::Bool)))?;
    params.push((list(alloc, b"m")?, ParamType::Strided(Kind::Bool, 2)))?;
    params.push((list(alloc, b"n")?, ParamType::Scalar(Kind::Int64)))?;
    let mut kernels = Seq::new(alloc);
    kernels.push(Kernel {
        name: list(alloc, b"many")?,
        params,
        regs: list(alloc, &[Kind::Bool, Kind::Int64, Kind::Int64])?,
        views: list(alloc, &[(Kind::Bool, 2), (Kind::Int64, 4)])?,
        rets: list(alloc, &[(Kind::Int64, 0), (Kind::Bool, 2)])?,
        body: many_body(alloc)?,
    })?;
    kernels.push(empty(alloc, b"_")?)?;
    Ok(LoopProgram { kernels })
}

fn empty(alloc: Global, name: &[u8]) -> Result<Kernel, NoMemory> {
    Ok(Kernel {
        name: list(alloc, name)?,
        params: Seq::new(alloc),
        regs: Seq::new(alloc),
        views: Seq::new(alloc),
        rets: Seq::new(alloc),
        body: Seq::new(alloc),
    })
}

/// So many loops, each in the one before.
fn nested(alloc: Global, count: usize) -> Result<LoopProgram, NoMemory> {
    let mut body = Seq::new(alloc);
    for _ in 0..count {
        let mut outer = Seq::new(alloc);
        outer.push(Statement::For {
            var: 0,
            lo: Oper::Int(0),
            hi: Oper::Int(1),
            step: Oper::Int(1),
            at: at(1, 1),
            body,
        })?;
        body = outer;
    }
    of_body(alloc, empty(alloc, b"deep")?, body)
}

/// A fold of a chain of so many additions.
fn chain(alloc: Global, count: usize) -> Result<LoopProgram, NoMemory> {
    let mut steps = Seq::new(alloc);
    steps.push(TemplateStep::Leaf(0))?;
    for _ in 0..count {
        steps.push(TemplateStep::Leaf(0))?;
        steps.push(TemplateStep::Bin(BinOp::Add))?;
    }
    let mut body = Seq::new(alloc);
    body.push(Statement::Fold {
        to: 0,
        join: Join::Sum,
        template: Template { steps },
        at: at(1, 1),
    })?;
    of_body(alloc, empty(alloc, b"chain")?, body)
}

#[test]
fn prints_texts(rt: HostRuntime) -> Result<(), Fail> {
    let alloc = rt.alloc();
    let cases = [(add(alloc)?, ADD), (dot(alloc)?, DOT), (many(alloc)?, MANY)];
    for (program, wanted) in &cases {
        assert!(rt; is_printable(program), "{}", wanted);
        let text = print(alloc, program)?;
        assert_eq!(rt; text.as_slice(), wanted.as_bytes());
    }
    Ok(())
}

/// Where a line is taken in, and how long long texts are.
#[test]
fn prints_deep_and_long_programs(rt: HostRuntime) -> Result<(), Fail> {
    let alloc = rt.alloc();
    let deep = nested(alloc, 129)?;
    assert!(rt; is_printable(&deep));
    assert!(rt; print(alloc, &deep)?.as_slice().ends_with(b"\n  }\n }\n}\n"));
    let long = chain(alloc, 20000)?;
    assert!(rt; is_printable(&long));
    let text = print(alloc, &long)?;
    assert!(rt; text.as_slice().ends_with(b", v0), v0), v0));\n}\n"));
    assert_eq!(rt; text.len(), 280106);
    Ok(())
}

#[test]
fn programs_that_have_no_text(rt: HostRuntime) -> Result<(), Fail> {
    let alloc = rt.alloc();
    let mut lone = Seq::new(alloc);
    lone.push(Statement::Nest {
        to: 0,
        template: template(alloc, &[TemplateStep::Leaf(0), TemplateStep::Leaf(1)])?,
        at: at(1, 1),
    })?;
    let mut short = Seq::new(alloc);
    short.push(set(alloc, 0, WordOp::Bin(BinOp::Add), &[Oper::Int(1)], at(1, 1))?)?;
    let cases = [
        nested(alloc, 130)?,
        of_body(alloc, empty(alloc, b"f")?, lone)?,
        of_body(alloc, empty(alloc, b"f")?, short)?,
        of_body(alloc, empty(alloc, b"")?, Seq::new(alloc))?,
        of_body(alloc, empty(alloc, b"1f")?, Seq::new(alloc))?,
        of_body(alloc, empty(alloc, b"f-")?, Seq::new(alloc))?,
        of_body(alloc, two_arrays(alloc, b"f", &[], 1, 0)?, Seq::new(alloc))?,
    ];
    for program in &cases {
        assert!(rt; !is_printable(program));
    }
    Ok(())
}
