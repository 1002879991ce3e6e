// The registers that a statement reads, binds and names, in order.
ghost use Rattle.std.specs.Prelude.{◌≡◌, ◌++◌, ◌∷◌, [], IfOk, map};
ghost use Rattle.std.specs.List.{flat_map};
ghost use Rattle.eager_rules.specs.Works.{given_part, sub_operands};
ghost use Rattle.loop_prog.specs.Conditions.{axis_regs, dims_regs, form_regs, guard_regs, named_regs, part_regs};
ghost use Rattle.loop_prog.specs.Conditions.{symbol_reg};
ghost use Rattle.loop_prog.specs.Statements.{back_regs, binds_of, oper_regs, opers_regs, reads_of, step_regs};
ghost use Rattle.loop_prog.specs.declared.program.Reg.TheVariants as reg;
ghost use Rattle.loop_prog.specs.declared.program.Statement.{out-Statement};

use crate::guard::{Axis, Dims, Form, GuardPart, Symbol};
use crate::program::{Back, Reg, Statement, TemplateStep};
use eager_rules::{CoreSub, Oper};
use krn_base::{Join, NoMemory, Seq};
use std::alloc::Global;

/// Adds the register that an operand names.
fn add_oper(x: Oper, regs: &mut Seq<Reg>) -> Result<(), NoMemory>
    ensures { IfOk result (λ u. regs.new ≡ regs.old ++ oper_regs x) }
{
    if let Oper::Name(r) = x {
        regs.push(Reg::Word(r))?;
    }
    Ok(())
}

/// Adds the registers that operands name.
fn add_opers(xs: &[Oper], regs: &mut Seq<Reg>) -> Result<(), NoMemory>
    ensures { IfOk result (λ u. regs.new ≡ regs.old ++ opers_regs xs.now) }
{
    for x in xs {
        add_oper(*x, regs)?;
    }
    Ok(())
}

/// Adds the register that a part of a slice names, where it is given.
fn add_part(part: Option<Oper>, regs: &mut Seq<Reg>) -> Result<(), NoMemory>
    ensures { IfOk result (λ u. regs.new ≡ regs.old ++ opers_regs (given_part part)) }
{
    match part {
        Some(x) => add_oper(x, regs),
        None => Ok(()),
    }
}

/// Adds the registers that a subscript names.
fn add_sub(sub: CoreSub, regs: &mut Seq<Reg>) -> Result<(), NoMemory>
    ensures { IfOk result (λ u. regs.new ≡ regs.old ++ opers_regs (sub_operands sub)) }
{
    match sub {
        CoreSub::At(x) => add_oper(x, regs),
        CoreSub::Cut(start, stop, step) => {
            add_part(start, regs)?;
            add_part(stop, regs)?;
            add_part(step, regs)
        }
    }
}

/// Adds the registers that subscripts name.
fn add_subs(subs: &[CoreSub], regs: &mut Seq<Reg>) -> Result<(), NoMemory>
    ensures { IfOk result (λ u. regs.new ≡ regs.old ++ opers_regs (flat_map sub_operands subs.now)) }
{
    for sub in subs {
        add_sub(*sub, regs)?;
    }
    Ok(())
}

/// Adds view registers by their numbers.
fn add_views(views: &[u32], regs: &mut Seq<Reg>) -> Result<(), NoMemory>
    ensures { IfOk result (λ u. regs.new ≡ regs.old ++ map reg.View views.now) }
{
    for v in views {
        regs.push(Reg::View(*v))?;
    }
    Ok(())
}

/// Adds the register that a step of a template reads.
fn add_step(step: TemplateStep, regs: &mut Seq<Reg>) -> Result<(), NoMemory>
    ensures { IfOk result (λ u. regs.new ≡ regs.old ++ step_regs step) }
{
    match step {
        TemplateStep::Leaf(v) => {
            regs.push(Reg::View(v))?;
            Ok(())
        }
        TemplateStep::Word(x) => add_oper(x, regs),
        TemplateStep::Un(_) | TemplateStep::Bin(_) | TemplateStep::Select => Ok(()),
    }
}

/// Adds the registers that a template reads.
fn add_steps(steps: &[TemplateStep], regs: &mut Seq<Reg>) -> Result<(), NoMemory>
    ensures { IfOk result (λ u. regs.new ≡ regs.old ++ flat_map step_regs steps.now) }
{
    for step in steps {
        add_step(*step, regs)?;
    }
    Ok(())
}

/// Adds the register that a returned value names.
fn add_back(value: Back, regs: &mut Seq<Reg>) -> Result<(), NoMemory>
    ensures { IfOk result (λ u. regs.new ≡ regs.old ++ back_regs value) }
{
    match value {
        Back::Word(x) => add_oper(x, regs),
        Back::View(v) => {
            regs.push(Reg::View(v))?;
            Ok(())
        }
    }
}

/// Adds the registers that returned values name.
fn add_backs(values: &[Back], regs: &mut Seq<Reg>) -> Result<(), NoMemory>
    ensures { IfOk result (λ u. regs.new ≡ regs.old ++ flat_map back_regs values.now) }
{
    for value in values {
        add_back(*value, regs)?;
    }
    Ok(())
}

/// The registers that a statement reads before its blocks.
pub fn reads(alloc: Global, statement: &Statement) -> Result<Seq<Reg>, NoMemory>
    ensures { IfOk result (λ regs. regs ≡ reads_of (out-Statement statement.now)) }
{
    let mut regs = Seq::new(alloc);
    match statement {
        Statement::Set { args, .. } => add_opers(args.as_slice(), &mut regs)?,
        Statement::Extent { of, .. } => regs.push(Reg::View(*of))?,
        Statement::Get { of, index, .. } => {
            regs.push(Reg::View(*of))?;
            add_opers(index.as_slice(), &mut regs)?;
        }
        Statement::Put {
            of,
            index,
            value,
            ..
        } => {
            regs.push(Reg::View(*of))?;
            add_oper(*value, &mut regs)?;
            add_opers(index.as_slice(), &mut regs)?;
        }
        Statement::ViewOf { of, subs, .. } => {
            regs.push(Reg::View(*of))?;
            add_subs(subs.as_slice(), &mut regs)?;
        }
        Statement::Flip { of, .. } => regs.push(Reg::View(*of))?,
        Statement::Same { of, .. } => regs.push(Reg::View(*of))?,
        Statement::Fresh { dims, .. } => add_opers(dims.as_slice(), &mut regs)?,
        Statement::Like { views, .. } => add_views(views.as_slice(), &mut regs)?,
        Statement::Check { views, .. } => add_views(views.as_slice(), &mut regs)?,
        Statement::Nest { to, template, .. } => {
            regs.push(Reg::View(*to))?;
            add_steps(template.steps.as_slice(), &mut regs)?;
        }
        Statement::Fold { template, .. } => add_steps(template.steps.as_slice(), &mut regs)?,
        Statement::If { cond, .. } => add_oper(*cond, &mut regs)?,
        Statement::For { lo, hi, step, .. } => add_opers(&[*lo, *hi, *step], &mut regs)?,
        Statement::ParFor { lo, hi, step, .. } => add_opers(&[*lo, *hi, *step], &mut regs)?,
        Statement::Release { .. } => {}
        Statement::Return { values } => add_backs(values.as_slice(), &mut regs)?,
    }
    Ok(regs)
}

/// The register that a statement binds by itself.
pub fn binds(alloc: Global, statement: &Statement) -> Result<Seq<Reg>, NoMemory>
    ensures { IfOk result (λ regs. regs ≡ binds_of (out-Statement statement.now)) }
{
    let mut regs = Seq::new(alloc);
    match statement {
        Statement::Set { to, .. } => regs.push(Reg::Word(*to))?,
        Statement::Extent { to, .. } => regs.push(Reg::Word(*to))?,
        Statement::Get { to, .. } => regs.push(Reg::Word(*to))?,
        Statement::ViewOf { to, .. } => regs.push(Reg::View(*to))?,
        Statement::Flip { to, .. } => regs.push(Reg::View(*to))?,
        Statement::Same { to, .. } => regs.push(Reg::View(*to))?,
        Statement::Fresh { to, .. } => regs.push(Reg::View(*to))?,
        Statement::Like { to, .. } => regs.push(Reg::View(*to))?,
        Statement::Fold { to, .. } => regs.push(Reg::Word(*to))?,
        Statement::For { var, .. } => regs.push(Reg::Word(*var))?,
        Statement::ParFor { var, .. } => regs.push(Reg::Word(*var))?,
        Statement::Put { .. } => {}
        Statement::Check { .. } => {}
        Statement::Nest { .. } => {}
        Statement::If { .. } => {}
        Statement::Release { .. } => {}
        Statement::Return { .. } => {}
    }
    Ok(regs)
}

/// Adds the registers of a form.
fn add_form(form: &Form, regs: &mut Seq<Reg>) -> Result<(), NoMemory>
    ensures { IfOk result (λ u. regs.new ≡ regs.old ++ form_regs form.now) }
{
    for term in form.terms.as_slice() {
        regs.push(symbol_reg(*term))?;
    }
    Ok(())
}

/// The register of a term's symbol.
fn symbol_reg(term: (i64, Symbol)) -> Reg
    ensures { result ≡ symbol_reg term }
{
    match term.1 {
        Symbol::Reg(r) => Reg::Word(r),
        Symbol::Extent(v, _) => Reg::View(v),
    }
}

/// Adds the registers of a part of a slice, where it is given.
fn add_form_part(part: &Option<Form>, regs: &mut Seq<Reg>) -> Result<(), NoMemory>
    ensures { IfOk result (λ u. regs.new ≡ regs.old ++ part_regs part.now) }
{
    match part {
        Some(form) => add_form(form, regs),
        None => Ok(()),
    }
}

/// Adds the registers of a dimension.
fn add_axis(axis: &Axis, regs: &mut Seq<Reg>) -> Result<(), NoMemory>
    ensures { IfOk result (λ u. regs.new ≡ regs.old ++ axis_regs axis.now) }
{
    match axis {
        Axis::Extent(v, _) => {
            regs.push(Reg::View(*v))?;
            Ok(())
        }
        Axis::Count(v, _, start, stop, step) => {
            regs.push(Reg::View(*v))?;
            add_form_part(start, regs)?;
            add_form_part(stop, regs)?;
            add_form_part(step, regs)
        }
    }
}

/// Adds the registers of a shape.
fn add_dims(dims: &Dims, regs: &mut Seq<Reg>) -> Result<(), NoMemory>
    ensures { IfOk result (λ u. regs.new ≡ regs.old ++ dims_regs dims.now) }
{
    for axis in dims.axes.as_slice() {
        add_axis(axis, regs)?;
    }
    Ok(())
}

/// Adds the registers of shapes.
fn add_shapes(shapes: &[Dims], regs: &mut Seq<Reg>) -> Result<(), NoMemory>
    ensures { IfOk result (λ u. regs.new ≡ regs.old ++ flat_map dims_regs shapes.now) }
{
    for dims in shapes {
        add_dims(dims, regs)?;
    }
    Ok(())
}

/// Adds the registers of a condition of a guard.
fn add_guard_part(part: &GuardPart, regs: &mut Seq<Reg>) -> Result<(), NoMemory>
    ensures { IfOk result (λ u. regs.new ≡ regs.old ++ guard_regs part.now) }
{
    match part {
        GuardPart::Loop { var, lo, hi, .. } => {
            regs.push(Reg::Word(*var))?;
            add_form(lo, regs)?;
            add_form(hi, regs)
        }
        GuardPart::Apart { a, b } => {
            regs.push(Reg::View(*a))?;
            regs.push(Reg::View(*b))?;
            Ok(())
        }
        GuardPart::Inside { view, form, .. } => {
            regs.push(Reg::View(*view))?;
            add_form(form, regs)
        }
        GuardPart::Fits(shapes) => add_shapes(shapes.as_slice(), regs),
        GuardPart::Filled(shapes) => add_shapes(shapes.as_slice(), regs),
        GuardPart::Into { to, leaves } => {
            add_dims(to, regs)?;
            add_shapes(leaves.as_slice(), regs)
        }
    }
}

/// Adds the registers of a guard.
fn add_guard(parts: &[GuardPart], regs: &mut Seq<Reg>) -> Result<(), NoMemory>
    ensures { IfOk result (λ u. regs.new ≡ regs.old ++ flat_map guard_regs parts.now) }
{
    for part in parts {
        add_guard_part(part, regs)?;
    }
    Ok(())
}

/// Adds the registers of reductions.
fn add_reductions(reductions: &[(Join, u32)], regs: &mut Seq<Reg>) -> Result<(), NoMemory>
    ensures { IfOk result (λ u. regs.new ≡ regs.old ++ map (λ p. reg.Word p.1) reductions.now) }
{
    for reduction in reductions {
        let (_join, r) = *reduction;
        regs.push(Reg::Word(r))?;
    }
    Ok(())
}

/// Adds registers.
fn add_regs(more: &[Reg], regs: &mut Seq<Reg>) -> Result<(), NoMemory>
    ensures { IfOk result (λ u. regs.new ≡ regs.old ++ more.now) }
{
    for register in more {
        regs.push(*register)?;
    }
    Ok(())
}

/// The registers that a statement names without reading or binding them.
pub fn named(alloc: Global, statement: &Statement) -> Result<Seq<Reg>, NoMemory>
    ensures { IfOk result (λ regs. regs ≡ named_regs (out-Statement statement.now)) }
{
    let mut regs = Seq::new(alloc);
    match statement {
        Statement::Release { view } => {
            regs.push(Reg::View(*view))?;
            Ok(regs)
        }
        Statement::ParFor {
            guard,
            reductions,
            privates,
            ..
        } => {
            add_guard(guard.parts.as_slice(), &mut regs)?;
            add_reductions(reductions.as_slice(), &mut regs)?;
            add_regs(privates.as_slice(), &mut regs)?;
            Ok(regs)
        }
        _ => Ok(regs),
    }
}
