use crate::guard::Guard;
use array_ops::Fill;
use eager_rules::{CoreSub, Oper, WordOp};
use krn_base::{BinOp, Join, Kind, Loc, ParamType, Seq, Text, UnOp};

/// A register: a scalar one or a view one, by its number.
#[derive(Clone, Copy, Debug, PartialEq, Eq)]
pub enum Reg {
    Word(u32),
    View(u32),
}

/// What a `Check` asks of views.
#[derive(Clone, Copy, Debug, PartialEq, Eq)]
pub enum Test {
    /// Their shapes have a broadcast.
    Fits,
    /// Their shapes have a broadcast, and it has an element. Written `some`.
    Filled,
}

/// A value that a kernel returns: a word, or the elements of a view register.
#[derive(Clone, Copy, Debug, PartialEq, Eq)]
pub enum Back {
    Word(Oper),
    View(u32),
}

/// A step of a template. The steps are in postfix order: each takes its operands from what those before it left.
#[derive(Clone, Copy, Debug, PartialEq, Eq)]
pub enum TemplateStep {
    /// The element of a view register, spread to the shape of the nest.
    Leaf(u32),
    /// A word, the same for each element.
    Word(Oper),
    Un(UnOp),
    Bin(BinOp),
    /// The second of three values where the first isn't 0, else the third.
    Select,
}

/// How one element is made of the elements of leaves.
#[derive(Debug, PartialEq, Eq, Drop)]
pub struct Template {
    pub steps: Seq<TemplateStep>,
}

/// A statement of the loop program. `to`, `of`, `var` and `view` are the numbers of registers; the name of an operand
/// is the number of a scalar register; `at` is the place in the module's text at which the statement may fault.
#[derive(Debug, PartialEq, Eq, Drop)]
pub enum Statement {
    /// A scalar operation with its faults, or a move.
    Set {
        to: u32,
        op: WordOp,
        args: Seq<Oper>,
        at: Loc,
    },
    /// The extent of a view's dimension, numbered from 0, or the number of its elements.
    Extent {
        to: u32,
        of: u32,
        axis: Option<u8>,
    },
    /// One element read: as many subscripts as the view has dimensions.
    Get {
        to: u32,
        of: u32,
        index: Seq<Oper>,
        at: Loc,
    },
    /// One element written.
    Put {
        of: u32,
        index: Seq<Oper>,
        value: Oper,
        at: Loc,
    },
    /// A view by subscripts, which are applied from the first dimension on.
    ViewOf {
        to: u32,
        of: u32,
        subs: Seq<CoreSub>,
        at: Loc,
    },
    /// A view with the dimensions reversed.
    Flip {
        to: u32,
        of: u32,
    },
    /// The same view in another register.
    Same {
        to: u32,
        of: u32,
    },
    /// A new buffer with these extents.
    Fresh {
        to: u32,
        dims: Seq<Oper>,
        fill: Fill,
        at: Loc,
    },
    /// A new buffer of zeros with the broadcast shape of views.
    Like {
        to: u32,
        views: Seq<u32>,
        at: Loc,
    },
    /// A test of the shapes of views.
    Check {
        test: Test,
        views: Seq<u32>,
        at: Loc,
    },
    /// The elements of a template stored into a view: one element after another, or through a temporary where a leaf
    /// reads what would be written before.
    Nest {
        to: u32,
        template: Template,
        at: Loc,
    },
    /// The join of all elements of a template from the unit. A register of kind Bool gets 1 where this isn't 0, else 0.
    Fold {
        to: u32,
        join: Join,
        template: Template,
        at: Loc,
    },
    If {
        cond: Oper,
        yes: Seq<Statement>,
        no: Seq<Statement>,
    },
    /// A loop over Python's `range(lo, hi, step)`.
    For {
        var: u32,
        lo: Oper,
        hi: Oper,
        step: Oper,
        at: Loc,
        body: Seq<Statement>,
    },
    /// A loop whose turns may run in pieces where its guard holds. Its privates are unassigned afterwards.
    ParFor {
        var: u32,
        lo: Oper,
        hi: Oper,
        step: Oper,
        at: Loc,
        guard: Guard,
        reductions: Seq<(Join, u32)>,
        privates: Seq<Reg>,
        body: Seq<Statement>,
    },
    /// A view register that is unassigned afterwards; it may be so before.
    Release {
        view: u32,
    },
    /// The end of the kernel, with its values.
    Return {
        values: Seq<Back>,
    },
}

/// A kernel. Its scalar parameters are the first scalar registers and its array parameters the first view registers,
/// each in order.
#[derive(Debug, PartialEq, Eq, Drop)]
pub struct Kernel {
    pub name: Text,
    pub params: Seq<(Text, ParamType)>,
    /// The kinds of the scalar registers.
    pub regs: Seq<Kind>,
    /// The kinds and ranks of the view registers.
    pub views: Seq<(Kind, u8)>,
    /// The kinds and ranks of the values; rank 0 means a word.
    pub rets: Seq<(Kind, u8)>,
    pub body: Seq<Statement>,
}

/// The kernels of a module, in order.
#[derive(Debug, PartialEq, Eq, Drop)]
pub struct LoopProgram {
    pub kernels: Seq<Kernel>,
}
