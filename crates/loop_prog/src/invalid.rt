ghost use Rattle.std.specs.Prelude.{◌≡◌};

use krn_base::NoMemory;

/// A rule for loop programs, in the order in which they are tested at one statement.
#[derive(Clone, Copy, Debug, PartialEq, Eq)]
pub enum InvalidRule {
    /// A register beyond the kernel's, more parameters than registers for them, or a second kernel of one name and of
    /// the same parameter types.
    Register,
    /// Operands or a register of another kind than the statement takes.
    Kind,
    /// Another number of subscripts, dimensions or values, an axis that isn't there, or another rank.
    Rank,
    /// A register is read that some path leaves unassigned.
    Unassigned,
    /// A template that doesn't make exactly one value, a fold without an array, an exponent above 62, or more than 64
    /// steps.
    Template,
    /// More than 128 blocks stand around a statement with blocks of its own.
    Nesting,
    /// A block in tail position that ends neither in `Return` nor in an `If`, or a `Return` elsewhere.
    Return,
    /// A parallel loop that isn't of the form that may run in pieces.
    Loop,
    /// A parallel loop whose turns may depend on one another.
    Independence,
    /// A parallel loop whose privates aren't the registers that its body binds.
    Private,
    /// A parallel loop whose guard isn't its body's.
    Guard,
}

/// Why a loop program isn't taken: the first statement that breaks a rule, numbered from 0 over the whole program in
/// the order of its lines, and the first rule that it breaks; or want of memory.
#[derive(Clone, Copy, Debug, PartialEq, Eq)]
pub enum CheckStop {
    Invalid { at: u32, rule: InvalidRule },
    Memory,
}

impl From<NoMemory> for CheckStop {
    ghost use Rattle.loop_prog.specs.declared.invalid.CheckStop.TheVariants.{Memory};

    ghost from_gives = { λ _ stop. stop ≡ Memory };

    fn from(_none: NoMemory) -> CheckStop {
        CheckStop::Memory
    }
}
