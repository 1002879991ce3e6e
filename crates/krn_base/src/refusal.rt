ghost use Rattle.std.specs.Prelude.{◌≡◌};

use crate::place::Loc;
use std::alloc::AllocError;

/// A rule by which a module is refused, in the order in which they are tested.
#[derive(Clone, Copy, Debug, PartialEq, Eq)]
pub enum Rule {
    Lex,
    Syntax,
    Export,
    Directive,
    Profile,
    Name,
    Recursion,
    /// Printed as `Type`, which is no name of a variant.
    Types,
    Retype,
    Unassigned,
    TooLarge,
    TooDeep,
    LoopForm,
    LiveAfter,
    ReductionUse,
    MayFault,
    Allocates,
    Dependence,
}

impl Rule {
    ghost use Rattle.krn_base.specs.Rule.{rule_name};

    /// The rule's name as a refusal prints it, in ASCII.
    pub fn name(self) -> &'static str
        ensures { result.now ≡ rule_name self }
    {
        match self {
            Rule::Lex => "Lex",
            Rule::Syntax => "Syntax",
            Rule::Export => "Export",
            Rule::Directive => "Directive",
            Rule::Profile => "Profile",
            Rule::Name => "Name",
            Rule::Recursion => "Recursion",
            Rule::Types => "Type",
            Rule::Retype => "Retype",
            Rule::Unassigned => "Unassigned",
            Rule::TooLarge => "TooLarge",
            Rule::TooDeep => "TooDeep",
            Rule::LoopForm => "LoopForm",
            Rule::LiveAfter => "LiveAfter",
            Rule::ReductionUse => "ReductionUse",
            Rule::MayFault => "MayFault",
            Rule::Allocates => "Allocates",
            Rule::Dependence => "Dependence",
        }
    }
}

/// The rule that refuses a module, and the place where it does.
#[derive(Clone, Copy, Debug, PartialEq, Eq)]
pub struct Refusal {
    pub rule: Rule,
    pub loc: Loc,
}

/// Memory was wanting, which is the one error of a call that answers this.
#[derive(Clone, Copy, Debug, PartialEq, Eq)]
pub struct NoMemory;

impl From<AllocError> for NoMemory {
    ghost from_gives = { λ _ error. error ≡ record {} };

    fn from(_error: AllocError) -> NoMemory {
        NoMemory
    }
}

/// Why a pass over a module ended without its answer.
#[derive(Clone, Copy, Debug, PartialEq, Eq)]
pub enum Stop {
    Refused(Refusal),
    Memory,
}

impl From<AllocError> for Stop {
    ghost use Rattle.krn_base.specs.declared.refusal.Stop.TheVariants.{Memory};

    ghost from_gives = { λ _ stop. stop ≡ Memory };

    fn from(_error: AllocError) -> Stop {
        Stop::Memory
    }
}

impl From<NoMemory> for Stop {
    ghost use Rattle.krn_base.specs.declared.refusal.Stop.TheVariants.{Memory};

    ghost from_gives = { λ _ stop. stop ≡ Memory };

    fn from(_error: NoMemory) -> Stop {
        Stop::Memory
    }
}
