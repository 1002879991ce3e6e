ghost use Rattle.std.specs.Prelude.{◌≡◌};
ghost use Rattle.loop_prog.specs.Check.{both_keep, first_broken};

use crate::invalid::InvalidRule;

/// Which of the first seven rules are kept, in their order.
#[derive(Clone, Copy)]
pub struct Kept {
    pub register: bool,
    pub kind: bool,
    pub rank: bool,
    pub assigned: bool,
    pub template: bool,
    pub nesting: bool,
    pub returns: bool,
}

/// Where a statement stands: in how many others, and whether it ends a block in tail position.
#[derive(Clone, Copy)]
pub struct Site {
    pub depth: u32,
    pub ends: bool,
}

/// The rules that both keep.
pub fn both_keep(a: Kept, b: Kept) -> Kept
    ensures { result ≡ both_keep a b }
{
    Kept {
        register: a.register && b.register,
        kind: a.kind && b.kind,
        rank: a.rank && b.rank,
        assigned: a.assigned && b.assigned,
        template: a.template && b.template,
        nesting: a.nesting && b.nesting,
        returns: a.returns && b.returns,
    }
}

/// The first rule that isn't kept.
pub fn first_broken(kept: Kept) -> Option<InvalidRule>
    ensures { result ≡ first_broken kept }
{
    if !kept.register {
        return Some(InvalidRule::Register);
    }
    if !kept.kind {
        return Some(InvalidRule::Kind);
    }
    if !kept.rank {
        return Some(InvalidRule::Rank);
    }
    if !kept.assigned {
        return Some(InvalidRule::Unassigned);
    }
    if !kept.template {
        return Some(InvalidRule::Template);
    }
    if !kept.nesting {
        return Some(InvalidRule::Nesting);
    }
    if !kept.returns {
        return Some(InvalidRule::Return);
    }
    None
}
