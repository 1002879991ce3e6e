// The heads of the kernels so far, with an index.
ghost use Rattle.std.specs.Prelude.{◌≡◌, ◌++◌, ◌∷◌, [], List, IfOk, map};
ghost use Rattle.std.specs.List.{list_any};
ghost use Rattle.loop_prog.specs.Check.{same_head};
ghost use Rattle.loop_prog.specs.Heads as spec;
ghost use Rattle.loop_prog.specs.Heads.{HoldsHeads, head_key};
ghost use Rattle.loop_prog.specs.declared.program.Kernel as declared;

use crate::program::Kernel;
use indexmap::IndexSet;
use krn_base::{Kind, ParamType, Text};
use std::alloc::{AllocError, Global};

/// The heads of kernels: their names and their parameter types.
#[derive(Drop)]
pub struct Heads {
    keys: IndexSet<Vec<u8>>,
}

fn kind_code(kind: Kind) -> u8
    ensures { result ≡ spec.kind_code kind }
{
    match kind {
        Kind::Int64 => 0,
        Kind::Bool => 1,
    }
}

/// Numbers for the form and the kind of a type, and its rank.
fn type_code(t: ParamType) -> (u8, u8, u8)
    ensures { result ≡ spec.type_code t }
{
    match t {
        ParamType::Scalar(kind) => (1, kind_code(kind), 0),
        ParamType::Flat(kind, rank) => (2, kind_code(kind), rank),
        ParamType::Strided(kind, rank) => (3, kind_code(kind), rank),
    }
}

/// The bytes that stand for a head: three for each type, a zero, and the name.
fn head_key(alloc: Global, name: &[u8], params: &[(Text, ParamType)]) -> Result<Vec<u8>, AllocError>
    ensures { IfOk result (λ key. key.items ≡ spec.key (map (λ p. p.1) params.now) name.now) }
{
    let mut key = Vec::new(alloc);
    let mut rest = params;
    while let [first, more @ ..] = rest {
        let code = type_code(first.1);
        key.push(code.0)?;
        key.push(code.1)?;
        key.push(code.2)?;
        rest = more;
    }
    key.push(0)?;
    key.extend_from_slice(name)?;
    Ok(key)
}

impl Heads {
    /// No heads. Takes no memory.
    pub fn new(alloc: Global) -> Heads
        ensures { HoldsHeads result [] }
    {
        Heads {
            keys: IndexSet::new(alloc),
        }
    }

    /// Puts a kernel's head to the others. Whether it was one of them.
    pub fn note(&mut self, alloc: Global, kernel: &Kernel) -> Result<bool, AllocError>
        ensures known { IfOk result (λ known. (earlier : List declared.Kernel) → HoldsHeads self.old earlier →
            known ≡ list_any (same_head kernel.now) earlier) }
        ensures heads { IfOk result (λ known. (earlier : List declared.Kernel) → HoldsHeads self.old earlier →
            HoldsHeads self.new (earlier ++ kernel.now ∷ [])) }
    {
        let key = head_key(alloc, kernel.name.as_slice(), kernel.params.as_slice())?;
        let known = self.keys.contains(key.as_slice());
        self.keys.insert(key)?;
        Ok(known)
    }
}
