//! The signatures that were found so far, with an index of their names and types.

ghost use Rattle.std.specs.Prelude.{◌≡◌, ◌++◌, ◌∷◌, [], length, IfOk, OnOk};
ghost use Rattle.std.specs.List.{list_any};
ghost use Rattle.export_sig.specs.Keys as spec;
ghost use Rattle.export_sig.specs.Keys.{HoldsKeys};
ghost use Rattle.export_sig.specs.Listing.{is_repeated};

use crate::signature::Signature;
use indexmap::IndexSet;
use krn_base::{Kind, ParamType, Seq};
use std::alloc::{AllocError, Global};

/// Signatures in the order of their notes. Whether one of them has a name and types is found in constant time.
#[derive(Drop)]
pub struct Found {
    list: Vec<Signature>,
    keys: IndexSet<Vec<u8>>,
}

fn kind_code(kind: Kind) -> u8
    ensures { result ≡ spec.kind_code kind }
{
    match kind {
        Kind::Int64 => 0,
        Kind::Bool => 1,
    }
}

/// Numbers for the form and the kind of a type, and its rank.
fn type_code(t: ParamType) -> (u8, u8, u8)
    ensures { result ≡ spec.type_code t }
{
    match t {
        ParamType::Scalar(kind) => (1, kind_code(kind), 0),
        ParamType::Flat(kind, rank) => (2, kind_code(kind), rank),
        ParamType::Strided(kind, rank) => (3, kind_code(kind), rank),
    }
}

/// The bytes that stand for a name and types: three for each type, a zero, and the name.
fn key_of(alloc: Global, s: &Signature) -> Result<Vec<u8>, AllocError>
    ensures { IfOk result (λ key. key.items ≡ spec.key_of s.now) }
{
    let mut key = Vec::new(alloc);
    let mut rest = s.params.as_slice();
    while let [first, more @ ..] = rest {
        let code = type_code(*first);
        key.push(code.0)?;
        key.push(code.1)?;
        key.push(code.2)?;
        rest = more;
    }
    key.push(0)?;
    key.extend_from_slice(s.name.text.as_slice())?;
    Ok(key)
}

impl Found {
    /// No signatures. Takes no memory.
    pub fn new(alloc: Global) -> Found
        ensures none { result.list.items ≡ [] }
        ensures keys { HoldsKeys result }
    {
        Found {
            list: Vec::new(alloc),
            keys: IndexSet::new(alloc),
        }
    }

    /// How many signatures there are.
    pub fn len(&self) -> usize
        ensures { result ≡ length self.now.list.items }
    {
        self.list.len()
    }

    /// Whether one of the signatures has this one's name and types.
    pub fn has(&self, alloc: Global, s: &Signature) -> Result<bool, AllocError>
        requires { HoldsKeys self.now }
        ensures { IfOk result (λ b. b ≡ list_any (is_repeated s.now) self.now.list.items) }
    {
        let key = key_of(alloc, s)?;
        Ok(self.keys.contains(key.as_slice()))
    }

    /// Puts a signature behind the others.
    pub fn add(&mut self, alloc: Global, s: Signature) -> Result<(), AllocError>
        requires { HoldsKeys self.now }
        ensures added { OnOk result (self.new.list.items ≡ self.old.list.items ++ s ∷ []) }
        ensures keys { OnOk result (HoldsKeys self.new) }
    {
        let key = key_of(alloc, &s)?;
        self.keys.insert(key)?;
        self.list.push(s)?;
        Ok(())
    }

    /// The signatures in order.
    pub fn into_seq(self) -> Seq<Signature>
        ensures { result ≡ self.list.items }
    {
        Seq::from_vec(self.list)
    }
}
