// What instances are made for, with an index of the calls.
ghost use Rattle.std.specs.Prelude.{◌≡◌, ◌++◌, ◌∷◌, [], IfOk, OnOk, List, ℕ};
ghost use Rattle.array_types.specs.Keys as spec;
ghost use Rattle.array_types.specs.Keys.{Leads, instance_for};
ghost use Rattle.array_types.specs.declared.state.Key.TheVariants.{Called};

use crate::state::{Key, Ty};
use indexmap::IndexMap;
use krn_base::Kind;
use std::alloc::{AllocError, Global};
use std::marker::Model;

/// Numbers of instances by their calls as lists of numbers.
type Index = IndexMap<Vec<u32>, u32>;

/// Keys in the order in which they were added. The instance for a call is found in time linear in its arguments.
#[derive(Drop)]
pub struct Keys {
    list: Vec<Key>,
    index: Index,
}

impl Model for Keys {
    ghost use Rattle.std.specs.Prelude.{List};
    ghost use Rattle.std.specs.Coded.{coded_list};
    ghost use Rattle.array_types.specs.contracts.state.Key as key;
    ghost use Rattle.array_types.specs.declared.state.Key.{Key as AnyKey};
    ghost use Rattle.array_types.specs.Keys.{Leads};

    ghost Value = { List AnyKey };

    ghost coded = { coded_list key.the_row.coded };

    ghost view = { λ a. a.list.items };

    ghost invariant = { λ a. Leads a.index a.list.items };
}

fn kind_code(kind: Kind) -> u32
    ensures { result ≡ spec.kind_code kind }
{
    match kind {
        Kind::Int64 => 0,
        Kind::Bool => 1,
    }
}

/// A call as a list of numbers: that of the function, and two for each argument.
#[tactic(auto, using(crate::proofs::Calls::codes_here, std::proofs::lemmas::Grind::common_steps))]
fn code_of(alloc: Global, function: u32, types: &[Ty]) -> Result<Vec<u32>, AllocError>
    ensures { IfOk result (λ code. code.items ≡ spec.code function types.now) }
{
    let mut code = Vec::new(alloc);
    code.push(function)?;
    for ty in types {
        code.push(kind_code(ty.0))?;
        code.push(ty.1 as u32)?;
    }
    Ok(code)
}

/// Notes the calls of a function as the last of these keys.
fn note_call(
    alloc: Global,
    index: &mut Index,
    keys: &[Key],
    function: u32,
    types: &[Ty],
) -> Result<(), AllocError>
    requires { Leads index.now keys.now }
    ensures { OnOk result (Leads index.new (keys.now ++ Called function types.now ∷ [])) }
{
    let code = code_of(alloc, function, types)?;
    let n = keys.len();
    if n > u32::MAX as usize {
        return Err(AllocError);
    }
    if index.contains_key(code.as_slice()) {
        return Ok(());
    }
    match index.insert(code, n as u32) {
        Ok(_) => Ok(()),
        Err(_) => Err(AllocError),
    }
}

/// Notes a key as the last of these.
fn note(alloc: Global, index: &mut Index, keys: &[Key], key: &Key) -> Result<(), AllocError>
    requires { Leads index.now keys.now }
    ensures { OnOk result (Leads index.new (keys.now ++ key.now ∷ [])) }
{
    match key {
        Key::Kernel => Ok(()),
        Key::Called(function, types) => note_call(alloc, index, keys, *function, types.as_slice()),
    }
}

impl Keys {
    /// No keys. Takes no memory.
    pub fn new(alloc: Global) -> Keys
        ensures { result ≡ [] }
    {
        Keys {
            list: Vec::new(alloc),
            index: IndexMap::new(alloc),
        }
    }

    /// The number of the instance for the calls of a function with arguments of these types.
    pub fn get(&self, alloc: Global, function: u32, types: &[Ty]) -> Result<Option<u32>, AllocError>
        ensures { IfOk result (λ n. n ≡ instance_for function types.now self.now) }
    {
        let code = code_of(alloc, function, types)?;
        Ok(self.index.get(code.as_slice()).copied())
    }

    /// These keys and one more.
    pub fn with(self, alloc: Global, key: Key) -> Result<Keys, AllocError>
        ensures { IfOk result (λ keys. keys ≡ self ++ key ∷ []) }
    {
        let Keys {
            mut list,
            mut index,
        } = self;
        note(alloc, &mut index, list.as_slice(), &key)?;
        list.push(key)?;
        Ok(Keys { list, index })
    }
}
