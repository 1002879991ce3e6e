ghost use Rattle.std.specs.Prelude.{IfOk, IfErr};
ghost use Rattle.py_lex.specs.Lexed.{IsLexed};
ghost use Rattle.py_parse.specs.Descended.{IsDescended};
ghost use Rattle.krn_base.specs.declared.refusal.Refusal.{Refusal};
ghost use Rattle.krn_base.specs.declared.refusal.Stop.TheVariants as stop;
ghost use Rattle.py_parse.specs.Parsed.{IsTree, IsRefusal, IsOnly, IsOnlyRefusal};
ghost use Rattle.py_parse.specs.declared.tree.Module.{Module};

use crate::cursor::Cursor;
use crate::failure::Failure;
use crate::module::parts;
use crate::notes::notes;
use crate::tree::Module;
use krn_base::{Refusal, Rule, Seq, Stop};
use py_lex::Tokens;
use std::alloc::Global;

/// At most so many levels may be open.
const LEVELS: u8 = 64;

/// The module by descent.
#[tactic(auto, using(crate::proofs::LexedFacts::notes_rise, crate::proofs::LexedFacts::tokens_fit))]
fn read(alloc: Global, source: &[u8], tokens: &Tokens) -> Result<Module, Stop>
    requires { IsLexed source.now tokens.now }
    ensures { IsDescended source.now tokens.now result }
{
    let mut cursor = Cursor::new(source, tokens.tokens.as_slice());
    let (imports, functions) = match parts(alloc, &mut cursor, LEVELS) {
        Ok(parts) => parts,
        Err(Failure::Memory) => return Err(Stop::Memory),
        Err(Failure::Refused) => {
            return Err(Stop::Refused(Refusal {
                rule: Rule::Syntax,
                loc: cursor.loc(),
            }));
        }
    };
    match notes(
        alloc,
        source,
        tokens.tokens.as_slice(),
        tokens.notes.as_slice(),
    ) {
        Ok(notes) => Ok(Module {
            imports,
            functions,
            notes: Seq::from_vec(notes),
        }),
        Err(_) => Err(Stop::Memory),
    }
}

/// The tree of a module's source and its tokens, by this project's grammar.
///
/// The answer is the one tree that the grammar gives; [`Stop::Refused`] by `Rule::Syntax`, exactly where it gives none,
/// at the first token that can't stand where it does or that opens the 65th level; or [`Stop::Memory`]. The tokens are
/// read in one pass.
#[tactic(auto, using(crate::proofs::Clauses::clauses))]
pub fn parse(alloc: Global, source: &[u8], tokens: &Tokens) -> Result<Module, Stop>
    requires { IsLexed source.now tokens.now }
    ensures tree { IfOk result (λ m. IsTree source.now tokens.now m) }
    ensures refused { IfErr result (IsRefusal source.now tokens.now) }
    ensures only { (m : Module) → IsTree source.now tokens.now m → IsOnly m result }
    ensures place { (r : Refusal) → IsRefusal source.now tokens.now (stop.Refused r) → IsOnlyRefusal r result }
{
    read(alloc, source, tokens)
}
