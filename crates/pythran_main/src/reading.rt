ghost use Rattle.std.specs.Prelude.{◌≡◌, ◌^◌, ◌≤◌, ◌<◌, length, map, IfOk};
ghost use Rattle.call_chains.specs.Calls.{number_of as number_in};
ghost use Rattle.eager_rules.specs.Sound.{IsTyped};
ghost use Rattle.py_lex.specs.Lexed.{IsLexed};
ghost use Rattle.pythran_main.specs.Flattening.{Flattens, IsKept};
ghost use Rattle.pythran_main.specs.Layers.{IsOne};
ghost use Rattle.pythran_main.specs.Reading as reading;

use crate::flattening::{Flattened, with_flat_form};
use crate::served::first_unserved;
use array_types::{Signature as NumberedSignature, typed_terms};
use call_chains::recursion;
use eager_rules::Program;
use export_sig::{Directive, Signature, directives, exports};
use krn_base::{Loc, NoMemory, Refusal, Rule, Seq, Stop};
use module_names::{names, profile};
use module_terms::resolve;
use py_lex::{Tokens, tokens};
use py_parse::{Function, Module, parse};
use std::alloc::{AllocError, Global};
use use_def::assigned;

/// The number of the first function with this name, or how many functions there are.
fn number_of(functions: &[Function], name: &[u8]) -> usize
    ensures { result ≡ reading.number_or (length functions.now) (number_in functions.now name.now) }
{
    for number in 0..functions.len() {
        if functions[number].name.text.as_slice() == name {
            return number;
        }
    }
    functions.len()
}

/// The numbers of the exported functions.
fn numbers_of(
    alloc: Global,
    tree: &Module,
    signatures: &[Signature],
) -> Result<Vec<usize>, AllocError>
    ensures { IfOk result (λ numbers. numbers.items ≡ map (reading.exported tree.now) signatures.now) }
{
    let mut numbers = Vec::new(alloc);
    for signature in signatures {
        numbers.push(number_of(tree.functions.as_slice(), signature.name.text.as_slice()))?;
    }
    Ok(numbers)
}

/// A signature by its function's number. Functions are numbered within 32 bits.
fn numbered(tree: &Module, signature: &Signature) -> Result<NumberedSignature, NoMemory>
    ensures { IfOk result (λ found. found ≡ reading.numbered tree.now signature.now) }
{
    let number = number_of(tree.functions.as_slice(), signature.name.text.as_slice());
    if number >= 1 << 32 {
        return Err(NoMemory);
    }
    Ok(NumberedSignature {
        function: number as u32,
        params: signature.params.try_copy()?,
        loc: signature.loc,
    })
}

fn numbered_all(
    alloc: Global,
    tree: &Module,
    signatures: &[Signature],
) -> Result<Seq<NumberedSignature>, NoMemory>
    ensures { IfOk result (λ found. found ≡ map (reading.numbered tree.now) signatures.now) }
{
    let mut found = Seq::new(alloc);
    for signature in signatures {
        found.push(numbered(tree, signature)?)?;
    }
    Ok(found)
}

/// A program that is served, or the first place of what isn't.
fn serve(directives: &[Directive], program: Program) -> Result<Program, Refusal>
    requires typed { IsTyped program }
    ensures one { IsOne (reading.Serves directives.now program) result }
    ensures typed { IfOk result IsTyped }
{
    match first_unserved(directives) {
        None => Ok(program),
        Some(loc) => Err(Refusal {
            rule: Rule::Profile,
            loc,
        }),
    }
}

/// The walk's program of a tree.
fn typed_tree(
    alloc: Global,
    tree: &Module,
    signatures: &[Signature],
    directives: &[Directive],
) -> Result<Program, Stop>
    ensures one { reading.Answered (IsOne (reading.Types tree.now signatures.now directives.now)) result }
    ensures typed { IfOk result IsTyped }
{
    let routines = resolve(alloc, tree, directives)?;
    let numbered = numbered_all(alloc, tree, signatures)?;
    typed_terms(alloc, routines.as_slice(), numbered.as_slice())
}

fn test_assigned(alloc: Global, tree: &Module, signatures: &[Signature]) -> Result<(), Stop>
    ensures { reading.Answered (IsOne (reading.Assigned tree.now signatures.now)) result }
{
    let numbers = numbers_of(alloc, tree, signatures)?;
    assigned(alloc, tree, numbers.as_slice())
}

/// The layers behind the test of directives: the limits of the flat kernels, and the flat form.
fn read_limits(
    alloc: Global,
    signatures: &[Signature],
    program: Program,
) -> Result<Result<Flattened, Refusal>, NoMemory>
    requires typed { IsTyped program }
    ensures one { IfOk result (IsOne (Flattens signatures.now program)) }
    ensures kept { IfOk result (λ read. IfOk read IsKept) }
{
    match with_flat_form(alloc, program, signatures) {
        Ok(found) => Ok(Ok(found)),
        Err(Stop::Refused(refused)) => Ok(Err(refused)),
        Err(Stop::Memory) => Err(NoMemory),
    }
}

/// The layers behind the rule on unassigned names.
fn read_served(
    alloc: Global,
    signatures: &[Signature],
    directives: &[Directive],
    program: Program,
) -> Result<Result<Flattened, Refusal>, NoMemory>
    requires typed { IsTyped program }
    ensures one { IfOk result (IsOne (reading.IsAssignedReading signatures.now directives.now program)) }
    ensures kept { IfOk result (λ read. IfOk read IsKept) }
{
    match serve(directives, program) {
        Ok(served) => read_limits(alloc, signatures, served),
        Err(refused) => Ok(Err(refused)),
    }
}

/// What a tree is read as that has a program.
fn read_assigned(
    alloc: Global,
    tree: &Module,
    signatures: &[Signature],
    directives: &[Directive],
    program: Program,
) -> Result<Result<Flattened, Refusal>, NoMemory>
    requires typed { IsTyped program }
    ensures one { IfOk result (IsOne (reading.IsCoreReading tree.now signatures.now directives.now program)) }
    ensures kept { IfOk result (λ read. IfOk read IsKept) }
{
    match test_assigned(alloc, tree, signatures) {
        Ok(()) => read_served(alloc, signatures, directives, program),
        Err(Stop::Refused(refused)) => Ok(Err(refused)),
        Err(Stop::Memory) => Err(NoMemory),
    }
}

/// What a tree is read as that the rules before the walk accept.
fn read_types(
    alloc: Global,
    tree: &Module,
    signatures: &[Signature],
    directives: &[Directive],
) -> Result<Result<Flattened, Refusal>, NoMemory>
    ensures one { IfOk result (IsOne (reading.IsTypedReading tree.now signatures.now directives.now)) }
    ensures kept { IfOk result (λ read. IfOk read IsKept) }
{
    match typed_tree(alloc, tree, signatures, directives) {
        Ok(program) => read_assigned(alloc, tree, signatures, directives, program),
        Err(Stop::Refused(refused)) => Ok(Err(refused)),
        Err(Stop::Memory) => Err(NoMemory),
    }
}

/// The rule on chains of calls.
fn test_chains(alloc: Global, tree: &Module, signatures: &[Signature]) -> Result<(), Stop>
    ensures { reading.Answered (IsOne (reading.Chains tree.now signatures.now)) result }
{
    let numbers = numbers_of(alloc, tree, signatures)?;
    recursion(alloc, tree, numbers.as_slice())
}

/// The rule on forms.
fn test_forms(alloc: Global, tree: &Module) -> Result<(), Stop>
    ensures { reading.Answered (IsOne (reading.Forms tree.now)) result }
{
    profile(alloc, tree)
}

/// The rule on names.
fn test_names(alloc: Global, tree: &Module) -> Result<(), Stop>
    ensures { reading.Answered (IsOne (reading.Names tree.now)) result }
{
    names(alloc, tree)
}

/// What a tree is read as whose names are well.
fn read_chains(
    alloc: Global,
    tree: &Module,
    signatures: &[Signature],
    directives: &[Directive],
) -> Result<Result<Flattened, Refusal>, NoMemory>
    ensures one { IfOk result (IsOne (reading.IsNamedReading tree.now signatures.now directives.now)) }
    ensures kept { IfOk result (λ read. IfOk read IsKept) }
{
    match test_chains(alloc, tree, signatures) {
        Ok(()) => read_types(alloc, tree, signatures, directives),
        Err(Stop::Refused(refused)) => Ok(Err(refused)),
        Err(Stop::Memory) => Err(NoMemory),
    }
}

/// What a tree is read as whose forms are well.
fn read_names(
    alloc: Global,
    tree: &Module,
    signatures: &[Signature],
    directives: &[Directive],
) -> Result<Result<Flattened, Refusal>, NoMemory>
    ensures one { IfOk result (IsOne (reading.IsFormedReading tree.now signatures.now directives.now)) }
    ensures kept { IfOk result (λ read. IfOk read IsKept) }
{
    match test_names(alloc, tree) {
        Ok(()) => read_chains(alloc, tree, signatures, directives),
        Err(Stop::Refused(refused)) => Ok(Err(refused)),
        Err(Stop::Memory) => Err(NoMemory),
    }
}

/// What a tree is read as whose notes are well.
fn read_forms(
    alloc: Global,
    tree: &Module,
    signatures: &[Signature],
    directives: &[Directive],
) -> Result<Result<Flattened, Refusal>, NoMemory>
    ensures one { IfOk result (IsOne (reading.IsDirectedReading tree.now signatures.now directives.now)) }
    ensures kept { IfOk result (λ read. IfOk read IsKept) }
{
    match test_forms(alloc, tree) {
        Ok(()) => read_names(alloc, tree, signatures, directives),
        Err(Stop::Refused(refused)) => Ok(Err(refused)),
        Err(Stop::Memory) => Err(NoMemory),
    }
}

/// What a tree is read as whose export notes are well.
fn read_directives(
    alloc: Global,
    tree: &Module,
    signatures: &[Signature],
) -> Result<Result<Flattened, Refusal>, NoMemory>
    ensures one { IfOk result (IsOne (reading.IsExportedReading tree.now signatures.now)) }
    ensures kept { IfOk result (λ read. IfOk read IsKept) }
{
    match directives(alloc, tree) {
        Ok(found) => read_forms(alloc, tree, signatures, found.as_slice()),
        Err(Stop::Refused(refused)) => Ok(Err(refused)),
        Err(Stop::Memory) => Err(NoMemory),
    }
}

/// What a tree is read as.
fn read_tree(alloc: Global, tree: &Module) -> Result<Result<Flattened, Refusal>, NoMemory>
    ensures one { IfOk result (IsOne (reading.IsTreeReading tree.now)) }
    ensures kept { IfOk result (λ read. IfOk read IsKept) }
{
    match exports(alloc, tree) {
        Ok(signatures) => read_directives(alloc, tree, signatures.as_slice()),
        Err(Stop::Refused(export)) => Ok(Err(export)),
        Err(Stop::Memory) => Err(NoMemory),
    }
}

/// What the tokens of a text are read as.
fn read_tokens(
    alloc: Global,
    text: &[u8],
    tokens: &Tokens,
) -> Result<Result<Flattened, Refusal>, NoMemory>
    requires { IsLexed text.now tokens.now }
    ensures one { IfOk result (IsOne (reading.IsParsedReading text.now tokens.now)) }
    ensures kept { IfOk result (λ read. IfOk read IsKept) }
{
    match parse(alloc, text, tokens) {
        Ok(tree) => read_tree(alloc, &tree),
        Err(Stop::Refused(syntax)) => Ok(Err(syntax)),
        Err(Stop::Memory) => Err(NoMemory),
    }
}

/// The program of the module that the text is, with its flat form, or the refusal of the first rule that refuses it:
/// `Lex`, `Syntax`, `Export`, `Directive`, `Profile`, `Name`, `Recursion`, then `Type` and `Retype` by one walk,
/// `Unassigned`, `TooLarge`, `TooDeep`, and `Profile` again at the first directive, since none is served yet.
pub fn read_module(alloc: Global, text: &[u8]) -> Result<Result<Flattened, Refusal>, NoMemory>
    requires { length text.now ≤ 2 ^ 31 }
    ensures one { IfOk result (reading.IsOneReading text.now) }
    ensures kept { IfOk result (λ read. IfOk read IsKept) }
{
    match tokens(alloc, text) {
        Ok(tokens) => read_tokens(alloc, text, &tokens),
        Err(Stop::Refused(lexical)) => Ok(Err(lexical)),
        Err(Stop::Memory) => Err(NoMemory),
    }
}
