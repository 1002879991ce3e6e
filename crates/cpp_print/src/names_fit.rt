// Names and registers of a printable kernel.
ghost use Rattle.std.specs.Prelude.{◌≡◌, map};
ghost use Rattle.std.specs.List.{list_all};
ghost use Rattle.loop_prog.specs.Serial.{types_of_params};
ghost use Rattle.eager_rules.specs.Types.{same_kind};
ghost use Rattle.cpp_print.specs.Printable as spec;

use krn_base::{Kind, ParamType, Text};
use loop_prog::Kernel;

/// Whether a byte may stand in a name behind its first one.
fn goes_on(byte: u8) -> bool
    ensures { result ≡ spec.goes_on byte }
{
    byte.is_ascii_alphanumeric() || byte == b'_'
}

fn all_go_on(bytes: &[u8]) -> bool
    ensures { result ≡ list_all spec.goes_on bytes.now }
{
    for byte in bytes {
        if !goes_on(*byte) {
            return false;
        }
    }
    true
}

fn is_name(name: &[u8]) -> bool
    ensures { result ≡ spec.is_name name.now }
{
    match name {
        [] => false,
        [first, rest @ ..] => {
            let begins = first.is_ascii_alphabetic() || *first == b'_';
            begins && all_go_on(rest)
        }
    }
}

fn param_names_fit(params: &[(Text, ParamType)]) -> bool
    ensures { result ≡ list_all (λ p. spec.is_name p.0) params.now }
{
    for param in params {
        if !is_name(param.0.as_slice()) {
            return false;
        }
    }
    true
}

/// Whether a kernel and its parameters have names.
pub fn names_fit(kernel: &Kernel) -> bool
    ensures { result ≡ spec.names_fit kernel.now }
{
    is_name(kernel.name.as_slice()) && param_names_fit(kernel.params.as_slice())
}

fn same_kind(a: Kind, b: Kind) -> bool
    ensures { result ≡ same_kind a b }
{
    match (a, b) {
        (Kind::Int64, Kind::Int64) => true,
        (Kind::Bool, Kind::Bool) => true,
        _ => false,
    }
}

/// The kind and the rank of an array parameter.
fn array_type(ty: ParamType) -> Option<(Kind, u8)>
    ensures { result ≡ spec.array_type ty }
{
    match ty {
        ParamType::Scalar(_) => None,
        ParamType::Flat(kind, rank) => Some((kind, rank)),
        ParamType::Strided(kind, rank) => Some((kind, rank)),
    }
}

/// Whether the array parameters' kinds and ranks are those of the first view registers.
fn views_fit(params: &[(Text, ParamType)], views: &[(Kind, u8)]) -> bool
    ensures { result ≡ spec.views_fit (map (λ p. p.1) params.now) views.now }
{
    let mut left = params;
    let mut free = views;
    while let [(_, ty), rest @ ..] = left {
        left = rest;
        if let Some((kind, rank)) = array_type(*ty) {
            let [(k, n), others @ ..] = free else {
                return false;
            };
            if !same_kind(*k, kind) || *n != rank {
                return false;
            }
            free = others;
        }
    }
    true
}

/// Whether the scalar parameters' kinds are those of the first scalar registers.
fn words_fit(params: &[(Text, ParamType)], words: &[Kind]) -> bool
    ensures { result ≡ spec.words_fit (map (λ p. p.1) params.now) words.now }
{
    let mut left = params;
    let mut free = words;
    while let [(_, ty), rest @ ..] = left {
        left = rest;
        if let ParamType::Scalar(kind) = *ty {
            let [k, others @ ..] = free else {
                return false;
            };
            if !same_kind(*k, kind) {
                return false;
            }
            free = others;
        }
    }
    true
}

/// Whether the parameters' registers have the parameters' kinds and ranks.
pub fn registers_fit(kernel: &Kernel) -> bool
    ensures { result ≡ spec.registers_fit kernel.now }
{
    let params = kernel.params.as_slice();
    views_fit(params, kernel.views.as_slice()) && words_fit(params, kernel.regs.as_slice())
}
