//! What is known of an instance's calls.
ghost use Rattle.std.specs.Prelude.{◌≡◌, option_map};
ghost use Rattle.purity.specs.Tables.{known_at, faults_in, writes_in};

use crate::marks::is_marked;
use krn_base::Seq;

/// What calls of an instance may do: which parameters they may write, from which parameters each returned value may
/// come, and whether they may fault.
#[derive(Debug, PartialEq, Eq, Drop)]
pub struct Summary {
    pub writes: Seq<bool>,
    pub gives: Seq<Seq<u32>>,
    pub faults: bool,
}

/// What is known of the instance with this number, if anything is.
pub fn known_at(known: &[Option<Summary>], number: u32) -> Option<&Summary>
    ensures { option_map (λ s. s.now) result ≡ known_at known.now number }
{
    match known.get(number as usize) {
        Some(Some(summary)) => Some(summary),
        _ => None,
    }
}

/// Whether calls of the instance with this number may write what they get for this parameter.
pub fn may_write(known: &[Option<Summary>], number: u32, param: u32) -> bool
    ensures { result ≡ writes_in (known_at known.now number) param }
{
    match known_at(known, number) {
        Some(summary) => is_marked(summary.writes.as_slice(), param as usize),
        None => false,
    }
}

/// Whether calls of the instance with this number may fault.
pub fn may_fault(known: &[Option<Summary>], number: u32) -> bool
    ensures { result ≡ faults_in (known_at known.now number) }
{
    match known_at(known, number) {
        Some(summary) => summary.faults,
        None => false,
    }
}
