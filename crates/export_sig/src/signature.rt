use krn_base::{Loc, ParamType, Seq};
use py_parse::Name;

/// An exported function with the types of one of its forms.
#[derive(Debug, PartialEq, Eq, Drop)]
pub struct Signature {
    /// The function's name, at the place where it stands in the note.
    pub name: Name,
    /// The types of its parameters, in order: at most 16.
    pub params: Seq<ParamType>,
    /// The place of the note's `#`.
    pub loc: Loc,
}
