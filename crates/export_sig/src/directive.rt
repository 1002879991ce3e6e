use krn_base::{Join, Loc, Seq};
use py_parse::Name;

/// What a note says of the loop that stands behind it: it is OpenMP's `parallel for`, with these reductions.
#[derive(Debug, PartialEq, Eq, Drop)]
pub struct Directive {
    /// The place of the note's `#`.
    pub loc: Loc,
    /// The place of the loop's `for`.
    pub target: Loc,
    /// The reductions in the order of the note, each with its name at the place where it stands there. No name stands
    /// twice.
    pub reductions: Seq<(Join, Name)>,
}
