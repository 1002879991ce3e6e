//! Places in a source.

ghost use Rattle.std.specs.Prelude.{◌≡◌, ◌+◌, ◌^◌, ◌<◌, ◌≤◌, length};
ghost use Rattle.py_lex.specs.Layout as spec;

use krn_base::Loc;

/// A place in a source: how many bytes stand before it, and its line and column.
#[derive(Clone, Copy, Debug, PartialEq, Eq)]
pub struct Place {
    pub offset: u32,
    pub loc: Loc,
}

/// Before the first byte.
#[tactic(auto, unfolding(crate::specs::Layout::start))]
pub fn start() -> Place
    ensures value { result ≡ spec.start }
    ensures near { spec.IsNear result }
    ensures at { result.offset ≡ 0 }
{
    Place {
        offset: 0,
        loc: Loc { line: 1, col: 1 },
    }
}

fn behind(place: Place, b: u8) -> Place
    requires near { spec.IsNear place }
    requires room { place.offset < 2 ^ 31 }
    ensures value { result ≡ spec.behind place b }
    ensures near { spec.IsNear result }
{
    let loc = if b == b'\n' {
        Loc {
            line: place.loc.line + 1,
            col: 1,
        }
    } else {
        Loc {
            line: place.loc.line,
            col: place.loc.col + 1,
        }
    };
    Place {
        offset: place.offset + 1,
        loc,
    }
}

/// The place behind these bytes.
#[tactic(auto, unfolding(crate::specs::Layout::passed))]
pub fn passed(mut place: Place, mut bytes: &[u8]) -> Place
    requires near { spec.IsNear place }
    requires room { place.offset + length bytes.now ≤ 2 ^ 31 }
    ensures value { result ≡ spec.passed place bytes.entry.now }
    ensures moves { result.offset ≡ place.offset + length bytes.entry.now }
    ensures near { spec.IsNear result }
{
    while let [b, rest @ ..] = bytes {
        place = behind(place, *b);
        bytes = rest;
    }
    place
}
