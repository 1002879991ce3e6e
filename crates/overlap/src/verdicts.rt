//! Verdicts on views, and what they say of the places.
ghost use Rattle.std.specs.Prelude.{◌≡◌, ◌≢◌, true};
ghost use Rattle.view_places.specs.Spread.{extents as extents_of_spread, places as places_read};
ghost use Rattle.view_places.specs.View.{extents, places};
ghost use Rattle.overlap.specs.Lists.{verdict_of_places, places_apart, NoneEarlier, MeetNowhere};
ghost use Rattle.overlap.specs.Lists.{ApartMeetsNowhere, OthersShareBuffer, SameIsEqual, AheadIsNoneEarlier};
ghost use Rattle.overlap.specs.Lists.{ClearIsNoneEarlier};
ghost use Rattle.overlap.specs.Verdicts.{of_view, of_spread, is_apart as is_apart_row, verdict_of, NothingShared};
ghost use Rattle.overlap.specs.Walks.{BothWaysAlike};

use crate::apart_row::is_apart;
use crate::table::{Verdict, judged};
use view_places::{Spread, View};

/// How the places of a target and of a leaf that was spread to its shape overlap.
pub fn verdict(to: &View, from: &Spread) -> Verdict
    requires { extents to.now ≡ extents_of_spread from.now }
    ensures table { result ≡ verdict_of (of_view to.now) (of_spread from.now) }
    ensures lists { result ≡ verdict_of_places to.now.buffer (places to.now) from.now.buffer (places_read from.now) }
    ensures apart { result ≡ Verdict.Apart → NothingShared to.now from.now }
    ensures one_buffer { result ≢ Verdict.Apart → to.now.buffer ≡ from.now.buffer }
    ensures same { result ≡ Verdict.Same → places to.now ≡ places_read from.now }
    ensures ahead { result ≡ Verdict.Ahead → NoneEarlier (places to.now) (places_read from.now) }
{
    to.by_rows();
    from.by_rows();
    to.same_extents(from);
    to.places_are_distinct();
    verdict_law();
    judged(&to.as_spread(), from)
}

/// Whether no place of two views can be common: the buffers differ, or one has no element, or their places lie apart.
pub fn apart(a: &View, b: &View) -> bool
    ensures row { result ≡ is_apart_row (of_view a.now) (of_view b.now) }
    ensures lists { result ≡ places_apart a.now.buffer (places a.now) b.now.buffer (places b.now) }
    ensures places { result ≡ true → MeetNowhere a.now.buffer (places a.now) b.now.buffer (places b.now) }
{
    a.by_rows();
    b.by_rows();
    is_apart(&a.as_spread(), &b.as_spread())
}

/// What the verdict on any two lists of places says of them.
pub fn verdict_law()
    ensures apart { ApartMeetsNowhere }
    ensures one_buffer { OthersShareBuffer }
    ensures same { SameIsEqual }
    ensures ahead { AheadIsNoneEarlier }
    ensures clear { ClearIsNoneEarlier }
{}

/// Storing each element at once leaves what making all of them first leaves, where the verdict on no leaf is `Clash`.
pub fn walk_law()
    ensures { BothWaysAlike }
{}
