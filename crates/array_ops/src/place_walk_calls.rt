// Going over the places of a spread view.
use crate::place_walk::PlaceWalk;
use view_places::{Odometer, Spread, advanced};

impl PlaceWalk {
    ghost use Rattle.std.specs.Prelude.{◌≡◌, ◌+◌, ◌<◌, length, slice_index};
    ghost use Rattle.view_places.specs.Spread.{places};

    /// The first place of a view with an element.
    pub fn start(spread: &Spread) -> PlaceWalk
        requires { 0 < length (places spread.now) }
        ensures spread { result.spread ≡ spread.now }
        ensures number { result.number ≡ 0 }
    {
        spread.by_rows();
        let _count = spread.count();
        PlaceWalk {
            spread: *spread,
            leaps: spread.leaps(),
            odometer: Odometer::start(&spread.extent),
            place: spread.first(),
            number: 0,
        }
    }

    /// The place, which is that of its number.
    pub fn at(&self) -> u32
        ensures { result ≡ slice_index (places self.now.spread) self.now.number }
    {
        self.place
    }

    /// Goes on to the next place, which there is.
    pub fn step(&mut self)
        requires { self.old.number + 1 < length (places self.old.spread) }
        ensures spread { self.new.spread ≡ self.old.spread }
        ensures number { self.new.number ≡ self.old.number + 1 }
    {
        let spread = self.spread;
        spread.by_rows();
        let mut odometer = self.odometer;
        let axis = odometer.step();
        let place = advanced(self.place, &self.leaps, axis);
        *self = PlaceWalk {
            spread,
            leaps: self.leaps,
            odometer,
            place,
            number: self.number + 1,
        };
    }
}
