// What makes a trail.
ghost use Rattle.std.specs.Prelude.{◌≡◌};

use super::Trail;

impl<'a, T: Copy> Trail<'a, T> {
    // An empty trail over the lent places, which stay as they are.
    pub fn new(places: &'a mut [T]) -> Trail<'a, T>
        ensures len { result.len ≡ 0 }
        ensures places { result.places ≡ places.entry }
    {
        Trail { places, len: 0 }
    }
}
