// What a trail tells of itself. Nothing that is asked changes it. Each question first borrows the slice for writing: after a loan for
// reading straight from the field nothing would be known of its elements.
ghost use Rattle.std.specs.Prelude.{◌≡◌, ◌-◌, length, slice_get};
ghost use Rattle.trail.specs.Held.{held, room};

use super::{Trail, count, item, last};

impl<'a, T: Copy> Trail<'a, T> {
    // How many elements it holds.
    pub fn len(&mut self) -> usize
        ensures value { result ≡ length (held self.old) }
        ensures same { self.new ≡ self.old }
    {
        let places = &mut *self.places;
        count(places, self.len)
    }

    // How many elements it can hold in all.
    pub fn room(&mut self) -> usize
        ensures value { result ≡ room self.old }
        ensures same { self.new ≡ self.old }
    {
        let places = &mut *self.places;
        places.len()
    }

    // The element at a place counted from 0, as in a slice.
    pub fn get(&mut self, at: usize) -> Option<T>
        ensures value { result ≡ slice_get (held self.old) at }
        ensures same { self.new ≡ self.old }
    {
        let places = &mut *self.places;
        item(places, self.len, at)
    }

    // The last element, as of a slice.
    pub fn last(&mut self) -> Option<T>
        ensures value { result ≡ slice_get (held self.old) (length (held self.old) - 1) }
        ensures same { self.new ≡ self.old }
    {
        let places = &mut *self.places;
        last(places, self.len).map(|(x, _)| x)
    }
}
