// What adds and takes at a trail's end.
ghost use Rattle.trail.specs.Ends.{Pushed, Popped, Cleared};

use super::{Trail, TrailFault, last, put};

impl<'a, T: Copy> Trail<'a, T> {
    // Adds an element, and answers how many there are then.
    pub fn push(&mut self, x: T) -> Result<usize, TrailFault>
        ensures { Pushed self.old x result self.new }
    {
        let places = &mut *self.places;
        let more = put(places, self.len, x)?;
        self.len = more;
        Ok(more)
    }

    // Takes the last element; nothing where there is none.
    pub fn pop(&mut self) -> Option<T>
        ensures { Popped self.old result self.new }
    {
        let places = &mut *self.places;
        let (x, fewer) = last(places, self.len)?;
        self.len = fewer;
        Some(x)
    }

    // Takes every element.
    pub fn clear(&mut self)
        ensures { Cleared self.old self.new }
    {
        self.len = 0;
    }
}
