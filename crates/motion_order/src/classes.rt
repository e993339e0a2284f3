// A panel's motions in classes.
ghost use Rattle.std.specs.Prelude.{◌≡◌};
ghost use Rattle.motion_order.specs.Classes.{class_of, count_of};
ghost use Rattle.motion_order.specs.Ends.{begins_at, ends_at};

use crate::offer::Offer;

// A panel's motions and its retype in classes of one cost, the cheapest first, in a class by number.
#[derive(Clone, Copy)]
pub struct Classes<'a> {
    pub(crate) offers: &'a [Offer],
    pub(crate) ends: &'a [u16],
}

impl<'a> Classes<'a> {
    // How many classes there are.
    pub fn count(&self) -> usize
        ensures { result ≡ count_of self.now }
    {
        self.ends.len()
    }

    // Where a class ends.
    fn end(&self, class: usize) -> usize
        ensures { result ≡ ends_at self.now.ends.now class }
    {
        match self.ends.get(class) {
            Some(end) => usize::from(*end),
            None => 0,
        }
    }

    // Where a class begins.
    fn begin(&self, class: usize) -> usize
        ensures { result ≡ begins_at self.now.ends.now class }
    {
        if class == 0 { 0 } else { self.end(class - 1) }
    }

    // The motions of a class; none where there is no such class.
    pub fn class(&self, class: usize) -> &'a [Offer]
        ensures { result.now ≡ class_of self.now class }
    {
        let offers = &self.offers[..self.end(class).min(self.offers.len())];
        &offers[self.begin(class).min(offers.len())..]
    }
}
