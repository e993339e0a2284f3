// The two pictures of a plan.
ghost use Rattle.std.specs.Prelude.{◌≡◌, take};

// The cells that are shown and those that are wanted, row by row.
#[derive(Clone, Copy)]
pub struct Pictures<'a, C> {
    pub shown: &'a [C],
    pub wanted: &'a [C],
}

impl<'a, C> Pictures<'a, C> {
    // The first cells of both, so many or as many as there are.
    pub fn cut(&self, cells: usize) -> Pictures<'a, C>
        ensures shown { result.shown.now ≡ take cells self.now.shown.now }
        ensures wanted { result.wanted.now ≡ take cells self.now.wanted.now }
    {
        Pictures {
            shown: &self.shown[..cells.min(self.shown.len())],
            wanted: &self.wanted[..cells.min(self.wanted.len())],
        }
    }
}
