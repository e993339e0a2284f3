// Where a panel stands between two plans.
use display::place::Place;

// The place of its cursor, which is not held, and the pen now set.
#[derive(Clone, Copy, Debug, PartialEq, Eq)]
pub struct Stand {
    pub place: Place,
    pub pen: u8,
}
