// The motions: their numbers, where they land, and their bytes.
ghost use Rattle.sticking_panel.specs.Motions;

use display::place::{Cursor, Place};
use display::size::Size;
use panel::bytes::ShortBytes;
use panel::moves::Moves;

#[derive(Clone, Copy)]
pub enum Motion {
    // to column 0
    Return,
    // a column to the left
    Back,
    // a row down
    Feed,
}

// The other two panels have these three motions too, but enums of their own: their definitions go by cases over all
// their motions, and the deferred-wrap panel offers them by other rules.
impl Moves for Motion {
    ghost numbered = { λ _. Motions.numbered };

    ghost Reaches = { λ _ _. Unit {0} };

    ghost offered = { Motions.offered };

    ghost spelled = { Motions.spelled };

    ghost takes = { λ _. 0 };

    fn with_number(_: Size, number: u16) -> Option<Motion> {
        match number {
            0 => Some(Motion::Return),
            1 => Some(Motion::Back),
            2 => Some(Motion::Feed),
            _ => None,
        }
    }

    // None is offered while the cursor is held, which it never is.
    fn lands(self, size: Size, cursor: Cursor) -> Option<Place> {
        let place = cursor.place;
        match self {
            _ if cursor.held => None,
            Motion::Return => Some(Place { column: 0, ..place }),
            Motion::Back => place.left_of(1),
            Motion::Feed => size.below(place, 1),
        }
    }

    fn bytes(self, _: Size) -> ShortBytes {
        match self {
            Motion::Return => ShortBytes::from_slice(b"\r"),
            Motion::Back => ShortBytes::from_slice(b"\x08"),
            Motion::Feed => ShortBytes::from_slice(b"\n"),
        }
    }

    // No motion takes time.
    fn milliseconds(self) -> u16 {
        0
    }
}
