// The motions: their numbers, where they land, their bytes, and how long they take.
ghost use Rattle.std.specs.Prelude.{◌≡◌};
ghost use Rattle.panel.specs.Bytes.{bytes_of};
ghost use Rattle.short_code_panel.specs.Motions;
ghost use Rattle.short_code_panel.specs.Rules.{after};

use display::place::{Cursor, Place};
use display::size::Size;
use panel::bytes::ShortBytes;
use panel::moves::Moves;

// An enum of its own, though other panels have some of these: its definitions go by cases over all seven.
#[derive(Clone, Copy)]
pub enum Motion {
    // to column 0
    Return,
    // a column to the left
    Back,
    // a row down
    Feed,
    // a row up
    Up,
    // a column to the right
    Right,
    // to the first place
    Home,
    // straight to a place
    Address(Place),
}

impl Moves for Motion {
    ghost numbered = { Motions.numbered };

    ghost Reaches = { Motions.Reaches };

    ghost offered = { Motions.offered };

    ghost spelled = { Motions.spelled };

    ghost takes = { Motions.takes };

    fn with_number(size: Size, number: u16) -> Option<Motion> {
        match number {
            0 => Some(Motion::Return),
            1 => Some(Motion::Back),
            2 => Some(Motion::Feed),
            3 => Some(Motion::Up),
            4 => Some(Motion::Right),
            5 => Some(Motion::Home),
            _ => size.place_at(number as usize - 6).map(Motion::Address),
        }
    }

    // None is offered while the cursor is held, which it never is.
    fn lands(self, size: Size, cursor: Cursor) -> Option<Place> {
        let place = cursor.place;
        match self {
            _ if cursor.held => None,
            Motion::Return => Some(Place { column: 0, ..place }),
            Motion::Back => place.left_of(1),
            Motion::Feed => size.below(place, 1),
            Motion::Up => place.above(1),
            Motion::Right => size.right_of(place, 1),
            Motion::Home => Some(Place::default()),
            Motion::Address(to) => Some(to),
        }
    }

    fn bytes(self, _: Size) -> ShortBytes {
        match self {
            Motion::Return => ShortBytes::from_slice(b"\r"),
            Motion::Back => ShortBytes::from_slice(b"\x08"),
            Motion::Feed => ShortBytes::from_slice(b"\n"),
            Motion::Up => ShortBytes::from_slice(b"\x0B"),
            Motion::Right => ShortBytes::from_slice(b"\x0C"),
            Motion::Home => ShortBytes::from_slice(b"\x1E"),
            Motion::Address(Place { row, column }) => {
                ShortBytes::from_slice(&[0x1B, b'=', 0x20 + row, 0x20 + column])
            }
        }
    }

    fn milliseconds(self) -> u16 {
        match self {
            Motion::Address(_) => 3,
            _ => 0,
        }
    }
}

// The cursor once a code was printed: a column on, or in column 0 of the next row, which on the last row is that row.
pub(crate) fn after_code(size: Size, place: Place) -> Cursor
    ensures { result ≡ after size place }
{
    let next = size.below(place, 1).unwrap_or(place);
    size.stepped(place, Cursor::from(Place { column: 0, ..next }))
}

// 0Eh sets pen 1, 0Fh pen 0.
pub(crate) fn of_pen(pen: u8) -> ShortBytes
    ensures { bytes_of result ≡ Motions.pen_bytes pen }
{
    ShortBytes::from_slice(if pen == 0 { b"\x0F" } else { b"\x0E" })
}
