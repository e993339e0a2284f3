// The motions of a kind of panel, and what is asked of each by its number. The size stands beside the number or the
// motion, and is no part of it: it is the panel's, and a panel asks.
ghost use Rattle.std.specs.Prelude.{◌≡◌, ℕ, List, [], IfSome, None, Option};
ghost use Rattle.panel.specs.Answers.{answered};
ghost use Rattle.panel.specs.Bytes.{bytes_of};
ghost use Rattle.display.specs.declared.size.Size.{Size as Sized};
ghost use Rattle.display.specs.declared.place.Cursor.{Cursor as Cursors};
ghost use Rattle.display.specs.declared.place.Place.{Place as Places};

use crate::bytes::ShortBytes;
use display::place::{Cursor, Place};
use display::size::Size;

pub trait Moves: Copy {
    // the motion with a number, on a panel of a size
    ghost numbered: { Sized → ℕ → Option Self };

    // that a panel of a size has the motion
    ghost Reaches: { Sized → Self → Type 0 };

    // where it lands from a cursor, if it is offered there
    ghost offered: { Sized → Cursors → Self → Option Places };

    ghost spelled: { Self → List ℕ };

    ghost takes: { Self → ℕ };

    // The motion that has a number.
    fn with_number(size: Size, number: u16) -> Option<Self>
        ensures is { result ≡ numbered size number }
        ensures reaches { IfSome result (Reaches size) };

    // Where it lands from a cursor, or nothing where it is not offered.
    fn lands(self, size: Size, cursor: Cursor) -> Option<Place>
        ensures { result ≡ offered size cursor self };

    // Its bytes, on a panel of a size that has it.
    fn bytes(self, size: Size) -> ShortBytes
        requires { Reaches size self }
        ensures { bytes_of result ≡ spelled self };

    // The milliseconds that it takes.
    fn milliseconds(self) -> u16
        ensures { result ≡ takes self };
}

// Where the motion with a number lands from a cursor, or nothing where it is not offered. The rules number motions.
pub fn landing<M: Moves>(size: Size, number: u16, cursor: Cursor) -> Option<Place>
    ensures { result ≡ answered None (M.offered size cursor) (M.numbered size number) }
{
    M::with_number(size, number)?.lands(size, cursor)
}

// The bytes of the motion with a number, and none where there is no such motion, as the rules say and no option does.
pub fn bytes<M: Moves>(size: Size, number: u16) -> ShortBytes
    ensures { bytes_of result ≡ answered [] M.spelled (M.numbered size number) }
{
    M::with_number(size, number).map_or(ShortBytes::new(), |motion| motion.bytes(size))
}

// The milliseconds that the motion with a number takes, and 0 where there is no such motion, as the rules say.
pub fn delay<M: Moves>(size: Size, number: u16) -> u16
    ensures { result ≡ answered 0 M.takes (M.numbered size number) }
{
    M::with_number(size, number).map_or(0, M::milliseconds)
}
