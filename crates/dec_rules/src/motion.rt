// The motions of the panel, which have numbers: where they land, their bytes, and how long they take.
ghost use Rattle.std.specs.Prelude.{◌≡◌, ◌<◌, ◌≤◌, ◌++◌, length, take, decimal};
ghost use Rattle.panel.specs.Bytes.{bytes_of};
ghost use Rattle.dec_rules.specs.Directions.{backward, steps, upright};
ghost use Rattle.dec_rules.specs.Motions.{numbered as numbers, offered as offers, relative as relatively, spelled as spells, takes as lasts};

use display::place::{Cursor, Place};
use display::size::Size;
use panel::bytes::ShortBytes;
use panel::moves::Moves;

// An enum of its own, though other panels have some of these: its definitions go by cases over all eight.
#[derive(Clone, Copy, Debug)]
pub enum Motion {
    // to column 0
    Return,
    // a column to the left
    Back,
    // a row down
    Feed,
    Up(u8),
    Down(u8),
    Right(u8),
    Left(u8),
    // straight to a place
    Address(Place),
}

impl Motion {
    // Whether a motion goes up or down, and not along the row.
    fn is_upright(self) -> bool
        ensures { result ≡ upright self }
    {
        matches!(self, Motion::Feed | Motion::Up(_) | Motion::Down(_))
    }

    // Whether it goes up or to the left.
    fn is_backward(self) -> bool
        ensures { result ≡ backward self }
    {
        matches!(self, Motion::Back | Motion::Up(_) | Motion::Left(_))
    }

    // How many rows or columns it goes.
    fn steps(self) -> u8
        ensures { result ≡ steps self }
    {
        match self {
            Motion::Up(n) | Motion::Down(n) | Motion::Right(n) | Motion::Left(n) => n,
            _ => 1,
        }
    }
}

impl Moves for Motion {
    ghost numbered = { numbers };

    ghost Reaches = { λ _ _. Unit {0} };

    ghost offered = { offers };

    ghost spelled = { spells };

    ghost takes = { lasts };

    fn with_number(size: Size, number: u16) -> Option<Motion> {
        match number {
            0 => Some(Motion::Return),
            1 => Some(Motion::Back),
            2 => Some(Motion::Feed),
            3..=25 => Some(Motion::Up((number - 2) as u8)),
            26..=48 => Some(Motion::Down((number - 25) as u8)),
            49..=127 => Some(Motion::Right((number - 48) as u8)),
            128..=206 => Some(Motion::Left((number - 127) as u8)),
            _ => size.place_at(number as usize - 207).map(Motion::Address),
        }
    }

    // While the cursor is held, only a return and an address are offered. A search asks this more often than anything
    // else: it is told by two tests of the motion, since a jump by a table would take longer than all the rest.
    fn lands(self, size: Size, cursor: Cursor) -> Option<Place> {
        let place = cursor.place;
        match self {
            Motion::Return => return Some(Place { column: 0, ..place }),
            Motion::Address(to) => return Some(to),
            _ => {}
        }
        if cursor.held {
            return None;
        }
        match (self.is_upright(), self.is_backward()) {
            (true, true) => place.above(self.steps()),
            (true, false) => size.below(place, self.steps()),
            (false, true) => place.left_of(self.steps()),
            (false, false) => size.right_of(place, self.steps()),
        }
    }

    fn bytes(self, _: Size) -> ShortBytes {
        match self {
            Motion::Return => ShortBytes::from_slice(b"\r"),
            Motion::Back => ShortBytes::from_slice(b"\x08"),
            Motion::Feed => ShortBytes::from_slice(b"\n"),
            Motion::Up(n) => relative(n, b'A'),
            Motion::Down(n) => relative(n, b'B'),
            Motion::Right(n) => relative(n, b'C'),
            Motion::Left(n) => relative(n, b'D'),
            Motion::Address(place) => address(place),
        }
    }

    fn milliseconds(self) -> u16 {
        match self {
            Motion::Return | Motion::Back | Motion::Feed => 0,
            Motion::Up(_) | Motion::Down(_) | Motion::Right(_) | Motion::Left(_) => 2,
            Motion::Address(_) => 5,
        }
    }
}

// A number in decimal, without leading zeros. Digit by digit: text that is formatted is on the heap or could fail, and
// nothing more is to be trusted, so that the toolchain's crate for it is not used.
#[tactic(auto, using(crate::proofs::Digits::one_digit, crate::proofs::Digits::two_digits, crate::proofs::Digits::three_digits))]
fn push_decimal(bytes: &mut ShortBytes, n: u16)
    requires { n < 1000 }
    ensures is { bytes_of bytes.new ≡ take 16 (bytes_of bytes.old ++ decimal n) }
    ensures short { length (decimal n) ≤ 3 }
{
    let hundreds = b'0' + (n / 100) as u8;
    let tens = b'0' + (n / 10 % 10) as u8;
    let ones = b'0' + (n % 10) as u8;
    if n < 10 {
        bytes.push(ones);
    } else if n < 100 {
        bytes.extend_from_slice(&[tens, ones]);
    } else {
        bytes.extend_from_slice(&[hundreds, tens, ones]);
    }
}

// ESC [, a count that is left out where it is 1, and a letter.
fn relative(n: u8, letter: u8) -> ShortBytes
    ensures { bytes_of result ≡ relatively n letter }
{
    let mut bytes = ShortBytes::from_slice(b"\x1B[");
    if n != 1 {
        push_decimal(&mut bytes, n as u16);
    }
    bytes.push(letter);
    bytes
}

// ESC [ row ; column H, both counted from 1.
fn address(place: Place) -> ShortBytes
    ensures { bytes_of result ≡ spells (Motion.Address place) }
{
    let mut bytes = ShortBytes::from_slice(b"\x1B[");
    push_decimal(&mut bytes, place.row as u16 + 1);
    bytes.push(b';');
    push_decimal(&mut bytes, place.column as u16 + 1);
    bytes.push(b'H');
    bytes
}
