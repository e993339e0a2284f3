// A span of columns in a row of a panel.
ghost use Rattle.std.specs.Prelude.{◌<◌, ◌≤◌};

// From the first column to the last, both included. The first is at most the last, and the last below the width of the
// panel, so who walks a row by its span needs no test.
#[derive(Clone, Copy, Debug)]
pub struct Span {
    pub first: u8,
    pub last: u8,
    pub width: u8,
    ghost ordered: { first ≤ last },
    ghost inside: { last < width },
}
