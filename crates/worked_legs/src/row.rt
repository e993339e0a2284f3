// A row of the table.
use display::place::{Cursor, Place};
use panel::bytes::ShortBytes;

#[derive(Clone, Copy, Debug, PartialEq, Eq)]
pub enum PanelKind {
    // the deferred-wrap panel
    Deferred,
    ShortCode,
    Sticking,
}

#[derive(Clone, Copy, Debug, PartialEq, Eq)]
pub enum CostKind {
    // the number of bytes
    Bytes,
    // milliseconds, then bytes
    Line,
}

// The bytes of the leg from a cursor to a place, or nothing where no sequence of motions leads there.
#[derive(Clone, Copy, Debug)]
pub struct WorkedLeg {
    pub panel: PanelKind,
    pub cost: CostKind,
    pub start: Cursor,
    pub goal: Place,
    pub bytes: Option<ShortBytes>,
}
