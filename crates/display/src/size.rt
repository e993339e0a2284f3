// The size of a panel.
ghost use Rattle.std.specs.Prelude.{◌≤◌};

// Rows are 1 to 24, columns 2 to 80.
#[derive(Clone, Copy, Debug)]
pub struct Size {
    pub rows: u8,
    pub columns: u8,
    ghost rows_least: { 1 ≤ rows },
    ghost rows_most: { rows ≤ 24 },
    ghost columns_least: { 2 ≤ columns },
    ghost columns_most: { columns ≤ 80 },
}
