// The words that a program is called with.
ghost use Rattle.std.specs.Prelude.{◌≡◌, MatchOption};
ghost use Rattle.view.specs.Arguments.{Asked, Reads};
ghost use Rattle.display.specs.declared.size.Size.{Size as Sized};

use display::size::Size;

// The size that rows and columns ask for, or nothing where they do not ask for one.
fn read_size(rows: &str, columns: &str) -> Option<Size>
    ensures { MatchOption result
        ((z : Sized) → Reads rows.now z.rows → Reads columns.now z.columns → ⊥)
        (λ z. Reads rows.now z.rows × Reads columns.now z.columns) }
{
    let rows = rows.parse().ok()?;
    let columns = columns.parse().ok()?;
    Size::new(rows, columns)
}

// The size of the panel that a kind, rows and columns ask for, or nothing where they do not ask for one. The only kind
// is D.
pub fn asked_size(kind: &str, rows: &str, columns: &str) -> Option<Size>
    ensures { MatchOption result ((z : Sized) → Asked kind.now rows.now columns.now z → ⊥) (Asked kind.now rows.now columns.now) }
{
    // the word for the kind is tried first: the others may be long
    if kind != "D" {
        return None;
    }
    read_size(rows, columns)
}
