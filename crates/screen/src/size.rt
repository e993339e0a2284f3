// The size of the panel that a screen is asked for.
ghost use Rattle.std.specs.Prelude.{◌≡◌, [], MatchResult};
ghost use Rattle.display.specs.Limits.{Allowed};
ghost use Rattle.faults.specs.Told.{tell, told};

use display::size::Size;
use faults::fault::Fault;

// The size of so many rows and columns, if it is within the limits.
pub fn panel_size(rows: usize, columns: usize) -> Result<Size, Fault>
    ensures { MatchResult result
        (λ z. (z.rows ≡ rows) × (z.columns ≡ columns))
        (λ why. (Allowed rows columns → ⊥) × (told why ≡ tell 8 [])) }
{
    Size::new(rows, columns).ok_or(Fault::TooSmall)
}
