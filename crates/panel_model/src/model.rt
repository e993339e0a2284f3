// The model, and what it keeps.
ghost use Rattle.std.specs.Prelude.{◌≡◌, false};
ghost use Rattle.panel.specs.Lawful.{Sound};
ghost use Rattle.panel.specs.Meaning.{of};
ghost use Rattle.panel.proofs.Soundness.{sound_prop};

use crate::kind::Kind;
use canvas::canvas::Canvas;

pub mod panel_impl;
pub mod readout;

#[derive(Drop)]
pub struct Model<K: Kind> {
    canvas: Canvas,
    reading: K::Reading,
    ghost sound: { Sound (K.answers canvas.size) (of canvas reading) } by { sound_prop (K.answers canvas.size) (of canvas reading) },
    ghost unheld: { K.holds ≡ false → canvas.cursor.held ≡ false },
}
