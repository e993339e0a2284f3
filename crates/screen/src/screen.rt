// The screen, and the calls that say what is wanted.
ghost use Rattle.std.specs.Prelude.{◌≡◌, MatchResult};
ghost use Rattle.screen.specs.Calls.{Opens, Puts, Rests, Strays, TellsSpan, Unopens};

use crate::cells::{blank_cell, lay_out, set_cell};
use crate::feeding::feed_all;
use cost::cost::Cost;
use damage::damage::Damage;
use damage::span::Span;
use display::cell::Cell;
use display::place::Place;
use faults::fault::Fault;
use faults::judge::{Placed, judge};
use motion_order::charted::Charted;
use panel::panel::Panel;
use plan::stand::Stand;
use std::marker::Model;

// Contracts see the panel, the rest place that is asked for, where the last accepted showing left the panel, and the
// columns put in each row since. The pictures are not held: they are lent to each call that needs them.
#[derive(Drop)]
pub struct Screen<P: Panel, K: Cost> {
    pub(crate) charted: Charted<P, K>,
    pub(crate) rest: Place,
    pub(crate) left: Option<Stand>,
    pub(crate) damage: Damage,
}

impl<P: Panel, K: Cost> Model for Screen<P, K> {
    ghost use Rattle.screen.specs.State.{Kept, State};

    ghost Value = { State P };

    ghost view = { λ s. record { panel = s.charted; rest = s.rest; left = s.left; rows = s.damage.rows } };

    ghost invariant = { λ s. Kept (P.answers s.charted).size s.rest s.left s.damage.rows };
}

// A panel that no screen was opened on, and why.
#[derive(Drop)]
pub struct Unopened<P> {
    pub panel: P,
    pub fault: Fault,
}

impl<P: Panel, K: Cost> Screen<P, K> {
    // Opens a screen on a panel, whatever that shows: nothing is fed to it. Both pictures are blank then, and the rest
    // place is the first place.
    pub fn open<C: Cell>(
        panel: P,
        wanted: &mut [C],
        shown: &mut [C],
    ) -> Result<Screen<P, K>, Unopened<P>>
        ensures { MatchResult result
            (Opens (P.answers panel) C.glyph panel wanted.old wanted.new shown.old shown.new)
            (Unopens (P.answers panel) panel wanted.old wanted.new shown.old shown.new) }
    {
        let places = panel.size().places();
        if wanted.len() < places || shown.len() < places {
            return Err(Unopened {
                panel,
                fault: Fault::TooSmall,
            });
        }
        lay_out(wanted, places, blank_cell::<C>());
        lay_out(shown, places, blank_cell::<C>());
        Ok(Screen {
            charted: Charted::new(panel),
            rest: Place::default(),
            left: None,
            damage: Damage::none(),
        })
    }

    // The panel, of which questions can be asked.
    pub fn panel(&self) -> &P
        ensures { result.now ≡ self.now.panel }
    {
        self.charted.panel()
    }

    // Sets one wanted cell.
    pub fn put<C: Cell>(
        &mut self,
        wanted: &mut [C],
        row: usize,
        column: usize,
        code: u8,
        pen: u8,
    ) -> Result<(), Fault>
        ensures { Puts (P.answers self.old.panel) C.glyph C.admits row column code pen wanted.old wanted.new self.old
            self.new result }
    {
        let size = self.charted.panel().size();
        if wanted.len() < size.places() {
            return Err(Fault::TooSmall);
        }
        let Placed { place, cell } = judge::<P, C>(self.charted.panel(), row, column, code, pen)?;
        set_cell(wanted, size.number(place), cell);
        self.damage.put(place);
        Ok(())
    }

    // Sets the place where the cursor is to rest.
    pub fn rest(&mut self, row: usize, column: usize) -> Result<(), Fault>
        ensures { Rests (P.answers self.old.panel) row column self.old self.new result }
    {
        match self.charted.panel().size().place(row, column) {
            Some(place) => {
                self.rest = place;
                Ok(())
            }
            None => Err(Fault::Outside { row, column }),
        }
    }

    // Feeds bytes to the panel that no showing has sent, as noise on its line would. It is never refused.
    pub fn stray(&mut self, bytes: &[u8])
        ensures { Strays P.answers P.meaning P.fed self.old self.new bytes.now }
    {
        feed_all(&mut self.charted, bytes);
    }

    // The span of the columns put in a row since the last accepted showing, or that there is none.
    pub fn span(&self, row: usize) -> Result<Option<Span>, Fault>
        ensures { TellsSpan (P.answers self.now.panel) row self.now result }
    {
        let size = self.charted.panel().size();
        if row >= usize::from(size.rows) {
            return Err(Fault::Outside { row, column: 0 });
        }
        Ok(self.damage.span(row, size.columns))
    }
}
