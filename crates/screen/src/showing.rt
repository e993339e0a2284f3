// The calls that show what is wanted.
ghost use Rattle.std.specs.Prelude.{◌≡◌, ◌*◌, ◌≤◌, Decides, OnOk, length};
ghost use Rattle.planning.specs.Planned.{pictured};
ghost use Rattle.screen.specs.Accepting.{Accepts, Checked};
ghost use Rattle.screen.specs.Calls.{Outcome, redraw_of, refresh_of};
ghost use Rattle.screen.specs.Showing.{Lent};
ghost use Rattle.screen.specs.State.{Faces};

use crate::feeding::feed_all;
use crate::screen::Screen;
use cost::cost::Cost;
use damage::damage::Damage;
use display::cell::Cell;
use display::place::Place;
use display::size::Size;
use faults::cells::first_fault;
use faults::fault::Fault;
use labels::label::Label;
use panel::bytes::ShortBytes;
use panel::panel::Panel;
use plan::stand::Stand;
use planning::pictures::Pictures;
use planning::send::send_plan;
use planning::walk::Sent;

// Whether enough is lent to a showing on a panel of a size: a label for each place and one more, and a cell of both
// pictures for each place.
fn is_enough<C>(size: Size, pictures: Pictures<C>, labels: usize) -> bool
    ensures { Decides result (Lent size labels (length pictures.entry.wanted.now)
        (length pictures.entry.shown.now)) }
{
    let places = size.places();
    places < labels && places <= pictures.wanted.len() && places <= pictures.shown.len()
}

impl<P: Panel, K: Cost> Screen<P, K> {
    // What is asked of every showing first: that enough is lent, and that every wanted cell can be put.
    fn check<C: Cell>(&self, pictures: Pictures<C>, labels: usize) -> Result<(), Fault>
        ensures { Checked (P.answers self.now.panel) C.admits C.glyph pictures.entry.shown.now pictures.entry.wanted.now
            labels result }
    {
        let panel = self.charted.panel();
        let size = panel.size();
        if !is_enough(size, pictures, labels) {
            return Err(Fault::TooSmall);
        }
        match first_fault(panel, &pictures.wanted[..size.places()]) {
            Some(fault) => Err(fault),
            None => Ok(()),
        }
    }

    // Feeds what was sent to the panel, and takes the wanted picture for the one that is shown.
    fn accept<C: Cell>(&mut self, wanted: &[C], shown: &mut [C], output: &[u8], sent: Sent) -> usize
        requires wanted { (P.answers self.old.panel).size.rows * (P.answers self.old.panel).size.columns
            ≤ length wanted.now }
        requires shown { (P.answers self.old.panel).size.rows * (P.answers self.old.panel).size.columns
            ≤ length shown.old }
        requires sent { sent.count ≤ length output.now }
        ensures { Accepts P.answers P.meaning P.fed wanted.now shown.old shown.new output.now sent self.old self.new
            result }
    {
        feed_all(&mut self.charted, &output[..sent.count]);
        let places = self.charted.panel().size().places();
        shown[..places].copy_from_slice(&wanted[..places]);
        self.left = Some(Stand {
            place: self.rest,
            pen: sent.pen,
        });
        self.damage = Damage::none();
        sent.count
    }

    // Sends what brings the panel from the shown picture to the wanted one, and answers how many bytes that are.
    pub fn refresh<C: Cell>(
        &mut self,
        wanted: &[C],
        shown: &mut [C],
        labels: &mut [Label<K>],
        output: &mut [u8],
    ) -> Result<usize, Fault>
        ensures outcome { Outcome K.costs P.answers P.meaning P.fed C.admits
            (refresh_of (P.answers self.old.panel) C.glyph self.old wanted.now shown.old (length labels.old)
            (length output.old))
            self.old self.new wanted.now shown.old shown.new labels.old labels.new output.old output.new result }
        ensures faces { OnOk result
            (Faces P.ready (P.answers self.old.panel) self.old (P.meaning self.old.panel)
            (pictured (P.answers self.old.panel).size C.glyph shown.old)
            → Faces P.ready (P.answers self.old.panel) self.new (P.meaning self.new.panel)
            (pictured (P.answers self.old.panel).size C.glyph wanted.now)) }
    {
        let pictures = Pictures { shown, wanted };
        self.check(pictures, labels.len())?;
        let Some(start) = self.left else {
            return Err(Fault::NotDrawn);
        };
        let head = ShortBytes::new();
        let sent = send_plan(
            &self.charted,
            pictures,
            head,
            start,
            self.rest,
            labels,
            output,
        )?;
        Ok(self.accept(wanted, shown, output, sent))
    }

    // Wipes the panel and sends what brings it from there to the wanted picture, and answers how many bytes that are.
    pub fn redraw<C: Cell>(
        &mut self,
        wanted: &[C],
        shown: &mut [C],
        labels: &mut [Label<K>],
        output: &mut [u8],
    ) -> Result<usize, Fault>
        ensures outcome { Outcome K.costs P.answers P.meaning P.fed C.admits
            (redraw_of (P.answers self.old.panel) C.glyph self.old wanted.now shown.old (length labels.old)
            (length output.old))
            self.old self.new wanted.now shown.old shown.new labels.old labels.new output.old output.new result }
        ensures faces { OnOk result
            (Faces P.ready (P.answers self.old.panel) self.new (P.meaning self.new.panel)
            (pictured (P.answers self.old.panel).size C.glyph wanted.now)) }
    {
        self.check(Pictures { shown, wanted }, labels.len())?;
        let head = self.charted.panel().wipe_bytes();
        let start = Stand {
            place: Place::default(),
            pen: 0,
        };
        // a picture without cells is blank
        let pictures = Pictures { shown: &[], wanted };
        let sent = send_plan(
            &self.charted,
            pictures,
            head,
            start,
            self.rest,
            labels,
            output,
        )?;
        Ok(self.accept(wanted, shown, output, sent))
    }
}
