// A screen with all that is lent to it.
use cost::cost::Cost;
use display::cell::Cell;
use display::size::Size;
use faults::fault::Fault;
use labels::label::Label;
use panel_model::kind::Kind;
use panel_model::model::Model;
use screen::screen::Screen;
use std::alloc::Global;
use std::test::Fail;

#[derive(Drop)]
pub(crate) struct Cab<Q: Kind, C, K: Cost> {
    pub screen: Screen<Model<Q>, K>,
    pub wanted: Vec<C>,
    pub shown: Vec<C>,
    pub labels: Vec<Label<K>>,
    pub output: Vec<u8>,
}

// A screen that has just been opened on a new panel.
pub(crate) fn open<Q: Kind, C: Cell, K: Cost>(
    heap: Global,
    rows: usize,
    columns: usize,
) -> Result<Cab<Q, C, K>, Fail> {
    let size = Size::new(rows, columns).ok_or("no size")?;
    let places = size.places();
    let blank = C::build(b' ', 0).ok_or("no blank")?;
    let mut wanted = vec![in heap; blank; places]?;
    let mut shown = vec![in heap; blank; places]?;
    let labels = vec![in heap; Label::unreached(); places + 1]?;
    let output = vec![in heap; 0u8; 4096]?;
    match Screen::open(Model::new(heap, size)?, &mut wanted, &mut shown) {
        Ok(screen) => Ok(Cab {
            screen,
            wanted,
            shown,
            labels,
            output,
        }),
        Err(_) => Err("not opened")?,
    }
}

impl<Q: Kind, C: Cell, K: Cost> Cab<Q, C, K> {
    pub(crate) fn put(
        &mut self,
        row: usize,
        column: usize,
        code: u8,
        pen: u8,
    ) -> Result<(), Fault> {
        self.screen.put(&mut self.wanted, row, column, code, pen)
    }

    pub(crate) fn put_text(&mut self, row: usize, column: usize, text: &[u8]) -> Result<(), Fault> {
        for (index, code) in text.iter().enumerate() {
            self.put(row, column.saturating_add(index), *code, 0)?;
        }
        Ok(())
    }

    pub(crate) fn refresh(&mut self) -> Result<usize, Fault> {
        self.screen.refresh(
            &self.wanted,
            &mut self.shown,
            &mut self.labels,
            &mut self.output,
        )
    }

    pub(crate) fn redraw(&mut self) -> Result<usize, Fault> {
        self.screen.redraw(
            &self.wanted,
            &mut self.shown,
            &mut self.labels,
            &mut self.output,
        )
    }
}
