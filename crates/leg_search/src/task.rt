// What a search is asked.
use display::place::Cursor;
use legs::scene::Scene;
use motion_order::classes::Classes;

// The scene, the classes of the panel's motions, the cursor at which the search begins, and the number of the place at
// which it ends.
#[derive(Clone, Copy)]
pub(crate) struct Task<'a, P, C> {
    pub scene: Scene<'a, P, C>,
    pub classes: Classes<'a>,
    pub start: Cursor,
    pub goal: usize,
}
