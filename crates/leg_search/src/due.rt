// Which class of motions is due first.
ghost use Rattle.std.specs.Prelude.{◌≡◌, ◌<◌, length};
ghost use Rattle.due_queue.specs.Queue.{Ready};
ghost use Rattle.leg_search.specs.Due.{DueOf, NextDue, Reckons, sooner_of};
ghost use Rattle.leg_search.specs.Reach.{due_at};
ghost use Rattle.leg_search.specs.Reading.{reach_of, task_of};
ghost use Rattle.motion_order.specs.InOrder.{offer_at, weighed};

use crate::front::{Front, cost_at};
use crate::task::Task;
use cost::cost::Cost;
use display::cell::Cell;
use due_queue::queue::Queue;
use due_queue::rank::Rank;
use labels::label::Label;
use motion_order::offer::Offer;
use panel::panel::Panel;

// A class that is due, and at which cost.
#[derive(Clone, Copy)]
pub(crate) struct Due<K> {
    pub class: usize,
    pub cost: K,
}

// The classes of a search, by the costs at which they are due.
#[derive(Drop)]
struct Dues<'a, P, C, K> {
    task: &'a Task<'a, P, C>,
    front: &'a Front,
    labels: &'a [Label<K>],
}

// What the first of some motions costs.
pub(crate) fn price<K: Cost>(offers: &[Offer]) -> K
    ensures { K.value result ≡ weighed K.costs (offer_at offers.now 0) }
{
    match offers.first() {
        Some(offer) => offer.cost(),
        None => K::of_motion(0, 0),
    }
}

impl<'a, P: Panel, C: Cell, K: Cost> Dues<'a, P, C, K> {
    // At which cost a class is due: that of the state from which it is, and of one motion more.
    fn cost(&self, class: usize) -> K
        requires reckons { Reckons K.Few (length self.now.labels.now)
            (task_of P.answers C.glyph K.costs self.now.task.now)
            (reach_of K.value K.costs.zero self.now.labels.now self.now.front.now) }
        requires due { DueOf (task_of P.answers C.glyph K.costs self.now.task.now)
            (reach_of K.value K.costs.zero self.now.labels.now self.now.front.now) class }
        ensures { K.value result ≡ due_at (task_of P.answers C.glyph K.costs self.now.task.now)
            (reach_of K.value K.costs.zero self.now.labels.now self.now.front.now) class }
    {
        let cost = cost_at(self.labels, usize::from(self.front.next[class]));
        cost.plus(price(self.task.classes.class(class)))
    }
}

impl<'a, P: Panel, C: Cell, K: Cost> Rank for Dues<'a, P, C, K> {
    ghost use Rattle.std.specs.Prelude.{length};
    ghost use Rattle.leg_search.specs.Due.{DueOf, Reckons, rank_laws, sooner_of};
    ghost use Rattle.leg_search.specs.Reading.{reach_of, task_of};

    ghost Sound = { λ s. Reckons K.Few (length s.labels.now) (task_of P.answers C.glyph K.costs s.task.now)
        (reach_of K.value K.costs.zero s.labels.now s.front.now) };

    ghost Due = { λ s. DueOf (task_of P.answers C.glyph K.costs s.task.now)
        (reach_of K.value K.costs.zero s.labels.now s.front.now) };

    ghost sooner = { λ s. sooner_of (task_of P.answers C.glyph K.costs s.task.now)
        (reach_of K.value K.costs.zero s.labels.now s.front.now) };

    ghost laws = { λ s h. rank_laws (task_of P.answers C.glyph K.costs s.task.now) K.laws
        (reach_of K.value K.costs.zero s.labels.now s.front.now) };

    fn is_due(&self, number: u16) -> bool {
        let class = usize::from(number);
        class < self.task.classes.count() && usize::from(self.front.next[class]) < self.front.count
    }

    fn is_sooner(&self, one: u16, other: u16) -> bool {
        self.cost(usize::from(one))
            .at_most(self.cost(usize::from(other)))
    }
}

// The class that is due first, if any is. It has to be told whether the line has grown since the last answer.
pub(crate) fn next_due<P: Panel, C: Cell, K: Cost>(
    task: &Task<P, C>,
    front: &Front,
    labels: &[Label<K>],
    queue: &mut Queue,
    grown: bool,
) -> Option<Due<K>>
    requires reckons { Reckons K.Few (length labels.now) (task_of P.answers C.glyph K.costs task.now)
        (reach_of K.value K.costs.zero labels.now front.now) }
    requires classes { length queue.old.numbers ≡ (task_of P.answers C.glyph K.costs task.now).count }
    requires ready { Ready
        (DueOf (task_of P.answers C.glyph K.costs task.now) (reach_of K.value K.costs.zero labels.now front.now))
        (sooner_of (task_of P.answers C.glyph K.costs task.now) (reach_of K.value K.costs.zero labels.now front.now))
        queue.old grown }
    ensures same { length queue.new.numbers ≡ length queue.old.numbers }
    ensures next { NextDue K.value (task_of P.answers C.glyph K.costs task.now)
        (reach_of K.value K.costs.zero labels.now front.now) queue.new result }
{
    let dues = Dues {
        task,
        front,
        labels,
    };
    let class = usize::from(queue.next(&dues, grown)?);
    Some(Due {
        class,
        cost: dues.cost(class),
    })
}
