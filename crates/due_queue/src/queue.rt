// A queue of numbers, and the number that is due first.
ghost use Rattle.std.specs.Prelude.{◌≡◌, ◌≤◌, ◌<◌, ℕ, false, length};
ghost use Rattle.due_queue.specs.Awake.{NoneDue, Parted, Rest};
ghost use Rattle.due_queue.specs.Numbering.{Numbering, placed};
ghost use Rattle.due_queue.specs.Queue.{Answered, FirstDue, Fresh, Ready, Root};

use crate::rank::Rank;
use crate::waking::{settle, wake};
use std::marker::Model;

// Every motion of the largest panel, and the retype, each in a class of its own.
const MOST: usize = 4097;

// The numbers below a count, each at one place: first those that are awake, as a heap. Contracts see the numbers in the
// order of their places, and how many are awake.
#[derive(Drop)]
pub struct Queue {
    numbers: [u16; MOST],
    count: usize,
    awake: usize,
}

impl Model for Queue {
    ghost use Rattle.std.specs.Prelude.{◌≤◌, take};
    ghost use Rattle.due_queue.specs.Numbering.{Numbering, placed};
    ghost use Rattle.due_queue.specs.Queue.{Places};
    ghost use Rattle.due_queue.specs.declared.queue.TheConstants.{MOST};

    ghost Value = { Places };

    ghost view = { λ q. record { numbers = take q.count q.numbers; awake = q.awake } };

    ghost invariant = { λ q. record {
      few : q.count ≤ MOST;
      within : q.awake ≤ q.count;
      numbering : Numbering q.count (placed (take q.count q.numbers));
    } };
}

impl Queue {
    // The numbers below a count, or the first 4,097 of them; none is awake.
    pub fn new(count: usize) -> Queue
        ensures { Fresh count result }
    {
        let count = count.min(MOST);
        Queue {
            numbers: in_turn(count),
            count,
            awake: 0,
        }
    }

    // The number that is due first, if any is. Since the last answer no number but the one that was answered has changed
    // its turn or stopped being due; `grown` tells whether others may have become due.
    pub fn next<R: Rank>(&mut self, rank: &R, grown: bool) -> Option<u16>
        requires sound { R.Sound rank.now }
        requires ready { Ready (R.Due rank.now) (R.sooner rank.now) self.old grown }
        ensures same { length self.new.numbers ≡ length self.old.numbers }
        ensures answered { Answered (R.Due rank.now) (R.sooner rank.now) self.new result }
        ensures first { FirstDue (R.Due rank.now) (R.sooner rank.now) (length self.new.numbers) result }
    {
        let (count, awake) = (self.count, self.awake);
        self.awake = arrange(rank, &mut self.numbers[..count], awake, grown);
        self.root()
    }

    // The number at the root, if any is awake.
    fn root(&self) -> Option<u16>
        ensures { Root self.now result }
    {
        if self.awake == 0 {
            return None;
        }
        Some(self.numbers[0])
    }
}

// Each number below a count at the place of its own number.
fn in_turn(count: usize) -> [u16; MOST]
    requires { count ≤ MOST }
    ensures { (i : ℕ) → i < count → placed result i ≡ i }
{
    let mut numbers = [0; MOST];
    for place in 0..count {
        numbers[place] = place as u16;
    }
    numbers
}

// Parts the numbers into those that are due, a heap, and those that are not. Answers how many are awake.
fn arrange<R: Rank>(rank: &R, numbers: &mut [u16], awake: usize, grown: bool) -> usize
    requires sound { R.Sound rank.now }
    requires few { length numbers.old ≤ MOST }
    requires numbering { Numbering (length numbers.old) (placed numbers.old) }
    requires memory { awake ≤ length numbers.old }
    requires rest { Rest (R.Due rank.now) (R.sooner rank.now) (placed numbers.old) awake }
    requires asleep { grown ≡ false → NoneDue (R.Due rank.now) (placed numbers.old) awake (length numbers.old) }
    ensures numbering { Numbering (length numbers.old) (placed numbers.new) }
    ensures parted { Parted (R.Due rank.now) (R.sooner rank.now) (placed numbers.new) result (length numbers.old) }
{
    let awake = settle(rank, numbers, awake);
    if grown {
        return wake(rank, numbers, awake);
    }
    awake
}
