// Which numbers are awake: the root may be due no more, and others may have become due.
ghost use Rattle.std.specs.Prelude.{◌≡◌, ◌+◌, ◌<◌, ◌≤◌, length};
ghost use Rattle.due_queue.specs.Awake.{AllDue, NoneDue, Parted, Rest};
ghost use Rattle.due_queue.specs.Heap.{Heap, SinksAt};
ghost use Rattle.due_queue.specs.Numbering.{Numbering, placed};

use crate::heap::{rise, sink};
use crate::rank::Rank;

// Puts the root to sleep where it is due no more; the last of those that are awake then stands in its place. Answers
// how many are awake.
fn retire<R: Rank>(rank: &R, numbers: &mut [u16], awake: usize) -> usize
    requires sound { R.Sound rank.now }
    requires few { length numbers.old ≤ 4097 }
    requires numbering { Numbering (length numbers.old) (placed numbers.old) }
    requires some { 0 < awake }
    requires memory { awake ≤ length numbers.old }
    requires rest { Rest (R.Due rank.now) (R.sooner rank.now) (placed numbers.old) awake }
    ensures numbering { Numbering (length numbers.old) (placed numbers.new) }
    ensures within { result ≤ awake }
    ensures due { AllDue (R.Due rank.now) (placed numbers.new) result }
    ensures sinks { SinksAt (R.sooner rank.now) (placed numbers.new) result 0 }
    ensures asleep { NoneDue (R.Due rank.now) (placed numbers.old) awake (length numbers.old)
        → NoneDue (R.Due rank.now) (placed numbers.new) result (length numbers.old) }
{
    if rank.is_due(numbers[0]) {
        return awake;
    }
    numbers.swap(0, awake - 1);
    awake - 1
}

// Puts the root where it belongs by now: to sleep, or down the heap. Answers how many are awake.
pub(crate) fn settle<R: Rank>(rank: &R, numbers: &mut [u16], awake: usize) -> usize
    requires sound { R.Sound rank.now }
    requires few { length numbers.old ≤ 4097 }
    requires numbering { Numbering (length numbers.old) (placed numbers.old) }
    requires memory { awake ≤ length numbers.old }
    requires rest { Rest (R.Due rank.now) (R.sooner rank.now) (placed numbers.old) awake }
    ensures numbering { Numbering (length numbers.old) (placed numbers.new) }
    ensures within { result ≤ awake }
    ensures due { AllDue (R.Due rank.now) (placed numbers.new) result }
    ensures heap { Heap (R.sooner rank.now) (placed numbers.new) result }
    ensures asleep { NoneDue (R.Due rank.now) (placed numbers.old) awake (length numbers.old)
        → NoneDue (R.Due rank.now) (placed numbers.new) result (length numbers.old) }
{
    if awake == 0 {
        return 0;
    }
    let awake = retire(rank, numbers, awake);
    sink(rank, numbers, awake);
    awake
}

// Lets the number at a place that has slept into the heap where it is due. Answers how many are awake.
fn wake_one<R: Rank>(rank: &R, numbers: &mut [u16], awake: usize, place: usize) -> usize
    requires sound { R.Sound rank.now }
    requires few { length numbers.old ≤ 4097 }
    requires numbering { Numbering (length numbers.old) (placed numbers.old) }
    requires place { place < length numbers.old }
    requires parted { Parted (R.Due rank.now) (R.sooner rank.now) (placed numbers.old) awake place }
    ensures numbering { Numbering (length numbers.old) (placed numbers.new) }
    ensures parted { Parted (R.Due rank.now) (R.sooner rank.now) (placed numbers.new) result (place + 1) }
{
    if !rank.is_due(numbers[place]) {
        return awake;
    }
    numbers.swap(awake, place);
    rise(rank, numbers, awake);
    awake + 1
}

// Lets all numbers that sleep and are due into the heap. Answers how many are awake.
pub(crate) fn wake<R: Rank>(rank: &R, numbers: &mut [u16], awake: usize) -> usize
    requires sound { R.Sound rank.now }
    requires few { length numbers.old ≤ 4097 }
    requires numbering { Numbering (length numbers.old) (placed numbers.old) }
    requires memory { awake ≤ length numbers.old }
    requires due { AllDue (R.Due rank.now) (placed numbers.old) awake }
    requires heap { Heap (R.sooner rank.now) (placed numbers.old) awake }
    ensures numbering { Numbering (length numbers.old) (placed numbers.new) }
    ensures parted { Parted (R.Due rank.now) (R.sooner rank.now) (placed numbers.new) result (length numbers.old) }
{
    let mut count = awake;
    for place in awake..numbers.len() {
        count = wake_one(rank, numbers, count, place);
    }
    count
}
