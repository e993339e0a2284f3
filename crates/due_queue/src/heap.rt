// Heaps of numbers that are due, in place: what is over a number comes no later.
ghost use Rattle.std.specs.Prelude.{◌≡◌, ◌+◌, ◌*◌, ◌<◌, ◌≤◌, length};
ghost use Rattle.due_queue.specs.Awake.{AllDue};
ghost use Rattle.due_queue.specs.Heap.{FirstChild, Heap, RisesTo, SinksAt, SinksTo};
ghost use Rattle.due_queue.specs.Numbering.{Shuffled, placed};

use crate::rank::Rank;

// Whether the number at one place comes at most as late as that at another.
fn comes_first<R: Rank>(rank: &R, numbers: &[u16], one: usize, other: usize) -> bool
    requires sound { R.Sound rank.now }
    requires one { one < length numbers.now }
    requires other { other < length numbers.now }
    requires one_due { R.Due rank.now (placed numbers.now one) }
    requires other_due { R.Due rank.now (placed numbers.now other) }
    ensures { result ≡ R.sooner rank.now (placed numbers.now one) (placed numbers.now other) }
{
    rank.is_sooner(numbers[one], numbers[other])
}

// Which of the children of a place comes first, where there is one.
fn first_child<R: Rank>(rank: &R, numbers: &[u16], awake: usize, place: usize) -> usize
    requires sound { R.Sound rank.now }
    requires memory { awake ≤ length numbers.now }
    requires few { awake ≤ 4097 }
    requires due { AllDue (R.Due rank.now) (placed numbers.now) awake }
    requires child { 2 * place + 1 < awake }
    ensures { FirstChild (R.sooner rank.now) (placed numbers.now) awake place result }
{
    let left = 2 * place + 1;
    let right = left + 1;
    if right >= awake {
        return left;
    }
    if comes_first(rank, numbers, left, right) {
        return left;
    }
    right
}

// The place of the child with which the number at a place has to change places, if it comes too early there.
fn lower<R: Rank>(rank: &R, numbers: &[u16], awake: usize, place: usize) -> Option<usize>
    requires sound { R.Sound rank.now }
    requires memory { awake ≤ length numbers.now }
    requires few { awake ≤ 4097 }
    requires due { AllDue (R.Due rank.now) (placed numbers.now) awake }
    requires place { place ≤ awake }
    ensures { SinksTo (R.sooner rank.now) (placed numbers.now) awake place result }
{
    if 2 * place + 1 >= awake {
        return None;
    }
    let child = first_child(rank, numbers, awake, place);
    if comes_first(rank, numbers, place, child) {
        return None;
    }
    Some(child)
}

// Lets the number at the root change places with its first child until it comes no later than its children.
pub(crate) fn sink<R: Rank>(rank: &R, numbers: &mut [u16], awake: usize)
    requires sound { R.Sound rank.now }
    requires memory { awake ≤ length numbers.old }
    requires few { awake ≤ 4097 }
    requires due { AllDue (R.Due rank.now) (placed numbers.old) awake }
    requires sinks { SinksAt (R.sooner rank.now) (placed numbers.old) awake 0 }
    ensures heap { Heap (R.sooner rank.now) (placed numbers.new) awake }
    ensures shuffled { Shuffled (length numbers.old) (placed numbers.old) (placed numbers.new) awake }
{
    let mut place = 0;
    while let Some(child) = lower(rank, numbers, awake, place) {
        numbers.swap(place, child);
        place = child;
    }
}

// The place of the parent with which the number at a place has to change places, if it comes too late there.
fn higher<R: Rank>(rank: &R, numbers: &[u16], place: usize) -> Option<usize>
    requires sound { R.Sound rank.now }
    requires memory { place < length numbers.now }
    requires due { AllDue (R.Due rank.now) (placed numbers.now) (place + 1) }
    ensures { RisesTo (R.sooner rank.now) (placed numbers.now) place result }
{
    if place == 0 {
        return None;
    }
    let parent = (place - 1) / 2;
    if comes_first(rank, numbers, parent, place) {
        return None;
    }
    Some(parent)
}

// Lets the number after a heap change places with its parent until this comes no later: the heap has one number more.
pub(crate) fn rise<R: Rank>(rank: &R, numbers: &mut [u16], awake: usize)
    requires sound { R.Sound rank.now }
    requires memory { awake < length numbers.old }
    requires due { AllDue (R.Due rank.now) (placed numbers.old) (awake + 1) }
    requires heap { Heap (R.sooner rank.now) (placed numbers.old) awake }
    ensures heap { Heap (R.sooner rank.now) (placed numbers.new) (awake + 1) }
    ensures shuffled { Shuffled (length numbers.old) (placed numbers.old) (placed numbers.new) (awake + 1) }
{
    let mut place = awake;
    while let Some(parent) = higher(rank, numbers, place) {
        numbers.swap(place, parent);
        place = parent;
    }
}
