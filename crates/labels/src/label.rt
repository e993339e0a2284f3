// The label of a state in the memory of a search.
ghost use Rattle.std.specs.Prelude.{◌≡◌};
ghost use Rattle.labels.specs.Label.{note, step_of, unnoted};
ghost use Rattle.labels.specs.Note.{beats, improved, settled};

use cost::cost::Cost;

// How far a search has come with a state.
#[derive(Clone, Copy, Debug, PartialEq, Eq)]
pub enum Stage {
    // no sequence to it is known
    Unreached,
    // one is known, and a better one may come
    Reached,
    // its leg is known
    Settled,
}

// What a search knows of a state: the cost of the best sequence to it so far, that sequence's last motion and the
// number of the state from which it departs. Beside that a label holds one number, which has nothing to do with its
// state: while a search runs, that of the state at a place of its line; afterwards, that of a motion of the leg.
#[derive(Clone, Copy, Debug)]
pub struct Label<K> {
    cost: K,
    motion: u16,
    from: u16,
    step: u16,
    stage: Stage,
}

impl<K: Cost> Label<K> {
    // Nothing is known.
    pub fn unreached() -> Label<K>
        ensures note { note K.value result ≡ unnoted K.costs.zero }
        ensures step { step_of result ≡ 0 }
    {
        Label {
            cost: K::zero(),
            motion: 0,
            from: 0,
            step: 0,
            stage: Stage::Unreached,
        }
    }

    // The label of the state at which a search begins: it is settled, and costs nothing.
    pub fn beginning() -> Label<K>
        ensures note { note K.value result ≡ settled (unnoted K.costs.zero) }
        ensures step { step_of result ≡ 0 }
    {
        Label {
            stage: Stage::Settled,
            ..Label::unreached()
        }
    }

    pub fn cost(&self) -> K
        ensures { K.value result ≡ (note K.value self.now).cost }
    {
        self.cost
    }

    // The last motion of the best sequence that is known.
    pub fn motion(&self) -> u16
        ensures { result ≡ (note K.value self.now).motion }
    {
        self.motion
    }

    // The number of the state before that motion.
    pub fn from(&self) -> u16
        ensures { result ≡ (note K.value self.now).from }
    {
        self.from
    }

    pub fn stage(&self) -> Stage
        ensures { result ≡ (note K.value self.now).stage }
    {
        self.stage
    }

    // The number that the label holds.
    pub fn step(&self) -> u16
        ensures { result ≡ step_of self.now }
    {
        self.step
    }

    // Holds a number: of a state in a search's line, or of a motion of a leg.
    pub fn hold(&mut self, motion: u16)
        ensures note { note K.value self.new ≡ note K.value self.old }
        ensures step { step_of self.new ≡ motion }
    {
        self.step = motion;
    }

    // Whether a sequence of a cost, with a last motion from a state, is better than the one that is known: it is
    // cheaper, or as cheap and the motion comes first by its number, then by the state's.
    fn is_beaten_by(&self, cost: K, motion: u16, from: u16) -> bool
        ensures { result ≡ beats K.costs (K.value cost) motion from (note K.value self.now) }
    {
        if !self.cost.at_most(cost) {
            return true;
        }
        cost.at_most(self.cost)
            && (motion < self.motion || (motion == self.motion && from < self.from))
    }

    // Takes note of a sequence, if its state is not settled and none better is known.
    pub fn improve(&mut self, cost: K, motion: u16, from: u16)
        ensures note { note K.value self.new
            ≡ improved K.costs (note K.value self.old) (K.value cost) motion from }
        ensures step { step_of self.new ≡ step_of self.old }
    {
        let is_better = match self.stage {
            Stage::Unreached => true,
            Stage::Reached => self.is_beaten_by(cost, motion, from),
            Stage::Settled => false,
        };
        if is_better {
            *self = Label {
                cost,
                motion,
                from,
                step: self.step,
                stage: Stage::Reached,
            };
        }
    }

    // The state is settled: what is known is its leg.
    pub fn settle(&mut self)
        ensures note { note K.value self.new ≡ settled (note K.value self.old) }
        ensures step { step_of self.new ≡ step_of self.old }
    {
        self.stage = Stage::Settled;
    }
}
