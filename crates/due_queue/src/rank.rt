// What a queue goes by.
ghost use Rattle.std.specs.Prelude.{◌≡◌, ℕ, ◌<◌, Bool, Decides};
ghost use Rattle.due_queue.specs.Rank.{RankLaws};

// Which numbers are due, and which of two that are due comes first.
pub trait Rank {
    // what the caller keeps so that it can be asked
    ghost Sound: { Self → Type 0 };

    ghost Due: { Self → ℕ → Type 0 };

    // whether one number that is due comes at most as late as another
    ghost sooner: { Self → ℕ → ℕ → Bool };

    fn is_due(&self, number: u16) -> bool
        requires sound { Sound self.now }
        requires number { number < 4097 }
        ensures { Decides result (Due self.now number) };

    fn is_sooner(&self, one: u16, other: u16) -> bool
        requires sound { Sound self.now }
        requires one { Due self.now one }
        requires other { Due self.now other }
        ensures { result ≡ sooner self.now one other };

    ghost laws: { (r : Self) → Sound r → RankLaws (Due r) (sooner r) };
}
