// The interface of a cost.
ghost use Rattle.std.specs.Prelude.{◌≡◌, ℕ};
ghost use Rattle.cost.specs.Costs.{Addable, CostLaws, Costs, FewLaws};

// A type of cost. It means a value without upper limit, and holds what as many motions cost as the largest panel has
// places.
pub trait Cost: Copy {
    ghost Value: { Type 0 };

    ghost costs: { Costs Value };

    ghost value: { Self → Value };

    // that a value is no more than so many motions cost
    ghost Few: { ℕ → Value → Type 0 };

    // What nothing costs.
    fn zero() -> Self
        ensures { value result ≡ costs.zero };

    // What a motion costs that has so many bytes and takes so many milliseconds.
    fn of_motion(bytes: u8, milliseconds: u16) -> Self
        ensures { value result ≡ costs.motion bytes milliseconds };

    // The sum of two costs that few enough motions cost together.
    fn plus(self, other: Self) -> Self
        requires { Addable Few (value self) (value other) }
        ensures { value result ≡ costs.plus (value self) (value other) };

    // Whether this cost is no more than another.
    fn at_most(self, other: Self) -> bool
        ensures { result ≡ costs.at_most (value self) (value other) };

    ghost laws: { CostLaws costs };

    ghost few_laws: { FewLaws costs Few };
}
