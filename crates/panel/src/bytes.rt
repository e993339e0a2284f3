// A byte string of at most sixteen bytes, held in place.
ghost use Rattle.std.specs.Prelude.{◌≤◌};

mod methods;

// An array and a length, since nothing is allocated once a model is made, and since a string is `Copy`, which an array
// vector is not. Contracts see its bytes by `bytes_of`, and not by a `Model`: whoever has a string knows that it is
// short, and a value that is `Copy` and holds strings may be passed on and used again.
#[derive(Clone, Copy, Debug)]
pub struct ShortBytes {
    bytes: [u8; 16],
    len: usize,
    ghost fits: { len ≤ 16 },
}
