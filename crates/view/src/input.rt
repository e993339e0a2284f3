// The input of a program, which has a limit.
ghost use Rattle.std.specs.Prelude.{◌≡◌, ◌≤◌, ◌<◌, ◌++◌, Decides, IfOk, IsErrOf, OnErr, OnOk, alloc_error, vec_len};

use std::alloc::AllocError;
use std::error::Error;
use std::fmt;

// The longest input, in bytes: 1 MiB.
const LIMIT: usize = 1_048_576;

// Why an input is refused.
#[derive(Clone, Copy, Debug, PartialEq, Eq)]
pub enum InputError {
    TooLong,
    NoMemory(AllocError),
}

impl fmt::Display for InputError {
    ghost use Rattle.view.specs.Input.{told};

    ghost output = { told };

    #[tactic(auto, using(crate::proofs::Limit::limit_printed))]
    fn fmt<W: fmt::Write>(&self, f: &mut fmt::Formatter<W>) -> fmt::Result {
        match self {
            InputError::TooLong => write!(f, "the input is longer than {LIMIT} bytes"),
            InputError::NoMemory(cause) => cause.fmt(f),
        }
    }
}

impl Error for InputError {}

impl From<AllocError> for InputError {
    ghost use Rattle.view.specs.declared.input.InputError.TheVariants.{NoMemory};

    ghost from_gives = { λ error refused. refused ≡ NoMemory error };

    fn from(error: AllocError) -> InputError {
        InputError::NoMemory(error)
    }
}

// Adds a part to what was read before, and tells whether the whole is within the limit. Where memory runs out, nothing
// is added. The flag stays: an input that is too long is no failure here, and the part is added all the same.
pub fn add_part(input: &mut Vec<u8>, part: &[u8]) -> Result<bool, AllocError>
    ensures added { OnOk result (input.new.items ≡ input.old.items ++ part.now) }
    ensures within { IfOk result (λ b. Decides b (vec_len input.new ≤ 1_048_576)) }
    ensures kept { OnErr result (input.new.items ≡ input.old.items) }
{
    input.extend_from_slice(part)?;
    Ok(input.len() <= LIMIT)
}

// Adds a part to what was read before, and refuses an input that is then too long. A part that makes it so is added
// all the same, and where memory runs out nothing is added.
pub fn add_within(input: &mut Vec<u8>, part: &[u8]) -> Result<(), InputError>
    ensures added { OnOk result (input.new.items ≡ input.old.items ++ part.now) }
    ensures within { OnOk result (vec_len input.new ≤ 1_048_576) }
    ensures too_long { IsErrOf result InputError.TooLong → 1_048_576 < vec_len input.new }
    ensures too_long_added { IsErrOf result InputError.TooLong
        → input.new.items ≡ input.old.items ++ part.now }
    ensures no_memory { IsErrOf result (InputError.NoMemory alloc_error)
        → input.new.items ≡ input.old.items }
{
    if add_part(input, part)? {
        Ok(())
    } else {
        Err(InputError::TooLong)
    }
}
