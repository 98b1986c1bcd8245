// Loading into a sitting: an accepted load clears the pairs and the active roles, a refused one keeps the sitting at hand.
ghost use Rattle.std.specs.Prelude.{◌≡◌};
ghost use Rattle.seats.specs.Reading.{read_state};
ghost use Rattle.sittings.specs.Sittings.{begun};
ghost use Rattle.sittings.specs.Promises.{LoadPromise};
ghost use Rattle.sittings.specs.Reading.{read_sitting};

use crate::{Loaded, Sitting};
use seats::{Reply, State, loading};

// A state as a sitting without pairs and active roles.
pub(crate) fn begun(state: State) -> Sitting
    ensures { read_sitting result ≡ begun (read_state state) }
{
    Sitting {
        state,
        pairs: [0; 64],
        active: [0; 64],
    }
}

// The sitting of the image that ends the bytes; a refused load keeps the sitting at hand.
pub fn load(sitting: Sitting, bytes: &[u8]) -> Loaded
    ensures { LoadPromise sitting bytes.now result.answer result.sitting }
{
    match loading::read_image(bytes) {
        Ok(state) => Loaded {
            answer: Ok(Reply::Accepted),
            sitting: begun(state),
        },
        Err(refusal) => Loaded {
            answer: Err(refusal),
            sitting,
        },
    }
}
