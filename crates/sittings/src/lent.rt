// The lent sitting: each call alters it.
ghost use Rattle.sittings.specs.Promises.{StepPromise};

use crate::{Sitting, stepping};
use seats::Answer;

// The step on a lent sitting: its answer, and the sitting altered.
pub fn call(sitting: &mut Sitting, bytes: &[u8]) -> Answer
    ensures { StepPromise sitting.old bytes.now result sitting.new }
{
    let next = stepping::step(*sitting, bytes);
    *sitting = next.sitting;
    next.answer
}
