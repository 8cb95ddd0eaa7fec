//! What `main` returns.

ghost use Rattle.std.specs.Prelude.{◌≡◌, IfOk, IfErr};
ghost use Rattle.p10_meaning.specs.Runs.{status};
ghost use Rattle.p10_interp.specs.private.Parts.{status_in};

use crate::broken::Broken;
use crate::ended::Ended;
use crate::scalars::number_of;
use crate::tasks::Operands;
use p10_meaning::Scalar;

/// `main` has returned what its call gave.
pub fn returned(operands: &mut Operands) -> Result<Ended, Broken>
    ensures ok { IfOk result (λ ended. ended ≡ Ended.Returned (status_in operands.old)) }
    ensures err { IfErr result (λ e. e ≡ Broken.Memory) }
{
    match operands.pop_result() {
        Some(given) => returned_with(given),
        None => Ok(Ended::Returned(0)),
    }
}

/// `main` has returned a value, or 0 where it gave none (C99 5.1.2.2.3). A value that no `int` holds is answered as out of memory;
/// whole programs have none.
pub fn returned_with(given: Option<Scalar>) -> Result<Ended, Broken>
    ensures ok { IfOk result (λ ended. ended ≡ Ended.Returned (status given)) }
    ensures err { IfErr result (λ e. e ≡ Broken.Memory) }
{
    match given {
        Some(x) => match i64::try_from(number_of(x)) {
            Ok(value) => Ok(Ended::Returned(value)),
            Err(_) => Err(Broken::Memory),
        },
        None => Ok(Ended::Returned(0)),
    }
}
