//! What holds of all readings. The function does nothing; its contract is the law.

ghost use Rattle.p10_front.specs.Laws.{ReadsOnce};

use p10_expand::expands_to_once;
use p10_parse::laws::{no_fault_where_spelled, one_fault, one_list_of_units};

/// Files are read as one thing at most: their words, trees, program and refusal, or a limit that is exceeded.
pub fn one_reading()
    ensures { ReadsOnce }
{
    expands_to_once();
    one_list_of_units();
    no_fault_where_spelled();
    one_fault();
}
