// Refusal 7, "an instrument that no accepted file gives", both ways, and the law for a writer: what is read from an accepted file is written as the same bytes. The laws hold for
// lists of bytes and for records of their types; here a caller's record is shown to be such, so that no premise is left open.
#![tactic(auto)]

ghost use Rattle.instrument_encoding.specs.Files.{GivenTest};

use instrument::{Instrument, is_valid};

// Whether some accepted file gives the record.
pub fn is_given(i: Instrument) -> bool
    ensures { GivenTest i result }
{
    is_valid(i)
}
