//! Refusals of a field because of its value or because it is cut off.

ghost use Rattle.std.specs.Prelude.{◌≡◌, true, false};

use crate::field::Field;
use crate::refusal::Refusal;

/// Refuses a field because of its value.
pub fn refused(field: Field, at: u64) -> Refusal
    ensures { result ≡ record { field = field; at = at; short = false } }
{
    Refusal {
        field,
        at,
        short: false,
    }
}

/// Refuses a field because it is cut off.
pub fn cut_off(field: Field, at: u64) -> Refusal
    ensures { result ≡ record { field = field; at = at; short = true } }
{
    Refusal {
        field,
        at,
        short: true,
    }
}
