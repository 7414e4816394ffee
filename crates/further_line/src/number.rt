// A number of a further line.
ghost use Rattle.std.specs.Prelude.{◌≡◌, IfSome};
ghost use Rattle.std.specs.Str.Parse.{digits_value};

use std::str;

// The most digits of a number.
const MAX_DIGITS: usize = 10;

// The number of 1 to 10 decimal digits, if it is below 2^32.
pub(crate) fn number(digits: &[u8]) -> Option<u32>
    ensures { IfSome result (λ n. n ≡ digits_value 10 digits.now) }
{
    if MAX_DIGITS < digits.len() || !digits.iter().all(u8::is_ascii_digit) {
        return None;
    }
    str::from_utf8(digits).ok()?.parse::<u32>().ok()
}
