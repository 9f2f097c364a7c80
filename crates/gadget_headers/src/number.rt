//! Numbers in decimal.

ghost use Rattle.std.specs.Prelude.{◌≡◌, min};
ghost use Rattle.gadget_headers.specs.Headers.{number_of};

/// The number that digits write, or 255 where it is higher.
pub(crate) fn number_to_255(digits: &[u8]) -> u8
    ensures { result ≡ min 255 (number_of digits.now) }
{
    digits.iter().fold(0u8, |number, digit| {
        number
            .saturating_mul(10)
            .saturating_add(digit.saturating_sub(b'0'))
    })
}
