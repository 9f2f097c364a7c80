//! Numbers that a command line gives in decimal.

ghost use Rattle.std.specs.Prelude.{◌≡◌, ◌≤◌, IfSome};
ghost use Rattle.std.specs.Str.{all_ascii_digits};
ghost use Rattle.mask_words.specs.Numbers.{number_between, short_number};

/// A number has at most this many digits, leading zeros counted in.
const MOST_DIGITS: usize = 10;

fn are_digits(text: &str) -> bool
    ensures { result ≡ all_ascii_digits text.now }
{
    text.bytes().all(|byte| byte.is_ascii_digit())
}

// The digits are looked at first, since `parse` takes a sign.
fn short_number(text: &str) -> Option<u64>
    ensures { result ≡ short_number text.now }
{
    if text.is_empty() || text.len() > MOST_DIGITS || !are_digits(text) {
        return None;
    }
    text.parse::<u64>().ok()
}

/// The number that a text of one to ten digits writes, where it is in this range.
pub(crate) fn number_between(text: &str, least: u64, most: u64) -> Option<u64>
    ensures answer { result ≡ number_between least most text.now }
    ensures bounds { IfSome result (λ n. (least ≤ n) × (n ≤ most)) }
{
    let number = short_number(text)?;
    (least..=most).contains(&number).then_some(number)
}
