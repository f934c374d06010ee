//! Numbers as words write them.

ghost use Rattle.std.specs.Prelude.{◌≡◌, ◌≤◌, IfSome};
ghost use Rattle.std.specs.Str.{all_ascii_digits};
ghost use Rattle.fr_options.specs.Numbers as spec;

// The most digits of a number.
const MOST_DIGITS: usize = 10;

/// The number that one to ten digits write, where it is one from the least to the greatest. Leading zeros are digits, and a
/// sign is none.
pub fn read_number(text: &str, least: u32, most: u32) -> Option<u32>
    ensures number { result ≡ spec.number_between least most text.now }
    ensures range { IfSome result (λ n. (least ≤ n) × (n ≤ most)) }
{
    if !is_number(text.as_bytes()) {
        return None;
    }
    let value = text.parse::<u32>().ok()?;
    (least <= value && value <= most).then_some(value)
}

// Whether a text is one to ten digits, and nothing else.
fn is_number(text: &[u8]) -> bool
    ensures { result ≡ spec.is_number text.now }
{
    !text.is_empty() && text.len() <= MOST_DIGITS && has_digits_alone(text)
}

fn has_digits_alone(text: &[u8]) -> bool
    ensures { result ≡ all_ascii_digits text.now }
{
    for c in text {
        if !c.is_ascii_digit() {
            return false;
        }
    }
    true
}
