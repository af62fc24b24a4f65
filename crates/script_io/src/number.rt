ghost use Rattle.std.specs.Prelude.{◌≡◌, ◌+◌, ◌-◌, ◌*◌, ◌^◌, ◌&&◌, nat_lt, Some, None, if◌then◌else◌};
ghost use Rattle.script_model.specs.Spellings.{is_decimal_digit, number_of};

// The most digits of a number.
const MOST_DIGITS: usize = 20;

/// The number that a text writes in decimal digits. It takes no memory.
pub(crate) fn read_number(text: &[u8]) -> Option<u64>
    ensures { result ≡ number_of text.now }
{
    if text.is_empty() || text.len() > MOST_DIGITS {
        return None;
    }
    let mut number = 0;
    for digit in text {
        match with_digit(number, *digit) {
            Some(more) => number = more,
            None => return None,
        }
    }
    Some(number)
}

/// A number with one digit more behind it, if it is a digit and there is room for it.
fn with_digit(number: u64, digit: u8) -> Option<u64>
    ensures { result ≡ (if is_decimal_digit digit && nat_lt (number * 10 + (digit - 48)) (2 ^ 64) then Some (number * 10 + (digit - 48)) else None) }
{
    if digit.is_ascii_digit() {
        number.checked_mul(10)?.checked_add((digit - b'0') as u64)
    } else {
        None
    }
}
