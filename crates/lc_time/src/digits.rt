ghost use Rattle.std.specs.Prelude.{◌≡◌, ◌<◌, [], ◌∷◌, IsTrue};
ghost use Rattle.std.specs.Char.{is_ascii_digit};
ghost use Rattle.std.specs.List.{list_all};
ghost use Rattle.std.specs.Str.Parse.{digits_value};
ghost use Rattle.lc_time.specs.Digits as spec;

/// A number below 100 as two digits.
pub(crate) fn two_digits(n: u8) -> [u8; 2]
    requires { n < 100 }
    ensures { result ≡ spec.two_digits n }
{
    [b'0' + n / 10, b'0' + n % 10]
}

/// A number below 10,000 as four digits.
pub(crate) fn four_digits(n: u16) -> [u8; 4]
    requires { n < 10_000 }
    ensures { result ≡ spec.four_digits n }
{
    let [y0, y1] = two_digits((n / 100) as u8);
    let [y2, y3] = two_digits((n % 100) as u8);
    [y0, y1, y2, y3]
}

/// The number that two digits write. Of other bytes nothing is known but the bound.
pub(crate) fn number(tens: u8, ones: u8) -> u16
    ensures bound { result < 2806 }
    ensures value { IsTrue (list_all is_ascii_digit (tens ∷ ones ∷ [])) → result ≡ spec.number_of tens ones }
{
    let tens = tens.wrapping_sub(b'0');
    let ones = ones.wrapping_sub(b'0');
    u16::from(tens) * 10 + u16::from(ones)
}

/// The number that one to ten digits say in decimal, as `62` or `062`. None exactly where the text is something else.
/// Linear in the text.
pub fn read_decimal(text: &[u8]) -> Option<u64>
    ensures { result ≡ spec.decimal_said text.now }
{
    if is_decimal(text) {
        Some(value_of_digits(text))
    } else {
        None
    }
}

/// The number up to 4,294,967,295 that one to ten digits say in decimal, as `62` or `062`. None exactly where the text
/// is something else. Linear in the text.
pub fn read_u32(text: &[u8]) -> Option<u32>
    ensures { result ≡ spec.u32_said text.now }
{
    u32::try_from(read_decimal(text)?).ok()
}

fn is_decimal(text: &[u8]) -> bool
    ensures { result ≡ spec.is_decimal text.now }
{
    !text.is_empty() && text.len() <= 10 && are_digits(text)
}

pub(crate) fn are_digits(text: &[u8]) -> bool
    ensures { result ≡ list_all is_ascii_digit text.now }
{
    text.iter().all(|byte| byte.is_ascii_digit())
}

// The number fits, as there are at most ten digits.
fn value_of_digits(text: &[u8]) -> u64
    requires { IsTrue (spec.is_decimal text.now) }
    ensures { result ≡ digits_value 10 text.now }
{
    let mut number = 0;
    'digits: for digit in text {
        number = number * 10 + u64::from(*digit - b'0');
    }
    number
}
