// Whole numbers from the bytes of a field.
ghost use Rattle.std.specs.Prelude.{◌≡◌, ◌≤◌, ◌^◌, ◌-◌, true, min, IfOk};
ghost use Rattle.std.specs.Char.{is_ascii_digit};
ghost use Rattle.std.specs.List.{list_all};
ghost use Rattle.gsm_nums.specs.Whole.{without_spaces, without_first_spaces, without_last_spaces, whole_of, number_of};

/// Why a field gives no number.
#[derive(Clone, Copy, Debug, PartialEq, Eq)]
pub enum NumFault {
    /// Nothing stands there but spaces.
    Empty,
    /// Something other than the digits 0 to 9 stands there.
    NotDigits,
    /// The number is below the least or above the most that is allowed.
    OutOfRange,
}

/// The whole number that the bytes show in digits, where it lies from `least` to `most`. Spaces at both
/// ends are passed over; any number of digits is read, with zeros in front or without.
#[tactic(auto, unfolding(crate::specs::Whole::whole_of))]
pub fn read_whole(bytes: &[u8], least: u64, most: u64) -> Result<u64, NumFault>
    requires order { least ≤ most }
    requires small { most ≤ 10 ^ 18 }
    ensures value { result ≡ whole_of (without_spaces bytes.now) least most }
    ensures within { IfOk result (λ n. (least ≤ n) × (n ≤ most)) }
{
    let field = trim_spaces(bytes);
    if field.is_empty() {
        return Err(NumFault::Empty);
    }
    if !all_digits(field) {
        return Err(NumFault::NotDigits);
    }
    let number = saturated_number(field);
    if !(least..=most).contains(&number) {
        return Err(NumFault::OutOfRange);
    }
    Ok(number)
}

#[tactic(auto, unfolding(crate::specs::Whole::without_spaces))]
fn trim_spaces(bytes: &[u8]) -> &[u8]
    ensures { result.now ≡ without_spaces bytes.now }
{
    trim_last_spaces(trim_first_spaces(bytes))
}

fn trim_first_spaces(bytes: &[u8]) -> &[u8]
    ensures { result.now ≡ without_first_spaces bytes.now }
{
    let mut rest = bytes;
    'spaces: while let [b' ', after @ ..] = rest {
        rest = after;
    }
    rest
}

fn trim_last_spaces(bytes: &[u8]) -> &[u8]
    ensures { result.now ≡ without_last_spaces bytes.now }
{
    let mut rest = bytes;
    'spaces: while let [before @ .., b' '] = rest {
        rest = before;
    }
    rest
}

fn all_digits(field: &[u8]) -> bool
    ensures { result ≡ list_all is_ascii_digit field.now }
{
    field.iter().all(|byte| byte.is_ascii_digit())
}

// The number that the digits write, or `u64::MAX` where it is larger, which no range reaches.
#[tactic(auto, using(crate::proofs::NumberFacts::saturated_more))]
fn saturated_number(digits: &[u8]) -> u64
    requires { list_all is_ascii_digit digits.now ≡ true }
    ensures { result ≡ min (number_of digits.now) (2 ^ 64 - 1) }
{
    let mut number: u64 = 0;
    'digits: for digit in digits {
        number = number
            .saturating_mul(10)
            .saturating_add(u64::from(*digit - b'0'));
    }
    number
}
