// Tests of one field, and the values of fields.
ghost use Rattle.std.specs.Prelude.{◌≡◌, ◌≤◌, IfOk, IsTrue};
ghost use Rattle.stage_file.specs.Fields.{is_no_text, is_bad_name, number_in, is_no_number, is_misread, is_past, number_or, is_normal, factor_in, is_bad_bound, is_kept_name};

use crate::Text;
use crate::limits::{MAX_FACTOR, MAX_NAME};
use gsm_nums::{NumFault, read_whole};

/// The words of bounds; what begins with the last is a bound by demand.
pub const SUM: &[u8] = b"sum";

pub const POOL: &[u8] = b"pool";

pub const NORMAL: &[u8] = b"normal:";

#[tactic(auto, using(crate::proofs::FieldFacts::text_is, crate::proofs::FieldFacts::no_text_is))]
pub fn is_no_text(field: &Text) -> bool
    ensures { result ≡ is_no_text field.now }
{
    match std::str::from_utf8(field.as_slice()) {
        Ok(_) => false,
        Err(_) => true,
    }
}

#[tactic(auto, unfolding(crate::specs::Fields::is_bad_name))]
pub fn is_bad_name(name: &[u8]) -> bool
    ensures { result ≡ is_bad_name name.now }
{
    name.is_empty() || name.len() > MAX_NAME
}

fn number_in(most: u64, field: &[u8]) -> Result<u64, NumFault>
    requires { most ≤ 1000000000000000000 }
    ensures value { result ≡ number_in most field.now }
    ensures within { IfOk result (λ n. n ≤ most) }
{
    read_whole(field, 0, most)
}

#[tactic(auto, unfolding(crate::specs::Fields::is_no_number))]
pub fn is_no_number(most: u64, field: &[u8]) -> bool
    requires { most ≤ 1000000000000000000 }
    ensures { result ≡ is_no_number most field.now }
{
    match number_in(most, field) {
        Err(NumFault::Empty | NumFault::NotDigits) => true,
        Ok(_) | Err(NumFault::OutOfRange) => false,
    }
}

#[tactic(auto, unfolding(crate::specs::Fields::is_misread))]
pub fn is_misread(most: u64, field: &[u8]) -> bool
    requires { most ≤ 1000000000000000000 }
    ensures { result ≡ is_misread most field.now }
{
    match number_in(most, field) {
        Err(NumFault::NotDigits) => true,
        Ok(_) | Err(NumFault::Empty | NumFault::OutOfRange) => false,
    }
}

#[tactic(auto, unfolding(crate::specs::Fields::is_past))]
pub fn is_past(most: u64, field: &[u8]) -> bool
    requires { most ≤ 1000000000000000000 }
    ensures { result ≡ is_past most field.now }
{
    match number_in(most, field) {
        Err(NumFault::OutOfRange) => true,
        Ok(_) | Err(NumFault::Empty | NumFault::NotDigits) => false,
    }
}

#[tactic(auto, unfolding(crate::specs::Fields::number_or))]
pub fn number_or(blank: u64, most: u64, field: &[u8]) -> u64
    requires small { most ≤ 1000000000000000000 }
    requires order { blank ≤ most }
    ensures value { result ≡ number_or blank most field.now }
    ensures within { result ≤ most }
{
    number_in(most, field).unwrap_or(blank)
}

#[tactic(auto, unfolding(crate::specs::Fields::is_normal))]
pub fn is_normal(field: &[u8]) -> bool
    ensures { result ≡ is_normal field.now }
{
    field.starts_with(NORMAL)
}

/// What follows `normal:`.
pub fn factor_in(field: &[u8]) -> &[u8]
    ensures { result.now ≡ factor_in field.now }
{
    &field[field.len().min(NORMAL.len())..]
}

#[tactic(auto, unfolding(crate::specs::Fields::is_bad_bound))]
pub fn is_bad_bound(field: &[u8]) -> bool
    ensures { result ≡ is_bad_bound field.now }
{
    is_normal(field)
        && (is_no_number(MAX_FACTOR, factor_in(field)) || is_past(MAX_FACTOR, factor_in(field)))
}

#[tactic(auto, unfolding(crate::specs::Fields::is_kept_name))]
pub fn is_kept_name(name: &[u8]) -> bool
    ensures { result ≡ is_kept_name name.now }
{
    name == SUM || name == POOL || is_normal(name)
}
