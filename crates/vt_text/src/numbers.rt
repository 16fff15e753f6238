//! Decimal numbers: one spelling for each, read and written.
ghost use Rattle.std.specs.Prelude.{◌≡◌, ◌↔◌, ◌+◌, ◌-◌, ◌≤◌, ◌^◌, ◌++◌, ◌≢◌, ℤ, pos, ◌≤ℤ◌, ◌<ℤ◌, ◌⊎◌, length, slice_index, take, drop, IfOk, MatchOption, SomeIff, min, FitsSigned};
ghost use Rattle.std.specs.Bool.{MatchBool};
ghost use Rattle.std.specs.Int.{w64};
ghost use Rattle.std.specs.Str.Parse.{digits_value};
ghost use Rattle.vt_text.specs.Numbers.{spelling, number_spelling, signed_number, IsPlainNumeral, IsNoSpelling, IsWithin, SpellsOutside, IsSizeOf};

use crate::TextError;
use itoa::Buffer;

// The size of the least `i64`.
const LEAST_SIZE: u64 = 9_223_372_036_854_775_808;

// A number by its sign and its size, where a size that is too great for a `u64` stands as the greatest.
#[derive(Clone, Copy)]
struct SignedSize {
    is_negative: bool,
    size: u64,
}

// The number that plain digits write, or the greatest `u64` where it is greater; `None` where `digits` is no plain
// numeral.
fn size_of_digits(digits: &[u8]) -> Option<u64>
    ensures { MatchOption result (¬ IsPlainNumeral digits.now)
        (λ n. IsPlainNumeral digits.now × (n ≡ min (digits_value 10 digits.now) (2 ^ 64 - 1))) }
{
    match digits {
        [] => return None,
        [b'0', _, ..] => return None,
        _ => {}
    }
    let mut size: u64 = 0;
    for byte in digits {
        if *byte < b'0' || *byte > b'9' {
            return None;
        }
        let digit = u64::from(*byte - b'0');
        size = size.saturating_mul(10).saturating_add(digit);
    }
    Some(size)
}

// Whether a field begins with `-`.
fn begins_with_minus(field: &[u8]) -> bool
    ensures { MatchBool result (slice_index field.now 0 ≡ 45) (slice_index field.now 0 ≢ 45) }
{
    !field.is_empty() && field[0] == b'-'
}

// The number that a field spells, or `None` where it spells none.
fn signed_size(field: &[u8]) -> Option<SignedSize>
    ensures { MatchOption result (IsNoSpelling field.now)
        (λ s. IsSizeOf field.now s.is_negative s.size) }
{
    if begins_with_minus(field) {
        let Some(size) = size_of_digits(&field[1..]) else {
            return None;
        };
        if size == 0 {
            return None;
        }
        return Some(SignedSize {
            is_negative: true,
            size,
        });
    }
    let Some(size) = size_of_digits(field) else {
        return None;
    };
    Some(SignedSize {
        is_negative: false,
        size,
    })
}

// The `i64` of a sign and a size, where there is one.
fn number_of(is_negative: bool, size: u64) -> Option<i64>
    ensures { SomeIff result (FitsSigned w64 (signed_number is_negative size)) (signed_number is_negative size) }
{
    if !is_negative {
        if size >= LEAST_SIZE {
            return None;
        }
        return Some(size as i64);
    }
    if size > LEAST_SIZE {
        return None;
    }
    if size == LEAST_SIZE {
        return Some(i64::MIN);
    }
    Some(-(size as i64))
}

// Whether a number is within the bounds.
fn is_within(number: i64, least: i64, most: i64) -> bool
    ensures { MatchBool result (IsWithin least most number) ((number <ℤ least) ⊎ (most <ℤ number)) }
{
    least <= number && number <= most
}

/// The number that `field` spells, within the bounds, which are included. A number is spelled as `0`, or as an
/// optional `-` and digits that begin with 1 to 9; a field of any length is read.
///
/// `NotDecimal` comes exactly for another spelling, and `OutOfRange` exactly for a number outside the bounds.
pub fn decimal(field: &[u8], least: i64, most: i64) -> Result<i64, TextError>
    ensures ok { IfOk result (λ z. (field.now ≡ spelling z) × IsWithin least most z) }
    ensures found { (z : ℤ) → field.now ≡ spelling z → IsWithin least most z → result ≡ Ok z }
    ensures not_decimal { (result ≡ Err TextError.NotDecimal) ↔ IsNoSpelling field.now }
    ensures out_of_range { (result ≡ Err TextError.OutOfRange) ↔ SpellsOutside least most field.now }
{
    let Some(read) = signed_size(field) else {
        return Err(TextError::NotDecimal);
    };
    let Some(number) = number_of(read.is_negative, read.size) else {
        return Err(TextError::OutOfRange);
    };
    if !is_within(number, least, most) {
        return Err(TextError::OutOfRange);
    }
    Ok(number)
}

/// Writes the decimal of `n` into `line` from `at` on, where 20 bytes have to be free, and answers the place after
/// it. All other bytes stay.
pub fn put_number(line: &mut [u8], at: usize, n: u64) -> usize
    requires { at + 20 ≤ length line.old }
    ensures end { result ≡ at + length (number_spelling n) }
    ensures room { result ≤ at + 20 }
    ensures written { line.new ≡ take at line.old ++ number_spelling n ++ drop result line.old }
{
    let mut buffer = Buffer::new();
    let digits = buffer.format(n).as_bytes();
    let end = at + digits.len();
    line[at..end].copy_from_slice(digits);
    end
}

/// Each number has one spelling: two numbers that are spelled alike are one.
pub fn spelling_is_unique()
    ensures { (y z : ℤ) → spelling y ≡ spelling z → y ≡ z }
{}

/// A number that is written is read as that number, where the bounds admit it.
pub fn written_is_read(line: &mut [u8], at: usize, n: u64, most: i64) -> Result<i64, TextError>
    requires { at + 20 ≤ length line.old }
    ensures read { pos n ≤ℤ most → result ≡ Ok (pos n) }
    ensures outside { most <ℤ pos n → result ≡ Err TextError.OutOfRange }
    ensures written { line.new ≡ take at line.old ++ number_spelling n ++ drop (at + length (number_spelling n)) line.old }
{
    let end = put_number(line, at, n);
    decimal(&line[at..end], 0, most)
}
