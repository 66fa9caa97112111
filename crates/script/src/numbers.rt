// Numbers and bytes that are written in a script.
ghost use Rattle.std.specs.Prelude.{◌≡◌, ℕ, IfOk, vec_items};
ghost use Rattle.std.specs.Option.{option_map};
ghost use Rattle.script.specs.Numbers.{digit_more, nibble_of, number_in, pairs_of};

use std::alloc::{AllocError, Global};

// A number with one decimal digit more, as long as it stays below 2^32.
fn push_digit(value: u32, digit: u8) -> Option<u32>
    ensures { result ≡ digit_more value digit }
{
    if !digit.is_ascii_digit() {
        return None;
    }
    value.checked_mul(10)?.checked_add(u32::from(digit - b'0'))
}

// The number that a field of decimal digits stands for, below 2^32. (Not by `parse`: a field is bytes and no `str`, and a sign, which `parse` takes, is no digit.)
pub fn number(field: &[u8]) -> Option<u32>
    ensures { result ≡ number_in field.now }
{
    if field.is_empty() {
        return None;
    }
    field
        .iter()
        .try_fold(0, |value, digit| push_digit(value, *digit))
}

// The number that a hexadecimal digit stands for. (The library's `to_digit` gives it as a number of 32 bits, to be brought back to a byte.)
fn nibble(digit: u8) -> Option<u8>
    ensures { result ≡ nibble_of digit }
{
    match digit {
        b'0'..=b'9' => Some(digit - b'0'),
        b'a'..=b'f' => Some(digit - b'a' + 10),
        b'A'..=b'F' => Some(digit - b'A' + 10),
        _ => None,
    }
}

// The bytes that pairs of hexadecimal digits stand for, where all are pairs of such digits.
pub fn unhex(heap: Global, digits: &[u8]) -> Result<Option<Vec<u8>>, AllocError>
    ensures { IfOk result (λ o. option_map vec_items o ≡ pairs_of digits.now) }
{
    let (pairs, []) = digits.as_chunks::<2>() else {
        return Ok(None);
    };
    let mut bytes = Vec::new(heap);
    for [first, second] in pairs {
        let (Some(high), Some(low)) = (nibble(*first), nibble(*second)) else {
            return Ok(None);
        };
        bytes.push(high * 16 + low)?;
    }
    Ok(Some(bytes))
}
