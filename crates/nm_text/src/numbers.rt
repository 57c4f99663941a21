//! Numbers as they stand in a field: `0`, or a digit from 1 to 9 with digits after it, below 2 ^ 64.

ghost use Rattle.std.specs.Prelude.{◌≡◌, ℕ, ◌^◌, ◌<◌, ◌≤◌, ◌+◌, ◌++◌, ◌∷◌, drop, length, vec_len, vec_capacity, IfSome, IfNone, OnOk, OnErr};
ghost use Rattle.std.specs.Fmt.{decimal};
ghost use Rattle.std.specs.Option.{SomeIff};
ghost use Rattle.std.specs.Str.Parse.{AllDigits, digits_value};
ghost use Rattle.nm_text.specs.Numbers.{IsNumber, number_of};

use std::alloc::AllocError;

// The most digits that a number has.
const DIGITS: usize = 20;

/// The number that the whole field spells. `None` where it spells none: it is empty, has a byte that is no
/// digit, has a zero before other digits, or says 2 ^ 64 or more.
pub fn read_number(field: &[u8]) -> Option<u64>
    ensures value { result ≡ number_of field.now }
    ensures found { IfSome result (IsNumber field.now) }
    ensures none { IfNone result ((n : ℕ) → ¬ IsNumber field.now n) }
{
    if field.is_empty() || field[0] == b'0' && field.len() > 1 {
        return None;
    }
    digits_number(field)
}

// The number that the digits say, where every byte is a digit and the number is below 2 ^ 64.
fn digits_number(digits: &[u8]) -> Option<u64>
    ensures { SomeIff result (AllDigits 10 digits.now × (digits_value 10 digits.now < 2 ^ 64)) (digits_value 10 digits.now) }
{
    let mut number: u64 = 0;
    for &byte in digits {
        if !byte.is_ascii_digit() {
            return None;
        }
        number = number.checked_mul(10)?.checked_add((byte - b'0') as u64)?;
    }
    Some(number)
}

/// Writes the number's digits at the end of `out`. An error comes only where `out` has no room for them and no
/// memory is left to grow, and leaves its bytes as they were.
pub fn push_number(out: &mut Vec<u8>, n: u64) -> Result<(), AllocError>
    ensures ok { OnOk result (out.new.items ≡ out.old.items ++ decimal n) }
    ensures err { OnErr result (out.new.items ≡ out.old.items) }
    ensures full { OnErr result (vec_capacity out.old < vec_len out.old + length (decimal n)) }
{
    let mut digits = [b'0'; DIGITS];
    let start = put_digits(n, &mut digits);
    out.extend_from_slice(&digits[start..])
}

/// Writes a word and a number.
pub fn push_field(out: &mut Vec<u8>, word: &[u8], n: u64) -> Result<(), AllocError>
    ensures { OnOk result (out.new.items ≡ out.old.items ++ (word.now ++ decimal n)) }
{
    out.extend_from_slice(word)?;
    push_number(out, n)
}

/// Writes a word and two numbers.
pub fn push_fields(out: &mut Vec<u8>, word: &[u8], a: u64, b: u64) -> Result<(), AllocError>
    ensures { OnOk result (out.new.items ≡ out.old.items ++ (word.now ++ (decimal a ++ 32 ∷ decimal b))) }
{
    push_field(out, word, a)?;
    push_field(out, b" ", b)
}

// Writes the number's digits so that they end where the array ends, and gives where they start.
fn put_digits(n: u64, digits: &mut [u8; DIGITS]) -> usize
    ensures start { result ≤ DIGITS }
    ensures value { drop result digits.new ≡ decimal n }
{
    let mut start = DIGITS;
    let mut rest = n;
    while rest >= 10 {
        start -= 1;
        digits[start] = b'0' + (rest % 10) as u8;
        rest /= 10;
    }
    start -= 1;
    digits[start] = b'0' + rest as u8;
    start
}
