//! The numbers that texts write.
ghost use Rattle.std.specs.Prelude.{◌≡◌, ◌≢◌, ◌++◌, ◌≤◌, ◌<◌, ◌^◌, ℕ, ℤ, List, pos, neg_ℤ, IfSome, MatchOption, FitsSigned};
ghost use Rattle.std.specs.Int.{w128};
ghost use Rattle.std.specs.Option.{SomeIff};
ghost use Rattle.std.specs.Str.Parse.{IsNumeral, digits_value};
ghost use Rattle.em_base.specs.Number.{IsMagnitude, IsNumber};

/// The number that a text writes: decimal digits, or `0x` and hexadecimal digits of either case, each with an optional
/// `-` before it and nothing else. `None` exactly where the text is not so spelled or the number is outside the range
/// of `i128`.
pub fn read_number(text: &str) -> Option<i128>
    ensures spelled { IfSome result (λ z. IsNumber text.now z) }
    ensures exact { (z : ℤ) → IsNumber text.now z → FitsSigned w128 z → result ≡ Some z }
{
    match without_front(text, "-") {
        Some(rest) => match magnitude(rest) {
            Some(found) => negative(found),
            None => None,
        },
        None => match magnitude(text) {
            Some(found) => positive(found),
            None => None,
        },
    }
}

/// What follows the front, where the text begins with it.
fn without_front<'a>(text: &'a str, front: &str) -> Option<&'a str>
    ensures { MatchOption result ((rest : List ℕ) → text.entry.now ≢ front.now ++ rest)
        (λ rest. text.entry.now ≡ front.now ++ rest.now) }
{
    text.strip_prefix(front)
}

/// The number that a text without a sign writes, where there is one below 2^128.
fn magnitude(text: &str) -> Option<u128>
    ensures spelled { IfSome result (λ n. IsMagnitude text.now n) }
    ensures exact { (n : ℕ) → IsMagnitude text.now n → n < 2 ^ 128 → result ≡ Some n }
{
    match without_front(text, "0x") {
        Some(digits) => digits_number(digits, 16),
        None => digits_number(text, 10),
    }
}

/// The number that digits of a radix from 2 to 36 write, where there is a digit and the number is below 2^128. A sign is no
/// digit.
pub fn digits_number(digits: &str, radix: u32) -> Option<u128>
    requires least { 2 ≤ radix }
    requires greatest { radix ≤ 36 }
    ensures { let number = digits_value radix digits.now in
        SomeIff result (IsNumeral radix digits.now × (number < 2 ^ 128)) number }
{
    if digits.starts_with('+') {
        return None;
    }
    u128::from_str_radix(digits, radix).ok()
}

/// The number of this magnitude, where it is one of `i128`.
fn positive(magnitude: u128) -> Option<i128>
    ensures { SomeIff result (FitsSigned w128 (pos magnitude)) (pos magnitude) }
{
    i128::try_from(magnitude).ok()
}

/// The number of this magnitude with a minus sign, where it is one of `i128`.
fn negative(magnitude: u128) -> Option<i128>
    ensures { SomeIff result (FitsSigned w128 (neg_ℤ (pos magnitude))) (neg_ℤ (pos magnitude)) }
{
    match i128::try_from(magnitude) {
        Ok(number) => Some(-number),
        Err(_) => if magnitude == 1 << 127 {
            Some(i128::MIN)
        } else {
            None
        },
    }
}
