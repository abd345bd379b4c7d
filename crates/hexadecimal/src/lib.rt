// Octets written as hexadecimal digits.
#![tactic(auto)]

ghost use Rattle.std.specs.Prelude.{◌≡◌, ◌<◌, IfSome, IfOk, vec_items};
ghost use Rattle.std.specs.Option.{option_map};
ghost use Rattle.hexadecimal.specs.Digits.{digit_of, octet_of, octets_of};

use std::alloc::{AllocError, Global};

// The value of a digit, `0` to `9`, `a` to `f` or `A` to `F`.
pub fn digit(c: u8) -> Option<u8>
    ensures value { result ≡ digit_of c }
    ensures bound { IfSome result (λ d. d < 16) }
{
    char::from(c).to_digit(16).map(|d| d as u8)
}

// The octet that two digits stand for.
fn octet(high: u8, low: u8) -> Option<u8>
    ensures { result ≡ octet_of (digit_of high) (digit_of low) }
{
    let h = digit(high)?;
    let l = digit(low)?;
    Some(h * 16 + l)
}

// The octets that a text stands for, two digits each; none where the text is anything else.
pub fn decode(heap: Global, text: &[u8]) -> Result<Option<Vec<u8>>, AllocError>
    ensures value { IfOk result (λ o. option_map vec_items o ≡ octets_of text.now) }
{
    let (pairs, []) = text.as_chunks::<2>() else {
        return Ok(None);
    };
    let mut octets = Vec::with_capacity(heap, pairs.len())?;
    for [high, low] in pairs {
        let Some(next) = octet(*high, *low) else {
            return Ok(None);
        };
        octets.push(next)?;
    }
    Ok(Some(octets))
}
