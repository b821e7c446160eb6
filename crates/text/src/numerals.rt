// Numbers in base ten: ill-formed and out of range are told apart at any length.
ghost use Rattle.std.specs.Prelude.{◌≡◌, ◌≤◌, IfOk, min, if◌then◌else◌, Ok, Err};
ghost use Rattle.std.specs.Str.Parse.{digits_value};
ghost use Rattle.text.specs.declared.fault.Cause.TheVariants.{Form};
ghost use Rattle.text.specs.Numerals.{well_formed, beyond, number_in, negative_in, integer_in, ExactNumber, ExactInteger};

use crate::fault::Cause;

// Above every range: a longer number counts as this one.
const BEYOND: u64 = 1 << 32;

fn digits(field: &[u8]) -> Result<u64, Cause>
    ensures { result ≡ (if well_formed field.now then Ok (min (digits_value 10 field.now) beyond) else Err Form) }
{
    if let [] | [b'0', _, ..] = field {
        return Err(Cause::Form);
    }
    // a `for`: in a `try_fold` the closure needs a bound on `n`, and is no shorter
    let mut n: u64 = 0;
    for b in field {
        if !b.is_ascii_digit() {
            return Err(Cause::Form);
        }
        n = (n * 10 + u64::from(*b - b'0')).min(BEYOND);
    }
    Ok(n)
}

// A number from 0 to `most`.
#[tactic(auto, using(crate::proofs::NumberLaws::exact_number), unfolding(crate::specs::Numerals::number_in))]
pub fn number(field: &[u8], most: u32) -> Result<u32, Cause>
    ensures value { result ≡ number_in most field.now }
    ensures within { IfOk result (λ n. n ≤ most) }
    ensures exact { ExactNumber most field.now result }
{
    let n = digits(field)?;
    if n > u64::from(most) {
        return Err(Cause::Range);
    }
    Ok(n as u32)
}

// What follows a minus sign.
#[tactic(auto, unfolding(crate::specs::Numerals::number_in))]
fn negative(digits: &[u8]) -> Result<i32, Cause>
    ensures { result ≡ negative_in digits.now }
{
    if let [b'0', ..] = digits {
        return Err(Cause::Form);
    }
    let n = number(digits, 1 << 31)?;
    Ok(-i64::from(n) as i32)
}

// A signed 32-bit number: a minus sign may stand before any number but 0.
#[tactic(auto, using(crate::proofs::NumberLaws::exact_integer), unfolding(crate::specs::Numerals::integer_in, crate::specs::Numerals::number_in))]
pub fn integer(field: &[u8]) -> Result<i32, Cause>
    ensures value { result ≡ integer_in field.now }
    ensures exact { ExactInteger field.now result }
{
    if let [b'-', digits @ ..] = field {
        return negative(digits);
    }
    let n = number(field, i32::MAX as u32)?;
    Ok(n as i32)
}
