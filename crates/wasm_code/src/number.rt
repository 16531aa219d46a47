//! Numbers from the front of bytes.
ghost use Rattle.std.specs.Prelude.{◌≡◌, ◌<◌, ◌≤◌, ◌^◌, ◌*◌, ◌+◌, ◌-◌, length, IfOk, IsTrue};
ghost use Rattle.wasm_code.specs.Number.{value};
ghost use Rattle.wasm_code.specs.Reader.{Gives, fits_half, group_at, below_at, within_at, unsigned_at, signed_at};

use crate::fault::Cause;

/// A byte of this size or more has another byte of its number behind it.
const GOES_ON: u8 = 128;

/// A last byte of this size or more makes a signed number negative.
const NEGATIVE: u8 = 64;

/// The bytes up to the first below 128, that one included, and what follows them.
fn group_of(bytes: &[u8], most: usize) -> Result<(&[u8], &[u8]), Cause>
    ensures gives { Gives (λ x. (x.0.now, x.1.now)) result (group_at most bytes.now) }
    ensures some { IfOk result (λ x. 0 < length x.0.now) }
    ensures few { IfOk result (λ x. length x.0.now ≤ most) }
{
    for i in 0..most {
        if i >= bytes.len() {
            return Err(Cause::Truncated);
        }
        if bytes[i] < GOES_ON {
            return Ok(bytes.split_at(i + 1));
        }
    }
    Err(Cause::BadInteger)
}

/// The value of a group, and 128 to the number of its bytes.
fn value_of(group: &[u8]) -> (u128, u128)
    requires { length group.now ≤ 10 }
    ensures value { result.0 ≡ value group.now }
    ensures scale { result.1 ≡ 128 ^ length group.now }
    ensures below { result.0 < result.1 }
{
    let mut sum: u128 = 0;
    let mut scale: u128 = 1;
    for b in group {
        sum += (*b % 128) as u128 * scale;
        scale *= 128;
    }
    (sum, scale)
}

/// A number of one byte or more that is at most `last`, and what follows it.
#[tactic(auto, unfolding(crate::specs::Reader::below_at))]
fn long_unsigned(bytes: &[u8], last: u64, most: usize) -> Result<(u64, &[u8]), Cause>
    requires { most ≤ 10 }
    ensures gives { Gives (λ x. (x.0, x.1.now)) result (below_at (last + 1) most bytes.now) }
    ensures within { IfOk result (λ x. x.0 ≤ last) }
{
    let (group, rest) = group_of(bytes, most)?;
    let (value, _scale) = value_of(group);
    if value <= last as u128 {
        Ok((value as u64, rest))
    } else {
        Err(Cause::BadInteger)
    }
}

/// A number that is at most `last`, and what follows it. A number of one byte takes the short path.
fn unsigned_of(bytes: &[u8], last: u64, most: usize) -> Result<(u64, &[u8]), Cause>
    requires one_byte { 127 ≤ last }
    requires some { 1 ≤ most }
    requires most { most ≤ 10 }
    ensures gives { Gives (λ x. (x.0, x.1.now)) result (below_at (last + 1) most bytes.now) }
    ensures within { IfOk result (λ x. x.0 ≤ last) }
{
    match bytes {
        [b, rest @ ..] if *b < GOES_ON => Ok((*b as u64, rest)),
        _ => long_unsigned(bytes, last, most),
    }
}

/// A signed number of one byte or more from -half to half - 1, and what follows it.
#[tactic(auto, unfolding(crate::specs::Reader::within_at))]
fn long_signed(bytes: &[u8], half: u64, most: usize) -> Result<(i64, &[u8]), Cause>
    requires half { half ≤ 2 ^ 63 }
    requires most { most ≤ 10 }
    ensures gives { Gives (λ x. (x.0, x.1.now)) result (within_at half most bytes.now) }
    ensures within { IfOk result (λ x. IsTrue (fits_half half x.0)) }
{
    let (group, rest) = group_of(bytes, most)?;
    let (value, scale) = value_of(group);
    if group[group.len() - 1] < NEGATIVE {
        if value < half as u128 {
            Ok((value as i64, rest))
        } else {
            Err(Cause::BadInteger)
        }
    } else {
        let below = scale - 1 - value;
        if below < half as u128 {
            Ok((-1 - below as i64, rest))
        } else {
            Err(Cause::BadInteger)
        }
    }
}

/// A signed number from -half to half - 1, and what follows it. A number of one byte takes the short path.
fn signed_of(bytes: &[u8], half: u64, most: usize) -> Result<(i64, &[u8]), Cause>
    requires one_byte { 64 ≤ half }
    requires half { half ≤ 2 ^ 63 }
    requires some { 1 ≤ most }
    requires most { most ≤ 10 }
    ensures gives { Gives (λ x. (x.0, x.1.now)) result (within_at half most bytes.now) }
    ensures within { IfOk result (λ x. IsTrue (fits_half half x.0)) }
{
    match bytes {
        [b, rest @ ..] if *b < NEGATIVE => Ok((*b as i64, rest)),
        [b, rest @ ..] if *b < GOES_ON => Ok((*b as i64 - 128, rest)),
        _ => long_signed(bytes, half, most),
    }
}

/// An unsigned number of 32 bits, and what follows it. `Truncated` where the bytes end inside it, `BadInteger` where it has
/// too many bytes or doesn't fit (WebAssembly Core Specification 3.0, Binary Format, Values, Integers).
pub fn u32_of(bytes: &[u8]) -> Result<(u32, &[u8]), Cause>
    ensures { Gives (λ x. (x.0, x.1.now)) result (unsigned_at 32 bytes.now) }
{
    let (value, rest) = unsigned_of(bytes, 0xffff_ffff, 5)?;
    Ok((value as u32, rest))
}

/// An unsigned number of 64 bits, and what follows it. Refused as `u32_of` refuses.
pub fn u64_of(bytes: &[u8]) -> Result<(u64, &[u8]), Cause>
    ensures { Gives (λ x. (x.0, x.1.now)) result (unsigned_at 64 bytes.now) }
{
    unsigned_of(bytes, 0xffff_ffff_ffff_ffff, 10)
}

/// A signed number of 32 bits, and what follows it.
pub fn i32_of(bytes: &[u8]) -> Result<(i32, &[u8]), Cause>
    ensures { Gives (λ x. (x.0, x.1.now)) result (signed_at 32 bytes.now) }
{
    let (value, rest) = signed_of(bytes, 0x8000_0000, 5)?;
    Ok((value as i32, rest))
}

/// A signed number of 33 bits, and what follows it.
pub fn i33_of(bytes: &[u8]) -> Result<(i64, &[u8]), Cause>
    ensures gives { Gives (λ x. (x.0, x.1.now)) result (signed_at 33 bytes.now) }
    ensures within { IfOk result (λ x. IsTrue (fits_half (2 ^ 32) x.0)) }
{
    signed_of(bytes, 0x1_0000_0000, 5)
}

/// A signed number of 64 bits, and what follows it.
pub fn i64_of(bytes: &[u8]) -> Result<(i64, &[u8]), Cause>
    ensures { Gives (λ x. (x.0, x.1.now)) result (signed_at 64 bytes.now) }
{
    signed_of(bytes, 0x8000_0000_0000_0000, 10)
}
