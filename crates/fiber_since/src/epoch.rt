// Epochs with a fraction: number + index / length. Indices may exceed lengths.
ghost use Rattle.std.specs.Prelude.{◌≡◌, ◌<◌};
ghost use Rattle.std.specs.List.{list_all, list_any};
ghost use Rattle.fiber_since.specs.Epoch as S;
ghost use Rattle.fiber_since.specs.inner.Bounds.{product};

use fiber_refusal::Refusal;

// The longest epoch; the largest number of an epoch; an index, of 16 bits, is below its limit.
const LONGEST: u64 = 1800;

const MOST_WHOLE: u64 = 16_777_215;

const INDEX_LIMIT: u64 = 0x1_0000;

#[derive(Clone, Copy, Debug, PartialEq, Eq)]
pub struct Epoch {
    pub number: u64,
    pub index: u64,
    pub length: u64,
}

// The fields of an epoch value: number, index, length from the lowest bit up, 56 bits in all. CKB's crates give it this name; `From<u64>` would not
// say that the number has all three.
#[tactic(auto, unfolding(crate::specs::Epoch::epoch_of))]
pub fn from_full_value(value: u64) -> Epoch
    ensures { result ≡ S.epoch_of value }
{
    Epoch {
        number: value % 0x100_0000,
        index: value / 0x100_0000 % 0x1_0000,
        length: value / 0x100_0000_0000 % 0x1_0000,
    }
}

#[tactic(auto, unfolding(crate::specs::Epoch::within_bits))]
pub fn within_bits(e: Epoch) -> bool
    ensures { result ≡ S.within_bits e }
{
    e.number < 0x100_0000 && e.index < INDEX_LIMIT && e.length < 0x1_0000
}

// What a denominator is divided by, so that at most 1800, the longest epoch, is left.
#[tactic(auto, unfolding(crate::specs::Epoch::factor))]
fn factor(d: u64) -> u64
    ensures { (result ≡ S.factor d) × (0 < result) }
{
    if LONGEST < d { d / 1800 + 1 } else { 1 }
}

// The fraction n / d as an epoch.
#[tactic(auto, unfolding(crate::specs::Epoch::normalized))]
fn normalized(n: u64, d: u64) -> Result<Epoch, Refusal>
    ensures { result ≡ S.normalized n d }
{
    if d == 0 {
        return Err(Refusal::LengthZero);
    }
    if MOST_WHOLE < n / d {
        return Err(Refusal::ScaledAbove);
    }
    let s = factor(d);
    Ok(Epoch {
        number: n / d,
        index: n % d / s,
        length: d / s,
    })
}

// A product of 64 bits.
#[tactic(auto, unfolding(crate::specs::inner::Bounds::product))]
fn product(a: u64, b: u64) -> Result<u64, Refusal>
    ensures { result ≡ product a b }
{
    a.checked_mul(b).ok_or(Refusal::ScaledAbove)
}

// The delay times numerator / denominator.
#[tactic(auto, using(crate::proofs::EpochLaws::whole_below, crate::proofs::EpochLaws::units_below, crate::proofs::EpochLaws::scaled_bits, crate::proofs::EpochLaws::scaled_over, crate::proofs::EpochLaws::scaled_over_2, crate::proofs::EpochLaws::scaled_fits), unfolding(crate::specs::Epoch::units))]
pub fn mul(delay: Epoch, numerator: u64, denominator: u64) -> Result<Epoch, Refusal>
    ensures { result ≡ S.scaled delay numerator denominator }
{
    if !within_bits(delay) {
        return Err(Refusal::NotWell);
    }
    let units = delay.number * delay.length + delay.index;
    let n = product(numerator, units)?;
    let d = product(denominator, delay.length)?;
    normalized(n, d)
}

// Whether each epoch is within its bits.
pub fn all_within(epochs: &[Epoch]) -> bool
    ensures { result ≡ list_all S.within_bits epochs.now }
{
    epochs.iter().all(|e| within_bits(*e))
}

// Whether one of them has a length of 0.
pub fn any_zero(epochs: &[Epoch]) -> bool
    ensures { result ≡ list_any S.no_length epochs.now }
{
    epochs.iter().any(|e| e.length == 0)
}
