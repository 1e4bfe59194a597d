// Since values (CKB RFC 0017).
ghost use Rattle.std.specs.Prelude.{◌≡◌};
ghost use Rattle.fiber_since.specs.Since as S;

// A second has so many milliseconds.
const MILLIS: u64 = 1000;

#[derive(Clone, Copy, Debug, PartialEq, Eq)]
pub enum Metric {
    Block,
    Epoch,
    Timestamp,
}

// A since value's fields. Two of its bits have a fourth case, which is no metric.
#[derive(Clone, Copy, Debug, PartialEq, Eq)]
pub struct Since {
    pub relative: bool,
    pub metric: Option<Metric>,
    pub value: u64,
}

// No TryFrom: bits that are no metric are no error.
#[tactic(auto, unfolding(crate::specs::Since::metric_of))]
fn metric_of(bits: u64) -> Option<Metric>
    ensures { result ≡ S.metric_of bits }
{
    match bits {
        0 => Some(Metric::Block),
        1 => Some(Metric::Epoch),
        2 => Some(Metric::Timestamp),
        _ => None,
    }
}

// A since value taken apart, under the name that CKB's crates give this; `From<u64>` would not say that the number is raw. Bits 60 to 56 are not
// looked at.
#[tactic(auto, unfolding(crate::specs::Since::since))]
pub fn from_raw_value(raw: u64) -> Since
    ensures { result ≡ S.since raw }
{
    Since {
        relative: raw / 0x8000_0000_0000_0000 == 1,
        metric: metric_of(raw / 0x2000_0000_0000_0000 % 4),
        value: raw % 0x100_0000_0000_0000,
    }
}

// The expiry that a since value holds, in milliseconds: that of an absolute timestamp, where it has 64 bits.
#[tactic(auto, unfolding(crate::specs::Since::absolute_expiry, crate::specs::Since::millis))]
pub fn absolute_expiry(raw: u64) -> Option<u64>
    ensures { result ≡ S.absolute_expiry raw }
{
    let since = from_raw_value(raw);
    match since.metric {
        Some(Metric::Timestamp) if !since.relative => since.value.checked_mul(MILLIS),
        _ => None,
    }
}
