// The reference's `WitnessReader`: a struct that holds the rest of a witness, with `take` and `is_empty`, and `read` over it, which answers as the
// cursor `watchtower::witness::read` does. A form beside the upper face, for whoever wants the reference's; no crate of the core uses it, the
// program `forms` runs it. Uses the lower face and fiber_witness.
#![tactic(auto)]

ghost use Rattle.std.specs.Prelude.{◌≡◌, ◌+◌, ◌≤◌, ◌<◌, length, eqb, cond, get_or, drop, Some, None};
ghost use Rattle.std.specs.Option.{MatchOption};
ghost use Rattle.fiber_witness.specs.Witness.{unlock_len, read_unlocks, read_witness};
ghost use Rattle.witness_reader.specs.Reader.{taken, left};

use fiber_types::Refusal;
use fiber_types::hash_len::HashLen;
use fiber_types::layout::{SHARES, UNLOCK, UNLOCK_WITH_PREIMAGE};
use fiber_witness::witness::WitnessLayout;

#[derive(Clone, Copy)]
pub struct WitnessReader<'a> {
    pub remaining: &'a [u8],
}

// The bytes of the preimage behind an unlock's first 67: 32 where the flag is 1.
fn preimage_len(unlock: &[u8]) -> usize
    requires { 2 ≤ length unlock.now }
    ensures { result ≡ cond (eqb (get_or unlock.now 1 0) 1) 32 0 }
{
    if unlock[1] == 1 {
        UNLOCK_WITH_PREIMAGE - UNLOCK
    } else {
        0
    }
}

impl<'a> WitnessReader<'a> {
    // Whether nothing is left.
    pub fn is_empty(self) -> bool
        ensures { result ≡ eqb (length self.entry.remaining.now) 0 }
    {
        self.remaining.is_empty()
    }

    // The next n bytes and the reader of what is left; nothing where there are fewer.
    #[tactic(auto, unfolding(crate::specs::Reader::taken, crate::specs::Reader::left))]
    pub fn take(self, n: usize) -> Option<(&'a [u8], WitnessReader<'a>)>
        ensures { MatchOption result
            (taken self.entry.remaining.now n ≡ None)
            (λ p. (taken self.entry.remaining.now n ≡ Some p.0.now) × (left self.entry.remaining.now n ≡ p.1.remaining.now)) }
    {
        let (part, remaining) = self.remaining.split_at_checked(n)?;
        Some((part, WitnessReader { remaining }))
    }
}

// The reader of what is left behind an unlock; nothing where the unlock is cut short.
fn pass_unlock<'a>(reader: WitnessReader<'a>) -> Option<WitnessReader<'a>>
    ensures { MatchOption result
        (length reader.entry.remaining.now < unlock_len reader.entry.remaining.now 0)
        (λ rest. (unlock_len reader.entry.remaining.now 0 ≤ length reader.entry.remaining.now)
        × (rest.remaining.now ≡ drop (unlock_len reader.entry.remaining.now 0) reader.entry.remaining.now)) }
{
    let (unlock, rest) = reader.take(UNLOCK)?;
    let (_, rest) = rest.take(preimage_len(unlock))?;
    Some(rest)
}

// The unlocks to the end, of a witness with n TLCs. Each is at the place where what is left begins. n and the shares' place are the caller's, which
// reads the counts; they are no layout yet, since a layout has the unlocks counted.
fn read_unlocks(
    w: &[u8],
    n: usize,
    share_place: usize,
    unlocks: WitnessReader<'_>,
) -> Result<WitnessLayout, Refusal>
    requires { (share_place + 72 ≤ length w.now) × (unlocks.remaining.now ≡ drop (share_place + 72) w.now) }
    ensures { result ≡ read_unlocks w.now n share_place }
{
    let mut left = unlocks;
    let mut unlock_count = 0;
    // Where an unlock ends only itself says: an iterator's items would be Results with a place beside each.
    while !left.is_empty() {
        let Some(next) = pass_unlock(left) else {
            return Err(Refusal::UnlockCut(w.len() - left.remaining.len()));
        };
        left = next;
        unlock_count += 1;
    }
    Ok(WitnessLayout {
        n,
        unlock_count,
        share_place,
        first_unlock: share_place + SHARES,
    })
}

// Reads a witness of a channel whose hashes have h bytes: two counts, n TLCs and two shares, one taken behind the other, then the unlocks.
pub fn read(h: usize, w: &[u8]) -> Result<WitnessLayout, Refusal>
    ensures { result ≡ read_witness h w.now }
{
    let size = HashLen::try_from(h)?.record_len();
    let (counts, tlcs) = WitnessReader { remaining: w }
        .take(2)
        .ok_or(Refusal::WitnessShort(w.len()))?;
    let n = counts[1] as usize;
    let Some((_, shares)) = tlcs.take(n * size) else {
        let whole = tlcs.remaining.len() / size;
        return Err(Refusal::TlcCut(2 + whole * size));
    };
    let share_place = 2 + n * size;
    let (_, unlocks) = shares.take(SHARES).ok_or(Refusal::SharesCut(share_place))?;
    read_unlocks(w, n, share_place, unlocks)
}
