// The reader of a settlement witness: unlock count 1 (never looked at), TLC count n 1, n TLCs, two shares, unlocks to the end.
ghost use Rattle.std.specs.Prelude.{◌≡◌, ◌+◌, ◌≤◌, length};
ghost use Rattle.fiber_witness.specs.Witness.{read_unlocks, read_tlcs, read_witness};

use fiber_refusal::Refusal;
use fiber_types::hash_len::HashLen;
use fiber_types::layout::SHARES;
use fiber_types::unlock;

// What a witness that is whole has: so many TLCs and unlocks, and the places of the share part and of the first unlock.
#[derive(Clone, Copy, Debug, PartialEq, Eq)]
pub struct WitnessLayout {
    pub n: usize,
    pub unlock_count: usize,
    pub share_place: usize,
    pub first_unlock: usize,
}

// The unlocks behind the shares. An unlock that is cut short is turned down. The count and the place go beside the witness, since they are what is answered
// with the unlocks, as they are.
fn read_unlocks(w: &[u8], n: usize, share_place: usize) -> Result<WitnessLayout, Refusal>
    requires { share_place + 72 ≤ length w.now }
    ensures { result ≡ read_unlocks w.now n share_place }
{
    let first_unlock = share_place + SHARES;
    let mut at = first_unlock;
    let mut unlock_count = 0;
    // By place: where an unlock ends only itself says, and one that is cut short is turned down at its place, so that an iterator's items would be Results
    // with a place beside each.
    while at < w.len() {
        let u = unlock::read(w, at)?;
        at += u.witness_len();
        unlock_count += 1;
    }
    Ok(WitnessLayout {
        n,
        unlock_count,
        share_place,
        first_unlock,
    })
}

// All records have the same size, so that a division tells how many are whole where not all are. The count goes beside the witness, as in `read_unlocks`.
fn read_tlcs(h: HashLen, w: &[u8], n: usize) -> Result<WitnessLayout, Refusal>
    requires { (2 ≤ length w.now) × (n ≤ 255) }
    ensures { result ≡ read_tlcs n h.bytes w.now n 2 }
{
    let size = h.record_len();
    let share_place = 2 + n * size;
    if w.len() < share_place {
        let whole = (w.len() - 2) / size;
        return Err(Refusal::TlcCut(2 + whole * size));
    }
    if w.len() - share_place < SHARES {
        return Err(Refusal::SharesCut(share_place));
    }
    read_unlocks(w, n, share_place)
}

// Reads a witness of a channel whose hashes have h bytes, 20 or 32.
pub fn read(h: usize, w: &[u8]) -> Result<WitnessLayout, Refusal>
    ensures { result ≡ read_witness h w.now }
{
    let h = HashLen::try_from(h)?;
    if w.len() < 2 {
        return Err(Refusal::WitnessShort(w.len()));
    }
    read_tlcs(h, w, w[1] as usize)
}
