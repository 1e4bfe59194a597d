// TLC records: type 1, amount 16, hash h, remote key hash 20, local key hash 20, expiry 8.
ghost use Rattle.std.specs.Prelude.{◌≡◌, cond, ◌+◌, ◌≤◌, length};
ghost use Rattle.std.proofs.lemmas.List.Edits.{sets};
ghost use Rattle.fiber_types.specs.HashLen.{valid_hash_len};
ghost use Rattle.fiber_types.specs.Records as S;

use crate::layout::{KEY_HASH, RECORD_FIXED};
use fiber_bytes::{le64, part_of, put, put_le64};
use fiber_refusal::Refusal;

// An amount of 128 bits as two halves: low + 2^64 high.
#[derive(Clone, Copy, Debug, PartialEq, Eq)]
pub struct Amount {
    pub low: u64,
    pub high: u64,
}

// The numbers of a TLC. Its hash and its two key hashes stay where they are, as parts of a slice.
#[derive(Clone, Copy, Debug, PartialEq, Eq)]
pub struct Tlc {
    // the type byte as it is: a reader takes any
    pub kind: u8,
    pub amount: Amount,
    pub expiry: u64,
}

impl Tlc {
    // Type bit 0 clear.
    #[tactic(auto, unfolding(crate::specs::Records::is_offered))]
    pub fn is_offered(self) -> bool
        ensures { result ≡ S.is_offered self }
    {
        self.kind % 2 == 0
    }
}

// A payment hash cut short.
const SHORT_HASH: usize = 20;

// Whether hashes can have h bytes: 20, or 32 on a channel with full hashes.
#[tactic(auto, unfolding(crate::specs::HashLen::valid_hash_len))]
pub fn valid_hash_len(h: usize) -> bool
    ensures { result ≡ valid_hash_len h }
{
    h == SHORT_HASH || h == 32
}

// The amount in the 16 bytes at a place, lowest first. Bytes past the end count as 0.
#[tactic(auto, unfolding(crate::specs::Records::amount_at))]
pub fn amount_at(s: &[u8], at: usize) -> Amount
    ensures { result ≡ S.amount_at s.now at }
{
    Amount {
        low: le64(s, at),
        high: le64(s, at.saturating_add(8)),
    }
}

// Writes an amount's 16 bytes, lowest first, from a place on. Bytes that have no room are dropped.
#[tactic(auto, using(crate::proofs::RecordsLaws::amount_puts))]
pub fn put_amount(out: &mut [u8], at: usize, amount: Amount)
    ensures { out.new ≡ sets out.old at (S.amount_bytes amount) }
{
    put_le64(out, at, amount.low);
    put_le64(out, at.saturating_add(8), amount.high);
}

// The TLC at a place of s, on a channel whose hashes have h bytes.
#[tactic(auto, using(crate::proofs::RecordsLaws::hash_len_small), unfolding(crate::specs::Records::read_tlc, crate::specs::Records::tlc_at))]
pub fn read(h: usize, s: &[u8], at: usize) -> Result<Tlc, Refusal>
    ensures { result ≡ S.read_tlc h s.now at }
{
    // Not by `HashLen::try_from(h)?`: with it a wait over 254 TLCs took 4 to 6 percent longer, since each length comes out of a Result.
    if !valid_hash_len(h) {
        return Err(Refusal::NotWell);
    }
    if s.len() < at || s.len() - at < RECORD_FIXED + h {
        return Err(Refusal::TlcCut(at));
    }
    Ok(Tlc {
        kind: s[at],
        amount: amount_at(s, at + 1),
        expiry: le64(s, at + 57 + h),
    })
}

// The payment hash in a record, of h bytes.
#[tactic(auto, unfolding(crate::specs::Records::payment_hash))]
pub fn payment_hash<'a>(h: usize, tlc: &'a [u8]) -> &'a [u8]
    ensures { result.now ≡ S.payment_hash h tlc.now }
{
    part_of(tlc, 17, h)
}

// What stands in front of a key hash beside the payment hash.
fn before_slot(local: bool) -> usize
    ensures { result ≡ cond local 37 17 }
{
    if local { 37 } else { 17 }
}

// The key hash in the local slot of a record, or in the remote one.
#[tactic(auto, unfolding(crate::specs::Records::key_hash_in))]
pub fn key_hash_in<'a>(h: usize, local: bool, tlc: &'a [u8]) -> &'a [u8]
    ensures { result.now ≡ S.key_hash_in h local tlc.now }
{
    let front = before_slot(local);
    part_of(tlc, h.saturating_add(front), KEY_HASH)
}

// The record's bytes, to an output that has room for them.
#[tactic(auto, using(crate::proofs::RecordsLaws::tlc_puts))]
fn put_tlc(t: Tlc, hash: &[u8], remote: &[u8], local: &[u8], out: &mut [u8])
    requires { 25 + length hash.now + length remote.now + length local.now ≤ length out.old }
    ensures { out.new ≡ sets out.old 0 (S.tlc_bytes t hash.now remote.now local.now) }
{
    let remote_at = 17 + hash.len();
    let local_at = remote_at + remote.len();
    out[0] = t.kind;
    put_amount(out, 1, t.amount);
    put(out, 17, hash);
    put(out, remote_at, remote);
    put(out, local_at, local);
    put_le64(out, local_at + local.len(), t.expiry);
}

// Writes a TLC's record to the front of out, which may be a part of a longer output.
#[tactic(auto, using(crate::proofs::RecordsLaws::tlc_bytes_length), unfolding(crate::specs::Records::wrote_tlc, crate::specs::Records::outcome))]
pub fn write(
    t: Tlc,
    hash: &[u8],
    remote: &[u8],
    local: &[u8],
    out: &mut [u8],
) -> Result<usize, Refusal>
    ensures { S.Gives (S.wrote_tlc t hash.now remote.now local.now out.old) result out.new }
{
    // Nor here, where it took 1.3 times as long.
    if !valid_hash_len(hash.len()) || remote.len() != KEY_HASH || local.len() != KEY_HASH {
        return Err(Refusal::NotWell);
    }
    let size = RECORD_FIXED + hash.len();
    if out.len() < size {
        return Err(Refusal::OutputShort(size));
    }
    put_tlc(t, hash, remote, local, out);
    Ok(size)
}
