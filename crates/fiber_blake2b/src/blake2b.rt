// BLAKE2b (RFC 7693) without a key, and CKB's hash.
ghost use Rattle.std.specs.Prelude.{◌≡◌, ◌+◌, ◌-◌, ◌*◌, ◌/◌, ◌%◌, ◌^◌, ◌<◌, ◌≤◌, [], take, slice_index_or};
ghost use Rattle.std.specs.List.{All};
ghost use Rattle.fiber_blake2b.specs.Blake2b as S;

use fiber_bytes::{le64, put_numbers};
use std::array;

const CKB_PERSONAL: [u8; 16] = *b"ckb-default-hash";

// 2.6: the initialization vector.
const IV: [u64; 8] = [
    0x6a09_e667_f3bc_c908,
    0xbb67_ae85_84ca_a73b,
    0x3c6e_f372_fe94_f82b,
    0xa54f_f53a_5f1d_36f1,
    0x510e_527f_ade6_82d1,
    0x9b05_688c_2b3e_6c1f,
    0x1f83_d9ab_fb41_bd6b,
    0x5be0_cd19_137e_2179,
];

// 2.7: the message schedule.
const SIGMA: [[usize; 16]; 10] = [
    [0, 1, 2, 3, 4, 5, 6, 7, 8, 9, 10, 11, 12, 13, 14, 15],
    [14, 10, 4, 8, 9, 15, 13, 6, 1, 12, 0, 2, 11, 7, 5, 3],
    [11, 8, 12, 0, 5, 2, 15, 13, 10, 14, 3, 6, 7, 1, 9, 4],
    [7, 9, 3, 1, 13, 12, 11, 14, 2, 6, 5, 10, 4, 0, 15, 8],
    [9, 0, 5, 7, 2, 4, 10, 15, 14, 1, 11, 12, 6, 8, 3, 13],
    [2, 12, 6, 10, 0, 11, 8, 3, 4, 13, 7, 5, 15, 14, 1, 9],
    [12, 5, 1, 15, 14, 13, 4, 10, 0, 7, 6, 3, 9, 2, 8, 11],
    [13, 11, 7, 14, 12, 1, 3, 9, 5, 0, 15, 4, 8, 6, 2, 10],
    [6, 15, 14, 9, 11, 3, 0, 8, 12, 2, 13, 7, 1, 4, 10, 5],
    [10, 2, 8, 4, 7, 6, 1, 5, 15, 11, 9, 14, 3, 12, 13, 0],
];

// 3.1: the two steps of G, on words of v by their places. The sums are modulo 2^64, which a bare `+` would not be.
#[tactic(auto, using(crate::proofs::Blake2bLaws::added_by))]
fn add(v: &mut [u64; 16], a: usize, b: usize, x: u64)
    requires { (a < 16) × (b < 16) }
    ensures { v.new ≡ S.added v.old a b x }
{
    v[a] = v[a].wrapping_add(v[b]).wrapping_add(x);
}

fn turn(v: &mut [u64; 16], d: usize, a: usize, k: u32)
    requires { (d < 16) × (a < 16) × (0 < k) × (k < 64) }
    ensures { v.new ≡ S.turned v.old d a k }
{
    v[d] = (v[d] ^ v[a]).rotate_right(k);
}

// A half of G. These two have the parameters that RFC 7693 gives G, and the rotations.
#[tactic(auto, using(crate::proofs::Blake2bLaws::half_by))]
fn half_mix(v: &mut [u64; 16], a: usize, b: usize, c: usize, d: usize, x: u64, j: u32, k: u32)
    requires { (a < 16) × (b < 16) × (c < 16) × (d < 16) × (0 < j) × (j < 64) × (0 < k) × (k < 64) }
    ensures { v.new ≡ S.half v.old a b c d x j k }
{
    add(v, a, b, x);
    turn(v, d, a, j);
    add(v, c, d, 0);
    turn(v, b, c, k);
}

// 3.1: G.
#[tactic(auto, using(crate::proofs::Blake2bLaws::mixed_by))]
fn mix(v: &mut [u64; 16], a: usize, b: usize, c: usize, d: usize, x: u64, y: u64)
    requires { (a < 16) × (b < 16) × (c < 16) × (d < 16) }
    ensures { v.new ≡ S.mixed v.old a b c d x y }
{
    half_mix(v, a, b, c, d, x, 32, 24);
    half_mix(v, a, b, c, d, y, 16, 63);
}

// The row of the schedule for round r: places among the sixteen words of a block. Each round has it in its code: as a call it would
// copy the whole table, and hashing took five times as long.
#[inline(always)]
fn row(r: usize) -> [usize; 16]
    ensures value { result ≡ slice_index_or S.sigma (r % 10) [] }
    ensures places { All (λ i. i < 16) result }
{
    SIGMA[r % 10]
}

// 3.2: round R: the columns, then the diagonals. R is a parameter of the type, so that the compiler has a round of its own for each
// row, with the row's numbers in the code.
#[tactic(auto, using(crate::proofs::Blake2bLaws::round_by))]
fn round<const R: usize>(v: &mut [u64; 16], m: &[u64; 16])
    ensures { v.new ≡ S.round v.old m.now (slice_index_or S.sigma (R % 10) []) }
{
    let s = row(R);
    mix(v, 0, 4, 8, 12, m[s[0]], m[s[1]]);
    mix(v, 1, 5, 9, 13, m[s[2]], m[s[3]]);
    mix(v, 2, 6, 10, 14, m[s[4]], m[s[5]]);
    mix(v, 3, 7, 11, 15, m[s[6]], m[s[7]]);
    mix(v, 0, 5, 10, 15, m[s[8]], m[s[9]]);
    mix(v, 1, 6, 11, 12, m[s[10]], m[s[11]]);
    mix(v, 2, 7, 8, 13, m[s[12]], m[s[13]]);
    mix(v, 3, 4, 9, 14, m[s[14]], m[s[15]]);
}

// 3.2: the twelve rounds, the last two with the first two rows again.
#[tactic(auto, using(crate::proofs::Blake2bLaws::rounds_by))]
fn run(v: &mut [u64; 16], m: &[u64; 16])
    ensures { v.new ≡ S.rounds 12 v.old m.now }
{
    round::<0>(v, m);
    round::<1>(v, m);
    round::<2>(v, m);
    round::<3>(v, m);
    round::<4>(v, m);
    round::<5>(v, m);
    round::<6>(v, m);
    round::<7>(v, m);
    round::<8>(v, m);
    round::<9>(v, m);
    round::<10>(v, m);
    round::<11>(v, m);
}

// The sixteen words of the block of s at a place, padded with zeros.
fn load(s: &[u8], at: usize) -> [u64; 16]
    requires { at + 128 < 2 ^ 64 }
    ensures { result ≡ S.words 16 s.now at }
{
    array::from_fn(|i| le64(s, at + 8 * i))
}

#[tactic(auto, using(crate::proofs::Blake2bLaws::start_by))]
fn begin(h: &[u64; 8], t: u64, f: u64) -> [u64; 16]
    ensures { result ≡ S.start h.now t f }
{
    [
        h[0],
        h[1],
        h[2],
        h[3],
        h[4],
        h[5],
        h[6],
        h[7],
        IV[0],
        IV[1],
        IV[2],
        IV[3],
        t ^ IV[4],
        IV[5],
        f ^ IV[6],
        IV[7],
    ]
}

fn fold(h: &mut [u64; 8], v: &[u64; 16])
    ensures { h.new ≡ S.folded 8 h.old v.now }
{
    *h = array::from_fn(|i| h[i] ^ v[i] ^ v[i + 8]);
}

// 3.2: F on the block of s at a place: t bytes so far, f all ones at the last block and else 0.
#[tactic(auto, using(crate::proofs::Blake2bLaws::compressed_by))]
fn compress(h: &mut [u64; 8], s: &[u8], at: usize, t: u64, f: u64)
    requires { at + 128 < 2 ^ 64 }
    ensures { h.new ≡ S.compressed h.old (S.words 16 s.now at) t f }
{
    let m = load(s, at);
    let mut v = begin(h, t, f);
    run(&mut v, &m);
    fold(h, &v);
}

// 3.3: the initialization vector with the parameter block's words, of which 0, 6 and 7 are not 0.
#[tactic(auto, using(crate::proofs::Blake2bLaws::initial_by))]
fn initial(digest_length: u8, personal: &[u8; 16]) -> [u64; 8]
    ensures { result ≡ S.initial 8 (S.params digest_length personal.now) }
{
    [
        IV[0] ^ (u64::from(digest_length) + 0x101_0000),
        IV[1],
        IV[2],
        IV[3],
        IV[4],
        IV[5],
        IV[6] ^ le64(personal, 0),
        IV[7] ^ le64(personal, 8),
    ]
}

fn absorb(h: &mut [u64; 8], s: &[u8])
    ensures { h.new ≡ S.hashed h.old s.now }
{
    let n = s.len().saturating_sub(1) / 128;
    // By the block's place, as the sum of bytes that it is hashed with is.
    for i in 0..n {
        compress(h, s, i * 128, (i * 128 + 128) as u64, 0);
    }
    compress(h, s, n * 128, s.len() as u64, 0xffff_ffff_ffff_ffff);
}

// The first N of the 64 bytes of h[] at the end.
#[tactic(auto, using(crate::proofs::Blake2bLaws::digest_by))]
fn digest<const N: usize>(digest_length: u8, personal: &[u8; 16], s: &[u8]) -> [u8; N]
    requires { N ≤ 64 }
    ensures { result ≡ take N (S.chain (S.params digest_length personal.now) s.now) }
{
    let mut h = initial(digest_length, personal);
    absorb(&mut h, s);
    let mut out = [0u8; N];
    put_numbers(&mut out, 0, &h);
    out
}

// The 64 bytes. The digest is the first digest_length of them.
#[tactic(auto, using(crate::proofs::Blake2bLaws::chain_all))]
pub fn blake2b(digest_length: u8, personal: &[u8; 16], s: &[u8]) -> [u8; 64]
    ensures { result ≡ S.chain (S.params digest_length personal.now) s.now }
{
    digest(digest_length, personal, s)
}

// CKB's hash.
#[tactic(auto, unfolding(crate::specs::Blake2b::ckb_hash, crate::specs::Blake2b::blake2b, crate::specs::Blake2b::params, crate::specs::Blake2b::ckb_personal))]
pub fn ckb_hash(s: &[u8]) -> [u8; 32]
    ensures { result ≡ S.ckb_hash s.now }
{
    digest(32, &CKB_PERSONAL, s)
}
