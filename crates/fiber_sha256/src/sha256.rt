// SHA-256 (FIPS 180-4), proved equal to the definition in specs/Sha256.antt.
ghost use Rattle.std.specs.Prelude.{◌≡◌, ◌+◌, ◌-◌, ◌*◌, ◌/◌, ◌%◌, ◌^◌, ◌<◌, ◌≤◌, ◌++◌, length, drop, replicate, slice_index};
ghost use mathlib.Core.List.{flat_map};
ghost use Rattle.std.proofs.lemmas.List.Edits.{sets};
ghost use Rattle.fiber_bytes.specs.Bytes.{part, be, be_bytes};
ghost use Rattle.fiber_sha256.specs.Sha256 as S;
ghost use Rattle.fiber_sha256.specs.inner.Runs.{Stepped};

use fiber_bytes::put;
use std::array;

// 4.2.2
const K: [u32; 64] = [
    0x428a_2f98,
    0x7137_4491,
    0xb5c0_fbcf,
    0xe9b5_dba5,
    0x3956_c25b,
    0x59f1_11f1,
    0x923f_82a4,
    0xab1c_5ed5,
    0xd807_aa98,
    0x1283_5b01,
    0x2431_85be,
    0x550c_7dc3,
    0x72be_5d74,
    0x80de_b1fe,
    0x9bdc_06a7,
    0xc19b_f174,
    0xe49b_69c1,
    0xefbe_4786,
    0x0fc1_9dc6,
    0x240c_a1cc,
    0x2de9_2c6f,
    0x4a74_84aa,
    0x5cb0_a9dc,
    0x76f9_88da,
    0x983e_5152,
    0xa831_c66d,
    0xb003_27c8,
    0xbf59_7fc7,
    0xc6e0_0bf3,
    0xd5a7_9147,
    0x06ca_6351,
    0x1429_2967,
    0x27b7_0a85,
    0x2e1b_2138,
    0x4d2c_6dfc,
    0x5338_0d13,
    0x650a_7354,
    0x766a_0abb,
    0x81c2_c92e,
    0x9272_2c85,
    0xa2bf_e8a1,
    0xa81a_664b,
    0xc24b_8b70,
    0xc76c_51a3,
    0xd192_e819,
    0xd699_0624,
    0xf40e_3585,
    0x106a_a070,
    0x19a4_c116,
    0x1e37_6c08,
    0x2748_774c,
    0x34b0_bcb5,
    0x391c_0cb3,
    0x4ed8_aa4a,
    0x5b9c_ca4f,
    0x682e_6ff3,
    0x748f_82ee,
    0x78a5_636f,
    0x84c8_7814,
    0x8cc7_0208,
    0x90be_fffa,
    0xa450_6ceb,
    0xbef9_a3f7,
    0xc671_78f2,
];

// 5.3.3
const INITIAL: [u32; 8] = [
    0x6a09_e667,
    0xbb67_ae85,
    0x3c6e_f372,
    0xa54f_f53a,
    0x510e_527f,
    0x9b05_688c,
    0x1f83_d9ab,
    0x5be0_cd19,
];

// The table, which is known to be the standard's wherever it is lent.
#[derive(Drop)]
struct Constants {
    words: [u32; 64],
    ghost fips: { words ≡ S.constants },
}

// A function, so that the table is written out in this one proof only.
#[tactic(auto, unfolding(crate::specs::Sha256::constants))]
fn table() -> Constants {
    Constants { words: K }
}

// 4.1.2. `ch` picks y where x has a bit and z where not; `maj` keeps y but where x and z agree against it.
// Both save operations, and the x ^ y of one turn is the y ^ z of the next.
#[tactic(auto, using(crate::proofs::Sha256Bits::ch_by), unfolding(crate::specs::Sha256::ch))]
fn ch(x: u32, y: u32, z: u32) -> u32
    ensures { result ≡ S.ch x y z }
{
    z ^ (x & (y ^ z))
}

#[tactic(auto, using(crate::proofs::Sha256Bits::maj_by), unfolding(crate::specs::Sha256::maj))]
fn maj(x: u32, y: u32, z: u32) -> u32
    ensures { result ≡ S.maj x y z }
{
    y ^ ((x ^ y) & (y ^ z))
}

// 4.1.2 defines these four one by one, by three constants each: one function of three const parameters would read no plainer.
#[tactic(auto, using(crate::proofs::Sha256Laws::rotated_three), unfolding(crate::specs::Sha256::sum0))]
fn sum0(x: u32) -> u32
    ensures { result ≡ S.sum0 x }
{
    x.rotate_right(2) ^ x.rotate_right(13) ^ x.rotate_right(22)
}

#[tactic(auto, using(crate::proofs::Sha256Laws::rotated_three), unfolding(crate::specs::Sha256::sum1))]
fn sum1(x: u32) -> u32
    ensures { result ≡ S.sum1 x }
{
    x.rotate_right(6) ^ x.rotate_right(11) ^ x.rotate_right(25)
}

#[tactic(auto, using(crate::proofs::Sha256Laws::rotated_two), unfolding(crate::specs::Sha256::sig0))]
fn sig0(x: u32) -> u32
    ensures { result ≡ S.sig0 x }
{
    x.rotate_right(7) ^ x.rotate_right(18) ^ (x >> 3)
}

#[tactic(auto, using(crate::proofs::Sha256Laws::rotated_two), unfolding(crate::specs::Sha256::sig1))]
fn sig1(x: u32) -> u32
    ensures { result ≡ S.sig1 x }
{
    x.rotate_right(17) ^ x.rotate_right(19) ^ (x >> 10)
}

// 6.2.2, step 3: T1, T2, and turn i of the working variables.
#[tactic(auto, using(crate::proofs::Sha256Laws::t1_by))]
fn t1(v: [u32; 8], k: u32, w: u32) -> u32
    ensures { result ≡ S.t1 v k w }
{
    v[7].wrapping_add(sum1(v[4]))
        .wrapping_add(ch(v[4], v[5], v[6]))
        .wrapping_add(k)
        .wrapping_add(w)
}

#[tactic(auto, using(crate::proofs::Sha256Laws::t2_by))]
fn t2(v: [u32; 8]) -> u32
    ensures { result ≡ S.t2 v }
{
    sum0(v[0]).wrapping_add(maj(v[0], v[1], v[2]))
}

#[tactic(auto, using(crate::proofs::Sha256Laws::turned_by))]
fn turn(v: [u32; 8], k: &Constants, w: &[u32; 64], i: usize) -> [u32; 8]
    requires { i < 64 }
    ensures { result ≡ S.turned v (slice_index S.constants i) (slice_index w.now i) }
{
    let a = t1(v, k.words[i], w[i]);
    let b = t2(v);
    [
        a.wrapping_add(b),
        v[0],
        v[1],
        v[2],
        v[3].wrapping_add(a),
        v[4],
        v[5],
        v[6],
    ]
}

// Turn i, and word i + 16 of the schedule beside it (step 1), where there is one: neither waits for the other.
fn step(v: [u32; 8], k: &Constants, w: &mut [u32; 64], i: usize) -> [u32; 8]
    requires { i < 64 }
    ensures { Stepped 1 i w.old v w.new result }
{
    if i < 48 {
        w[i + 16] = sig1(w[i + 14])
            .wrapping_add(w[i + 9])
            .wrapping_add(sig0(w[i + 1]))
            .wrapping_add(w[i]);
    }
    turn(v, k, w, i)
}

// After eight turns each working variable has its register again: no moves.
fn eight_steps(v: [u32; 8], k: &Constants, w: &mut [u32; 64], i: usize) -> [u32; 8]
    requires { i + 8 ≤ 64 }
    ensures { Stepped 8 i w.old v w.new result }
{
    let v = step(v, k, w, i);
    let v = step(v, k, w, i + 1);
    let v = step(v, k, w, i + 2);
    let v = step(v, k, w, i + 3);
    let v = step(v, k, w, i + 4);
    let v = step(v, k, w, i + 5);
    let v = step(v, k, w, i + 6);
    step(v, k, w, i + 7)
}

fn run(v: [u32; 8], w: &mut [u32; 64]) -> [u32; 8]
    ensures { result ≡ S.turns 64 v (S.extended 48 w.old) }
{
    let k = table();
    let mut x = v;
    // By the place of the first of eight steps, at which constants and schedule are read.
    for i in 0..8 {
        let next = eight_steps(x, &k, w, 8 * i);
        x = next;
    }
    x
}

// Step 4.
fn fold(h: [u32; 8], v: [u32; 8]) -> [u32; 8]
    ensures { result ≡ S.folded 8 h v }
{
    array::from_fn(|i| h[i].wrapping_add(v[i]))
}

// 3.1: words are big-endian.
#[tactic(auto, using(crate::proofs::Sha256Laws::word_by))]
fn word(s: &[u8], at: usize) -> u32
    requires { at + 4 ≤ length s.now }
    ensures { result ≡ be (part s.now at 4) }
{
    u32::from_be_bytes([s[at], s[at + 1], s[at + 2], s[at + 3]])
}

// Step 1: the sixteen words of the block, and room for the others, which `step` makes.
fn load(s: &[u8], at: usize) -> [u32; 64]
    requires { at + 64 ≤ length s.now }
    ensures { result ≡ S.loaded 16 s.now at }
{
    let mut w = [0u32; 64];
    // By index: `from_fn` would ask of each of 64 places whether it is one of the sixteen.
    for i in 0..16 {
        w[i] = word(s, at + 4 * i);
    }
    w
}

#[tactic(auto, using(crate::proofs::Sha256Laws::compressed_by))]
fn compress(h: [u32; 8], s: &[u8], at: usize) -> [u32; 8]
    requires { at + 64 ≤ length s.now }
    ensures { result ≡ S.compressed h s.now at }
{
    let mut w = load(s, at);
    let v = run(h, &mut w);
    fold(h, v)
}

// The blocks that lie whole in the message.
fn absorb(s: &[u8]) -> [u32; 8]
    ensures { result ≡ S.absorbed (length s.now / 64) (S.padded s.now) }
{
    let mut h = INITIAL;
    let n = s.len() / 64;
    // By the block's place, by which the definition reads the padded bytes: a fold over chunks would say less.
    for i in 0..n {
        let next = compress(h, s, i * 64);
        h = next;
    }
    h
}

// What of s comes after its whole blocks, and zeros.
#[tactic(auto, using(crate::proofs::Sha256Laws::rest_copied))]
fn rest(s: &[u8], at: usize) -> [u8; 128]
    requires { (at ≤ length s.now) × (length s.now < at + 64) }
    ensures { result ≡ drop at s.now ++ replicate (128 - (length s.now - at)) 0 }
{
    let mut t = [0u8; 128];
    put(&mut t, 0, &s[at..]);
    t
}

// The padded message (5.1.1) after the whole blocks: one block or two, and zeros.
#[tactic(auto, using(crate::proofs::Sha256Laws::tail_by))]
fn tail(s: &[u8]) -> [u8; 128]
    ensures { result ≡ drop (length s.now / 64 * 64) (S.padded s.now) ++ replicate
        ((119 - length s.now % 64) / 64 * 64) 0 }
{
    let n = s.len() as u64;
    let left = s.len() % 64;
    let mut t = rest(s, s.len() / 64 * 64);
    t[left] = 0x80;
    // The count of bits ends the first block if it fits there after the one bit, and else the second.
    let end = (left + 8) / 64 * 64 + 56;
    put(&mut t, end, &n.wrapping_mul(8).to_be_bytes());
    t
}

// Words of four bytes, highest first: `put_numbers` of fiber_bytes writes eight, lowest first.
fn digest(h: [u32; 8]) -> [u8; 32]
    ensures { result ≡ flat_map (be_bytes 4) h }
{
    let mut r = [0u8; 32];
    for (i, word) in h.iter().enumerate() {
        put(&mut r, 4 * i, &word.to_be_bytes());
    }
    r
}

pub fn sha256(s: &[u8]) -> [u8; 32]
    ensures { result ≡ S.sha256 s.now }
{
    let h = absorb(s);
    let t = tail(s);
    let one = compress(h, &t, 0);
    if s.len() % 64 < 56 {
        return digest(one);
    }
    digest(compress(one, &t, 64))
}
