// One stored preimage with its hash.
ghost use Rattle.std.specs.Prelude.{◌≡◌, length};

#[derive(Clone, Copy)]
pub struct Preimage {
    pub hash: [u8; 32],
    pub preimage: [u8; 32],
    // what the two arrays say of themselves, for proofs about a list of such pairs
    ghost hash_32: { length hash ≡ 32 },
    ghost preimage_32: { length preimage ≡ 32 },
}
