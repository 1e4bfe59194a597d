// Stored preimages as a list of structs: a lent slice, each struct two arrays of 32 bytes. A form beside the upper face, for whoever lends such a
// list; no crate of the core uses it, the program `forms` runs it. Uses definitions of fiber_choice.
#![tactic(auto)]

mod pair;

ghost use Rattle.std.specs.Prelude.{◌≡◌};
ghost use Rattle.fiber_choice.specs.Entries as S;
ghost use Rattle.preimage_list.specs.PreimageList.{flat_pairs};
ghost use Rattle.fiber_choice.specs.Preimages.{find_pair};

pub use pair::Preimage;

// The first pair with a hash: what the flat slice's search finds on the same pairs.
pub fn find_pair(pairs: &[Preimage], hash: [u8; 32]) -> Option<usize>
    ensures { result ≡ find_pair (S.entries S.pair_len (flat_pairs pairs.now)) hash }
{
    pairs.iter().position(|pair| pair.hash == hash)
}
