// Unlocks: byte 1, flag 1, signature 65, and preimage 32 exactly if the flag is 1.
ghost use Rattle.std.specs.Prelude.{◌≡◌, ◌+◌, ◌≤◌, length};
ghost use Rattle.std.proofs.lemmas.List.Edits.{sets};
ghost use Rattle.fiber_types.specs.Records as S;

use crate::layout::{UNLOCK, UNLOCK_WITH_PREIMAGE};
use fiber_bytes::put;
use fiber_refusal::Refusal;

// What an unlock says of itself. Its signature and its preimage stay where they are, as parts of a slice, so that the flag is no Option: in the layout it
// stands before the signature, and a preimage behind it.
#[derive(Clone, Copy, Debug, PartialEq, Eq)]
pub struct Unlock {
    pub byte: u8,
    pub flag: bool,
}

impl Unlock {
    // How many bytes the unlock has in a witness.
    pub fn witness_len(self) -> usize
        ensures { result ≡ S.witness_len self.flag }
    {
        if self.flag {
            UNLOCK_WITH_PREIMAGE
        } else {
            UNLOCK
        }
    }
}

// The unlock at a place of s. Every flag but 1 is read as none.
#[tactic(auto, unfolding(crate::specs::Records::read_unlock))]
pub fn read(s: &[u8], at: usize) -> Result<Unlock, Refusal>
    ensures { result ≡ S.read_unlock s.now at }
{
    if s.len() < at || s.len() - at < UNLOCK {
        return Err(Refusal::UnlockCut(at));
    }
    let u = Unlock {
        byte: s[at],
        flag: s[at + 1] == 1,
    };
    if s.len() - at < u.witness_len() {
        return Err(Refusal::UnlockCut(at));
    }
    Ok(u)
}

// The unlock's bytes, to an output that has room for them.
#[tactic(auto, using(crate::proofs::RecordsLaws::unlock_puts))]
fn put_unlock(u: Unlock, signature: &[u8], preimage: &[u8], out: &mut [u8])
    requires { 2 + length signature.now + length preimage.now ≤ length out.old }
    ensures { out.new ≡ sets out.old 0 (S.unlock_bytes u signature.now preimage.now) }
{
    out[0] = u.byte;
    out[1] = u8::from(u.flag);
    put(out, 2, signature);
    put(out, 2 + signature.len(), preimage);
}

// Writes an unlock to the front of out: with a preimage of 32 bytes and flag 1, or with none and flag 0.
#[tactic(auto, using(crate::proofs::RecordsLaws::unlock_bytes_length), unfolding(crate::specs::Records::wrote_unlock, crate::specs::Records::outcome))]
pub fn write(u: Unlock, signature: &[u8], preimage: &[u8], out: &mut [u8]) -> Result<usize, Refusal>
    ensures { S.Gives (S.wrote_unlock u signature.now preimage.now out.old) result out.new }
{
    let size = u.witness_len();
    if signature.len() != 65 || preimage.len() != size - UNLOCK {
        return Err(Refusal::NotWell);
    }
    if out.len() < size {
        return Err(Refusal::OutputShort(size));
    }
    put_unlock(u, signature, preimage, out);
    Ok(size)
}
