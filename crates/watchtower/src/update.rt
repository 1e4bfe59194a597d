// The update of a settlement witness: its unlocks are taken, and the state left is written.
ghost use Rattle.fiber_types.specs.Records.{Gives};
ghost use Rattle.fiber_witness.specs.Update as S;

use fiber_refusal::Refusal;
use fiber_types::hash_len::HashLen;
use fiber_witness::left::state_left;
use fiber_witness::marks::UNMARKED;
use fiber_witness::state::put_state;

// Reads the witness, takes its unlocks, and writes the state left.
fn settle(h: HashLen, w: &[u8], out: &mut [u8]) -> Result<usize, Refusal>
    ensures { Gives (S.updated h.bytes w.now out.old) result out.new }
{
    let mut marks = UNMARKED;
    let left = state_left(h, w, &mut marks)?;
    let size = left.state_len();
    if out.len() < size {
        return Err(Refusal::OutputShort(size));
    }
    Ok(put_state(&left.records, &left.shares, out))
}

// Updates a witness of a channel whose hashes have h bytes: the state left is written to the front of out.
pub fn update(h: usize, w: &[u8], out: &mut [u8]) -> Result<usize, Refusal>
    ensures { Gives (S.updated h w.now out.old) result out.new }
{
    let h = HashLen::try_from(h)?;
    settle(h, w, out)
}
