// The settlement operations over C. Each export calls the function of its name in settlement_c, and says the same.
ghost use Rattle.std.specs.Prelude.{[]};
ghost use Rattle.c_answer.specs.Answers.{Leaves};
ghost use Rattle.settlement_c.specs.Settlement as S;

// Reads a witness w of a channel whose hashes have h bytes.
#[unsafe(no_mangle)]
pub extern "C" fn fiber_settlement_read(h: u64, w: &[u8], answer: &mut [u8]) -> u64
    ensures { Leaves (S.read_call h w.now answer.old) result [] answer.new }
{
    settlement_c::settlement::fiber_settlement_read(h, w, answer)
}

// Updates a witness w of a channel whose hashes have h bytes: the state left goes to the front of out.
#[unsafe(no_mangle)]
pub extern "C" fn fiber_settlement_update(
    h: u64,
    w: &[u8],
    out: &mut [u8],
    answer: &mut [u8],
) -> u64
    ensures { Leaves (S.update_call h w.now out.old answer.old) result out.new answer.new }
{
    settlement_c::settlement::fiber_settlement_update(h, w, out, answer)
}
