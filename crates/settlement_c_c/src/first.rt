// First records over C. Each export calls the function of its name in settlement_c, and says the same.
ghost use Rattle.c_answer.specs.Answers.{Leaves};
ghost use Rattle.settlement_c.specs.Settlement as S;

// The record of one settlement TLC.
#[unsafe(no_mangle)]
pub extern "C" fn fiber_settlement_tlc_record(
    h: u64,
    for_remote: u8,
    tlc: &[u8],
    out: &mut [u8],
    answer: &mut [u8],
) -> u64
    ensures { Leaves (S.tlc_record_call h for_remote tlc.now out.old answer.old)
        result out.new answer.new }
{
    settlement_c::first::fiber_settlement_tlc_record(h, for_remote, tlc, out, answer)
}

// The first state.
#[unsafe(no_mangle)]
pub extern "C" fn fiber_settlement_first_state(
    h: u64,
    for_remote: u8,
    local_low: u64,
    local_high: u64,
    remote_low: u64,
    remote_high: u64,
    tlcs: &[u8],
    local_key: &[u8],
    remote_key: &[u8],
    out: &mut [u8],
    answer: &mut [u8],
) -> u64
    ensures { Leaves (S.first_state_call h for_remote local_low local_high remote_low remote_high
        tlcs.now local_key.now remote_key.now out.old answer.old)
        result out.new answer.new }
{
    settlement_c::first::fiber_settlement_first_state(
        h,
        for_remote,
        local_low,
        local_high,
        remote_low,
        remote_high,
        tlcs,
        local_key,
        remote_key,
        out,
        answer,
    )
}
