// The choice over C. Each export calls the function of its name in settlement_c, and says the same.
ghost use Rattle.c_answer.specs.Answers.{Leaves};
ghost use Rattle.settlement_c.specs.Choose as S;

// Chooses an unlock. With is_later the settlement is a later one, and its witness is looked at.
#[unsafe(no_mangle)]
pub extern "C" fn fiber_settlement_choose(
    h: u64,
    for_remote: u8,
    is_later: u8,
    time: u64,
    header_number: u64,
    header_index: u64,
    header_length: u64,
    current_number: u64,
    current_index: u64,
    current_length: u64,
    local_low: u64,
    local_high: u64,
    remote_low: u64,
    remote_high: u64,
    args: &[u8],
    tlcs: &[u8],
    local_key: &[u8],
    remote_key: &[u8],
    tracked: &[u8],
    preimages: &[u8],
    witness: &[u8],
    out: &mut [u8],
    answer: &mut [u8],
) -> u64
    ensures { Leaves (S.choose_call h for_remote is_later time
        header_number header_index header_length current_number current_index current_length
        local_low local_high remote_low remote_high
        args.now tlcs.now local_key.now remote_key.now tracked.now preimages.now
        witness.now out.old answer.old)
        result out.new answer.new }
{
    settlement_c::choose::fiber_settlement_choose(
        h,
        for_remote,
        is_later,
        time,
        header_number,
        header_index,
        header_length,
        current_number,
        current_index,
        current_length,
        local_low,
        local_high,
        remote_low,
        remote_high,
        args,
        tlcs,
        local_key,
        remote_key,
        tracked,
        preimages,
        witness,
        out,
        answer,
    )
}
