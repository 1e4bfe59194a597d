// The lower face over C, and the number of the interface. Each export calls the function of its name in settlement_c, and says the same.
ghost use Rattle.std.specs.Prelude.{◌≡◌, []};
ghost use Rattle.fiber_blake2b.specs.Blake2b.{ckb_hash};
ghost use Rattle.fiber_sha256.specs.Sha256 as Sha256;
ghost use Rattle.c_answer.specs.Answers.{Leaves};
ghost use Rattle.settlement_c.specs.Lower as S;

// The number of the interface, for a host to compare with its header's.
#[unsafe(no_mangle)]
pub extern "C" fn fiber_settlement_abi() -> u64
    ensures { result ≡ S.abi }
{
    settlement_c::lower::fiber_settlement_abi()
}

// CKB's hash of bytes.
#[unsafe(no_mangle)]
pub extern "C" fn fiber_settlement_ckb_hash(bytes: &[u8], out: &mut [u8; 32])
    ensures { out.new ≡ ckb_hash bytes.now }
{
    settlement_c::lower::fiber_settlement_ckb_hash(bytes, out);
}

// SHA-256 of bytes.
#[unsafe(no_mangle)]
pub extern "C" fn fiber_settlement_sha256(bytes: &[u8], out: &mut [u8; 32])
    ensures { out.new ≡ Sha256.sha256 bytes.now }
{
    settlement_c::lower::fiber_settlement_sha256(bytes, out);
}

// An epoch's three fields scaled by a fraction.
#[unsafe(no_mangle)]
pub extern "C" fn fiber_settlement_scale(
    number: u64,
    index: u64,
    length: u64,
    numerator: u64,
    denominator: u64,
    answer: &mut [u8],
) -> u64
    ensures { Leaves (S.scale_call number index length numerator denominator answer.old) result [] answer.new }
{
    settlement_c::lower::fiber_settlement_scale(
        number,
        index,
        length,
        numerator,
        denominator,
        answer,
    )
}

// The due test on nine fields.
#[unsafe(no_mangle)]
pub extern "C" fn fiber_settlement_is_due(
    header_number: u64,
    header_index: u64,
    header_length: u64,
    delay_number: u64,
    delay_index: u64,
    delay_length: u64,
    current_number: u64,
    current_index: u64,
    current_length: u64,
    answer: &mut [u8],
) -> u64
    ensures { Leaves (S.is_due_call header_number header_index header_length delay_number delay_index delay_length
        current_number current_index current_length answer.old) result [] answer.new }
{
    settlement_c::lower::fiber_settlement_is_due(
        header_number,
        header_index,
        header_length,
        delay_number,
        delay_index,
        delay_length,
        current_number,
        current_index,
        current_length,
        answer,
    )
}

// The expiry that a since value holds.
#[unsafe(no_mangle)]
pub extern "C" fn fiber_settlement_expiry(since: u64, answer: &mut [u8]) -> u64
    ensures { Leaves (S.expiry_call since answer.old) result [] answer.new }
{
    settlement_c::lower::fiber_settlement_expiry(since, answer)
}

// The hash of a public key.
#[unsafe(no_mangle)]
pub extern "C" fn fiber_settlement_key_hash(key: &[u8], answer: &mut [u8]) -> u64
    ensures { Leaves (S.key_hash_call key.now answer.old) result [] answer.new }
{
    settlement_c::lower::fiber_settlement_key_hash(key, answer)
}
