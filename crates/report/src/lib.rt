// The text that the program `settle` prints: the updated state, or why the witness was turned down.
//
// The text is written into any lent output. Bytes for which it has no room are dropped, and the answered length says how many
// there were to be.
//
// For `settle`. Uses the two faces, fiber_bytes and itoa.
#![tactic(auto)]

ghost use Rattle.std.specs.Prelude.{◌≡◌, [], ◌∷◌, ◌+◌, ◌*◌, ◌/◌, ◌≤◌, ◌<◌, ◌^◌, length, get_or, take, drop};
ghost use Rattle.fiber_bytes.specs.Bytes.{part};
ghost use Rattle.fiber_witness.specs.Witness.{record_len, chunks};
ghost use Rattle.fiber_types.specs.Records.{Gives};
ghost use Rattle.report.specs.Report as S;
ghost use Rattle.report.specs.inner.Written.{written};

use fiber_bytes::{part_of, put};
use fiber_types::Refusal;
use fiber_types::layout::{RECORD_FIXED, SHARE_AMOUNT, SHARE_LEN};
use itoa::Buffer;
use watchtower::update::update;

// A longer input is turned down.
const MOST_INPUT: usize = 65_536;

// The crate hex is not called: it writes to the heap or to an output of just that length, and a lent one may be too short.
fn hex_digit(x: u8) -> u8
    requires { x < 16 }
    ensures { result ≡ S.hex_digit x }
{
    if x < 10 { b'0' + x } else { b'a' - 10 + x }
}

// The records of a state and its two shares, remote and local.
fn parts(state: &[u8], records_len: usize) -> (&[u8], &[u8], &[u8])
    requires { 73 + records_len ≤ length state.now }
    ensures tlcs { result.0.now ≡ take records_len (drop 1 state.now) }
    ensures remote { result.1.now ≡ part state.now (1 + records_len) 36 }
    ensures local { result.2.now ≡ part state.now (1 + records_len + 36) 36 }
    ensures share_len { (length result.1.now ≡ 36) × (length result.2.now ≡ 36) }
{
    let remote = 1 + records_len;
    let local = remote + SHARE_LEN;
    (
        &state[1..remote],
        &state[remote..local],
        &state[local..local + SHARE_LEN],
    )
}

// The text so far, at the front of a lent output.
//
// It is no `fmt::Write`: `write!` says what was written only where it answers `Ok`, and no clause says that it does for a writer
// that takes everything, while `report` cannot fail.
#[derive(Drop)]
struct Text<'a> {
    out: &'a mut [u8],
    // stops at the greatest number, which no text that `report` writes comes near
    len: usize,
}

impl<'a> Text<'a> {
    // A word, as it stands.
    #[tactic(auto, unfolding(crate::specs::inner::Written::written))]
    fn word(&mut self, word: &[u8])
        ensures { self.new ≡ written self.old word.now }
    {
        put(self.out, self.len, word);
        self.len = self.len.saturating_add(word.len());
    }

    // One character: a copy of so few costs more than its store.
    #[tactic(auto, unfolding(crate::specs::inner::Written::written))]
    fn character(&mut self, character: u8)
        ensures { self.new ≡ written self.old (character ∷ []) }
    {
        if self.len < self.out.len() {
            self.out[self.len] = character;
        }
        self.len = self.len.saturating_add(1);
    }

    // Two digits to a byte.
    #[tactic(auto, using(crate::proofs::ReportLaws::writes), unfolding(crate::specs::Report::hex))]
    fn hex_byte(&mut self, byte: u8)
        ensures { self.new ≡ written self.old (S.hex (byte ∷ [])) }
    {
        self.character(hex_digit(byte / 16));
        self.character(hex_digit(byte % 16));
    }

    fn hex(&mut self, bytes: &[u8])
        ensures { self.new ≡ written self.old (S.hex bytes.now) }
    {
        for byte in bytes {
            self.hex_byte(*byte);
        }
    }

    // The last byte first, which is a number's highest.
    fn hex_highest(&mut self, bytes: &[u8])
        ensures { self.new ≡ written self.old (S.hex_highest bytes.now) }
    {
        for byte in bytes.iter().rev() {
            self.hex_byte(*byte);
        }
    }

    #[tactic(auto, using(crate::proofs::ReportLaws::decimal_is))]
    fn decimal(&mut self, x: usize)
        ensures { self.new ≡ written self.old (S.decimal x) }
    {
        self.word(Buffer::new().format(x).as_bytes());
    }

    #[tactic(auto, using(crate::proofs::ReportLaws::writes))]
    fn tlc_line(&mut self, i: usize, tlc: &[u8])
        ensures { self.new ≡ written self.old (S.tlc_line i tlc.now) }
    {
        self.word(b"tlc ");
        self.decimal(i);
        self.word(b" ");
        self.hex(tlc);
        self.word(b"\n");
    }

    // The lines of records of size bytes each.
    fn tlc_lines(&mut self, tlcs: &[u8], size: usize)
        requires size_is_positive { 0 < size }
        ensures { self.new ≡ written self.old (S.tlc_lines 0 (chunks size (length tlcs.now / size) tlcs.now)) }
    {
        for (i, tlc) in tlcs.chunks_exact(size).enumerate() {
            self.tlc_line(i, tlc);
        }
    }

    #[tactic(auto, using(crate::proofs::ReportLaws::writes))]
    fn share_line(&mut self, word: &[u8], share: &[u8])
        requires whole { length share.now ≡ 36 }
        ensures { self.new ≡ written self.old (S.share_line word.now share.now) }
    {
        let (key, amount) = share.split_at(SHARE_AMOUNT);
        self.word(word);
        self.hex(key);
        self.word(b" ");
        self.hex_highest(amount);
        self.word(b"\n");
    }

    #[tactic(auto, using(crate::proofs::ReportLaws::writes))]
    fn refused(&mut self, number: usize, place: usize)
        ensures { self.new ≡ written self.old (S.refused_text number place) }
    {
        self.word(b"refused ");
        self.decimal(number);
        self.word(b" at ");
        self.decimal(place);
        self.word(b"\n");
    }

    // A whole state.
    #[tactic(auto, using(crate::proofs::ReportLaws::writes))]
    fn state(&mut self, h: usize, state: &[u8])
        requires whole { (h ≤ 32) × (73 + get_or state.now 0 0 * record_len h ≤ length state.now) }
        requires at_front { self.old.len ≡ 0 }
        ensures text { self.new ≡ written self.old (S.state_text h state.now) }
        ensures len { self.new.len ≡ length (S.state_text h state.now) }
    {
        let size = RECORD_FIXED + h;
        let n = usize::from(state[0]);
        let (tlcs, remote, local) = parts(state, n * size);
        self.word(b"tlcs ");
        self.decimal(n);
        self.word(b"\n");
        self.tlc_lines(tlcs, size);
        self.share_line(b"remote ", remote);
        self.share_line(b"local ", local);
    }

    // What an input comes to, the update into the buffer.
    fn outcome(&mut self, input: &[u8], buffer: &mut [u8])
        requires { self.old.len ≡ 0 }
        ensures text { self.new ≡ written self.old (S.reported input.now buffer.old).answer }
        ensures len { self.new.len ≡ length (S.reported input.now buffer.old).answer }
        ensures buffer { buffer.new ≡ (S.reported input.now buffer.old).bytes }
    {
        match updated(input, buffer) {
            Ok(len) => self.state(usize::from(input[0]), part_of(buffer, 0, len)),
            Err(r) => self.refused(r.number(), r.place()),
        }
    }
}

// The update of an input: one byte h, then a witness.
#[tactic(auto, using(crate::proofs::ReportLaws::cases))]
fn updated(input: &[u8], buffer: &mut [u8]) -> Result<usize, Refusal>
    ensures { Gives (S.of_input input.now buffer.old) result buffer.new }
{
    match input.split_first() {
        Some((h, witness)) if input.len() <= MOST_INPUT => {
            update(usize::from(*h), witness, buffer)
        }
        _ => Err(Refusal::NotWell),
    }
}

// Reads one byte h and a witness, updates it into the buffer, and writes to out what `settle` prints of it; answers the
// text's length.
#[tactic(auto, unfolding(crate::specs::inner::Written::written))]
pub fn report(input: &[u8], buffer: &mut [u8], out: &mut [u8]) -> usize
    ensures { S.Prints (S.reported input.now buffer.old) out.old result out.new buffer.new }
{
    let mut text = Text { out, len: 0 };
    text.outcome(input, buffer);
    text.len
}
