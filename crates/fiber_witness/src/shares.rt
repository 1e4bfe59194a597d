// The two shares of a state.
ghost use Rattle.std.specs.Prelude.{◌≡◌, ◌+◌, ◌≤◌, length};
ghost use Rattle.fiber_bytes.specs.Bytes.{part};
ghost use Rattle.fiber_witness.specs.Update.{share_left};

use fiber_types::layout::SHARE_LEN;

// What stands in place of a share that is unlocked.
const NO_SHARE: [u8; SHARE_LEN] = [0; SHARE_LEN];

// Which of them unlocks take. Beside `Shares`, which says of its slices how long they are, a pair of any type would say less.
#[derive(Clone, Copy)]
pub struct UnlockedShares {
    pub remote: bool,
    pub local: bool,
}

// Each has its key hash and its amount. They are lent, as the marks are: with shares handed on by value an update of one TLC took 1.6 times as long, and with
// marks by value more.
#[derive(Clone, Copy)]
pub struct Shares<'a> {
    pub remote: &'a [u8],
    pub local: &'a [u8],
    ghost remote_36: { length remote.now ≡ 36 },
    ghost local_36: { length local.now ≡ 36 },
}

// A share, or zeros once it is unlocked.
#[tactic(auto, unfolding(crate::specs::Update::share_left))]
fn left<'a>(share: &'a [u8], unlocked: bool) -> &'a [u8]
    ensures { result.now ≡ share_left unlocked share.now }
{
    if unlocked { &NO_SHARE } else { share }
}

impl<'a> Shares<'a> {
    // Those that w has at a place, the remote one first.
    pub fn at(w: &'a [u8], place: usize) -> Self
        requires { place + 72 ≤ length w.now }
        ensures remote { result.remote.now ≡ part w.now place 36 }
        ensures local { result.local.now ≡ part w.now (place + 36) 36 }
    {
        Shares {
            remote: &w[place..place + SHARE_LEN],
            local: &w[place + SHARE_LEN..place + SHARE_LEN + SHARE_LEN],
        }
    }

    // What unlocks leave of them.
    #[tactic(auto, using(crate::proofs::UpdateLaws::left_length))]
    pub fn left(self, unlocked: UnlockedShares) -> Self
        ensures remote { result.remote.now ≡ share_left unlocked.remote self.entry.remote.now }
        ensures local { result.local.now ≡ share_left unlocked.local self.entry.local.now }
    {
        Shares {
            remote: left(self.remote, unlocked.remote),
            local: left(self.local, unlocked.local),
        }
    }
}
