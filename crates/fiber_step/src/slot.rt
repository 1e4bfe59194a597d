// Our slot and our share, and the two kinds of TLCs.
ghost use Rattle.std.specs.Prelude.{◌≡◌};
ghost use Rattle.std.specs.declared.ops.ControlFlow.TheVariants.{Break};
ghost use Rattle.fiber_choice.specs.Walk as S;

use fiber_choice::kinds::{Choice, Chosen, Key, Side};

// Timeout kind: offered with for_remote, received without.
#[tactic(auto, unfolding(fiber_choice::specs::Walk::timeout_kind))]
pub fn timeout_kind(for_remote: bool, offered: bool) -> bool
    ensures { result ≡ S.timeout_kind for_remote offered }
{
    offered == for_remote
}

// Our slot is local with for_remote, else remote.
#[tactic(auto, unfolding(fiber_choice::specs::Walk::our_side))]
fn our_side(for_remote: bool) -> Side
    ensures { result ≡ S.our_side for_remote }
{
    if for_remote {
        return Side::Local;
    }
    Side::Remote
}

// Our share, which our settlement key signs for.
pub fn our_share(for_remote: bool) -> Chosen
    ensures { Break result ≡ S.our_share for_remote }
{
    Chosen {
        choice: Choice::Share(our_side(for_remote)),
        key: Key::Settlement,
    }
}
