// What is handed out from, whatever is chosen.
ghost use Rattle.std.specs.Prelude.{◌≤◌, length};
ghost use Rattle.fiber_choice.specs.Request.{tracked_tlcs};
ghost use Rattle.fiber_choice.specs.inner.Request.{request_by};

use fiber_choice::checked::Checked;
use fiber_witness::shares::Shares;

// The request, with no more tracked TLCs than can be unlocked by place and args that reach to the state's hash, the shares before the unlock, which a first
// settlement builds, and whether it is the last settlement.
#[derive(Clone, Copy)]
pub struct Lent<'a, 's> {
    pub q: &'a Checked<'a>,
    pub shares: Shares<'s>,
    pub last: bool,
    ghost few: { length (tracked_tlcs (request_by q.now)) ≤ 254 },
    ghost args_long: { 36 ≤ length q.now.args.now },
}
