// What is walked.
ghost use Rattle.std.specs.Prelude.{◌≡◌, ◌≤◌, length};
ghost use Rattle.fiber_choice.specs.Request.{settlement_tlcs, tracked_tlcs};
ghost use Rattle.fiber_choice.specs.declared.kinds.Dues.{Dues};
ghost use Rattle.fiber_choice.specs.declared.kinds.Stage.TheVariants as StageCase;
ghost use Rattle.fiber_choice.specs.inner.Request.{request_by};

use crate::checked::Checked;
use crate::kinds::Stage;

// The tracked TLCs of a request, in a settlement of either stage. They are few enough to be unlocked by place, and in a first settlement each has its
// settlement TLC.
#[derive(Clone, Copy)]
pub struct Walk<'a> {
    pub q: &'a Checked<'a>,
    pub stage: Stage,
    ghost few: { length (tracked_tlcs (request_by q.now)) ≤ 254 },
    ghost reaches_all: { (d : Dues) → stage ≡ StageCase.First d → length (tracked_tlcs (request_by q.now)) ≤ length (settlement_tlcs (request_by q.now)) },
}
