ghost use Rattle.std.specs.Prelude.{◌≡◌, length};

use crate::request::Memo;
use lock::lock::Lock;

// The door before the lock: it judges requests and remembers, for each card, the last one and its answer. The memos lie
// beside the lock's records and not in them: what is remembered is the door's, and the lock works without it.
#[derive(Drop)]
pub struct Door<M> {
    pub(crate) lock: Lock<M>,
    pub(crate) memos: [Memo; 8],
    ghost whole: { length memos ≡ 8 },
}
