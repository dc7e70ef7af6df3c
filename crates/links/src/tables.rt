//! What a router holds for all blocks, lent to it.
ghost use Rattle.std.specs.Prelude.{◌≡◌, vec_len};
ghost use Rattle.selection.specs.Paths.{count};

use selection::{NetworkSet, PathTable};

mod methods;

/// By block and neighbour what was received and advertised last; and by block who was to be told
/// when a link turned last.
#[derive(Drop)]
pub struct Tables {
    pub(crate) received: PathTable,
    pub(crate) advertised: PathTable,
    pub(crate) audiences: Vec<NetworkSet>,
    ghost said: { count advertised ≡ count received },
    ghost whom: { vec_len audiences ≡ count received },
}
