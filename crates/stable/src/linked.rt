//! Which links are up.
ghost use Rattle.std.specs.Prelude.{◌≡◌, length};
ghost use Rattle.model.specs.declared.limits.TheConstants.{MOST_NETWORKS};

use selection::NetworkSet;

mod methods;

/// Which links are up, of all that there may be: both ends of a link say the same. For each network
/// those above it to which its link is up. So each link stands once, and both ends say the same.
#[derive(Clone, Copy)]
pub struct LinkSet {
    higher: [NetworkSet; 64],
    ghost full: { length higher ≡ MOST_NETWORKS },
}
