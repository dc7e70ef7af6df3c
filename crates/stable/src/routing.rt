//! The stable routing, which networks that look find.
ghost use Rattle.std.specs.Prelude.{◌≡◌, IfOk};
ghost use Rattle.selection.specs.Meaning.{meaning};
ghost use Rattle.stable.specs.Settling.{Settled, by_first, goes_by, has_way};

use crate::linked::LinkSet;
use crate::looking::Networks;
use selection::{NetworkSet, PathTable, Route, World};
use std::alloc::{AllocError, Global};

/// What every network goes by for a block, and from which networks some way of links that are up
/// leads to a home of it. What each shows has itself in front.
#[derive(Drop)]
pub struct Routing<'a> {
    networks: Networks<'a>,
    shown: PathTable,
    reaching: NetworkSet,
}

impl Routing<'_> {
    /// What a network goes by; nothing where there is no such network.
    #[tactic(auto, unfolding(crate::specs::Settling::goes_by))]
    pub fn route(&self, network: u8) -> Route<'_>
        ensures { meaning result ≡ goes_by self.now network }
    {
        if network >= self.networks.world.relations.networks() {
            return Route::Nothing;
        }
        if self.networks.is_home(network) {
            return Route::Local;
        }
        match self.shown.path(0, network) {
            Some([_, path @ ..]) => path_route(path),
            _ => Route::Nothing,
        }
    }

    /// Whether some way of links that are up leads from a network to a home.
    pub fn reaches(&self, network: u8) -> bool
        ensures { result ≡ has_way self.now network }
    {
        self.reaching.contains(network)
    }
}

// A path by its first network; of no network, nothing.
fn path_route(path: &[u8]) -> Route<'_>
    ensures { meaning result ≡ by_first path.now }
{
    match path.first() {
        Some(neighbour) => Route::Via {
            neighbour: *neighbour,
            path,
        },
        None => Route::Nothing,
    }
}

/// The stable routing of a block, where some links are up: what networks find that look again and
/// again. For a block that there is not all go by nothing.
///
/// # Errors
/// Memory could not be had.
pub fn settle<'a>(
    world: World<'a>,
    links: &'a LinkSet,
    block: u16,
    heap: Global,
) -> Result<Routing<'a>, AllocError>
    ensures { IfOk result (λ x. Settled world.entry links.now block x) }
{
    let networks = Networks {
        world,
        links,
        block,
    };
    let shown = networks.look_until_same(heap)?;
    let reaching = networks.reaching();
    Ok(Routing {
        networks,
        shown,
        reaching,
    })
}
