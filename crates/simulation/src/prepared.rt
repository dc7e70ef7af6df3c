//! A step that is prepared, before it takes the place of what there is.
use crate::letter::Letter;
use crate::network::Network;
use forwarding::Ending;

/// What a step comes to.
#[derive(Drop)]
pub(crate) struct Prepared {
    /// the network that heard an update, as it is then; none where a packet was sent or carried
    pub network: Option<Network>,
    /// what is in flight then
    pub letters: Vec<Letter>,
    /// the end of a packet that ended
    pub ending: Option<Ending>,
}
