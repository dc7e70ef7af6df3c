//! What a network sends: what stands in its advertised table, to those of the networks that are to
//! be told.
ghost use Rattle.std.specs.Prelude.{OnOk};
ghost use Rattle.selection.specs.Sets.{member};
ghost use Rattle.simulation.specs.Posting.{told_by};
ghost use Rattle.simulation.specs.Posts.{Appends};
ghost use Rattle.simulation.specs.Whole.{mailing_of, mailing_of_all};

use crate::letter::{Item, Letter};
use crate::network::Network;
use model::Fault;
use selection::NetworkSet;
use std::alloc::AllocError;

impl Network {
    // Sends what it tells of a block to those who are to be told, in the order of their numbers.
    pub(crate) fn post(
        &self,
        networks: u8,
        block: u16,
        audience: NetworkSet,
        letters: &mut Vec<Letter>,
    ) -> Result<(), AllocError>
        ensures { OnOk result (Appends letters.old.items letters.new.items
            (mailing_of self.now block (member audience) networks)) }
    {
        let from = self.router.number();
        for to in 0..networks {
            if audience.contains(to) {
                let item = Item::Update(self.tables.update(block, to));
                letters.push(Letter { from, to, item })?;
            }
        }
        Ok(())
    }

    // Sends what it tells of a block after it heard an update: nothing where the update was
    // refused.
    pub(crate) fn post_heard(
        &self,
        networks: u8,
        block: u16,
        heard: Result<NetworkSet, Fault>,
        letters: &mut Vec<Letter>,
    ) -> Result<(), AllocError>
        ensures { OnOk result (Appends letters.old.items letters.new.items
            (mailing_of self.now block (told_by heard) networks)) }
    {
        match heard {
            Ok(audience) => self.post(networks, block, audience, letters),
            Err(_) => Ok(()),
        }
    }

    // Sends what it tells of every block to those who were to be told when a link turned last,
    // block by block.
    pub(crate) fn post_all(&self, networks: u8, letters: &mut Vec<Letter>) -> Result<(), AllocError>
        ensures { OnOk result (Appends letters.old.items letters.new.items
            (mailing_of_all self.now networks)) }
    {
        for (block, audience) in (0..).zip(self.tables.audiences()) {
            self.post(networks, block, *audience, letters)?;
        }
        Ok(())
    }
}
