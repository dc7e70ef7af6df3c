//! The line of a network in an account.
ghost use Rattle.std.specs.Prelude.{Some};
ghost use Rattle.selection.specs.Meaning.{meaning};
ghost use Rattle.routes.specs.Accounts.{network_words};

use crate::lines::RouteLine;
use selection::Route;
use std::fmt;

/// What a network goes by; of one that goes by nothing, whether some way of links that are up leads from it to the home.
#[derive(Clone, Copy, Debug)]
pub(crate) struct NetworkLine<'a> {
    pub network: u8,
    pub route: Route<'a>,
    pub reaches: bool,
}

impl fmt::Display for NetworkLine<'_> {
    ghost output = { λ line. Some (network_words line.network (meaning line.route) line.reaches) };

    fn fmt<W: fmt::Write>(&self, f: &mut fmt::Formatter<W>) -> fmt::Result {
        let network = self.network;
        match self.route {
            Route::Nothing if self.reaches => writeln!(f, "{network} nothing, unpaid"),
            Route::Nothing => writeln!(f, "{network} nothing, cut off"),
            route => write!(f, "{}", RouteLine { network, route }),
        }
    }
}
