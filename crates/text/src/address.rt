// An address, shown as four numbers with dots between them.
ghost use Rattle.std.specs.Prelude.{Some};
ghost use Rattle.text.specs.Dotted.{dotted};

use std::fmt;

/// An address of 32 bits, shown as `10.0.0.1`.
#[derive(Clone, Copy, Debug, PartialEq, Eq)]
pub struct Address(pub u32);

impl fmt::Display for Address {
    ghost output = { λ address. Some (dotted address.0) };

    fn fmt<W: fmt::Write>(&self, f: &mut fmt::Formatter<W>) -> fmt::Result {
        let [a, b, c, d] = self.0.to_be_bytes();
        write!(f, "{a}.{b}.{c}.{d}")
    }
}
