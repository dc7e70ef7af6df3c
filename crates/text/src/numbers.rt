// Numbers in a row, as `1, 2, 3`.
ghost use Rattle.std.specs.Prelude.{Some};
ghost use Rattle.text.specs.Row.{spelled};

use std::fmt;

/// Shows the numbers with commas between them.
#[derive(Clone, Copy, Debug)]
pub struct Row<'a>(pub &'a [u8]);

impl fmt::Display for Row<'_> {
    ghost output = { λ row. Some (spelled row.0.now) };

    fn fmt<W: fmt::Write>(&self, f: &mut fmt::Formatter<W>) -> fmt::Result {
        let Some((first, rest)) = self.0.split_first() else {
            return Ok(());
        };
        write!(f, "{first}")?;
        for number in rest {
            write!(f, ", {number}")?;
        }
        Ok(())
    }
}
