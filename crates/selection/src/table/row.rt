//! The row of one block and neighbour.
ghost use Rattle.std.specs.Prelude.{◌≡◌, ◌+◌, ◌≤◌, ◌++◌, ◌-◌, length, replicate, None};
ghost use Rattle.std.specs.Option.{option_map};
ghost use Rattle.model.specs.Paths.{path_over};
ghost use Rattle.model.specs.declared.limits.TheConstants.{MOST_NETWORKS};
ghost use Rattle.selection.specs.Rows.{Full, Padded, said, told};

// The path is the first `length` networks; a length of 0 says that nothing was told. Places past
// the length are zero, so that rows that say the same are the same bytes (theorem `SameBytes`). An
// array and a length, and no `Vec` or `Option`: a row has fixed memory, and is lent on as a part to
// be read or written.
#[derive(Clone, Copy)]
pub(crate) struct Row {
    length: u8,
    networks: [u8; 64],
    ghost full: { Full networks },
    ghost short: { length ≤ MOST_NETWORKS },
    ghost padded: { Padded length networks },
}

impl Row {
    // Nothing was told.
    pub(crate) fn empty() -> Row
        ensures { told result.length result.networks ≡ None }
    {
        Row {
            length: 0,
            networks: [0; 64],
        }
    }

    // The path, as the part of the row where it stands.
    pub(crate) fn path(&self) -> Option<&[u8]>
        ensures { option_map (λ x. path_over x.now) result
            ≡ told self.now.length self.now.networks }
    {
        if self.length == 0 {
            return None;
        }
        Some(&self.networks[..self.length as usize])
    }

    // From now on `head` and then `path` stand in the row; of no network, nothing was told.
    pub(crate) fn write(&mut self, head: &[u8], path: &[u8])
        requires { length head.now + length path.now ≤ MOST_NETWORKS }
        ensures { told self.new.length self.new.networks ≡ said (head.now ++ path.now) }
    {
        self.length = (head.len() + path.len()) as u8;
        write_path(&mut self.networks, head, path);
    }
}

// Writes `head` and then `path` into the part, and zeros past them.
fn write_path(part: &mut [u8], head: &[u8], path: &[u8])
    requires { length head.now + length path.now ≤ length part.old }
    ensures { part.new
        ≡ head.now ++ path.now
        ++ replicate (length part.old - (length head.now + length path.now)) 0 }
{
    let (front, rest) = part.split_at_mut(head.len());
    front.copy_from_slice(head);
    let (middle, past) = rest.split_at_mut(path.len());
    middle.copy_from_slice(path);
    past.fill(0);
}
