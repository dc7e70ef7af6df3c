//! What a network goes by for a block.

/// What a network goes by for a block: nothing, its own home, or a neighbour's path.
#[derive(Clone, Copy, Debug)]
pub enum Route<'a> {
    /// Nothing.
    Nothing,
    /// Its own home.
    Local,
    /// The path that a neighbour told: the next network first, the home last.
    Via { neighbour: u8, path: &'a [u8] },
}
