// Why a line is refused.

/// What is wrong with a line; of several the one with the lowest number is told, and of one number the first here.
#[derive(Clone, Copy, Debug, PartialEq, Eq)]
pub enum Cause {
    /// a byte that is neither blank nor printable
    BadByte,
    /// a word that says nothing where it stands
    UnknownWord,
    /// fewer words than the command has
    MissingWord,
    /// more words than the command has
    SurplusWord,
    /// a word that should be a number has a byte that is no digit
    NotANumber,
    /// a word that should be an address is not four numbers up to 255 with dots between them
    NotAnAddress,
    /// the number of a network that there is not
    NoSuchNetwork,
    /// the number of a block that there is not
    NoSuchBlock,
}
