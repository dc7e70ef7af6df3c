// What holds of blocks and of every block file: a law is the contract of a function that does nothing.
ghost use Rattle.blocks.specs.Laws.{EncodedReads, EncodesBack, NoneShared, ReadEncodes, ReadsBack, Sharing};

/// Two ranges share addresses exactly if there is one that is in both.
pub fn sharing_is_an_address_in_both()
    ensures { Sharing }
{}

/// Of blocks in order no two share an address.
pub fn no_two_overlap()
    ensures { NoneShared }
{}

/// A file with no fault is the encoding of the blocks that it says.
pub fn faultless_is_encoded()
    ensures { ReadEncodes }
{}

/// The encoding of blocks in order, whose homes there are, has no fault, and says them.
pub fn encoded_is_faultless()
    ensures { EncodedReads }
{}

/// What is read encodes to the same bytes.
pub fn what_is_read_encodes_back()
    ensures { EncodesBack }
{}

/// What is encoded reads back to the same blocks.
pub fn what_is_encoded_reads_back()
    ensures { ReadsBack }
{}
