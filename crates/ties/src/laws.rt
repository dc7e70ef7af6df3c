// What holds of every ties file: a law is the contract of a function that does nothing.
ghost use Rattle.ties.specs.Laws.{EncodedReads, EncodesBack, ReadEncodes, ReadsBack};

/// A file with no fault is the encoding of the relations that it says.
pub fn faultless_is_encoded()
    ensures { ReadEncodes }
{}

/// The encoding of relations in which both ends say the same has no fault, and says them.
pub fn encoded_is_faultless()
    ensures { EncodedReads }
{}

/// What is read encodes to the same bytes.
pub fn what_is_read_encodes_back()
    ensures { EncodesBack }
{}

/// What is encoded reads back to the same relations.
pub fn what_is_encoded_reads_back()
    ensures { ReadsBack }
{}
