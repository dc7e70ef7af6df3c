// What holds of the bytes of messages: a law is the contract of a function that does nothing.
ghost use Rattle.messages.specs.Laws.{ReadHasBytes, ReadOn, ReadWrites, StreamReads, StreamWrites, TakesBytes, WrittenReads};

/// What is written reads back, and what stands behind it is left as it is.
pub fn written_reads_back()
    ensures { WrittenReads }
{}

/// What is read writes back as the same bytes.
pub fn read_writes_back()
    ensures { ReadWrites }
{}

/// What is read can be written.
pub fn what_is_read_has_bytes()
    ensures { ReadHasBytes }
{}

/// A message that is read takes a byte at least.
pub fn a_message_takes_bytes()
    ensures { TakesBytes }
{}

/// A stream is read message by message, to its end or to its first fault.
pub fn a_stream_is_read_on()
    ensures { ReadOn }
{}

/// Messages that are written one after the other read back as they are.
pub fn a_stream_reads_back()
    ensures { StreamReads }
{}

/// A stream that is read to its end is its messages, written one after the other.
pub fn a_stream_writes_back()
    ensures { StreamWrites }
{}
