// Reader and writer together: what is written is read, and what was read is written. No code: each function's contract names one theorem,
// on the contracts of `read` and `write`.
#![tactic(auto)]

ghost use Rattle.wire_binding.specs.Back.{ReadsBack, WritesBack};

// Bytes that are written of a message are read as that message.
pub fn written_reads_back()
    ensures { ReadsBack }
{}

// A message that was read is written as the bytes that it was read from.
pub fn read_writes_back()
    ensures { WritesBack }
{}
