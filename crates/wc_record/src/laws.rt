//! Laws of changes as bytes. Each is the contract of a function that does nothing.

ghost use Rattle.wc_record.specs.Laws.{OneAnswer, SomeReading, WrittenIsRead, ReadIsWritten};

/// Reading bytes gives one answer at most.
pub fn reading_has_one_answer()
    ensures { OneAnswer }
{}

/// Reading bytes has an answer, whatever the bytes.
pub fn reading_has_an_answer()
    ensures { SomeReading }
{}

/// What is written is read.
pub fn what_is_written_is_read()
    ensures { WrittenIsRead }
{}

/// What is read is written so.
pub fn what_is_read_is_written()
    ensures { ReadIsWritten }
{}
