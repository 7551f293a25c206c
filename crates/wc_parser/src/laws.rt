//! Laws of files and their printed texts.

ghost use Rattle.wc_parser.specs.Parsing.{OneTextAnswer};
ghost use Rattle.wc_parser.specs.ReadBack.{ReadsBack, FilesAreWritable, LibrariesPrintApart, DefinitionsPrintApart};

/// A text has one answer at most.
pub fn texts_have_one_answer()
    ensures { OneTextAnswer }
{}

/// The library of each file is writable.
pub fn files_are_writable()
    ensures { FilesAreWritable }
{}

/// The printed text of a writable library is a file, whose library is the same but for offsets.
pub fn printed_texts_read_back()
    ensures { ReadsBack }
{}

/// Libraries that a file can say, and that print the same text, are the same but for offsets.
pub fn libraries_print_apart()
    ensures { LibrariesPrintApart }
{}

/// Definitions that a file can say, and that print the same text, are the same but for offsets.
pub fn definitions_print_apart()
    ensures { DefinitionsPrintApart }
{}
