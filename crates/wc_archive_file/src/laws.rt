//! Laws of archive files.
ghost use Rattle.wc_archive_file.specs.Laws.{OneArchive};

/// Bytes are those of one archive at most.
pub fn bytes_are_of_one_archive()
    ensures { OneArchive }
{}
