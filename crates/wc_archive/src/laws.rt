//! Laws of imports.
ghost use Rattle.wc_archive.specs.Laws.{ArchivesArePartsOfImports, ArchivesAreTheseWorlds, GoodArchivesAreConsistent, ImportsAreAccepted, ImportsKeepSound, ImportsKeepTables, ImportsMakeTheseWorlds, ImportsAreOne, RefusalsAreOne, ExportsAreOne};
ghost use Rattle.wc_archive.specs.SmallWorlds.{SumsAreArchived};
ghost use Rattle.wc_archive.specs.Judged.{Imports, RefusesImport};

/// The world after an import, written out: the archive's nodes, links, processes and library behind those that were there.
pub fn imports_make_these_worlds()
    ensures { ImportsMakeTheseWorlds }
{}

/// An archive alone, written out.
pub fn archives_are_these_worlds()
    ensures { ArchivesAreTheseWorlds }
{}

/// The archive's world is part of the world after its import.
pub fn archives_are_parts_of_imports()
    ensures { ArchivesArePartsOfImports }
{}

/// A consistent world accepts the import of a good archive, where there is room for it.
pub fn imports_are_accepted()
    ensures { ImportsAreAccepted }
{}

/// A good archive is a consistent world by itself.
pub fn good_archives_are_consistent()
    ensures { GoodArchivesAreConsistent }
{}

/// The import of an archive that passes all that is asked keeps a sound world sound, continues it, and brings the archive's trees.
pub fn imports_keep_sound()
    ensures { ImportsKeepSound }
{}

/// The archive of a function that adds, in a world with another beside it.
pub fn sums_are_archived()
    ensures { SumsAreArchived }
{}

/// Where some table agrees with a sound world, some table agrees with the world after the import of an archive that passes all that is asked.
pub fn imports_keep_tables()
    ensures { ImportsKeepTables }
{}

/// An archive is refused in at most one way, and not at all where it may be imported.
pub fn refusals_are_one()
    ensures { RefusalsAreOne }
{}

/// An export has one answer at most: one archive, or one refusal.
pub fn exports_are_one()
    ensures { ExportsAreOne }
{}

/// An import has one answer at most: one list of changes, or one refusal.
pub fn imports_are_one()
    ensures { ImportsAreOne }
{}
