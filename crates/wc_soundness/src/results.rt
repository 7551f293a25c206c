//! Laws of recorded results and of agreeing tables.
ghost use Rattle.wc_soundness.specs.ResultLaws.{ResultsAreFound, OneResult, KilledHaveNoResult, ItsTableAgrees, LaterTablesAgree, PlainTablesExactly, RecordedIsMeant, OneMeaning};

/// A process of a sound world has at most one recorded result, which a function finds; a killed one has none.
pub fn one_result()
    ensures found { ResultsAreFound }
    ensures one { OneResult }
    ensures killed { KilledHaveNoResult }
{}

/// Each process of a sound world has a table that agrees with it.
pub fn each_process_has_a_table()
    ensures { ItsTableAgrees }
{}

/// What a table agrees with in a later world it agrees with in each sound one before.
pub fn later_tables_agree()
    ensures { LaterTablesAgree }
{}

/// A plain table agrees with a sound world exactly where equal requests have equal results.
pub fn plain_tables_exactly()
    ensures { PlainTablesExactly }
{}

/// The recorded tree of an ended process is what it means, with any fuel from the kept one on. Ended processes that run the same have the same tree, in whichever sound worlds, where one table agrees with both.
pub fn one_meaning()
    ensures meant { RecordedIsMeant }
    ensures one { OneMeaning }
{}
