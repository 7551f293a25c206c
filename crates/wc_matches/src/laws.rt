//! Laws of rows.

ghost use Rattle.wc_matches.specs.Laws.{FirstAreOne, OneLevel, LastLevel};
ghost use Rattle.wc_matches.specs.Names.{TypesAreRead, KindsAreRead, StatesAreRead};
ghost use Rattle.wc_matches.specs.Rows.{SumsAreFound, OriginsAreFound, OneOriginIsFound};

/// There is one list of the first so many rows of a query.
pub fn first_rows_are_one()
    ensures { FirstAreOne }
{}

/// The first so many rows of one length, each with the first so many that it goes on to, give the first so many of the next length.
pub fn levels_go_on()
    ensures { OneLevel }
{}

/// Of one row more than the most, the first rows that match are left, with whether there are further ones.
pub fn last_level_matches()
    ensures { LastLevel }
{}

/// Rows that were found by hand are those that match by the definitions.
pub fn rows_are_found()
    ensures sums { SumsAreFound }
    ensures origins { OriginsAreFound }
    ensures one { OneOriginIsFound }
{}

/// What types of links, kinds and states are called in other texts is what a query reads.
pub fn names_are_read()
    // Names of types of links are read as these types.
    ensures types { TypesAreRead }
    // Names of kinds as these kinds.
    ensures kinds { KindsAreRead }
    // Names of states as these states.
    ensures states { StatesAreRead }
{}
