//! Laws of the definitions.

ghost use Rattle.wc_query.specs.Laws.{ReadsLinks, ReadsWalks, ReadsOperands, Refuses};

/// Words that were read by hand are what the definition reads.
pub fn words_are_read()
    // These words are read as queries of links.
    ensures links { ReadsLinks }
    // These as queries with walks.
    ensures walks { ReadsWalks }
    // These as filters with their operands.
    ensures operands { ReadsOperands }
    // These are refused for these reasons.
    ensures refusals { Refuses }
{}
