//! Steps that stand in one line and hold no bytes.

use crate::deed::Deed;
use crate::mistake::Mistake;
use crate::source::Source;

/// What a line of one word says.
fn read_lone(source: &mut Source<'_>, word: &str) -> Deed {
    source.end(Mistake::Beginning);
    match word {
        "mark" => Deed::Mark,
        "unchanged" => Deed::Unchanged,
        "last" => Deed::Last,
        "end" => Deed::End,
        _ => {
            source.fail(Mistake::Beginning);
            Deed::End
        }
    }
}

/// What a line says that begins with a word.
fn read_worded(source: &mut Source<'_>, word: &str) -> Deed {
    match word {
        "fault" => Deed::Fault(source.device(), source.numbers()),
        "clock" => Deed::Clock(source.numbers()),
        "alter" => Deed::Alter(source.side(), source.number(), source.number()),
        "cut" => Deed::Cut(source.side(), source.number()),
        "sip" => Deed::Sip(source.number()),
        "fuse" => Deed::Fuse(source.side(), source.number()),
        "crash" => Deed::Crash(source.leaving(), source.leaving()),
        "busy" => Deed::Busy(source.number(), source.number()),
        "asked" => Deed::Asked(source.task(), source.number()),
        "moment" => Deed::Moment(source.number()),
        "faults" => Deed::Faults(source.number()),
        "repeat" => Deed::Repeat(source.count(), source.count()),
        "sweep" => Deed::Sweep(source.event()),
        _ => read_lone(source, word),
    }
}

/// What a line says that holds no bytes.
pub fn read_simple(source: &mut Source<'_>, word: &str) -> Deed {
    let deed = read_worded(source, word);
    source.end(Mistake::Word);
    deed
}
