//! The table of commands: the word of each, its operands and its options. Each word and each range stands here once.

ghost use Rattle.std.specs.Prelude.{◌≡◌, map, find, option_map};
ghost use Rattle.std.specs.Str.{bytes_eq};
ghost use Rattle.wc_cli.specs.Table.{choice_of, entry_of, name_of, table, form_among, form_of};

/// Numbers from the least to the greatest.
#[derive(Clone, Copy)]
pub struct Bounds {
    /// The least number.
    pub least: u32,
    /// The greatest number.
    pub most: u32,
}

/// An option that takes a number.
#[derive(Clone, Copy)]
pub struct Amount {
    /// What the option is called.
    pub name: &'static str,
    /// The numbers that may be asked for.
    pub bounds: Bounds,
    /// The number where none is asked for.
    pub usual: u32,
}

/// An option, and what it takes.
#[derive(Clone, Copy)]
pub enum Choice {
    /// A text.
    Text(&'static str),
    /// A number.
    Number(Amount),
}

/// A command that is its word alone.
#[derive(Clone, Copy)]
pub enum Lone {
    /// `init`.
    Init,
    /// `list`.
    List,
    /// `graph`.
    Graph,
    /// `verify`.
    Verify,
    /// `pack`.
    Pack,
}

/// A command of a node or a process.
#[derive(Clone, Copy)]
pub enum Numbered {
    /// `tree PID`.
    Tree,
    /// `show N`.
    Show,
    /// `pause PID`.
    Pause,
    /// `play PID`.
    Play,
    /// `kill PID`.
    Kill,
}

/// The operands of a command, and the command that they make.
#[derive(Clone, Copy)]
pub enum Form {
    /// `dry FILE NAME [PORT=VALUE]...`.
    Dry,
    /// `check FILE`.
    Check,
    /// `submit FILE NAME [PORT=VALUE]...`.
    Submit,
    /// `run`: no operands.
    Run,
    /// A word alone: no operands.
    Alone(Lone),
    /// A word and one number within these bounds, of a node or a process.
    Numbered(Bounds, Numbered),
    /// `drill SEED N`: two numbers within these bounds.
    Drill(Bounds, Bounds),
    /// `query NODE [LINK NODE]...`: any number of operands.
    Query,
    /// `expand FILE --spec F`: one operand, and an option that must be there.
    Expand,
}

/// A command of the command line.
pub struct Entry {
    /// The word that the command begins with.
    pub word: &'static str,
    /// Its operands, and the command that they make.
    pub form: Form,
    /// Its options.
    pub options: &'static [Choice],
}

/// The numbers of nodes and processes.
const NODE: Bounds = Bounds {
    least: 1,
    most: u32::MAX,
};

/// The seeds of runs and drills.
const SEEDS: Bounds = Bounds {
    least: 0,
    most: 2_147_483_647,
};

/// How many turns may be asked for, of runs and of evaluations.
const TURN_COUNTS: Bounds = Bounds {
    least: 0,
    most: 1_000_000_000,
};

/// How many chains a drill may run.
const CHAINS: Bounds = Bounds {
    least: 0,
    most: 10_000,
};

/// How many rows a query may list.
const ROW_COUNTS: Bounds = Bounds {
    least: 1,
    most: 1_000_000,
};

/// The option for a file with further inputs.
pub const INPUTS: &str = "inputs";

/// The option for a file with the results of jobs.
pub const RESULTS: &str = "table";

/// The option for a file with the settings.
pub const SETTINGS: &str = "settings";

/// The option for a file that says what a restart chain is made of.
pub const SPEC: &str = "spec";

/// The option for the turns of loops and calls that an evaluation may take.
pub const FUEL: Amount = Amount {
    name: "fuel",
    bounds: TURN_COUNTS,
    usual: 100_000,
};

/// The option for the turns that are taken at most.
pub const TURNS: Amount = Amount {
    name: "turns",
    bounds: TURN_COUNTS,
    usual: 1_000_000,
};

/// The option for what the choices among processes are drawn from.
pub const SEED: Amount = Amount {
    name: "seed",
    bounds: SEEDS,
    usual: 0,
};

/// The option for the rows that are listed at most.
pub const LIMIT: Amount = Amount {
    name: "limit",
    bounds: ROW_COUNTS,
    usual: 10_000,
};

/// The commands. The command line is built of this table, and the reader takes words and ranges of it.
static COMMANDS: [Entry; 17] = [
    Entry {
        word: "dry",
        form: Form::Dry,
        options: &[
            Choice::Text(INPUTS),
            Choice::Text(RESULTS),
            Choice::Number(FUEL),
        ],
    },
    Entry {
        word: "check",
        form: Form::Check,
        options: &[],
    },
    Entry {
        word: "init",
        form: Form::Alone(Lone::Init),
        options: &[],
    },
    Entry {
        word: "submit",
        form: Form::Submit,
        options: &[Choice::Text(INPUTS), Choice::Text(SETTINGS)],
    },
    Entry {
        word: "run",
        form: Form::Run,
        options: &[
            Choice::Number(TURNS),
            Choice::Number(SEED),
            Choice::Text(SETTINGS),
        ],
    },
    Entry {
        word: "list",
        form: Form::Alone(Lone::List),
        options: &[],
    },
    Entry {
        word: "tree",
        form: Form::Numbered(NODE, Numbered::Tree),
        options: &[],
    },
    Entry {
        word: "show",
        form: Form::Numbered(NODE, Numbered::Show),
        options: &[],
    },
    Entry {
        word: "graph",
        form: Form::Alone(Lone::Graph),
        options: &[],
    },
    Entry {
        word: "verify",
        form: Form::Alone(Lone::Verify),
        options: &[],
    },
    Entry {
        word: "pause",
        form: Form::Numbered(NODE, Numbered::Pause),
        options: &[],
    },
    Entry {
        word: "play",
        form: Form::Numbered(NODE, Numbered::Play),
        options: &[],
    },
    Entry {
        word: "kill",
        form: Form::Numbered(NODE, Numbered::Kill),
        options: &[],
    },
    Entry {
        word: "pack",
        form: Form::Alone(Lone::Pack),
        options: &[],
    },
    Entry {
        word: "drill",
        form: Form::Drill(SEEDS, CHAINS),
        options: &[],
    },
    Entry {
        word: "query",
        form: Form::Query,
        options: &[Choice::Number(LIMIT)],
    },
    Entry {
        word: "expand",
        form: Form::Expand,
        options: &[Choice::Text(SPEC)],
    },
];

/// The table of commands.
#[tactic(auto, unfolding(crate::specs::Table::table))]
pub fn commands() -> &'static [Entry]
    ensures { map entry_of result.now ≡ table }
{
    &COMMANDS
}

/// What an option is called.
pub fn name_of(choice: Choice) -> &'static str
    ensures { result.now ≡ name_of (choice_of choice) }
{
    match choice {
        Choice::Text(name) => name,
        Choice::Number(amount) => amount.name,
    }
}

/// The form of the first of these commands that has this word, if there is one.
fn form_among(entries: &[Entry], word: &str) -> Option<Form>
    ensures { result ≡ form_among word.now (map entry_of entries.now) }
{
    for entry in entries {
        if word == entry.word {
            return Some(entry.form);
        }
    }
    None
}

/// The form of the command with this word, if there is one.
pub fn form_of(word: &str) -> Option<Form>
    ensures { result ≡ form_of word.now }
{
    form_among(commands(), word)
}
