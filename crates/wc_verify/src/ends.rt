//! Where the steps of a table end.

ghost use Rattle.std.specs.Prelude.{◌≡◌, ℕ, ◌+◌, ◌<◌, List, length, slice_index, IsTrue};
ghost use Rattle.wc_verify.specs.Following.{AreFar, AreLasts, EndsWithin, GoesDown, IsWithin, IsSettled};

/// Lets each entry lead to where the entry that it leads to leads: twice as far, or as far as steps go.
fn leap(table: &mut [u32])
    requires { IsWithin table.old }
    ensures size { length table.new ≡ length table.old }
    ensures within { IsWithin table.new }
    ensures far { (first : List ℕ) (rank : ℕ → ℕ) (k : ℕ) → AreFar first rank k table.old → AreFar first rank (k + 1) table.new }
{
    for at in 0..table.len() {
        table[at] = table[table[at] as usize];
    }
}

/// Whether no step leads on from where an entry leads.
fn is_settled(table: &[u32]) -> bool
    requires { IsWithin table.now }
    ensures { IsTrue result → IsSettled table.now }
{
    for at in 0..table.len() {
        if table[table[at] as usize] != table[at] {
            return false;
        }
    }
    true
}

/// For each number of a table of steps the last one that steps from it lead to. Each step but one to the number itself
/// goes down in rank, and no rank is greater than the most.
pub(crate) fn lasts_of(table: Vec<u32>, most: u32) -> Vec<u32>
    requires { EndsWithin most table.items }
    ensures { AreLasts table.items result.items }
{
    let mut leaps = table;
    for _round in 0..most {
        if is_settled(&leaps) {
            return leaps;
        }
        leap(&mut leaps);
    }
    leaps
}
