//! What single characters are, and runs of them.

ghost use Rattle.std.specs.Prelude.{◌≡◌, ◌+◌, ◌≤◌, length, drop};
ghost use Rattle.std.specs.List.{prefix_len};
ghost use Rattle.wc_lexer.specs.Tokens.{is_separator, begins_name, is_in_name, is_in_line, escaped};
ghost use Rattle.wc_lexer.specs.Runs.{is_in_run};

/// What a run of bytes is made of.
#[derive(Clone, Copy)]
pub enum Run {
    /// Letters, digits and `_`.
    Name,
    /// Decimal digits.
    Digits,
    /// All up to the line's end.
    Line,
}

/// A space, a tab, or the end of a line.
pub fn is_separator(byte: u8) -> bool
    ensures { result ≡ is_separator byte }
{
    byte == b' ' || byte == b'\t' || byte == b'\r' || byte == b'\n'
}

/// A letter or `_`.
pub fn begins_name(byte: u8) -> bool
    ensures { result ≡ begins_name byte }
{
    byte.is_ascii_alphabetic() || byte == b'_'
}

fn is_in_run(run: Run, byte: u8) -> bool
    ensures { result ≡ is_in_run run byte }
{
    match run {
        Run::Name => begins_name(byte) || byte.is_ascii_digit(),
        Run::Digits => byte.is_ascii_digit(),
        Run::Line => byte != b'\n',
    }
}

/// The place behind the longest run from a place on.
pub fn run_end(bytes: &[u8], from: usize, run: Run) -> usize
    requires { from ≤ length bytes.now }
    ensures value { result ≡ from + prefix_len (is_in_run run) (drop from bytes.now) }
    ensures within { result ≤ length bytes.now }
{
    for at in from..bytes.len() {
        if !is_in_run(run, bytes[at]) {
            return at;
        }
    }
    bytes.len()
}

/// What the character behind a backslash stands for, if it makes an escape.
pub fn escaped(byte: u8) -> Option<u8>
    ensures { result ≡ escaped byte }
{
    match byte {
        b'n' => Some(b'\n'),
        b't' => Some(b'\t'),
        b'"' => Some(b'"'),
        b'\\' => Some(b'\\'),
        _ => None,
    }
}
