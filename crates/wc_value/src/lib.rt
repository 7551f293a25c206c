//! Values, the lists that hold them, and their canonical bytes.
//!
//! Contracts see each list type as the plain list of its items, a `Text` as the list of its bytes, and a
//! `Boxed` as what it holds. So `≡` on them says that the contents are equal, wherever they lie in memory.
#![tactic(auto)]

mod boxed;
mod copies;
mod duplicate;
mod encoding;
mod equality;
mod generator;
mod keyed;
mod laws;
mod limits;
mod list;
mod owned;
mod process;
mod refusal;
mod roomy;
mod table;
mod text;
mod value;

pub use boxed::Boxed;
pub use duplicate::Duplicate;
pub use encoding::{encode, encode_request, put_count, put_text, put_value};
pub use equality::{
    same_bytes, same_fields, same_files, same_request, same_result, same_state, same_text,
    same_tree, same_value, same_values, same_words,
};
pub use generator::Generator;
pub use keyed::Keyed;
pub use laws::{no_spelling_begins_another, one_request, one_spelling, refusals_come_first};
pub use limits::{is_within, is_within_depth};
pub use list::{Bytes, List};
pub use owned::{both, done, filled, let_go, put, put_given};
pub use process::{Branches, JobResult, ProcessState, Reason, Request, Tree};
pub use refusal::ValueError;
pub use roomy::Roomy;
pub use table::{Rows, Table, TableError};
pub use text::Text;
pub use value::{Fields, Files, Kind, Value, Values, Words};
