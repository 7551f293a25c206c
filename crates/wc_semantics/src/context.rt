//! Keys of the context, and labels.

ghost use Rattle.std.specs.Prelude.{◌≡◌, ◌++◌, ◌∷◌, [], IfOk};
ghost use Rattle.wc_value.specs.Ascending.{lookup};
ghost use Rattle.wc_semantics.specs.Statements.{keyed};
ghost use Rattle.wc_semantics.specs.Run.{label, children_at, joined};

use std::alloc::{AllocError, Global};
use wc_state::{Child, Children, Item, Items};
use wc_value::{Duplicate, Text, Value};

/// A context in which a key holds this: in place of what it held, or as a new entry at the end.
#[tactic(auto, using(crate::proofs::Keyed::set_is))]
pub fn set_key(ctx: Items, key: Text, item: Item) -> Result<Items, AllocError>
    ensures { IfOk result (λ items. items ≡ keyed key item ctx) }
{
    let mut items = ctx;
    let _before = items.set(key, item)?;
    Ok(items)
}

/// The list of children that a key held, or a new one.
fn into_children(alloc: Global, held: Option<Item>) -> Children
    ensures { result ≡ children_at held }
{
    match held {
        Some(Item::Many(children)) => children,
        Some(_) => Children::new(alloc),
        None => Children::new(alloc),
    }
}

/// A context in which a child joins the list at a key. The list is taken out and put back, so that none is copied.
fn append_child(alloc: Global, ctx: Items, key: Text, child: Child) -> Result<Items, AllocError>
    ensures { IfOk result (λ items. items ≡ keyed key (Item.Many (children_at (lookup key ctx) ++ child ∷ [])) ctx) }
{
    let mut items = ctx;
    let held = items.set(key.copy()?, Item::Plain(Value::Bool(false)))?;
    let mut children = into_children(alloc, held);
    children.push(child)?;
    let _before = items.set(key, Item::Many(children))?;
    Ok(items)
}

/// A context in which a child is bound to a key.
pub fn bind_child(
    alloc: Global,
    ctx: Items,
    key: Text,
    append: bool,
    child: Child,
) -> Result<Items, AllocError>
    ensures { IfOk result (λ items. items ≡ keyed key (joined append (lookup key ctx) child) ctx) }
{
    if append {
        append_child(alloc, ctx, key, child)
    } else {
        set_key(ctx, key, Item::One(child))
    }
}

/// The label of the call with this number, counted from 1, into a key.
pub fn label_of(alloc: Global, key: &Text, number: usize) -> Result<Text, AllocError>
    ensures { IfOk result (λ text. text ≡ label key.now number) }
{
    let key = key.as_str();
    Text::of_string(format!(in alloc; "{key}_{number}")?)
}
