//! How far changes stand in the order of a snapshot: the last change is the only Count, and those directly before it are the Kepts.

ghost use Rattle.std.specs.Prelude.{◌≡◌, []};
ghost use Rattle.wc_world.specs.Order.{after_other, after_kept, after_count, order_after, may_follow};
ghost use Rattle.wc_world.specs.Accepted.{is_in_order};

use crate::change::Change;

/// How far the changes of a snapshot have come.
#[derive(Clone, Copy, Debug, PartialEq, Eq)]
pub(crate) enum Order {
    /// There was no Kept yet.
    Others,
    /// There were Kepts.
    Kepts,
    /// There was the Count.
    Ended,
    /// A change stood in the wrong place.
    Wrong,
}

fn after_other(order: Order) -> Order
    ensures { result ≡ after_other order }
{
    match order {
        Order::Others => Order::Others,
        _ => Order::Wrong,
    }
}

fn after_kept(order: Order) -> Order
    ensures { result ≡ after_kept order }
{
    match order {
        Order::Others | Order::Kepts => Order::Kepts,
        _ => Order::Wrong,
    }
}

fn after_count(order: Order) -> Order
    ensures { result ≡ after_count order }
{
    match order {
        Order::Others | Order::Kepts => Order::Ended,
        _ => Order::Wrong,
    }
}

/// How far the changes have come with one more.
pub(crate) fn order_after(order: Order, change: &Change) -> Order
    ensures { result ≡ order_after order change.now }
{
    match change {
        Change::Kept(_) => after_kept(order),
        Change::Count(_) => after_count(order),
        _ => after_other(order),
    }
}

/// Whether there was the Count, and nothing behind it.
pub(crate) fn is_ended(order: Order) -> bool
    ensures { result ≡ may_follow order [] }
{
    matches!(order, Order::Ended)
}

/// Whether the last change is the only Count, and those directly before it are the Kepts.
pub fn is_in_order(changes: &[Change]) -> bool
    ensures { result ≡ is_in_order changes.now }
{
    let mut order = Order::Others;
    for change in changes {
        order = order_after(order, change);
    }
    is_ended(order)
}
