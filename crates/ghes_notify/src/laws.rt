//! Laws of the order in which handlers are called.
ghost use Rattle.std.specs.Prelude.{◌≡◌, List, true};
ghost use Rattle.ghes_notify.specs.declared.order.Tag.{Tag};
ghost use Rattle.ghes_notify.specs.Order.{call_order, is_in_order};

/// Each handler is called before all that stand behind it: those of a lower priority, and those of its own that were
/// registered after it.
pub fn the_order_of_calls_falls()
    ensures { (tags : List Tag) → is_in_order (call_order tags) ≡ true }
{}
