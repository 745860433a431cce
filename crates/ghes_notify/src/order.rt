//! The order in which handlers are called.
ghost use Rattle.std.specs.Prelude.{◌≡◌, ◌≤◌, ◌<◌, ◌+◌, length, position, int_lt, IfSome, vec_len, vec_capacity};
ghost use Rattle.ghes_notify.specs.Order.{rank_of, seat_of, ranked, call_order, place_of};

/// A registered handler's number and its priority.
#[derive(Clone, Copy)]
pub(crate) struct Tag {
    pub(crate) id: u64,
    pub(crate) priority: i32,
}

/// A registered handler, and its place in the list of handlers.
#[derive(Clone, Copy)]
pub(crate) struct Rank {
    pub(crate) tag: Tag,
    pub(crate) place: usize,
}

/// The place of the handler with this number.
pub(crate) fn place_of(tags: &[Tag], number: u64) -> Option<usize>
    ensures place { result ≡ place_of tags.now number }
    ensures within { IfSome result (λ place. place < length tags.now) }
{
    tags.iter().position(|tag| tag.id == number)
}

fn first_lower(order: &[Rank], rank: &Rank) -> Option<usize>
    ensures place { result ≡ position (λ other. int_lt other.tag.priority rank.now.tag.priority) order.now }
    ensures within { IfSome result (λ place. place < length order.now) }
{
    order
        .iter()
        .position(|other| other.tag.priority < rank.tag.priority)
}

// How many ranks stand before it: it goes before the first of a lower priority.
fn seat_of(order: &[Rank], rank: &Rank) -> usize
    ensures seat { result ≡ seat_of order.now rank.now }
    ensures within { result ≤ length order.now }
{
    first_lower(order, rank).unwrap_or(order.len())
}

/// Puts a rank into an order that has room for it.
pub(crate) fn rank_in(order: &mut Vec<Rank>, rank: Rank)
    requires { vec_len order.old < vec_capacity order.old }
    ensures ranked { order.new.items ≡ ranked order.old.items rank }
    ensures len { vec_len order.new ≡ vec_len order.old + 1 }
    ensures capacity { vec_capacity order.old ≤ vec_capacity order.new }
{
    let seat = seat_of(order, &rank);
    let fits = order.insert(seat, rank).is_ok();
    prove!(fits);
}

/// Makes the order of registered handlers anew. It takes no memory.
pub(crate) fn rank_all(tags: &[Tag], order: &mut Vec<Rank>)
    requires { length tags.now ≤ vec_capacity order.old }
    ensures order { order.new.items ≡ call_order tags.now }
    ensures len { vec_len order.new ≡ length tags.now }
    ensures capacity { vec_capacity order.old ≤ vec_capacity order.new }
{
    order.clear();
    let mut rest = tags;
    let mut place = 0usize;
    while let Some((tag, tail)) = rest.split_first() {
        rank_in(order, Rank { tag: *tag, place });
        place += 1;
        rest = tail;
    }
}
