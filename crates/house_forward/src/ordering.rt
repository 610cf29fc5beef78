//! What is ordered, and has no number yet.
ghost use Rattle.std.specs.Prelude.{◌≡◌};
ghost use Rattle.house_forward.specs.Known.{ordering_of};

use mux_outside::Order;
use ssh_fields::Text;

/// What is ordered, and has no number yet.
#[derive(Drop)]
pub enum Ordering {
    Listen { host: Text, port: u32 },
    Connect { host: Text, port: u32 },
}

/// Its mark.
pub fn mark_of(ordering: Option<Ordering>) -> Option<Order>
    ensures { result ≡ ordering_of ordering }
{
    match ordering {
        None => None,
        Some(Ordering::Listen { host, port }) => Some(Order::Listen { host, port }),
        Some(Ordering::Connect { host, port }) => Some(Order::Connect { host, port }),
    }
}
