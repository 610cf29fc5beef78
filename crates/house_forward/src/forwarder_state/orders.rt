//! What the forwarder orders.
ghost use Rattle.std.specs.Prelude.{◌≡◌, ◌≤◌, ◌+◌, length, IsSome, None, Some};
ghost use Rattle.mux_outside.specs.House.{gives_none, order_marks, OrderFits, HouseNumberFits};
ghost use Rattle.mux_outside.specs.House.{known_after_order, known_after_ordered};
ghost use Rattle.house_forward.specs.Known.{ordering_of};
ghost use Rattle.house_forward.specs.Quiet.{orders_none};
ghost use Rattle.house_forward.specs.RelayTraces.{GivesOrder, GetsNumber};
ghost use Rattle.house_forward.specs.State.{held_in, known_in, due_in, KeepsWord, OrdersFirst};

use super::ForwarderState;
use crate::forwardings::ListenerOrder;
use crate::ordering::{Ordering, mark_of};
use crate::two_texts::TwoTexts;
use mux_outside::Order;

impl ForwarderState {
    /// The next order.
    pub fn order(&mut self) -> Option<Order>
        requires { self.old.ordering ≡ None }
        ensures fits { OrderFits result (known_in self.old) }
        ensures known { known_in self.new ≡ known_after_order result (known_in self.old) }
        ensures exact { gives_none result ≡ orders_none self.old.forwardings.all.items
            self.old.relays.all.items self.old.asks.waiting.items }
        ensures first { OrdersFirst result self.old }
        ensures silent { result ≡ None → self.new ≡ self.old }
        ensures due { due_in self.new + length (order_marks result) ≤ due_in self.old }
        ensures word { KeepsWord self.old self.new }
        ensures gives { GivesOrder result self.new.ordering
            (held_in self.old) (held_in self.new) }
    {
        if let Some(order) = self.relays.order() {
            return Some(order);
        }
        if let Some((host, port)) = self.relays.offer() {
            let TwoTexts { one, other } = host;
            self.ordering = Some(Ordering::Connect { host: other, port });
            return Some(Order::Connect { host: one, port });
        }
        match self.forwardings.order(&mut self.asks)? {
            ListenerOrder::Listen { host, port } => {
                let TwoTexts { one, other } = host;
                self.ordering = Some(Ordering::Listen { host: other, port });
                Some(Order::Listen { host: one, port })
            }
            ListenerOrder::Unlisten(listener) => Some(Order::Unlisten(listener)),
        }
    }

    /// The number of what was ordered, and none where that failed: its mark.
    pub fn ordered(&mut self, number: Option<u64>) -> Option<Order>
        requires fits { HouseNumberFits number (known_in self.old) }
        ensures mark { result ≡ ordering_of self.old.ordering }
        ensures known { known_in self.new ≡ known_after_ordered number (known_in self.old) }
        ensures due { IsSome self.old.ordering → due_in self.new + 1 ≤ due_in self.old }
        ensures none { self.old.ordering ≡ None → self.new ≡ self.old }
        ensures word { KeepsWord self.old self.new }
        ensures ordering { self.new.ordering ≡ None }
        ensures makes { GetsNumber self.old.ordering number
            (held_in self.old) (held_in self.new) }
    {
        match &self.ordering {
            None => return None,
            Some(Ordering::Listen { .. }) => self.forwardings.ordered(number, &mut self.asks),
            Some(Ordering::Connect { .. }) => self.relays.made(number),
        }
        mark_of(self.ordering.take())
    }
}
