ghost use Rattle.std.specs.Prelude.{◌≡◌, IfOk};

use crate::house::HouseReply;
use crate::order::Order;
use crate::start_ask::StartAsk;
use ssh_fields::{OutOfMemory, Text};
use std::alloc::Global;

/// What happens between the master and a forwarder, in the order in which it happens.
#[derive(Drop)]
pub enum HouseMark {
    /// The forwarder is admitted as a client.
    HouseIn,
    /// The forwarder sent these bytes, as a client.
    HouseSaid(Text),
    /// The forwarder accepted so many bytes, as a client.
    HouseTook(usize),
    /// A client's ask, and the reply that it got at once. Its `path` is false.
    HouseAsked {
        client: u64,
        id: u32,
        opening: bool,
        ask: StartAsk,
        reply: HouseReply,
    },
    /// The reply to a request that was deferred.
    HouseAnswer {
        client: u64,
        id: u32,
        reply: HouseReply,
    },
    /// An order that was carried out. The number is that of the listener or stream that it made;
    /// none where that failed, and for an order that makes none.
    HouseOrder {
        order: Order,
        number: Option<u64>,
    },
}

impl HouseMark {
    /// The same once more.
    pub fn copy(&self, alloc: Global) -> Result<HouseMark, OutOfMemory>
        ensures { IfOk result (λ mark. mark ≡ self.now) }
    {
        match self {
            HouseMark::HouseIn => Ok(HouseMark::HouseIn),
            HouseMark::HouseSaid(bytes) => {
                let bytes = Text::copy(alloc, bytes.as_bytes())?;
                Ok(HouseMark::HouseSaid(bytes))
            }
            HouseMark::HouseTook(count) => Ok(HouseMark::HouseTook(*count)),
            HouseMark::HouseAsked {
                client,
                id,
                opening,
                ask,
                reply,
            } => {
                let ask = ask.copy(alloc)?;
                Ok(HouseMark::HouseAsked {
                    client: *client,
                    id: *id,
                    opening: *opening,
                    ask,
                    reply: *reply,
                })
            }
            HouseMark::HouseAnswer { client, id, reply } => Ok(HouseMark::HouseAnswer {
                client: *client,
                id: *id,
                reply: *reply,
            }),
            HouseMark::HouseOrder { order, number } => {
                let order = order.copy(alloc)?;
                Ok(HouseMark::HouseOrder {
                    order,
                    number: *number,
                })
            }
        }
    }
}
