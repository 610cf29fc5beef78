ghost use Rattle.std.specs.Prelude.{◌≡◌};
ghost use Rattle.mux_outside.specs.declared.house.HouseReply.TheVariants.{Refused};
ghost use Rattle.mux_outside.specs.NoHouse.{no_house};

use crate::house::{Asks, FwdAsk, House, HouseReply};
use crate::order::Order;
use crate::own_turn::OwnTurn;
use crate::piece::Piece;
use crate::starts::Starts;
use crate::streams::Streams;
use ssh_fields::OutOfMemory;

/// A master with no forwardings of its own: it refuses every request.
#[derive(Clone, Copy)]
pub struct NoHouse;

impl Asks for NoHouse {
    ghost may = { λ reply. reply ≡ Refused };

    ghost state = { λ _. no_house };

    fn ask(
        &mut self,
        _client: u64,
        _id: u32,
        _opening: bool,
        _what: &FwdAsk<'_>,
    ) -> Result<HouseReply, OutOfMemory> {
        Ok(HouseReply::Refused)
    }
}

impl House for NoHouse {
    ghost fresh = { λ _. Unit {0} };

    ghost begun = { λ _. Unit {0} };

    fn present(&self) -> bool {
        false
    }

    fn begin(&mut self, _starts: &Starts) -> Result<(), OutOfMemory> {
        Ok(())
    }

    fn answer(&mut self) -> Option<(u64, u32, HouseReply)> {
        None
    }

    fn says(&mut self, _into: &mut Piece) -> Result<bool, OutOfMemory> {
        Ok(false)
    }

    fn takes(&mut self, _bytes: &[u8]) -> Result<(), OutOfMemory> {
        Ok(())
    }

    fn order(&mut self) -> Option<Order> {
        None
    }

    fn ordered(&mut self, _number: Option<u64>)
        ensures { self.new ≡ self.old }
    {}

    fn turn(&mut self, _t: OwnTurn<'_>) -> Result<(), OutOfMemory>
        ensures { self.new ≡ self.old }
    {
        Ok(())
    }

    fn queue_of(&self, _stream: u64) -> &[u8] {
        &[]
    }

    fn list_waiting(&self, _failed: &Streams, _into: &mut Streams) -> Result<(), OutOfMemory> {
        Ok(())
    }

    fn took(&mut self, _stream: u64, _n: usize) {}

    fn refused_start(&self) -> Option<usize> {
        None
    }

    fn must(&self) -> bool {
        false
    }
}
