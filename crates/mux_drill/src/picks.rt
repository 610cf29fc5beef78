ghost use Rattle.std.specs.Prelude.{◌≡◌, ◌≤◌, ◌<◌, replicate, slice_index, slice_set, length};

use std::marker::Model;

/// The numbers that the master picked, by client.
#[derive(Drop)]
pub struct Picks {
    numbers: [u32; 65],
}

impl Model for Picks {
    ghost use Rattle.std.specs.Prelude.{List, ℕ};

    ghost Value = { List ℕ };

    ghost view = { λ p. p.numbers };
}

impl Picks {
    /// None yet.
    pub fn new() -> Picks
        ensures { result ≡ replicate 65 0 }
    {
        Picks { numbers: [0; 65] }
    }

    /// The number of a client.
    pub fn at(&self, client: u64) -> u32
        requires { client ≤ 64 }
        ensures { result ≡ slice_index self.now client }
    {
        self.numbers[client as usize]
    }

    /// Keeps the number of a client, if it is one of 64.
    pub fn set(&mut self, client: u64, number: u32)
        ensures { self.new ≡ slice_set self.old client number }
    {
        let i = client as usize;
        if i < 65 {
            self.numbers[i] = number;
        }
    }
}
