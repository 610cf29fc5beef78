ghost use Rattle.std.specs.Prelude.{◌≡◌, ◌≤◌, ◌+◌, ◌++◌, ◌∷◌, [], ℕ, List, Option, None, OnOk, OnErr, false};
ghost use Rattle.std.specs.Option.{option_map};
ghost use Rattle.mux_outside.specs.declared.house_mark.HouseMark.{HouseMark as TheMark};

use crate::house_mark::HouseMark;
use ssh_fields::OutOfMemory;

/// Where a forwarder hands over its marks.
pub trait Notes {
    /// The marks handed over, if they are recorded.
    ghost recorded: { Self → Option (List TheMark) };

    /// For how many marks there is room.
    ghost spare: { Self → ℕ };

    /// Whether they keep any mark. Where they don't, none need be made.
    fn keeps(&self) -> bool
        ensures { result ≡ false → recorded self.now ≡ None };

    /// Makes room for so many marks at least.
    fn room(&mut self, n: usize) -> Result<(), OutOfMemory>
        ensures ok { OnOk result (n ≤ spare self.new) }
        ensures more { OnOk result (spare self.old ≤ spare self.new) }
        ensures unchanged { OnErr result (spare self.new ≡ spare self.old) }
        ensures recorded { recorded self.new ≡ recorded self.old };

    /// Takes a mark, and no memory.
    fn note(&mut self, m: HouseMark)
        requires { 1 ≤ spare self.old }
        ensures recorded { recorded self.new
            ≡ option_map (λ marks. marks ++ m ∷ []) (recorded self.old) }
        ensures spare { spare self.old ≤ spare self.new + 1 };
}
