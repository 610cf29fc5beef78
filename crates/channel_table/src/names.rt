ghost use Rattle.std.specs.Prelude.{◌≡◌, ◌<◌, ℕ, [], ◌∷◌, ◌++◌, length, true, Some, None, OnOk, IfOk, OnErr, nat_eq, not, filter, ◌==◌, if◌then◌else◌};
ghost use Rattle.indexmap.specs.IndexMap.{get};
ghost use Rattle.channel_table.specs.Entries.{IsNumberFree};
ghost use Rattle.channel_table.specs.Slots.{HasReadySlot};
ghost use Rattle.channel_table.specs.Indices.{pair_eq, paired, has_room_in, is_index_key, numbers_or_empty};

use crate::numbers::Numbers;
use crate::slots::Slots;
use indexmap::IndexMap;
use mux_history::limits::MAX_CHANNELS;
use ssh_fields::OutOfMemory;

/// Makes sure that a client has a list of its channels, with room for one more.
pub fn make_list(clients: &mut IndexMap<u64, Numbers>, client: u64) -> Result<(), OutOfMemory>
    ensures room { OnOk result (has_room_in (get nat_eq clients.new client) ≡ true) }
    ensures same { (k : ℕ) → numbers_or_empty (get nat_eq clients.new k) ≡ numbers_or_empty (get nat_eq clients.old k) }
{
    if let Some(numbers) = clients.get_mut(&client) {
        return numbers.make_room();
    }
    let mut numbers = Numbers::new(*clients.allocator());
    numbers.make_room()?;
    clients.insert(client, numbers)?;
    Ok(())
}

/// Adds a number to a client's list.
pub fn add_number(clients: &mut IndexMap<u64, Numbers>, client: u64, number: u32)
    requires room { has_room_in (get nat_eq clients.old client) ≡ true }
    requires few { length (numbers_or_empty (get nat_eq clients.old client)) < MAX_CHANNELS }
    ensures { (k : ℕ) → numbers_or_empty (get nat_eq clients.new k) ≡ (if nat_eq client k
        then numbers_or_empty (get nat_eq clients.old k) ++ number ∷ []
        else numbers_or_empty (get nat_eq clients.old k)) }
{
    if let Some(numbers) = clients.get_mut(&client) {
        numbers.push(number);
    }
}

/// Takes a number out of a client's list, and the list where it was the last one.
pub fn drop_number(clients: &mut IndexMap<u64, Numbers>, client: u64, number: u32)
    ensures { (k : ℕ) → numbers_or_empty (get nat_eq clients.new k) ≡ (if nat_eq client k
        then filter (λ x. not (x == number)) (numbers_or_empty (get nat_eq clients.old k))
        else numbers_or_empty (get nat_eq clients.old k)) }
{
    let Some(numbers) = clients.get_mut(&client) else {
        return;
    };
    numbers.remove(number);
    if numbers.is_empty() {
        clients.swap_remove(&client);
    }
}

/// Makes sure that there are a free slot, and a list for a client with room for one more, and gives
/// the slot's number.
pub fn make_room(
    slots: &mut Slots,
    clients: &mut IndexMap<u64, Numbers>,
    client: u64,
) -> Result<u32, OutOfMemory>
    ensures front { IfOk result (λ number. slots.new.front ≡ Some number) }
    ensures ready { OnOk result (HasReadySlot slots.new) }
    ensures fresh { IfOk result (λ number. IsNumberFree slots.old.entries number) }
    ensures entries { slots.new.entries ≡ slots.old.entries }
    ensures room { OnOk result (has_room_in (get nat_eq clients.new client) ≡ true) }
    ensures same { (k : ℕ) → numbers_or_empty (get nat_eq clients.new k) ≡ numbers_or_empty (get nat_eq clients.old k) }
{
    slots.make_room()?;
    make_list(clients, client)?;
    Ok(slots.front())
}

/// Notes the number for a client's own number, which is new.
pub fn insert_own(
    index: &mut IndexMap<(u64, u32), u32>,
    client: u64,
    own: u32,
    number: u32,
) -> Result<(), OutOfMemory>
    ensures ok { OnOk result ((k c : ℕ) → get pair_eq index.new (k, c)
        ≡ (if pair_eq (client, own) (k, c) then Some number else get pair_eq index.old (k, c))) }
    ensures unchanged { OnErr result ((k c : ℕ) → get pair_eq index.new (k, c)
        ≡ get pair_eq index.old (k, c)) }
{
    index.insert((client, own), number)?;
    Ok(())
}

/// Notes the number for a number of the server's, which is new.
pub fn insert_remote(
    index: &mut IndexMap<u32, u32>,
    remote: u32,
    number: u32,
) -> Result<(), OutOfMemory>
    ensures ok { OnOk result ((s : ℕ) → get nat_eq index.new s
        ≡ (if nat_eq remote s then Some number else get nat_eq index.old s)) }
    ensures unchanged { OnErr result ((s : ℕ) → get nat_eq index.new s ≡ get nat_eq index.old s) }
{
    index.insert(remote, number)?;
    Ok(())
}

/// Forgets a client's own number, if there is one.
pub fn remove_own(index: &mut IndexMap<(u64, u32), u32>, client: u64, own: Option<u32>)
    ensures { (k c : ℕ) → get pair_eq index.new (k, c)
        ≡ (if is_index_key pair_eq (paired client own) (k, c) then None
        else get pair_eq index.old (k, c)) }
{
    if let Some(own) = own {
        index.swap_remove(&(client, own));
    }
}

/// Forgets a number of the server's, if there is one.
pub fn remove_remote(index: &mut IndexMap<u32, u32>, remote: Option<u32>)
    ensures { (s : ℕ) → get nat_eq index.new s
        ≡ (if is_index_key nat_eq remote s then None else get nat_eq index.old s) }
{
    if let Some(remote) = remote {
        index.swap_remove(&remote);
    }
}
