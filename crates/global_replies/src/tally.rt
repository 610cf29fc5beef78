ghost use Rattle.std.specs.Prelude.{◌≡◌, ◌<◌, ◌+◌, ◌-◌, ℕ, nat_eq, if◌then◌else◌, OnOk, OnErr};
ghost use Rattle.indexmap.specs.IndexMap.{get};
ghost use Rattle.global_replies.specs.Tally.{count_or_zero};
ghost use Rattle.global_replies.specs.declared.ask.TheConstants.{MOST_WAITING};

use indexmap::IndexMap;
use ssh_fields::OutOfMemory;

/// How many there are of a client.
pub fn request_count_of(counts: &IndexMap<u64, u32>, client: u64) -> u32
    ensures { result ≡ count_or_zero (get nat_eq counts.now client) }
{
    match counts.get(&client) {
        Some(count) => *count,
        None => 0,
    }
}

/// One more of a client.
pub fn add_one(counts: &mut IndexMap<u64, u32>, client: u64) -> Result<(), OutOfMemory>
    requires { count_or_zero (get nat_eq counts.old client) < MOST_WAITING }
    ensures ok { OnOk result ((k : ℕ) → count_or_zero (get nat_eq counts.new k)
        ≡ (if nat_eq client k then count_or_zero (get nat_eq counts.old k) + 1
        else count_or_zero (get nat_eq counts.old k))) }
    ensures unchanged { OnErr result ((k : ℕ) → get nat_eq counts.new k
        ≡ get nat_eq counts.old k) }
{
    let count = request_count_of(counts, client) + 1;
    counts.insert(client, count)?;
    Ok(())
}

/// One fewer of a client: it is forgotten where that was the last.
pub fn drop_one(counts: &mut IndexMap<u64, u32>, client: u64)
    ensures { (k : ℕ) → count_or_zero (get nat_eq counts.new k)
        ≡ (if nat_eq client k then count_or_zero (get nat_eq counts.old k) - 1
        else count_or_zero (get nat_eq counts.old k)) }
{
    let Some(count) = counts.get_mut(&client) else {
        return;
    };
    if *count > 1 {
        *count -= 1;
    } else {
        counts.swap_remove(&client);
    }
}
