// What a read looks for in a log.
ghost use Rattle.std.specs.Prelude.{◌≡◌, map};
ghost use Rattle.logs.specs.Log.{last_on};
ghost use Rattle.logs.specs.Places.{write_in};
ghost use Rattle.filing.specs.Found.{last_of};

use logs::Entry;

// The last write on an item in the log's order.
pub fn last_on(log: &[[u32; 4]], item: u32) -> Option<Entry>
    ensures { last_of result ≡ last_on item (map write_in log.now) }
{
    log.iter()
        .rev()
        .copied()
        .map(Entry::from)
        .find(|w| w.item == item)
}
