// The kinds of step that a server serves: read and write, each on a sound table and with arguments in range. The server is chosen by
// crates/choice. The promise of each is `Obeys` in crates/kinds/specs/Obeys.antt.
#![tactic(auto)]

ghost use Rattle.std.specs.Prelude.{◌<◌};
ghost use Rattle.kinds.specs.Obeys.{Sound};
ghost use Rattle.serving.specs.Asked.{Asked};

use choice::Asking;
use tables::refusal::Refusal;
use views::Store;

pub mod reading;
pub mod writing;

// The session of slot k, that asks for a server in reach. Refused as `SlotState` if the slot is closed, as `NoReach` if no server is in
// reach.
fn asking<'a>(store: &'a Store<'_>, k: usize, reach: u32) -> Result<Asking<'a>, Refusal>
    requires { Sound store.now × (k < store.now.sizes.p) }
    ensures { Asked store.now k reach result }
{
    let table = store.view();
    if table.guarantees(k) == 0 {
        return Err(Refusal::SlotState);
    }
    if reach == 0 {
        return Err(Refusal::NoReach);
    }
    Ok(Asking {
        table,
        slot: k,
        reach,
    })
}
