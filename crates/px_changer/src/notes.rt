//! What the first pass has seen is told to the others.
ghost use Rattle.std.specs.Prelude.{◌≡◌, ◌<◌, false, length, OnOk};
ghost use Rattle.px_hub.specs.AllOfThem.{AreClosed};
ghost use Rattle.px_hub.specs.Calls.{seen_of};
ghost use Rattle.px_changer.specs.Alone.{AreIdle, HoldEvery, IsAlone, MetAt, AllMet};

use px_hub::{Hub, HubName, Pass};
use std::alloc::AllocError;

/// The others meet a note of the first. Where they have made no change, the first has made all that
/// it has seen. The only failure is want of memory.
pub(crate) fn tell<N: HubName>(
    hub: &Hub<N>,
    first: &mut Pass<N>,
    others: &mut [Pass<N>],
) -> Result<(), AllocError>
    requires first_closed { first.old.is_open ≡ false }
    requires closed { AreClosed others.old }
    requires idle { AreIdle others.old }
    requires every { HoldEvery N.passes first.old.number others.old }
    ensures same { first.new ≡ first.old }
    ensures alone { OnOk result (IsAlone N.passes first.new others.new) }
{
    match meet_all(hub, first, others) {
        Ok(()) => {
            first.version();
            Ok(())
        }
        Err(error) => Err(error),
    }
}

// Each of the others meets a note of the first.
fn meet_all<N: HubName>(
    hub: &Hub<N>,
    first: &mut Pass<N>,
    others: &mut [Pass<N>],
) -> Result<(), AllocError>
    requires first_closed { first.old.is_open ≡ false }
    requires closed { AreClosed others.old }
    ensures same { first.new ≡ first.old }
    ensures met { OnOk result (AllMet (seen_of first.old) others.old others.new) }
{
    for at in 0..others.len() {
        match meet_at(hub, first, others, at) {
            Ok(()) => {}
            Err(error) => return Err(error),
        }
    }
    Ok(())
}

// One of the others meets a note of the first.
fn meet_at<N: HubName>(
    hub: &Hub<N>,
    first: &mut Pass<N>,
    others: &mut [Pass<N>],
    at: usize,
) -> Result<(), AllocError>
    requires first_closed { first.old.is_open ≡ false }
    requires closed { AreClosed others.old }
    requires within { at < length others.old }
    ensures same { first.new ≡ first.old }
    ensures met { OnOk result (MetAt (seen_of first.old) at others.old others.new) }
{
    let note = hub.note(first)?;
    let other = &mut others[at];
    hub.meet(other, note);
    Ok(())
}
