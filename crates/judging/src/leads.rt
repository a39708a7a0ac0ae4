// Tracks grouped by equal or opposite labels.
ghost use Rattle.std.specs.Prelude.{◌≡◌, ℕ, ◌≤◌, length};
ghost use Rattle.judging.specs.Leads.{LeadOf, LeadsOf, Low};

use label::Label;
use network::TRACKS;
use std::array;

// In an array, since judging takes no memory: for each track its lead, the lowest track with an equal or opposite label; none where it carries zero.
#[derive(Drop)]
pub(crate) struct Leads {
    pub(crate) leads: [Option<u16>; TRACKS],
    ghost long: { length leads ≡ 2048 },
    ghost low: { Low leads },
}

// The lead of a track; none where it carries zero or is absent.
fn lead_of<K: Label>(labels: &[K], number: usize) -> Option<u16>
    requires { length labels.now ≤ 2048 }
    ensures { LeadOf K.group labels.now number result }
{
    let own = labels.get(number)?;
    if own.same(&K::zero()) {
        return None;
    }
    let opposite = own.opposite();
    let lead = labels[..number]
        .iter()
        .position(|other| other.same(own) || other.same(&opposite));
    Some(lead.unwrap_or(number) as u16)
}

impl Leads {
    // The leads of tracks with these labels.
    pub(crate) fn of<K: Label>(labels: &[K]) -> Leads
        requires { length labels.now ≤ 2048 }
        ensures { LeadsOf K.group labels.now result.leads }
    {
        Leads {
            leads: array::from_fn(|number| lead_of(labels, number)),
        }
    }
}
