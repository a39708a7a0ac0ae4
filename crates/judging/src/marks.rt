// The marks that leads give.
ghost use Rattle.std.specs.Prelude.{◌≡◌, ℕ, ◌<◌, ◌≤◌, length};
ghost use Rattle.std.specs.Option.{ForSome};
ghost use Rattle.judging.specs.Marking.{mark_by, Marked, Sized, size_of};

use crate::leads::Leads;
use network::TRACKS;
use network::track::Track;
use sheet::mark::Mark;

// The mark of a track, open or shut, with a lead or none, where the sizes tell how many tracks have each lead.
fn mark_of(shut: bool, lead: Option<u16>, sizes: &[u16]) -> Mark
    requires { ForSome lead (λ l. l < length sizes.now) }
    ensures { result ≡ mark_by shut lead (size_of sizes.now lead) }
{
    match lead {
        _ if shut => Mark::Shut,
        None => Mark::Single,
        Some(lead) => match sizes[lead as usize] {
            0 | 1 => Mark::Alone,
            size => Mark::Mates { lead, size },
        },
    }
}

impl Leads {
    // How many of the first tracks have each lead.
    fn sizes(&self, count: usize) -> [u16; TRACKS]
        requires { count ≤ 2048 }
        ensures long { length result ≡ 2048 }
        ensures sizes { Sized self.now.leads result count }
    {
        let mut sizes = [0; TRACKS];
        for lead in &self.leads[..count] {
            if let Some(lead) = lead {
                sizes[*lead as usize] += 1;
            }
        }
        sizes
    }

    // The marks of all tracks.
    pub(crate) fn marks(&self, tracks: &[Track]) -> [Mark; TRACKS]
        requires { length tracks.now ≤ 2048 }
        ensures long { length result ≡ 2048 }
        ensures marks { Marked tracks.now self.now.leads result (length tracks.now) }
    {
        let sizes = self.sizes(tracks.len());
        let mut marks = [Mark::Shut; TRACKS];
        // over the tracks alone: of what goes through `iter_mut().zip(..)` a proof knows nothing
        for (number, track) in tracks.iter().enumerate() {
            marks[number] = mark_of(track.shut, self.leads[number], &sizes);
        }
        marks
    }
}
