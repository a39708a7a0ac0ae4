// The two ends of a track.
ghost use Rattle.std.specs.Prelude.{◌≡◌};

use network::track::Track;

#[derive(Clone, Copy)]
pub(crate) enum End {
    First,
    Second,
}

impl End {
    ghost use Rattle.labelling.specs.Ends.{end_of};

    // The point at this end of a track.
    pub(crate) fn of(self, one: Track) -> u16
        ensures { result ≡ end_of self one }
    {
        match self {
            End::First => one.first,
            End::Second => one.second,
        }
    }
}
