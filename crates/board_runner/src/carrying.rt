//! Meetings between the stations of a board.

ghost use Rattle.std.specs.Prelude.{◌≡◌, ◌≢◌, ◌<◌, length};
ghost use Rattle.board_runner.specs.Meeting.{MayMeetAt, MeetAt};
ghost use Rattle.board_runner.specs.Runs.{IsSomeBoard, Leads, AllCarried, CarriedBut, KnowsTrulyAt, KeepCounts};
ghost use Rattle.board_runner.specs.StationsMet.{LinksMeetAt};

use crate::station::Station;
use domain_core::carry;

/// Has the ends of a station's links meet those of its peers: each peer knows then of all that the domain put and gave back, and
/// the domain of all that they did. What it knew before was true, so its looks showed what there was.
pub fn carry_all(stations: &mut [Station<'_>], at: usize)
    requires at { at < length stations.old }
    requires board { IsSomeBoard stations.old }
    requires others { CarriedBut at stations.old }
    ensures truly { KnowsTrulyAt at stations.old }
    ensures run { Leads (λ s r. r) stations.old stations.new }
    ensures carried { AllCarried stations.new }
    ensures counts { KeepCounts stations.old stations.new }
{
    for other in 0..stations.len() {
        if other != at {
            meet_between(stations, at, other);
        }
    }
}

/// Has the stations at two places meet, in whichever order they are. Where there is no link nothing happens.
fn meet_between(stations: &mut [Station<'_>], one: usize, two: usize)
    requires apart { one ≢ two }
    requires one_within { one < length stations.old }
    requires two_within { two < length stations.old }
    requires board { IsSomeBoard stations.old }
    ensures { LinksMeetAt one two stations.old stations.new }
{
    if one < two {
        meet_at(stations, one, two);
    } else {
        meet_at(stations, two, one);
    }
}

/// What changes together with another of its kind.
trait Meets {
    ghost MayMeet: { Self → Self → Type 0 };

    ghost Met: { Self → Self → Self → Self → Type 0 };

    fn meet(&mut self, other: &mut Self)
        requires { MayMeet self.old other.old }
        ensures { Met self.old other.old self.new other.new };
}

impl Meets for Station<'_> {
    ghost use Rattle.board_runner.specs.StationsMet.{StationsMayMeet, StationsMeet};

    ghost MayMeet = { StationsMayMeet };

    ghost Met = { StationsMeet };

    fn meet(&mut self, other: &mut Self) {
        if self.domain.has_peer(other.domain_number) {
            carry(&mut self.domain, &mut other.domain);
        }
    }
}

/// Has two items of a slice meet. It takes items of any type, since a proof learns nothing of what two parts of a slice end as
/// where the items' type names a lifetime.
fn meet_at<T: Meets>(items: &mut [T], low: usize, high: usize)
    requires order { low < high }
    requires within { high < length items.old }
    requires may { MayMeetAt T.MayMeet low high items.old }
    ensures { MeetAt T.Met low high items.old items.new }
{
    let (before, after) = items.split_at_mut(high);
    before[low].meet(&mut after[0]);
}
