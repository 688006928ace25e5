// What is kept from section to section.
ghost use Rattle.std.specs.Prelude.{◌≡◌, ◌≤◌};
ghost use Rattle.replay.specs.State.{START, differing, counted, passed};

use crate::header::Topic;
use crate::window::{Window, advanced};

// How many answers about each topic were compared, and how many differ. No run counts so far that a count stays.
#[derive(Clone, Copy)]
pub struct Counts {
    pub checks: usize,
    pub roles: usize,
    pub everys: usize,
    pub listings: usize,
    pub taggeds: usize,
    pub generics: usize,
    pub differences: usize,
}

#[derive(Clone, Copy)]
pub struct State {
    // Where the unread bytes stand.
    pub at: Window,
    // How many more bytes to pass over.
    pub skip: usize,
    // The length of the list at hand.
    pub list: usize,
    pub cases: usize,
    pub counts: Counts,
}

// Nothing is read, and nothing counted.
pub fn start() -> State
    ensures { result ≡ START }
{
    State {
        at: Window { from: 0, to: 0 },
        skip: 0,
        list: 0,
        cases: 0,
        counts: Counts {
            checks: 0,
            roles: 0,
            everys: 0,
            listings: 0,
            taggeds: 0,
            generics: 0,
            differences: 0,
        },
    }
}

// One more where an answer is not right.
fn count_wrong(n: usize, right: bool) -> usize
    ensures { result ≡ differing right n }
{
    if right { n } else { n.saturating_add(1) }
}

// One more answer about this topic, right or not.
pub fn counted(counts: Counts, topic: Topic, right: bool) -> Counts
    ensures { result ≡ counted counts topic right }
{
    let differences = count_wrong(counts.differences, right);
    match topic {
        Topic::Check => Counts {
            checks: counts.checks.saturating_add(1),
            differences,
            ..counts
        },
        Topic::Roles => Counts {
            roles: counts.roles.saturating_add(1),
            differences,
            ..counts
        },
        Topic::Every => Counts {
            everys: counts.everys.saturating_add(1),
            differences,
            ..counts
        },
        Topic::Listing => Counts {
            listings: counts.listings.saturating_add(1),
            differences,
            ..counts
        },
        Topic::Tagged => Counts {
            taggeds: counts.taggeds.saturating_add(1),
            differences,
            ..counts
        },
        Topic::Generics(_) => Counts {
            generics: counts.generics.saturating_add(1),
            differences,
            ..counts
        },
    }
}

// Passes over what is left of a section, as far as it was read.
pub fn passed(s: State) -> State
    requires { s.at.from ≤ s.at.to }
    ensures { result ≡ passed s }
{
    let n = s.skip.min(s.at.to - s.at.from);
    State {
        at: advanced(s.at, n),
        skip: s.skip - n,
        ..s
    }
}
