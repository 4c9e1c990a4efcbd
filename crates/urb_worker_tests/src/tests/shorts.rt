//! The outcome of a job in short, so that a test compares it and drops the whole outcome at once.

use urb_group::Reply;
use urb_names::Refusal;
use urb_show::HouseName;
use urb_turn::{Finished, Settling};

/// What a reply says. A submit that was stored has its number.
#[derive(Clone, Copy, PartialEq, Eq)]
pub(super) enum Said {
    Accepted(u32),
    Same,
    Sent,
    Down,
    Up,
    Stale,
    NotDown,
    Device,
    BadNode,
    Other,
}

/// Whether the names that a job released were published.
#[derive(Clone, Copy, PartialEq, Eq)]
pub(super) enum News {
    Nothing,
    Told,
    OutOfMemory,
}

/// The outcome of a job: the reply, whether it ran, by how many events, and whether a status is
/// there. It also says whether the names that it released were published, and whether readers have
/// something to learn.
#[derive(Clone, Copy, PartialEq, Eq)]
pub(super) struct Short {
    pub(super) said: Said,
    pub(super) ran: bool,
    pub(super) events: u8,
    pub(super) has_status: bool,
    pub(super) news: News,
    pub(super) has_told: bool,
}

// What a refusal says.
fn refused(refusal: &Refusal) -> Said {
    match refusal {
        Refusal::Stale => Said::Stale,
        Refusal::NotDown => Said::NotDown,
        Refusal::Device => Said::Device,
        Refusal::BadNode => Said::BadNode,
        _ => Said::Other,
    }
}

// What a reply says.
fn said_by(reply: &Reply) -> Said {
    match reply {
        Reply::Stored(done) => {
            if done.accepted {
                Said::Accepted(done.name.seq)
            } else {
                Said::Other
            }
        }
        Reply::Same(_) => Said::Same,
        Reply::Sent(_) => Said::Sent,
        Reply::WentDown(_) => Said::Down,
        Reply::Up(_) => Said::Up,
        Reply::Refused(refusal) => refused(refusal),
        _ => Said::Other,
    }
}

// Whether the names that a job released were published.
fn news_of<K: HouseName>(settling: &Settling<K>) -> News {
    match settling {
        Settling::NothingNew => News::Nothing,
        Settling::Told(_) => News::Told,
        Settling::OutOfMemory(_) => News::OutOfMemory,
    }
}

/// The outcome of a job, in short.
pub(super) fn short_of<K: HouseName>(finished: Finished<K>) -> Short {
    let (ran, events) = (finished.ran(), finished.events());
    let news = news_of(finished.settling());
    let (reply, status, told) = finished.into_parts();
    Short {
        said: said_by(&reply),
        ran,
        events,
        has_status: status.is_some(),
        news,
        has_told: told.is_some(),
    }
}
