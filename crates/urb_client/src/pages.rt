//! Pages of entries, and how many of them a frame has room for.

ghost use Rattle.std.specs.Prelude.{◌≡◌, ◌≤◌, ℕ, [], length, take};
ghost use Rattle.urb_client.specs.Listings.{listing_body};
ghost use Rattle.urb_client.specs.Pages.{IsReadWhole};

use crate::format::{ENTRY_HEAD, LISTING_HEAD, LONGEST_FRAME};
use std::alloc::Allocator;
use urb_names::{Message, Name};

// The entries that a frame has room for, from the first on.
#[derive(Clone, Copy)]
pub(crate) struct Fitting {
    // how many there are
    pub(crate) count: usize,
    // how many bytes the body of a response has that lists them
    pub(crate) bytes: usize,
}

// Returns which entries a frame has room for.
pub(crate) fn measure_fitting<A: Allocator>(entries: &[(Name, Message<A>)]) -> Fitting
    ensures within { result.count ≤ length entries.now }
    ensures bytes { length (listing_body (take result.count entries.now)) ≡ result.bytes }
    ensures fits { result.bytes ≤ LONGEST_FRAME }
    ensures longest { (count : ℕ)
        → count ≤ length entries.now
        → length (listing_body (take count entries.now)) ≤ LONGEST_FRAME
        → count ≤ result.count }
    ensures some { result.count ≡ 0 → entries.now ≡ [] }
{
    let mut used = LISTING_HEAD;
    let mut count = 0;
    for (_, message) in entries {
        let size = ENTRY_HEAD + message.payload().len();
        if LONGEST_FRAME < used + size {
            return Fitting { count, bytes: used };
        }
        used += size;
        count += 1;
    }
    Fitting { count, bytes: used }
}

/// States that a reader gets every entry of a log once if it asks for the entries after those that
/// it has, again and again. This call does nothing: it is for proofs only.
pub fn one_page_after_another()
    ensures { IsReadWhole }
{}
