//! Histories that all threads share, and tokens for their prefixes.
//!
//! A history exists only in proofs: the program keeps only its length. A house has two: of the
//! additions to its published lists, and of its events.
ghost use Rattle.std.specs.Prelude.{◌≡◌, ◌⊎◌, ◌+◌, ◌<◌, ◌≤◌, ◌++◌, ◌∷◌, [], length, MatchBool, None};
ghost use mathlib.Core.List.{IsPrefix};
ghost use Rattle.urb_show.specs.internal.History.{IsFull, head_of};

use crate::entry::Addition;
use crate::history::calls::Happening;
use logbook::{Gain, Offer, Plain, Play, Rule, Seen, Start, Word};
use std::marker::{Brand, Model, PhantomData};

// The most entries that a history may have.
const MOST: u64 = 1 << 62;

/// The rule of a book: its word is the length of the history.
pub(crate) struct Law;

impl<E> Rule<E, u64> for Law {
    ghost use Rattle.std.specs.Prelude.{[]};
    ghost use base.Fml.{ftrue};
    ghost use Rattle.urb_show.specs.internal.History.{IsKept};

    ghost holds = { λ cells log. IsKept cells log };

    ghost first = { [] };

    ghost hinted = { λ n log. Unit {0} };

    ghost shows = { λ log. [] };

    ghost keeps = { λ names log. ftrue };

    ghost moves = { λ ask before after answer. Unit {0} };
}

/// Callers exchange nothing.
pub(crate) struct Nothing;

impl<E> Gain<E, u64> for Nothing {
    ghost use base.Fml.{ftrue};

    ghost after = { λ names about answer. ftrue };
}

/// A step that adds.
pub(crate) struct Add;

impl<E> Play<E, u64> for Add {
    ghost use Rattle.urb_show.specs.internal.History.{Adds};

    ghost then = { Adds };
}

impl Plain<Addition, Addition, u64> for Add {
    ghost use Rattle.std.specs.Prelude.{None};

    ghost ask = { λ addition. addition };

    ghost state = { λ addition. None };
}

/// The name of one house, as a type: every value with this name in its type belongs to that house.
/// A function that is generic over it calls `parts`. Such a function is itself called with std's
/// `Brand`, and the caller's proof says which house that is. The ghost members are the books of the
/// house's additions and of its events, and the lists and the group that the house opened with.
pub trait HouseName {
    ghost use Rattle.logbook.specs.Pages.{Book};
    ghost use Rattle.urb_group.specs.GroupViews.{GroupView};
    ghost use Rattle.urb_show.specs.Lists.{Lists};

    ghost book: { Book };

    ghost history: { Book };

    ghost base: { Lists };

    ghost origin: { GroupView };
}

impl HouseName for Brand {
    ghost use Rattle.std.specs.Prelude.{[]};

    ghost book = { record { number = 0; log_name = 0; cells_name = 0 } };

    ghost history = { record { number = 0; log_name = 0; cells_name = 0 } };

    ghost base = { [] };

    ghost origin = { record { size = record { n = 1; cap = 1 }; nodes = [] } };
}

/// The name of one book.
pub(crate) trait BookName {
    ghost use Rattle.logbook.specs.Pages.{Book};

    ghost name: { Book };
}

/// The book of a house's additions.
pub(crate) struct OfAdditions<K> {
    of: PhantomData<K>,
}

impl<K: HouseName> BookName for OfAdditions<K> {
    ghost name = { K.book };
}

/// The book of a house's events.
pub(crate) struct OfEvents<K> {
    of: PhantomData<K>,
}

impl<K: HouseName> BookName for OfEvents<K> {
    ghost name = { K.history };
}

/// A prefix of the history of all events.
pub(crate) type EventToken<K> = Token<Happening, OfEvents<K>>;

/// A prefix of the history of all additions.
pub(crate) type HistoryToken<K> = Token<Addition, OfAdditions<K>>;

/// A new book without a name.
#[derive(Drop)]
pub(crate) struct UnnamedBook<E> {
    head: Word<E, u64, Law>,
    seen: Seen<E, u64, Law>,
    pub(crate) ghost empty: { seen.log ≡ [] },
    pub(crate) ghost head_is: { head ≡ head_of seen.book },
}

impl<E> UnnamedBook<E> {
    pub(crate) fn new() -> UnnamedBook<E> {
        let (seen, mut first, _second) = Seen::open(Start::alone(), 0, 0);
        UnnamedBook {
            head: Word::tracked(0, &mut first),
            seen,
        }
    }

    pub(crate) fn mark(&self) -> Mark<E>
        ensures { result ≡ record { book = self.now.seen.book; log = [] } }
    {
        Mark {
            count: 0,
            seen: self.seen.again(),
        }
    }

    /// The book under a name, and the empty history.
    pub(crate) fn parts<J: BookName>(self) -> (Book<E, J>, Token<E, J>)
        requires { self.seen.book ≡ J.name }
        ensures { result.1 ≡ [] }
    {
        let UnnamedBook { head, seen } = self;
        (
            Book {
                head,
                of: PhantomData,
            },
            Token {
                count: 0,
                seen,
                of: PhantomData,
            },
        )
    }
}

/// The word with the length of the history. Only the house has it.
#[derive(Drop)]
pub(crate) struct Book<E, J: BookName> {
    head: Word<E, u64, Law>,
    of: PhantomData<J>,
}

impl<E, J: BookName> Model for Book<E, J> {
    ghost use Rattle.std.specs.Prelude.{◌≡◌};
    ghost use Rattle.logbook.specs.Pages.{Named};
    ghost use Rattle.urb_show.specs.internal.History.{head_of};

    ghost Value = { Named };

    ghost view = { λ b. b.head };

    ghost invariant = { λ b. b.head ≡ head_of J.name };
}

/// A prefix of the history of the book that contracts see with it.
#[derive(Drop)]
pub(crate) struct Mark<E> {
    count: u64,
    seen: Seen<E, u64, Law>,
}

impl<E> Model for Mark<E> {
    ghost use Rattle.std.specs.Prelude.{◌≡◌, length};
    ghost use Rattle.urb_show.specs.internal.Marks.{MarkView};

    ghost Value = { MarkView E };

    ghost view = { λ m. record { book = m.seen.book; log = m.seen.log } };

    ghost invariant = { λ m. m.count ≡ length m.seen.log };
}

impl<E> Mark<E> {
    pub(crate) fn copy(&self) -> Mark<E>
        ensures { result ≡ self.now }
    {
        Mark {
            count: self.count,
            seen: self.seen.again(),
        }
    }

    /// The same prefix, under the book's name.
    pub(crate) fn token<J: BookName>(&self) -> Token<E, J>
        requires { self.now.book ≡ J.name }
        ensures { result ≡ self.now.log }
    {
        Token {
            count: self.count,
            seen: self.seen.again(),
            of: PhantomData,
        }
    }
}

/// A prefix of a history. Contracts see it as its entries.
#[derive(Drop)]
pub(crate) struct Token<E, J: BookName> {
    count: u64,
    seen: Seen<E, u64, Law>,
    of: PhantomData<J>,
}

impl<E, J: BookName> Model for Token<E, J> {
    ghost use Rattle.std.specs.Prelude.{◌≡◌, List, length};

    ghost Value = { List E };

    ghost view = { λ f. f.seen.log };

    ghost invariant = { λ f. (f.count ≡ length f.seen.log) × (f.seen.book ≡ J.name) };
}

impl<E, J: BookName> Token<E, J> {
    pub(crate) fn len(&self) -> u64
        ensures { result ≡ length self.now }
    {
        self.count
    }

    /// A copy.
    pub(crate) fn copy(&self) -> Token<E, J>
        ensures { result ≡ self.now }
    {
        Token {
            count: self.count,
            seen: self.seen.again(),
            of: PhantomData,
        }
    }

    pub(crate) fn mark(&self) -> Mark<E>
        ensures { result ≡ record { book = J.name; log = self.now } }
    {
        Mark {
            count: self.count,
            seen: self.seen.again(),
        }
    }

    /// A copy. A history of this book that isn't longer is a prefix of this one.
    pub(crate) fn copy_after(&self, earlier: &Token<E, J>) -> Token<E, J>
        requires { length earlier.now ≤ length self.now }
        ensures same { result ≡ self.now }
        ensures begins { IsPrefix earlier.now self.now }
    {
        let mut both = self.seen.again();
        both.learn(&earlier.seen);
        self.copy()
    }

    /// The longer one of two histories. The other one is a prefix of it.
    pub(crate) fn longer_of(&self, other: &Token<E, J>) -> Token<E, J>
        ensures one { (result ≡ self.now) ⊎ (result ≡ other.now) }
        ensures this { IsPrefix self.now result }
        ensures that { IsPrefix other.now result }
    {
        if self.count < other.count {
            other.copy_after(self)
        } else {
            self.copy_after(other)
        }
    }

    /// Adds to the history what `about` names. Returns false if the history is full, or if it is
    /// longer than this prefix. In the second case, this value becomes the longer prefix.
    pub(crate) fn add<X, M: Plain<X, E, u64>>(&mut self, book: &Book<E, J>, about: &X) -> bool
        requires { M.state about.now ≡ None }
        ensures added { MatchBool result (self.new ≡ self.old ++ M.ask about.now ∷ [])
            (IsFull self.old ⊎ (length self.old < length self.new)) }
        ensures begins { IsPrefix self.old self.new }
    {
        if self.count >= MOST {
            return false;
        }
        let mut offer: Offer<E, u64, Law, Nothing> = self.seen.plain::<Nothing, X, M>(about);
        let mut pen = self.seen.no_pen();
        let count = self.count;
        let found = book
            .head
            .compare_exchange::<Add, Nothing>(
                count,
                count + 1,
                &mut self.seen,
                &mut offer,
                &mut pen,
            );
        self.count = if found == count { count + 1 } else { found };
        found == count
    }
}
