//! The tokens of a history. They have no bytes, and their functions do nothing when they run.
ghost use Rattle.std.specs.Prelude.{◌≡◌, ℕ, ◌+◌, ◌<◌, List, [], ◌∷◌, ◌++◌};
ghost use mathlib.Core.List.{IsPrefix};
ghost use base.Stored.{coded_list, coded×, coded_ℕ};
ghost use Rattle.history.specs.Owned.{log_owns, author_owns};
ghost use Rattle.history.specs.Entries.{entries_by, HasAuthors};

use std::marker::{Brand, Model, PhantomData};

/// The history that a log and its authors belong to, as a type. A function that opens a log is generic over it; call it with
/// `std::marker::Brand`.
pub trait History {
    ghost history: { ℕ × ℕ };
}

impl History for Brand {
    ghost history = { (0, 0) };
}

/// Tells which entry a call of [`Log::add`] adds: it is made from a value that the caller shows to the call.
pub trait Adds<X, E> {
    ghost entry: { X → E };
}

/// A new log without entries. It becomes the log of a history by [`NewLog::open`].
pub struct NewLog<E> {
    marker: PhantomData<E>,
    pub ghost name: { ℕ × ℕ } by { coded× coded_ℕ coded_ℕ },
}

impl<E> Model for NewLog<E> {
    ghost also_owns = { λ new. log_owns E.row.coded.code new.name 0 [] };
}

/// All entries of a history, each with the number of the author that added it. There is one log of a history, and it grows only
/// where the log and an author are at hand. Keep it behind a lock, beside what its entries speak of.
pub struct Log<E, L: History> {
    marker: PhantomData<(E, L)>,
    pub ghost authors: { ℕ },
    pub ghost entries: { List (ℕ × E) } by { coded_list (coded× coded_ℕ E.code) },
}

impl<E, L: History> Model for Log<E, L> {
    ghost also_owns = { λ log. log_owns E.row.coded.code L.history log.authors log.entries };
}

/// An author of a history: its number, the entries that it added, and the history as it was when the author was made or last added
/// an entry. No other author of the history has its number.
pub struct Author<E, L: History> {
    marker: PhantomData<(E, L)>,
    pub ghost number: { ℕ },
    pub ghost own: { List E } by { coded_list E.code },
    pub ghost seen: { List (ℕ × E) } by { coded_list (coded× coded_ℕ E.code) },
}

impl<E, L: History> Model for Author<E, L> {
    ghost also_owns = { λ author.
        author_owns E.row.coded.code L.history author.number author.own author.seen };
}

impl<E> NewLog<E> {
    /// Makes a log under a name that no other history has.
    pub fn new() -> NewLog<E> {
        NewLog {
            marker: PhantomData,
        }
    }

    /// Returns the log as that of the history `L`, which must have its name. It has no authors and no entries yet.
    pub fn open<L: History>(self) -> Log<E, L>
        requires { self.name ≡ L.history }
        ensures { (result.authors ≡ 0) × (result.entries ≡ []) }
    {
        let Self { marker: _ } = self;
        Log {
            marker: PhantomData,
        }
    }
}

impl<E, L: History> Log<E, L> {
    /// Makes an author with the next number. It has added no entries, and has seen all that the log has.
    pub fn author(&mut self) -> Author<E, L>
        ensures log { (self.new.authors ≡ self.old.authors + 1)
            × (self.new.entries ≡ self.old.entries) }
        ensures author { (result.number ≡ self.old.authors)
            × (result.own ≡ [])
            × (result.seen ≡ self.old.entries) }
    {
        Author {
            marker: PhantomData,
        }
    }

    /// Appends the entry that `M` makes of `about` to the log, under the author's number, and to the author's own entries. The
    /// author has then seen the whole log.
    ///
    /// The call also tells what holds of the log before it: its entries under the author's number are exactly the author's own, in
    /// order; what the author had seen is a prefix of the log; and each entry is of an author that the log made.
    pub fn add<X, M: Adds<X, E>>(&mut self, author: &mut Author<E, L>, about: &X)
        ensures log { (self.new.authors ≡ self.old.authors)
            × (self.new.entries
            ≡ self.old.entries ++ (author.old.number, M.entry about.now) ∷ []) }
        ensures author { (author.new.number ≡ author.old.number)
            × (author.new.own ≡ author.old.own ++ M.entry about.now ∷ [])
            × (author.new.seen ≡ self.new.entries) }
        ensures own { author.old.own ≡ entries_by author.old.number self.old.entries }
        ensures seen { IsPrefix author.old.seen self.old.entries }
        ensures authors { (author.old.number < self.old.authors)
            × HasAuthors self.old.authors self.old.entries }
    {}
}

impl<E> Drop for NewLog<E> {
    fn drop(self) {
        let Self { marker: _ } = self;
    }
}

impl<E, L: History> Drop for Log<E, L> {
    fn drop(self) {
        let Self { marker: _ } = self;
    }
}

impl<E, L: History> Drop for Author<E, L> {
    fn drop(self) {
        let Self { marker: _ } = self;
    }
}

unsafe impl<E> Send for NewLog<E> {}

unsafe impl<E, L: History> Send for Log<E, L> {}

unsafe impl<E, L: History> Send for Author<E, L> {}
