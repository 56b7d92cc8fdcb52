// Bytes that were checked: the texts in them, by their indexes, and the clock's.
ghost use Rattle.std.specs.Prelude.{◌≡◌};
ghost use Rattle.book.specs.Steps.{TagLine, found_at};

use crate::check;
use crate::entries::carries_level;
use crate::guess::{ahead, place};
use crate::lines::line_end;
use crate::sides::{Side, side_of};
use answer::Refusal;
use std::marker::Model;

// Where the text of an entry starts, how long it is, and whether its tag carries a level.
pub type Found = Option<(usize, usize, bool)>;

// Where the timestamp's text starts, and how long it is.
pub type Clock = Option<(usize, usize)>;

// Bytes that `check` finds to be a book. Clauses see its bytes; whoever holds one need not check again. No other module can make one.
#[derive(Drop)]
pub struct Book<'a> {
    bytes: &'a [u8],
}

impl<'a> Model for Book<'a> {
    ghost use Rattle.std.specs.Prelude.{◌≡◌, ℕ, List, Ok};
    ghost use Rattle.book.specs.Book.{checked};

    ghost Value = { List ℕ };

    ghost view = { λ b. b.bytes.now };

    ghost invariant = { λ b. checked b.bytes.now ≡ Ok tt };
}

// Where the value of the second line stands, for all books have a first line of 7 bytes; and the timestamp's text, where that value is `yes`.
const CLOCK: usize = 13;

const STAMP: usize = 27;

impl<'a> Book<'a> {
    ghost use Rattle.std.specs.Prelude.{◌≡◌, Ok, Err, None, MatchResult, MatchOption};
    ghost use Rattle.book.specs.Book.{checked, find, clock, IsText};

    // The bytes as a book: SIZE or BOOK where they are none.
    pub fn new(bytes: &'a [u8]) -> Result<Self, Refusal>
        ensures verdict { MatchResult result (λ b. (b ≡ bytes.now) × (checked bytes.now ≡ Ok tt)) (λ r. checked bytes.now ≡ Err r) }
    {
        check(bytes)?;
        Ok(Book { bytes })
    }

    // The same bytes, for a caller who has checked them.
    pub fn of(bytes: &'a [u8]) -> Self
        requires { checked bytes.now ≡ Ok tt }
        ensures { result ≡ bytes.now }
    {
        Book { bytes }
    }

    // The bytes of the book.
    pub fn bytes(&self) -> &'a [u8]
        ensures same { result.now ≡ self.now }
        ensures is_book { checked self.now ≡ Ok tt }
    {
        self.bytes
    }

    // The timestamp's text, where the book has a clock.
    pub fn clock(&self) -> Clock
        ensures { result ≡ clock self.now }
    {
        let bytes = self.bytes;
        if bytes[CLOCK] == b'y' {
            return Some((STAMP, line_end(bytes, STAMP) - STAMP));
        }
        None
    }

    // The text of the entry with an index, and whether its tag carries a level.
    pub fn text(&self, index: usize) -> Option<(&'a [u8], bool)>
        ensures { MatchOption result (find self.now index ≡ None) (λ t. IsText self.now (find self.now index) t.0.now t.1) }
    {
        let (start, size, level) = self.find(index)?;
        let bytes = self.bytes;
        Some((&bytes[start..start + size], level))
    }

    // The entry with an index. If it is there, it follows a line's end from `from` on and before `bound`; indexes rise, so the entry that
    // follows a place between tells which side is left. The place is guessed from what the last turn saw: so many `bytes` took so many
    // `steps` of indexes, and those left begin at `least`. At first an index is taken to have 48 bytes.
    pub fn find(&self, index: usize) -> Found
        ensures { result ≡ find self.now index }
    {
        let bytes = self.bytes;
        let mut from = 0;
        let mut bound = bytes.len();
        let mut least = 0;
        let mut size = 48;
        let mut steps = 1;
        let mut turn = 0;
        // A search, and no count: each turn takes away as much as it saw.
        while from < bound {
            let at = place(from, bound, ahead(index - least, size, steps, turn));
            turn = (turn + 1) % 4;
            match side_of(bytes, at, bound, index) {
                Side::Above(n) => {
                    size = at - from;
                    steps = n.saturating_sub(least);
                    bound = at;
                }
                Side::Below(n, stop) => {
                    prove!(n < index && at < stop);
                    size = stop - from;
                    steps = (n + 1).saturating_sub(least);
                    from = stop;
                    least = n + 1;
                }
                Side::Here(stop) => return text_of(bytes, stop + 1),
            }
        }
        None
    }
}

// The text of the entry whose tag line starts at a place.
fn text_of(book: &[u8], at: usize) -> Found
    requires { TagLine book.now at }
    ensures { result ≡ found_at book.now at }
{
    let stop = line_end(book, at + 4);
    let start = stop + 6;
    let level = carries_level(&book[at + 4..stop]);
    Some((start, line_end(book, start) - start, level))
}
