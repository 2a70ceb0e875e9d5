// The book of the guesses: what was guessed, how many doublings it took, and what came of it.
ghost use Rattle.std.specs.Prelude.{◌≡◌, ◌+◌, ◌-◌, ◌<◌, ◌≤◌, [], ◌∷◌, ◌++◌, length, if◌then◌else◌, nat_lt, slice_set};
ghost use Rattle.std.specs.Prelude.{Some};
ghost use Rattle.guesses.specs.Texts.{verdict_text, line_text};
ghost use Rattle.guesses.specs.Books.{book_lines, empty_book, book_length, book_added, book_rewritten, line_at, Placed};

use std::fmt;

#[derive(Clone, Copy, Debug, PartialEq, Eq)]
pub enum Verdict {
    Open,
    Hit(u16),
    RuledOut,
    GivenUp,
}

impl fmt::Display for Verdict {
    ghost output = { λ v. Some (verdict_text v) };

    fn fmt<W: fmt::Write>(&self, f: &mut fmt::Formatter<W>) -> fmt::Result {
        match *self {
            Verdict::Open => write!(f, "open"),
            Verdict::Hit(points) => write!(f, "hit {points}"),
            Verdict::RuledOut => write!(f, "ruled out"),
            Verdict::GivenUp => write!(f, "given up"),
        }
    }
}

#[derive(Clone, Copy, Debug, PartialEq, Eq)]
pub struct GuessLine {
    pub k: u16,
    pub doublings: u16,
    pub verdict: Verdict,
}

impl fmt::Display for GuessLine {
    ghost output = { λ l. Some (line_text l) };

    fn fmt<W: fmt::Write>(&self, f: &mut fmt::Formatter<W>) -> fmt::Result {
        let GuessLine {
            k,
            doublings,
            verdict,
        } = *self;
        write!(f, "guess {k} doublings {doublings} {verdict}")
    }
}

// A book needs no heap: 24 places and how many of them are used, and a line changes through `&mut self`.
#[derive(Clone, Copy)]
pub struct Book {
    lines: [GuessLine; 24],
    used: usize,
}

impl Book {
    // A book with no line.
    pub fn new() -> Book
        ensures value { result ≡ empty_book }
        ensures lines { book_lines result ≡ [] }
    {
        let line = GuessLine {
            k: 0,
            doublings: 0,
            verdict: Verdict::Open,
        };
        Book {
            lines: [line; 24],
            used: 0,
        }
    }

    // The lines, in order.
    pub fn lines(&self) -> &[GuessLine]
        ensures lines { result.now ≡ book_lines self.now }
        ensures placed { Placed self.now }
    {
        self.lines.get(..self.used).unwrap_or(&self.lines)
    }

    // How many lines there are.
    pub fn len(&self) -> usize
        ensures lines { result ≡ length (book_lines self.now) }
        ensures most { result ≤ 24 }
        ensures placed { Placed self.now }
    {
        self.lines().len()
    }

    // The line at the place i, counted from 0, if there are so many.
    pub fn line(&self, i: usize) -> Option<GuessLine>
        ensures { result ≡ line_at (book_lines self.now) i }
    {
        self.lines().get(i).copied()
    }

    // Adds a line at the end; a full book stays as it is. By index, as in `rewrite_last`.
    pub fn add(&mut self, line: GuessLine) -> bool
        ensures added { result ≡ nat_lt (length (book_lines self.old)) 24 }
        ensures value { self.new ≡ book_added self.old line }
        ensures lines { book_lines self.new ≡ (if result then book_lines self.old ++ line ∷ [] else book_lines self.old) }
    {
        if self.len() == 24 {
            return false;
        }
        self.lines[self.used] = line;
        self.used += 1;
        true
    }

    // Puts the last line anew; an empty book stays as it is. By index, since what last_mut lends leaves the places unknown.
    pub fn rewrite_last(&mut self, line: GuessLine) -> bool
        ensures rewritten { result ≡ nat_lt 0 (length (book_lines self.old)) }
        ensures value { self.new ≡ book_rewritten self.old line }
        ensures lines { book_lines self.new ≡ slice_set (book_lines self.old) (length (book_lines self.old) - 1) line }
    {
        let n = self.len();
        if n == 0 {
            return false;
        }
        self.lines[n - 1] = line;
        true
    }
}
