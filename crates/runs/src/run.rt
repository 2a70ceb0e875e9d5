ghost use Rattle.std.specs.Prelude.{◌≡◌, List, ◌∷◌, length};
ghost use Rattle.guesses.specs.Books.{book_lines, line_at};
ghost use Rattle.ledgers.specs.Doublings.{ones};
ghost use Rattle.runs.specs.Runs.{SomeGuess, FewGuess, FewPoints, Unfinished, GrownTotal, blank_state, begin_check, begun_state, open_check, open_state, give_up_check, gave_up_state, guess_of, is_guessing, room_check, or_guess, accepted, after, round_check, round_state, round_weights, round_ledger, cleared, Played, Ready};
ghost use Rattle.runs.specs.Desks.{desk, Lent};
ghost use Rattle.ranges.specs.Refusals.{verdict_of};
ghost use Rattle.runs.specs.Histories.{Event, History, Lawful, RoundDone};
ghost use Rattle.ranges.specs.Weights.{chosen};

use crate::buffers::{Buffers, Lengths};
use crate::round::{check_round, closed, double_set, missed, missed_weight, play};
use crate::state::{OpenGuess, Phase, State};
use guesses::book::{Book, GuessLine, Verdict};
use guesses::limit::limit;
use nets::finder::Finder;
use nets::verifier::Verifier;
use ranges::hit::{AllPoints, HeldBy, lowest_missed};
use ranges::number::RangeNumber;
use ranges::refusal::Refusal;
use ranges::space::Space;

// A run: its plain state, and what it keeps of an open guess whatever its caller does.
#[derive(Drop)]
pub struct Run {
    state: State,
    ghost some_guess: { SomeGuess state },
    ghost few_guess: { FewGuess state },
    ghost few_points: { FewPoints state },
    ghost unfinished: { Unfinished state },
    ghost grown: { GrownTotal state },
}

impl Run {
    // A blank run.
    pub fn new() -> Run
        ensures { result.state ≡ blank_state }
    {
        Run {
            state: State {
                phase: Phase::Blank,
                n: 0,
                m: 0,
                floor: 0,
                book: Book::new(),
            },
        }
    }

    // The certified floor: every set of points that hits all ranges has more; 0 says nothing.
    pub fn floor(&self) -> u16
        ensures { result ≡ self.now.state.floor }
    {
        self.state.floor
    }

    // The book of guesses.
    pub fn book(&self) -> Book
        ensures { result ≡ self.now.state.book }
    {
        self.state.book
    }

    // Line i of the book, from 0.
    pub fn line(&self, i: usize) -> Option<GuessLine>
        ensures { result ≡ line_at (book_lines self.now.state.book) i }
    {
        let book = &self.state.book;
        book.line(i)
    }

    // Whether a guess is open.
    pub fn is_guessing(&self) -> bool
        ensures { result ≡ is_guessing self.now.state.phase }
    {
        matches!(self.state.phase, Phase::Guessing(_))
    }

    // Begins on a space whose every range holds a point.
    pub fn begin<S: Space>(&mut self, s: &S) -> Result<(), Refusal>
        ensures answer { result ≡ begin_check (S.Space.meaning s.now) self.old.state }
        ensures state { self.new.state ≡ accepted result (begun_state (S.Space.meaning s.now)) self.old.state }
    {
        let Phase::Blank = self.state.phase else {
            return Err(Refusal::RunBegun);
        };
        if let Some(j) = lowest_missed(s, &AllPoints) {
            return Err(Refusal::EmptyRange(j));
        }
        self.state = State {
            phase: Phase::Idle,
            n: s.points(),
            m: s.ranges(),
            floor: 0,
            book: Book::new(),
        };
        Ok(())
    }

    // Opens guess k: every weight 1, and a new line in the book.
    pub fn open<S: Space>(
        &mut self,
        s: &S,
        k: u16,
        weights: &mut [u64],
        ledger: &[RangeNumber],
    ) -> Result<(), Refusal>
        ensures answer { result ≡ open_check (S.Space.meaning s.now) self.old.state k (length weights.old) (length ledger.now) }
        ensures state { self.new.state ≡ accepted result (open_state self.old.state k) self.old.state }
        ensures weights { weights.new ≡ accepted result (ones (S.Space.meaning s.now).points) weights.old }
    {
        check_open(&self.state, s, k, weights.len(), ledger.len())?;
        weights.fill(1);
        self.state = opened(&self.state, k);
        Ok(())
    }

    // One round: the finder marks a net, the verifier judges it.
    pub fn round<S: Space, F: Finder<S>, V: Verifier<S>>(
        &mut self,
        s: &S,
        f: &F,
        v: &V,
        buffers: &mut Buffers<'_>,
    ) -> Result<(), Refusal>
        ensures check { result ≡ round_check (S.Space.meaning s.now) self.old.state buffers.old.weights.now (length buffers.old.marks.now) (length buffers.old.ledger.now) (length buffers.old.scratch.now) ((F.Finder.promise f.now).need (S.Space.meaning s.now).points (S.Space.meaning s.now).ranges) }
        ensures done { RoundDone (F.Finder.promise f.now) (V.Verifier.promise v.now) (S.Space.meaning s.now) result (desk self.old.state buffers.old) (desk self.new.state buffers.new) }
        ensures law { (es : List Event) → History (S.Space.meaning s.now) es (desk self.old.state buffers.old) → (e : Event) × History (S.Space.meaning s.now) (e ∷ es) (desk self.new.state buffers.new) × Lawful (S.Space.meaning s.now) (e ∷ es) (desk self.new.state buffers.new) }
        ensures lent { Lent buffers.old buffers.new }
    {
        self.judged_round(s, f, v, buffers)
    }

    // A round as a step of a history.
    fn judged_round<S: Space, F: Finder<S>, V: Verifier<S>>(
        &mut self,
        s: &S,
        f: &F,
        v: &V,
        buffers: &mut Buffers<'_>,
    ) -> Result<(), Refusal>
        ensures check { result ≡ round_check (S.Space.meaning s.now) self.old.state buffers.old.weights.now (length buffers.old.marks.now) (length buffers.old.ledger.now) (length buffers.old.scratch.now) ((F.Finder.promise f.now).need (S.Space.meaning s.now).points (S.Space.meaning s.now).ranges) }
        ensures done { RoundDone (F.Finder.promise f.now) (V.Verifier.promise v.now) (S.Space.meaning s.now) result (desk self.old.state buffers.old) (desk self.new.state buffers.new) }
        ensures law { (es : List Event) → History (S.Space.meaning s.now) es (desk self.old.state buffers.old) → (e : Event) × History (S.Space.meaning s.now) (e ∷ es) (desk self.new.state buffers.new) × Lawful (S.Space.meaning s.now) (e ∷ es) (desk self.new.state buffers.new) }
        ensures lent { Lent buffers.old buffers.new }
    {
        self.play_round(s, f, v, buffers)?;
        Ok(())
    }

    // One round; accepted, it answers the range missed, if any.
    fn play_round<S: Space, F: Finder<S>, V: Verifier<S>>(
        &mut self,
        s: &S,
        f: &F,
        v: &V,
        buffers: &mut Buffers<'_>,
    ) -> Result<Option<RangeNumber>, Refusal>
        ensures check { verdict_of result ≡ round_check (S.Space.meaning s.now) self.old.state buffers.old.weights.now (length buffers.old.marks.now) (length buffers.old.ledger.now) (length buffers.old.scratch.now) ((F.Finder.promise f.now).need (S.Space.meaning s.now).points (S.Space.meaning s.now).ranges) }
        ensures net { Played (F.Finder.promise f.now) (V.Verifier.promise v.now) (S.Space.meaning s.now) (guess_of self.old.state.phase).k buffers.old.weights.now result buffers.old.marks.now buffers.new.marks.now }
        ensures state { self.new.state ≡ after result (round_state (S.Space.meaning s.now) self.old.state buffers.old.weights.now (chosen buffers.new.marks.now)) self.old.state }
        ensures weights { buffers.new.weights.now ≡ after result (round_weights (S.Space.meaning s.now) buffers.old.weights.now) buffers.old.weights.now }
        ensures ledger { buffers.new.ledger.now ≡ after result (round_ledger self.old.state buffers.old.ledger.now) buffers.old.ledger.now }
        ensures scratch { buffers.new.scratch.now ≡ after result (λ _. cleared ((F.Finder.promise f.now).need (S.Space.meaning s.now).points (S.Space.meaning s.now).ranges) buffers.old.scratch.now) buffers.old.scratch.now }
        ensures lent { Lent buffers.old buffers.new }
    {
        let lengths = buffers.lengths();
        let weights = &mut *buffers.weights;
        let marks = &mut *buffers.marks;
        let ledger = &mut *buffers.ledger;
        let scratch = &mut *buffers.scratch;
        let guess = self.ready(s, f, weights, lengths)?;
        let (points, judged) = play(s, f, v, guess.k, weights, marks, scratch);
        match judged {
            Some(j) => {
                ledger[guess.doublings as usize] = j;
                let weight = missed_weight(s, weights, j);
                double_set(s, &HeldBy(s, j), weights);
                self.state = missed(&self.state, guess, weight);
            }
            None => {
                let verdict = Verdict::Hit(points);
                self.state = closed(&self.state, guess.k, guess.doublings, verdict);
            }
        }
        Ok(judged)
    }

    // The open guess of a round that passes its checks, with what these and the run's own facts give.
    fn ready<S: Space, F: Finder<S>>(
        &self,
        s: &S,
        f: &F,
        weights: &[u64],
        lengths: Lengths,
    ) -> Result<OpenGuess, Refusal>
        ensures check { result ≡ or_guess (round_check (S.Space.meaning s.now) self.now.state weights.now lengths.marks lengths.ledger lengths.scratch ((F.Finder.promise f.now).need (S.Space.meaning s.now).points (S.Space.meaning s.now).ranges)) (guess_of self.now.state.phase) }
        ensures ready { Ready (S.Space.meaning s.now) self.now.state weights.now lengths.marks lengths.ledger lengths.scratch ((F.Finder.promise f.now).need (S.Space.meaning s.now).points (S.Space.meaning s.now).ranges) result }
    {
        let need = f.need(s.points(), s.ranges());
        check_round(&self.state, s, weights, lengths, need)
    }

    // Closes the open guess as given up.
    pub fn give_up(&mut self) -> Result<(), Refusal>
        ensures answer { result ≡ give_up_check self.old.state }
        ensures state { self.new.state ≡ accepted result (gave_up_state self.old.state) self.old.state }
    {
        let guess = open_guess(&self.state)?;
        let verdict = Verdict::GivenUp;
        self.state = closed(&self.state, guess.k, guess.doublings, verdict);
        Ok(())
    }
}

// The checks of open, in number order.
fn check_open<S: Space>(
    state: &State,
    s: &S,
    k: u16,
    weights: usize,
    ledger: usize,
) -> Result<(), Refusal>
    ensures check { result ≡ open_check (S.Space.meaning s.now) state.now k weights ledger }
{
    let n = s.points();
    let guessing = match state.phase {
        Phase::Blank => return Err(Refusal::RunBlank),
        Phase::Idle => false,
        Phase::Guessing(_) => true,
    };
    if n != state.n || s.ranges() != state.m {
        return Err(Refusal::OtherSpace);
    }
    if weights != n as usize {
        return Err(Refusal::WrongLength);
    }
    if guessing {
        return Err(Refusal::GuessOpen);
    }
    match limit(n, k) {
        Some(most) => check_room(state, k, most as usize, ledger),
        None => Err(Refusal::GuessOutOfRange),
    }
}

// Whether floor, book and ledger leave room for guess k.
fn check_room(state: &State, k: u16, most: usize, ledger: usize) -> Result<(), Refusal>
    ensures { result ≡ room_check state.now k most ledger }
{
    if k <= state.floor {
        return Err(Refusal::GuessNotAboveFloor);
    }
    if state.book.len() >= 24 {
        return Err(Refusal::BookFull);
    }
    if ledger < most {
        return Err(Refusal::LedgerLength);
    }
    Ok(())
}

// The open guess, or why there is none.
fn open_guess(state: &State) -> Result<OpenGuess, Refusal>
    ensures { result ≡ or_guess (give_up_check state.now) (guess_of state.now.phase) }
{
    match state.phase {
        Phase::Blank => Err(Refusal::RunBlank),
        Phase::Idle => Err(Refusal::NoGuessOpen),
        Phase::Guessing(guess) => Ok(guess),
    }
}

// The state with guess k opened.
fn opened(state: &State, k: u16) -> State
    ensures { result ≡ open_state state.now k }
{
    let mut next = *state;
    let _ = next.book.add(GuessLine {
        k,
        doublings: 0,
        verdict: Verdict::Open,
    });
    next.phase = Phase::Guessing(OpenGuess {
        k,
        doublings: 0,
        total: state.n as u64,
    });
    next
}
