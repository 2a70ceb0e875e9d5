// Text laid into a lent buffer as far as it goes; what is past its end is only counted.
ghost use Rattle.std.specs.Prelude.{◌≡◌, ◌+◌, ◌^◌, ◌≤◌, [], ◌∷◌, length, decimal};
ghost use Rattle.listings.specs.Text.{line_end, Lays};

// The place has no bound of its own: each part asks for the room that its text needs.
// No `fmt::Write` with `write!` into it: no clause says that a `write!` succeeds, and laying text always does.
#[derive(Drop)]
pub(crate) struct Lay<'a> {
    out: &'a mut [u8],
    at: usize,
}

impl<'a> Lay<'a> {
    pub(crate) fn new(out: &'a mut [u8]) -> Lay<'a>
        ensures buffer { result.out.ghost_name ≡ out.entry.ghost_name }
        ensures bytes { result.out.now ≡ out.old }
        ensures start { result.at ≡ 0 }
    {
        Lay { out, at: 0 }
    }

    // Where the text ends.
    pub(crate) fn end(&self) -> usize
        ensures { result ≡ self.now.at }
    {
        self.at
    }

    fn byte(&mut self, b: u8)
        requires { self.old.at ≤ 2 ^ 60 }
        ensures { Lays self.old (b ∷ []) self.new }
    {
        if self.at < self.out.len() {
            self.out[self.at] = b;
        }
        self.at += 1;
    }

    pub(crate) fn text(&mut self, text: &str)
        requires { self.old.at + length text.now ≤ 2 ^ 60 }
        ensures { Lays self.old text.now self.new }
    {
        for b in text.as_bytes() {
            self.byte(*b);
        }
    }

    // The digits from the first to the last.
    pub(crate) fn number(&mut self, x: u16)
        requires { self.old.at ≤ 2 ^ 59 }
        ensures laid { Lays self.old (decimal x) self.new }
        ensures short { self.new.at ≤ self.old.at + 5 }
    {
        if x >= 10 {
            self.number(x / 10);
        }
        self.byte(b'0' + (x % 10) as u8);
    }

    pub(crate) fn end_line(&mut self)
        requires { self.old.at ≤ 2 ^ 60 }
        ensures { Lays self.old line_end self.new }
    {
        self.byte(b'\n');
    }
}
