// Bytes put one after the other into an output, in words, numbers and lines.

ghost use Rattle.std.specs.Prelude.{ℕ, List, ◌∷◌, [], ◌+◌, ◌≤◌, ◌<◌};
ghost use Rattle.fields.specs.Number.{digits_of, last_digit};
ghost use Rattle.fields.specs.Pen.{Room, Wrote};
ghost use Rattle.fields.specs.Writer.{write_number, write_numbers, write_line, lines_by};

// An output, and the position at which its next byte is put.
#[derive(Drop)]
pub struct Pen<'a> {
    pub out: &'a mut [u8],
    pub at: usize,
}

// Lines of one kind, each by its number.
pub trait Lines {
    ghost line: { Self → ℕ → List ℕ };

    ghost there: { Self → ℕ → Type 0 };

    // Puts the line i.
    fn put(&self, i: usize, pen: &mut Pen)
        requires { there self.now i × Room pen.old (line self.now i) }
        ensures { Wrote pen.old pen.new (line self.now i) };
}

impl<'a> Pen<'a> {
    // Puts one byte.
    pub fn byte(&mut self, b: u8)
        requires { Room self.old (b ∷ []) }
        ensures { Wrote self.old self.new (b ∷ []) }
    {
        self.out[self.at] = b;
        self.at += 1;
    }

    // Puts the bytes of a word.
    pub fn word(&mut self, w: &[u8])
        requires { Room self.old w.now }
        ensures { Wrote self.old self.new w.now }
    {
        let end = self.at + w.len();
        let out = &mut *self.out;
        out[self.at..end].copy_from_slice(w);
        self.at = end;
    }

    // Puts the last digit of q, unless q is 0. Given v / 100 and then v / 10, say, it puts the digits of v before its last.
    fn last_digit(&mut self, q: u16)
        requires { Room self.old (last_digit q) }
        ensures { Wrote self.old self.new (last_digit q) }
    {
        if 0 < q {
            self.byte(48 + (q % 10) as u8);
        }
    }

    // Puts the digits of a number; one digit without asking for those before it. It doesn't call itself, so that the pen's position needn't go through memory.
    // Not by `write!`, whose writer can fail, where there is room for all that is put: a case more, and no plainer.
    #[inline(always)]
    fn digits(&mut self, v: u16)
        requires { Room self.old (digits_of v) }
        ensures { Wrote self.old self.new (digits_of v) }
    {
        if v < 10 {
            self.byte(48 + v as u8);
            return;
        }
        self.last_digit(v / 10000);
        self.last_digit(v / 1000);
        self.last_digit(v / 100);
        self.last_digit(v / 10);
        self.byte(48 + (v % 10) as u8);
    }

    // Puts a number as a field.
    #[tactic(auto, unfolding(crate::specs::Writer::write_number))]
    pub fn number(&mut self, v: u16)
        requires { Room self.old (write_number v) }
        ensures { Wrote self.old self.new (write_number v) }
    {
        self.byte(9);
        self.digits(v);
    }

    // Puts numbers, a field each.
    pub fn numbers(&mut self, vs: &[u16])
        requires { Room self.old (write_numbers vs.now) }
        ensures { Wrote self.old self.new (write_numbers vs.now) }
    {
        for v in vs {
            self.number(*v);
        }
    }

    // Puts a line of a word and numbers.
    #[tactic(auto, unfolding(crate::specs::Writer::write_line))]
    pub fn line(&mut self, w: &[u8], vs: &[u16])
        requires { Room self.old (write_line w.now vs.now) }
        ensures { Wrote self.old self.new (write_line w.now vs.now) }
    {
        self.word(w);
        self.numbers(vs);
        self.byte(10);
    }

    // Puts `count` lines, the first of them the line `from`.
    pub fn lines<L: Lines>(&mut self, lines: &L, from: usize, count: usize)
        requires { (from + count ≤ 65536) × ((i : ℕ) → from ≤ i → i < from + count → L.there lines.now i) × Room self.old (lines_by (L.line lines.now) from count) }
        ensures { Wrote self.old self.new (lines_by (L.line lines.now) from count) }
    {
        for i in from..from + count {
            lines.put(i, self);
        }
    }
}
