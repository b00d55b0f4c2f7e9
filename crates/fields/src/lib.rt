// The leaves of both texts: what stands at the front of a text; `pen` puts bytes into an output.
// A field is read from its tab on.
#![tactic(auto)]

ghost use Rattle.std.specs.Prelude.{◌≡◌, ◌∷◌, ◌≤◌, length, OnErr};
ghost use Rattle.fields.specs.Number.{value, number_of};
ghost use Rattle.fields.specs.Reader.{field, figure, number, running, line_end, keyword, numbered};
ghost use Rattle.fields.specs.Leaves.{num_of, wrong_on, FirstRead, ByteRead, WordRead, StepRead};

pub mod pen;

use meaning::Fault;

// What is left of a text. Each method reads from its front and moves past what it has read; where it answers with an error, what is left stays as it was.
#[derive(Clone, Copy)]
pub struct Cursor<'a> {
    pub rest: &'a [u8],
}

// What is wrong in a line: why, and in which field.
#[derive(Clone, Copy, PartialEq, Eq)]
pub struct Wrong {
    pub fault: Fault,
    pub field: usize,
}

// What is wrong in a text: why, on which line, and in which field.
#[derive(Clone, Copy, PartialEq, Eq)]
pub struct Misread {
    pub fault: Fault,
    pub line: usize,
    pub field: usize,
}

impl Wrong {
    // The same as wrong on a line.
    pub fn on(self, line: usize) -> Misread
        ensures { result ≡ wrong_on self line }
    {
        Misread {
            fault: self.fault,
            line,
            field: self.field,
        }
    }
}

// The value of at most five digits. Not the library's `parse`, which takes a sign and leading zeros that document 01 refuses (`number_of`).
fn value_in(word: &[u8]) -> Option<u32>
    requires { length word.now ≤ 5 }
    ensures { result ≡ num_of (value 0 word.now) }
{
    let mut v: u32 = 0;
    for d in word {
        if *d < 48 || 57 < *d {
            return None;
        }
        v = v * 10 + (*d - 48) as u32;
    }
    Some(v)
}

// The number that a word is.
pub fn number_in(word: &[u8]) -> Option<u32>
    ensures { result ≡ num_of (number_of word.now) }
{
    let n = word.len();
    if n == 0 || 5 < n {
        return None;
    }
    if 1 < n && word[0] == b'0' {
        return None;
    }
    value_in(word)
}

impl<'a> Cursor<'a> {
    // The bytes before the next tab or line end.
    pub fn word(&mut self) -> &'a [u8]
        ensures { FirstRead self.old.rest.now self.new.rest.now result.now }
    {
        let s = self.rest;
        let n = s.iter().position(|b| *b == b'\t' || *b == b'\n');
        let (word, rest) = s.split_at(n.unwrap_or(s.len()));
        self.rest = rest;
        word
    }

    // The byte b in the place of the field k; another one leaves the text as it is.
    fn byte(&mut self, b: u8, k: usize) -> Result<(), Wrong>
        ensures { ByteRead self.old.rest.now b k self.new.rest.now result }
    {
        if self.rest.is_empty() || self.rest[0] != b {
            return Err(Wrong {
                fault: Fault::WrongForm,
                field: k,
            });
        }
        self.rest = &self.rest[1..];
        Ok(())
    }

    // The word of the field k, after its tab.
    #[tactic(auto, unfolding(crate::specs::Reader::field, crate::specs::Reader::first))]
    pub fn field(&mut self, k: usize) -> Result<&'a [u8], Wrong>
        ensures read { WordRead (field k self.old.rest.now) self.new.rest.now result }
        ensures kept { OnErr result (self.new.rest.now ≡ self.old.rest.now) }
    {
        self.byte(b'\t', k)?;
        Ok(self.word())
    }

    // The number in the field k.
    #[tactic(auto, unfolding(crate::specs::Reader::figure, crate::specs::Reader::formed))]
    pub fn figure(&mut self, k: usize) -> Result<u32, Wrong>
        ensures read { StepRead (figure k self.old.rest.now) self.new.rest.now result }
        ensures kept { OnErr result (self.new.rest.now ≡ self.old.rest.now) }
    {
        let mut after = *self;
        let w = after.field(k)?;
        let v = number_in(w).ok_or(Wrong {
            fault: Fault::WrongForm,
            field: k,
        })?;
        *self = after;
        Ok(v)
    }

    // The number of lo to hi in the field k.
    #[tactic(auto, unfolding(crate::specs::Reader::number))]
    pub fn number(&mut self, k: usize, lo: u16, hi: u16) -> Result<u16, Wrong>
        ensures read { StepRead (number k lo hi self.old.rest.now) self.new.rest.now result }
        ensures kept { OnErr result (self.new.rest.now ≡ self.old.rest.now) }
    {
        let mut after = *self;
        let v = after.figure(k)?;
        if v < lo as u32 || (hi as u32) < v {
            return Err(Wrong {
                fault: Fault::OutOfRange,
                field: k,
            });
        }
        *self = after;
        Ok(v as u16)
    }

    // The number v in the field k: an edition, a running number.
    #[tactic(auto, unfolding(crate::specs::Reader::running, crate::specs::Reader::unless))]
    pub fn running(&mut self, k: usize, v: u16) -> Result<(), Wrong>
        ensures read { StepRead (running k v self.old.rest.now) self.new.rest.now result }
        ensures kept { OnErr result (self.new.rest.now ≡ self.old.rest.now) }
    {
        let mut after = *self;
        let u = after.figure(k)?;
        if u != v as u32 {
            return Err(Wrong {
                fault: Fault::WrongForm,
                field: k,
            });
        }
        *self = after;
        Ok(())
    }

    // The end of a line in the place of the field k.
    #[tactic(auto, unfolding(crate::specs::Reader::line_end))]
    pub fn line_end(&mut self, k: usize) -> Result<(), Wrong>
        ensures read { StepRead (line_end k self.old.rest.now) self.new.rest.now result }
        ensures kept { OnErr result (self.new.rest.now ≡ self.old.rest.now) }
    {
        self.byte(b'\n', k)
    }

    // The word w at the beginning of a line; another word leaves the text as it is.
    pub fn keyword(&mut self, w: &[u8]) -> Result<(), Wrong>
        ensures read { StepRead (keyword w.now self.old.rest.now) self.new.rest.now result }
        ensures kept { OnErr result (self.new.rest.now ≡ self.old.rest.now) }
    {
        let mut past = *self;
        if past.word() != w {
            return Err(Wrong {
                fault: Fault::WrongForm,
                field: 1,
            });
        }
        *self = past;
        Ok(())
    }

    // The word w and the running number i at the beginning of a line.
    #[tactic(auto, unfolding(crate::specs::Reader::numbered))]
    pub fn numbered(&mut self, w: &[u8], i: u16) -> Result<(), Wrong>
        ensures read { StepRead (numbered w.now i self.old.rest.now) self.new.rest.now result }
        ensures kept { OnErr result (self.new.rest.now ≡ self.old.rest.now) }
    {
        let mut after = *self;
        after.keyword(w)?;
        after.running(2, i)?;
        *self = after;
        Ok(())
    }
}
