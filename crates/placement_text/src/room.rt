// What the lines of a placement text are read under.
#![tactic(auto)]

ghost use Rattle.std.specs.Prelude.{◌≡◌, ◌+◌, ◌≤◌};

// How many trainees and depots there are.
#[derive(Clone, Copy)]
pub struct Sizes {
    pub trainees: u16,
    pub depots: u16,
    pub ghost few_trainees: { trainees ≤ 256 },
    pub ghost few_depots: { depots ≤ 64 },
}

// Where the entries of a side go: its first cell, and how many entries the lines above have.
#[derive(Clone, Copy)]
pub struct Room {
    pub base: usize,
    pub total: usize,
    pub ghost near: { base ≤ 4096 },
    pub ghost small: { total ≤ 4096 },
}

impl Room {
    // The cell of the next entry.
    pub fn start(self) -> usize
        ensures { result ≡ self.base + self.total }
    {
        self.total + self.base
    }
}
