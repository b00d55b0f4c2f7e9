// What the first line of a ruling text says.
#![tactic(auto)]

ghost use Rattle.std.specs.Prelude.{◌≤◌};

// How many trainees and strikes there are.
#[derive(Clone, Copy)]
pub struct Sizes {
    pub trainees: u16,
    pub strikes: u16,
    pub ghost few_trainees: { trainees ≤ 256 },
    pub ghost few_strikes: { strikes ≤ 4096 },
}
