// The values that answers and records are made of. Their meaning stands in specs/, and specs/Answers.antt gives the numbers of each case.
#![tactic(auto)]

ghost use Rattle.std.specs.Prelude.{◌≡◌};
ghost use Rattle.meaning.specs.Answers.{reason_number, reason_witness, reason_of, strike_numbers, strike_of};

// Why a pair is struck, with the witness that the reason has: a depot, or a trainee.
#[derive(Clone, Copy)]
pub enum Reason {
    Barred,
    HeldElsewhere(u16),
    PostsGone,
    Passed(u16),
}

impl Reason {
    // The paper's number of a reason.
    #[tactic(auto, unfolding(crate::specs::Answers::reason_number))]
    pub fn number(self) -> u16
        ensures { result ≡ reason_number self }
    {
        match self {
            Reason::Barred => 1,
            Reason::HeldElsewhere(_) => 2,
            Reason::PostsGone => 3,
            Reason::Passed(_) => 4,
        }
    }

    // The witness of a reason, 0 where it has none.
    #[tactic(auto, unfolding(crate::specs::Answers::reason_witness))]
    pub fn witness(self) -> u16
        ensures { result ≡ reason_witness self }
    {
        match self {
            Reason::HeldElsewhere(j) => j,
            Reason::Passed(k) => k,
            Reason::Barred | Reason::PostsGone => 0,
        }
    }

    // A reason from its number and its witness.
    fn read(number: u16, witness: u16) -> Reason
        ensures { result ≡ reason_of number witness }
    {
        match number {
            0 | 1 => Reason::Barred,
            2 => Reason::HeldElsewhere(witness),
            3 => Reason::PostsGone,
            _ => Reason::Passed(witness),
        }
    }
}

// One strike of a record: its pair and its reason.
#[derive(Clone, Copy)]
pub struct Strike {
    pub trainee: u16,
    pub depot: u16,
    pub reason: Reason,
}

impl From<Strike> for [u16; 4] {
    ghost from_gives = { λ s cells. cells ≡ strike_numbers s };

    // The numbers of a strike: trainee, depot, reason, witness.
    #[tactic(auto, unfolding(crate::specs::Answers::strike_numbers))]
    fn from(s: Strike) -> [u16; 4] {
        [s.trainee, s.depot, s.reason.number(), s.reason.witness()]
    }
}

impl From<[u16; 4]> for Strike {
    ghost from_gives = { λ cells s. s ≡ strike_of cells };

    // A strike is read back out of its numbers.
    #[tactic(auto, unfolding(crate::specs::Answers::strike_of))]
    fn from(cells: [u16; 4]) -> Strike {
        let [trainee, depot, number, witness] = cells;
        Strike {
            trainee,
            depot,
            reason: Reason::read(number, witness),
        }
    }
}

// How a ruling ends: with a table, or with a pair that shows why there is none (kind 1: a held pair; kind 2: a pair whose depot keeps room).
#[derive(Clone, Copy)]
pub enum Ending {
    Placed,
    NoneHeld(u16, u16),
    NoneRoom(u16, u16),
}

// A ruling beside its record and its table: the number of trainees, the number of strikes, the ending.
#[derive(Clone, Copy)]
pub struct Ruling {
    pub trainees: u16,
    pub strikes: u16,
    pub ending: Ending,
}

// Why a file or a table is refused, by the numbers that document 01 gives back.
#[derive(Clone, Copy, PartialEq, Eq)]
pub enum Fault {
    ShortPart = 1,
    LongText,
    WrongForm,
    OutOfRange,
    NamedTwice,
    TooMany,
    NotReceived,
    NotRead,
}

// A refusal: the number given back, and the line that it gives, 0 where there is none, as document 01 and the C interface have it.
#[derive(Clone, Copy)]
pub struct Refusal {
    pub fault: Fault,
    pub line: u16,
}

impl From<Fault> for Refusal {
    ghost from_gives = { λ f r. r ≡ record { fault = f; line = 0 } };

    // A refusal of what is wrong as a whole, with no line.
    fn from(fault: Fault) -> Refusal {
        Refusal { fault, line: 0 }
    }
}

// Whether a trainee's list was received.
#[derive(Clone, Copy)]
pub enum Receipt {
    Received,
    NotReceived,
    OutOfRange,
}

// What the stability test finds in a table; stable is one of document 01's four answers (`tested_numbers`), so that an Option would be no plainer.
#[derive(Clone, Copy)]
pub enum Tested {
    Stable,
    NotMutual(u16),
    OverPosts(u16),
    Blocking(u16, u16),
}

// Why a ruling is not accepted: the first step that isn't allowed, or what was handed in is refused.
#[derive(Clone, Copy)]
pub enum Rejection {
    NotAllowed(u16),
    Refused(Refusal),
}
