// Ranks, posts and mutual pairs, read from tables in which everything was received.
#![tactic(auto)]

ghost use Rattle.std.specs.Prelude.{◌≡◌};
ghost use Rattle.meaning.specs.Numbers.{In};
ghost use Rattle.meaning.specs.Lists.{place};
ghost use Rattle.meaning.specs.Market.{mutual?};
ghost use Rattle.ranks.specs.View.{n_of, m_of, wishes_of, ranking_of, posts_of, market_of, place_of, FullTables};

// The market that tables mean in which everything was received.
#[derive(Clone, Copy)]
pub struct Market<'a> {
    pub heads: &'a [u16],
    pub entries: &'a [u16],
    pub ghost full: { FullTables heads.now entries.now },
}

impl<'a> Market<'a> {
    // The number of trainees.
    pub fn trainees(&self) -> usize
        ensures { result ≡ n_of self.now.heads.now }
    {
        tables::trainees_of(self.heads)
    }

    // The number of depots.
    pub fn depots(&self) -> usize
        ensures { result ≡ m_of self.now.heads.now }
    {
        tables::depots_of(self.heads)
    }

    // The list of trainee i.
    pub fn wishes(&self, i: usize) -> &'a [u16]
        requires { In (n_of self.now.heads.now) i }
        ensures { result.now ≡ wishes_of self.now.heads.now self.now.entries.now i }
    {
        tables::list_at(self.heads, self.entries, tables::trainee_at(i))
    }

    // The list of depot j.
    pub fn ranking(&self, j: usize) -> &'a [u16]
        requires { In (m_of self.now.heads.now) j }
        ensures { result.now ≡ ranking_of self.now.heads.now self.now.entries.now j }
    {
        tables::list_at(
            self.heads,
            self.entries,
            tables::depot_at(self.trainees(), j),
        )
    }

    // The posts of depot j.
    pub fn posts(&self, j: usize) -> usize
        requires { In (m_of self.now.heads.now) j }
        ensures { result ≡ posts_of self.now.heads.now j }
    {
        tables::posts_of(self.heads, tables::depot_at(self.trainees(), j)).unwrap()
    }

    // Whether trainee i and j rank each other: the trainee's list is the short one, and most questions end there with no.
    pub fn is_mutual(&self, i: usize, j: usize) -> bool
        requires { In (n_of self.now.heads.now) i }
        ensures { result ≡ mutual? (market_of self.now.heads.now self.now.entries.now) i j }
    {
        place_on(self.wishes(i), j).is_some() && place_on(self.ranking(j), i).is_some()
    }
}

// The place of x on a list, counted from 0, if it is there. x is compared as a cell's number, so that no cell is widened: solving spends most of its time here.
pub fn place_on(list: &[u16], x: usize) -> Option<usize>
    ensures { place_of result ≡ place list.now x }
{
    let x = u16::try_from(x).ok()?;
    list.iter().position(|y| *y == x)
}
