// The refusals of the scope paper. A public call answers `Result<_, Refusal>`; specs/Seen.antt says which number and place of the paper each
// case stands for, and every contract goes by that.
#![tactic(auto)]

ghost use Rattle.std.specs.Prelude.{◌≡◌};
ghost use Rattle.answer.specs.Seen.{number_of, place_of};

// One case for each line of the paper's table, two where the place tells two things apart. A place is as wide as a count.
#[derive(Clone, Copy)]
pub enum Refusal {
    // 1: lent lengths disagree, or a room is too short for the atoms
    Lengths,
    // 2: too many atoms
    TooMany { atoms: usize },
    // 3: a number out of range
    Range,
    // 3, place 1: a drifted coordinate out of range
    Drifted,
    // 4: a pair or a bond names an atom that is not there
    NotThere { row: usize },
    // 5: a table is not strictly ascending, or an exclusion not low before high
    Order,
    // 5, place 1: the house's species are not strictly ascending
    HouseOrder,
    // 6: the list state claims more than the lent room
    Claims,
    // 7: the grid needs too many cells
    Cells,
    // 8: the pairs, or the exclusions, do not fit
    Room { count: usize },
    // 9: a sheet line is malformed
    Malformed { line: usize },
    // 10: a second header, or an atom number again
    Again { line: usize },
    // 11: an atom is absent, or at the place NO_HEADER the header; one case, so that number and place tell the case
    Absent { place: usize },
}

// The place of 11 where no header is there.
pub const NO_HEADER: usize = 0xffff_ffff;

impl Refusal {
    pub fn number(self) -> u64
        ensures { result ≡ number_of self }
    {
        match self {
            Refusal::Lengths => 1,
            Refusal::TooMany { atoms: _ } => 2,
            Refusal::Range => 3,
            Refusal::Drifted => 3,
            Refusal::NotThere { row: _ } => 4,
            Refusal::Order => 5,
            Refusal::HouseOrder => 5,
            Refusal::Claims => 6,
            Refusal::Cells => 7,
            Refusal::Room { count: _ } => 8,
            Refusal::Malformed { line: _ } => 9,
            Refusal::Again { line: _ } => 10,
            Refusal::Absent { place: _ } => 11,
        }
    }

    pub fn place(self) -> u64
        ensures { result ≡ place_of self }
    {
        match self {
            Refusal::Drifted => 1,
            Refusal::HouseOrder => 1,
            Refusal::TooMany { atoms } => atoms as u64,
            Refusal::NotThere { row } => row as u64,
            Refusal::Room { count } => count as u64,
            Refusal::Malformed { line } => line as u64,
            Refusal::Again { line } => line as u64,
            Refusal::Absent { place } => place as u64,
            Refusal::Lengths => 0,
            Refusal::Range => 0,
            Refusal::Order => 0,
            Refusal::Claims => 0,
            Refusal::Cells => 0,
        }
    }
}
