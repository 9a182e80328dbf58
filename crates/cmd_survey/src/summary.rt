// How the problems of a survey ended.
ghost use Rattle.std.specs.Prelude.{◌≡◌, count_by};
ghost use Rattle.cmd_survey.specs.Summary.{is_mate, is_no_mate, is_unknown};

use run_telling::Status;
use search_pool::Tally;
use std::marker::Model;

/// How the searches of a survey ended, by the rising number of their problems. Contracts see the
/// list.
#[derive(Drop)]
pub struct Tallies {
    tallies: Vec<Tally>,
}

impl Model for Tallies {
    ghost use Rattle.std.specs.Prelude.{List};
    ghost use Rattle.search_pool.specs.declared.tally.Tally.{Tally};

    ghost Value = { List Tally };

    ghost view = { λ survey. survey.tallies.items };
}

impl Tallies {
    /// These tallies, in this order.
    pub fn new(tallies: Vec<Tally>) -> Tallies
        ensures { result ≡ tallies.items }
    {
        Tallies { tallies }
    }

    /// All of them, in order.
    pub fn in_order(&self) -> &[Tally]
        ensures { result.now ≡ self.now }
    {
        &self.tallies
    }
}

/// What a survey found.
#[derive(Drop)]
pub struct Summary {
    /// The number of the first problem.
    pub seed: u64,
    /// How the search of each problem ended.
    pub tallies: Tallies,
}

fn is_mate(tally: Tally) -> bool
    ensures { result ≡ is_mate tally }
{
    match tally {
        Tally::Mate => true,
        Tally::NoMate | Tally::Unknown(_) => false,
    }
}

fn is_no_mate(tally: Tally) -> bool
    ensures { result ≡ is_no_mate tally }
{
    match tally {
        Tally::NoMate => true,
        Tally::Mate | Tally::Unknown(_) => false,
    }
}

fn is_unknown(tally: Tally) -> bool
    ensures { result ≡ is_unknown tally }
{
    match tally {
        Tally::Unknown(_) => true,
        Tally::Mate | Tally::NoMate => false,
    }
}

/// How many problems are mates.
pub(crate) fn mates(tallies: &[Tally]) -> usize
    ensures { result ≡ count_by is_mate tallies.now }
{
    tallies.iter().filter(|tally| is_mate(**tally)).count()
}

/// How many problems have no mate.
pub(crate) fn no_mates(tallies: &[Tally]) -> usize
    ensures { result ≡ count_by is_no_mate tallies.now }
{
    tallies.iter().filter(|tally| is_no_mate(**tally)).count()
}

/// Of how many problems neither was found.
pub(crate) fn unknowns(tallies: &[Tally]) -> usize
    ensures { result ≡ count_by is_unknown tallies.now }
{
    tallies.iter().filter(|tally| is_unknown(**tally)).count()
}

impl Status for Summary {
    ghost status_of = { λ summary. 0 };

    fn status(&self) -> u8 {
        0
    }
}
