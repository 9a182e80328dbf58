// What is answered to a problem whose shortest mate is asked for.
use run_telling::Status;
use shortest_mate::Finding;

/// What was found of the shortest mate of a problem.
#[derive(Drop)]
pub struct ShortestAnswer {
    /// How many moves it takes, that none is within the limit, or why neither was found.
    pub finding: Finding,
    /// How many expansions were made.
    pub made: u64,
}

impl Status for ShortestAnswer {
    ghost use Rattle.cmd_shortest.specs.Text.{answer_status};

    ghost status_of = { answer_status };

    /// 0 with a shortest mate, and where there is none within the limit; 1 where the search gave
    /// up.
    fn status(&self) -> u8 {
        match &self.finding {
            Finding::Found { .. } | Finding::NoneWithin { .. } => 0,
            Finding::Unknown(_) => 1,
        }
    }
}
