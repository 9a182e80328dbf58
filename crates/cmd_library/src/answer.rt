// What is found out about a problem with a library behind it.
use app_texts::Solution;
use library_check::Refused;
use run_telling::Status;

/// What was found out about a problem with a library behind it.
#[derive(Drop)]
pub enum LibraryAnswer {
    /// The library is valid, and this is what was found out about the problem.
    Solved(Solution),
    /// A certificate of the library is refused: which, and why. Nobody searched.
    Refused(Refused),
}

impl Status for LibraryAnswer {
    ghost use Rattle.cmd_library.specs.Text.{library_status};

    ghost status_of = { library_status };

    /// 0 with a verdict, 1 where the search gave up, 7 where a certificate is refused.
    fn status(&self) -> u8 {
        match self {
            LibraryAnswer::Solved(solution) => solution.status(),
            LibraryAnswer::Refused(_) => 7,
        }
    }
}
