// Which options don't go together.
ghost use Rattle.std.specs.Prelude.{◌≡◌, option_map, string_bytes};
ghost use Rattle.cmd_check.specs.Words.{clash_among};

use tsume_words::Clash;

/// The first two options that don't go together: what a collection printed has no bound, and is for
/// no given problem. None where there are no such two.
pub(crate) fn clash_among(collection: bool, bound: bool, problem: &Option<String>) -> Option<Clash>
    ensures { result ≡ clash_among collection bound (option_map string_bytes problem.now) }
{
    if !collection {
        return None;
    }
    if bound {
        return Some(Clash::CollectionWithBound);
    }
    match problem {
        Some(_) => Some(Clash::CollectionWithProblem),
        None => None,
    }
}
