// Certificates that are known from elsewhere.

/// A gold is dropped in front of the king.
pub const MATE_IN_ONE: &str =
    "certificate 1 mate 1\nproblem 4k4/9/4P4/9/9/9/9/9/9 b G\n1 G*5b 4k4/9/4P4/9/9/9/9/9/9 b G\nend\n";

/// After the drop of a rook the king goes to 4a, 5a or 6a, and all last as long.
pub const TWO_ROOKS: &str =
    "certificate 1 mate 4\nproblem 9/4k4/8R/9/9/9/9/9/9 b R\n1 1c1a 3k5/R8/8R/9/9/9/9/9/9 b -\n1 1c1a 4k4/R8/8R/9/9/9/9/9/9 b -\n1 1c1a 5k3/R8/8R/9/9/9/9/9/9 b -\n2 R*9b 9/4k4/8R/9/9/9/9/9/9 b R\nend\n";

/// A rook chases a king round two positions.
pub const CHASE: &str =
    "certificate 1 escape 6\nproblem 5k3/9/9/9/9/9/9/9/4R4 b -\n4k4/9/9/9/9/9/9/9/5R3 b -\n4k4/9/9/9/9/9/9/9/9 b r\n5k3/9/9/9/9/9/9/9/4R4 b -\n5k3/9/9/9/9/9/9/9/9 b r\n9/4k4/9/9/9/9/9/9/9 b r\n9/5k3/9/9/9/9/9/9/9 b r\nend\n";
