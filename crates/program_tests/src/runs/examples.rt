// Problems and certificates, and what is printed for them.

pub(crate) const GOLD: &str = "4k4/9/4P4/9/9/9/9/9/9 b G 1\n";

pub(crate) const GOLD_TEXT: &str =
    "checkmate G*5b\ncertificate 1 mate 1\nproblem 4k4/9/4P4/9/9/9/9/9/9 b G\n1 G*5b 4k4/9/4P4/9/9/9/9/9/9 b G\nend\n";

pub(crate) const WHITE_TEXT: &str =
    "checkmate G*5h\ncertificate 1 mate 1\nproblem 9/9/9/9/9/9/4p4/9/4K4 w g\n1 G*5h 9/9/9/9/9/9/4p4/9/4K4 w g\nend\n";

pub(crate) const FIRST_TEXT: &str =
    "checkmate 5c5b+\ncertificate 1 mate 1\nproblem 4k4/9/4P4/4L4/9/9/9/9/9 b G\n1 5c5b+ 4k4/9/4P4/4L4/9/9/9/9/9 b G\nend\n";

pub(crate) const ESCAPE: &str =
    "certificate 1 escape 3\nproblem 4k4/9/4P4/9/9/9/9/9/9 b P\n4k4/9/4P4/9/9/9/9/9/9 b P\n9/4k4/9/9/9/9/9/9/9 b Pp\n9/9/4k4/9/9/9/9/9/9 b 2p\nend\n";

pub(crate) const OPEN_ESCAPE: &str =
    "certificate 1 escape 2\nproblem 4k4/9/4P4/9/9/9/9/9/9 b P\n4k4/9/4P4/9/9/9/9/9/9 b P\n9/4k4/9/9/9/9/9/9/9 b Pp\nend\n";

pub(crate) const TWO_ROOKS: &str = "9/4k4/8R/9/9/9/9/9/9 b R 1\n";

pub(crate) const TWO_ROOKS_TEXT: &str =
    "checkmate R*2b 5b4a 1c1a\ncertificate 1 mate 4\nproblem 9/4k4/8R/9/9/9/9/9/9 b R\n1 1c1a 3k5/7R1/8R/9/9/9/9/9/9 b -\n1 1c1a 4k4/7R1/8R/9/9/9/9/9/9 b -\n1 1c1a 5k3/7R1/8R/9/9/9/9/9/9 b -\n2 R*2b 9/4k4/8R/9/9/9/9/9/9 b R\nend\n";

pub(crate) const LEFT_ROOKS_TEXT: &str =
    "certificate 1 mate 4\nproblem 9/4k4/8R/9/9/9/9/9/9 b R\n1 1c1a 3k5/R8/8R/9/9/9/9/9/9 b -\n1 1c1a 4k4/R8/8R/9/9/9/9/9/9 b -\n1 1c1a 5k3/R8/8R/9/9/9/9/9/9 b -\n2 R*9b 9/4k4/8R/9/9/9/9/9/9 b R\nend\n";

// A rook chases a king round two positions: the third entry and, with the king on 5a, the first.
pub(crate) const CHASE: &str =
    "certificate 1 escape 6\nproblem 5k3/9/9/9/9/9/9/9/4R4 b -\n4k4/9/9/9/9/9/9/9/5R3 b -\n4k4/9/9/9/9/9/9/9/9 b r\n5k3/9/9/9/9/9/9/9/4R4 b -\n5k3/9/9/9/9/9/9/9/9 b r\n9/4k4/9/9/9/9/9/9/9 b r\n9/5k3/9/9/9/9/9/9/9 b r\nend\n";

pub(crate) const OPEN_CHASE: &str =
    "certificate 1 escape 5\nproblem 5k3/9/9/9/9/9/9/9/4R4 b -\n4k4/9/9/9/9/9/9/9/9 b r\n5k3/9/9/9/9/9/9/9/4R4 b -\n5k3/9/9/9/9/9/9/9/9 b r\n9/4k4/9/9/9/9/9/9/9 b r\n9/5k3/9/9/9/9/9/9/9 b r\nend\n";

pub(crate) const NO_CHECK_TEXT: &str =
    "checkmate nomate\ncertificate 1 escape 1\nproblem 4k4/9/9/9/9/9/9/9/9 b -\n4k4/9/9/9/9/9/9/9/9 b -\nend\n";

pub(crate) const IN_CHECK_TEXT: &str =
    "checkmate nomate\ncertificate 1 escape 1\nproblem 4k4/9/4P4/9/9/9/9/9/4K3r b G\n4k4/9/4P4/9/9/9/9/9/4K3r b G\nend\n";

pub(crate) const REST_TEXT: &str =
    "checkmate G*5b\ncertificate 1 mate 1\nproblem 4k4/9/4P4/9/9/9/9/9/9 b G2r2b3g4s4n4l17p\n1 G*5b 4k4/9/4P4/9/9/9/9/9/9 b G2r2b3g4s4n4l17p\nend\n";

pub(crate) const MANY: &str =
    "4k4/9/4P4/9/9/9/9/9/9 b G 1\n\n# two rooks\n9/4k4/8R/9/9/9/9/9/9 b R\tx\n4k4/9/4X4/9/9/9/9/9/9 b G";

pub(crate) const MANY_TEXT: &str =
    "1 mate G*5b\n4 mate R*2b 5b4a 1c1a\n5 fault bad piece at 7\nproblems 3 mate 2 nomate 0 unknown 0 fault 1\n";

// The same, where the text's first line has the number 1001.
pub(crate) const MANY_TEXT_FROM_1001: &str =
    "1001 mate G*5b\n1004 mate R*2b 5b4a 1c1a\n1005 fault bad piece at 7\nproblems 3 mate 2 nomate 0 unknown 0 fault 1\n";
