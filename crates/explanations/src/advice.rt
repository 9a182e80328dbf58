// What was expected, and what to do, in lines of less than 80 columns.
ghost use Rattle.std.specs.Option.{IfSome};
ghost use Rattle.explanations.specs.Shown.{IsPlain, IsReadable};

use crate::look::Look;
use board_core::BadPosition;
use cert_text::CertFault;
use kif_text::KifFault;
use sfen_text::TextFault;

/// What is said of a text that looks like something else than a problem; none where it doesn't.
pub(crate) fn advice_on_problem_look(look: Look) -> Option<&'static str>
    ensures { IfSome result (λ advice. IsPlain advice.now) }
{
    match look {
        Look::Blank => Some(
            "The input is empty. A problem is one line, an SFEN: the board, the side to\nmove, and the hands.\n",
        ),
        Look::GaveUp => Some(ON_GIVING_UP),
        Look::Answer | Look::AnswerWithReturns => Some(ON_ANSWER),
        Look::Quoted => Some("Leave out the quotes: they are no part of an SFEN.\n"),
        Look::Start => Some(
            "`startpos`, the start of a game, is no tsume problem. Give the position as an\nSFEN.\n",
        ),
        Look::Collection => Some(ON_COLLECTION),
        Look::ByteOrderMark | Look::Utf16 | Look::Record => advice_on_bytes(look),
        Look::Other => None,
    }
}

const ON_COLLECTION: &str =
    "This looks like a collection of problems. `tsume collection` reads a problem in\neach line.\n";

const ON_ANSWER: &str =
    "This looks like an answer of `tsume solve`. `tsume check` reads those; the\nproblem itself stands behind the word `problem`.\n";

const ON_GIVING_UP: &str =
    "This looks like the answer of a search that gave up. There is no problem in it.\n";

/// What is said of a text that looks like something else than a KIF file, where there is something
/// to say; else none.
pub(crate) fn advice_on_diagram_look(look: Look) -> Option<&'static str>
    ensures { IfSome result (λ advice. IsPlain advice.now) }
{
    match look {
        Look::Blank => Some(
            "The input is empty. A KIF file has a board diagram: lines that begin with |.\n",
        ),
        Look::Utf16 => Some("The text looks like UTF-16. Save it as UTF-8.\n"),
        Look::GaveUp => Some(ON_GIVING_UP),
        Look::Answer | Look::AnswerWithReturns => Some(ON_ANSWER),
        Look::Collection => Some(ON_COLLECTION),
        Look::ByteOrderMark | Look::Record | Look::Quoted | Look::Start | Look::Other => None,
    }
}

/// What is said of a text that looks like something else than a certificate, where there is
/// something to say; else none.
pub(crate) fn advice_on_certificate_look(look: Look) -> Option<&'static str>
    ensures { IfSome result (λ advice. IsPlain advice.now) }
{
    match look {
        Look::Blank => Some(
            "The input is empty. `tsume check` reads what `tsume solve` prints: did that\nend with a fault?\n",
        ),
        Look::GaveUp => Some(
            "The search gave up, so there is no certificate, and nothing to check. The line\n`unknown ..` says what was used up: solve the problem with more of that.\n",
        ),
        Look::AnswerWithReturns => Some(
            "Each line ends with a line feed alone, and here carriage returns stand before\nthem. Take them out: tr -d '\\r' < FILE | tsume check\n",
        ),
        Look::Collection => Some(
            "This looks like a collection of problems. `tsume collection --certificates`\nprints the certificates of its problems, and `tsume check` reads one of them.\n",
        ),
        Look::ByteOrderMark | Look::Utf16 | Look::Record => advice_on_bytes(look),
        Look::Quoted | Look::Start | Look::Answer | Look::Other => None,
    }
}

fn advice_on_bytes(look: Look) -> Option<&'static str>
    ensures { IfSome result (λ advice. IsPlain advice.now) }
{
    match look {
        Look::ByteOrderMark => Some(
            "The text begins with a byte-order mark (the bytes EF BB BF). Save it as ASCII,\nor as UTF-8 without one.\n",
        ),
        Look::Utf16 => Some("The text looks like UTF-16. Save it as ASCII.\n"),
        Look::Record => Some(
            "This looks like a game record or a diagram. `tsume solve --kif` reads the board\ndiagram of a KIF file in UTF-8; of any other, copy the position as SFEN.\n",
        ),
        _ => None,
    }
}

/// What was expected where a text stops being a position's, and what a position needs.
pub(crate) fn advice_on_problem(fault: TextFault) -> &'static str
    ensures { IsPlain result.now }
{
    match fault {
        TextFault::BadRow(_) => {
            "Expected: nine rows of nine squares each, with / between them. A digit stands\nfor so many empty squares.\n"
        }
        TextFault::BadPiece(_) => {
            "Expected: a piece (a letter of PLNSGBRK, small for White's, with + before it\nwhere it is promoted), a digit 1 to 9 for empty squares, or / between rows.\n"
        }
        TextFault::BadSide(_) => {
            "Expected: the side to move, which is the attacker: b (Black) or w (White).\n"
        }
        TextFault::BadHand(_) => {
            "Expected: - where both hands are empty, else pieces such as R2g4p: perhaps a\ncount from 1 to 18, then a letter of RBGSNLP, capital for Black's.\n"
        }
        TextFault::HandTwice(_) => {
            "Expected: each kind once in a hand, with its count before it: 2P and not PP.\n"
        }
        TextFault::Trailing(_) => {
            "Expected: the end, or a move number of at most nine digits. Moves aren't read.\n"
        }
        TextFault::BadPosition(fault) => advice_on_position(fault),
    }
}

fn advice_on_position(fault: BadPosition) -> &'static str
    ensures { IsPlain result.now }
{
    match fault {
        BadPosition::TooMany(_) => {
            "A set has 18 P, 4 each of L, N, S and G, and 2 each of B and R: on the board,\npromoted or not, and in both hands together.\n"
        }
        BadPosition::NoDefenderKing => {
            "The side to move attacks, so the other side needs a king. If White is the\nattacker, the side to move is w.\n"
        }
        BadPosition::TwoKings => {
            "Each side has one king at most. The attacker, who is to move, needs none.\n"
        }
        BadPosition::DeadPiece(_) => {
            "A pawn or lance on its last row, or a knight on its last two, could never move\nagain. Is it promoted, or the other side's?\n"
        }
        BadPosition::TwoPawns(_) => { "A side has at most one unpromoted pawn on a file.\n" }
    }
}

/// What was expected where a text stops being a diagram's, and what a position needs.
#[tactic(auto, using(crate::proofs::Readable::readable_plain))]
pub(crate) fn advice_on_diagram(fault: KifFault) -> &'static str
    ensures { IsReadable result.now }
{
    match fault {
        KifFault::NotUtf8(_) => {
            "Expected: UTF-8. Many KIF files are Shift-JIS, which can be converted:\niconv -f CP932 -t UTF-8 FILE > NEW_FILE\n"
        }
        KifFault::HandicapName(_) => {
            "Names of a handicap game aren't read. Write 先手 for 下手 (Black) and 後手 for\n上手 (White), or leave the line out.\n"
        }
        KifFault::BadCell(10, _) => {
            "Expected: nine rows. This is a tenth line that begins with |.\n"
        }
        KifFault::BadCell(_, 10) => { "Expected: the bar | behind the ninth cell.\n" }
        KifFault::BadCell(..) => {
            "Expected: a cell of two characters: a space, or v for White's; then ・ for an\nempty square, or a piece of 歩香桂銀金角飛玉王と杏圭全馬龍竜.\n"
        }
        KifFault::BadHand(_) => {
            "Expected: なし for an empty hand, else pieces of 歩香桂銀金角飛 with blanks\nbetween them, each perhaps with its count behind it: 飛二　歩十八\n"
        }
        KifFault::BadCount(_) => {
            "Expected: behind a piece a blank, or its count from 一 to 十八, as 歩二　香\n"
        }
        KifFault::HandTwice(_) => {
            "Expected: each piece once in a hand, with its count behind it: 金二 and not\n金　金\n"
        }
        KifFault::NoDiagram => {
            "Expected: nine rows of a diagram, lines that begin with |, before the moves.\nA position is read from its diagram alone: save it with that.\n"
        }
        KifFault::BadPosition(BadPosition::NoDefenderKing) => {
            "The side to move attacks, so the other side needs a king. If White is the\nattacker, a line 後手番 says so.\n"
        }
        KifFault::BadPosition(fault) => advice_on_position(fault),
    }
}

/// What is said of an SFEN that is given where a diagram is expected.
pub(crate) const ON_SFEN_WITH_KIF: &str =
    "This looks like an SFEN, which `solve`, `cook` and `shortest` read without\n--kif.\n";

/// What is said where White is to move, and Black has no king.
pub(crate) const ON_NO_BLACK_KING: &str =
    "The side to move attacks, so the other side needs a king. If Black is the\nattacker, the side to move is b.\n";

/// What is said of a position whose side that isn't to move is in check.
pub(crate) const ON_DEFENDER_IN_CHECK: &str =
    "The side to move attacks, and the other king is in check already: no legal move\nled here. Is the other side to move?\n";

/// What is said where a text has more than one line and is a problem up to the end of one.
pub(crate) const ON_SEVERAL_LINES: &str =
    "One problem is read here, and this text has more than one line.\n`tsume collection` reads a problem in each line.\n";

/// What is said where a tab stands in the field at fault.
pub(crate) const ON_TABS: &str =
    "Here stands a tab. Between the fields of an SFEN stand spaces alone.\n";

/// What is said of a problem that is given where a certificate is expected.
pub(crate) const ON_PROBLEM_TO_CHECK: &str =
    "This looks like a problem. `tsume solve` reads problems, and prints the\ncertificates that `tsume check` reads.\n";

/// What was expected where a text stops being a certificate's.
pub(crate) fn advice_on_certificate(fault: CertFault) -> &'static str
    ensures { IsPlain result.now }
{
    match fault {
        CertFault::BadHead => {
            "Expected: `certificate V mate N` or `certificate V escape N`, V 1 or 2, then\n`problem` and an SFEN as `tsume solve` writes it; at most `checkmate ..` before\nthese.\n"
        }
        CertFault::BadLine(_) => {
            "Expected: `end`, or an entry of this certificate's kind, just as `tsume solve`\nwrites it: RANK MOVE SFEN of a mate, SFEN of an escape.\n"
        }
        CertFault::NotRising(_) => {
            "The entries rise by the bytes of their SFEN, and this one doesn't come behind\nthe one before it. Sort them so, and list none twice.\n"
        }
        CertFault::WrongCount => {
            "The number at the end of the line `certificate ..` isn't the number of entries.\n"
        }
        CertFault::NoEnd => {
            "Expected: the line `end` as the last one, and nothing behind it. Was the text\ncut off, or is there more than one certificate?\n"
        }
    }
}

/// What is said of an input with too many bytes.
pub(crate) const ON_LENGTH: &str =
    "A problem has at most 65,536 bytes, a collection 16,777,216, and a certificate\n268,435,456. Is this the right input?\n";

/// What is said where the answer couldn't be written.
pub(crate) const ON_WRITE: &str =
    "The answer couldn't be written whole, so don't rely on what stands there of it.\nIs the disk full, or did the reader of a pipe end?\n";

/// What is said for want of memory.
pub(crate) const ON_NO_MEMORY: &str =
    "Memory was wanted and not there. `solve`, `cook` and `collection` want less of\nit with fewer --rows and less --room, `collection` also with fewer --threads,\nand `shortest` with fewer --expansions.\n";

/// What is said where the text that the words give for a certificate's problem spells none.
pub(crate) const ON_ASKED: &str =
    "--problem takes an SFEN itself, in quotes, and not the name of its file:\ntsume check --problem \"$(cat PROBLEM)\" CERTIFICATE\n";

/// What is said where the problem that the words give has no king of the side that isn't to move.
pub(crate) const ON_NO_DEFENDER_KING: &str =
    "The side to move attacks, so the other side needs a king.\n";

/// What is said of a record or a diagram that is given as a collection.
pub(crate) const ON_RECORD_TO_COLLECT: &str =
    "tsume: this looks like a game record or a diagram. `collection` reads an SFEN\nin each line; `tsume solve --kif` reads the board diagram of a KIF file.\n";
