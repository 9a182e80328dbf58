// What is explained.
use cert_text::CertFault;
use kif_text::KifFault;
use sfen_text::TextFault;

/// What is explained to the user.
#[derive(Clone, Copy, PartialEq, Eq, Debug)]
pub enum Trouble {
    /// The input is no position: its first fault as an SFEN.
    Problem(TextFault),
    /// The input is no position: its first fault as a KIF diagram.
    Diagram(KifFault),
    /// The input is a position, and the side that isn't to move is in check.
    DefenderInCheck,
    /// The input is no certificate: its first fault.
    Certificate(CertFault),
    /// The input has more bytes than one may have.
    TooLong,
    /// The answer couldn't be written whole.
    Write,
    /// Memory was wanted and not there.
    NoMemory,
    /// The words of the command line are refused. The input is what is told of them first.
    Words,
    /// The text that the words give for a certificate's problem is no position: its first fault.
    Asked(TextFault),
    /// A line of a collection is no problem, which is no fault of the run. The input is how the
    /// text begins; what is told of it, if anything, is all that is told.
    Collection,
}
