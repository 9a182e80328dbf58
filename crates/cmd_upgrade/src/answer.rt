// What is found out about a certificate that is to be of version 2.
use cert_check::Why;
use cert_text::Certificate;
use run_telling::Status;

/// What was found out about a certificate that is to be of version 2.
#[derive(Drop)]
pub enum UpgradeAnswer {
    /// It is valid for its problem: the same in version 2.
    Upgraded(Certificate),
    /// It isn't.
    Refused {
        /// The first entry that something speaks against, counted from 1; 0 for the certificate as
        /// a whole.
        entry: u64,
        /// The first reason against it.
        why: Why,
    },
}

impl Status for UpgradeAnswer {
    ghost use Rattle.cmd_upgrade.specs.Text.{answer_status};

    ghost status_of = { answer_status };

    /// 0 with a certificate, 7 where that which was read is refused.
    fn status(&self) -> u8 {
        match self {
            UpgradeAnswer::Upgraded(_) => 0,
            UpgradeAnswer::Refused { .. } => 7,
        }
    }
}
