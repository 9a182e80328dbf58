// What is found of a certificate.
ghost use Rattle.std.specs.Prelude.{IfOk};
ghost use Rattle.cert_text.specs.Reading.{IsReadable};
ghost use Rattle.one_run.specs.Command.{IsAnswer};
ghost use Rattle.one_run.specs.Stops.{Signals, AreUnused};
ghost use Rattle.cmd_upgrade.specs.Answer.{IsTrueOf};
ghost use Rattle.cmd_upgrade.specs.Meaning.{upgrade_meaning};

use crate::UpgradeAnswer;
use cert_check::{Verdict, check, upgrade, valid_is_accepted};
use cert_text::{CertEnd, CertFault, Certificate, cert_laws, read_cert};
use one_run::Unanswered;
use std::alloc::{AllocError, Global};

// The certificate in version 2, or the first reason against it.
fn upgraded(alloc: Global, certificate: Certificate) -> Result<UpgradeAnswer, AllocError>
    requires { IsReadable certificate }
    ensures { IfOk result (IsTrueOf certificate) }
{
    // What a valid certificate shows.
    valid_is_accepted();
    certificate.laws();
    match check(alloc, certificate.problem(), &certificate)? {
        Verdict::Accepted => {
            let upgraded = upgrade(certificate);
            upgraded.laws();
            Ok(UpgradeAnswer::Upgraded(upgraded))
        }
        Verdict::Refused { entry, why } => Ok(UpgradeAnswer::Refused { entry, why }),
    }
}

/// What is answered to the bytes of a certificate's text: it in version 2, or the first reason
/// against it; or the text's first fault.
pub(crate) fn answer(alloc: Global, input: &[u8]) -> Result<UpgradeAnswer, Unanswered<CertFault>>
    ensures { (stops : Signals) → AreUnused stops → IsAnswer upgrade_meaning stops input.now
        result }
{
    // No text has two first faults.
    cert_laws();
    let certificate = match read_cert(alloc, input) {
        Ok(certificate) => certificate,
        Err(CertEnd::Fault(fault)) => return Err(Unanswered::Text(fault)),
        Err(CertEnd::NoMemory) => return Err(Unanswered::NoMemory),
    };
    match upgraded(alloc, certificate) {
        Ok(answer) => Ok(answer),
        Err(_) => Err(Unanswered::NoMemory),
    }
}
