use crate::same::{same, shown};
use cert_text::{CertEnd, Claim, append_cert, read_cert, write_cert};
use hand_dominance::Version;
use std::alloc::{AllocError, Global};
use std::process::Abort;
use std::test::Fail;

const ONE: &str =
    "certificate 1 mate 1\nproblem 4k4/9/4P4/9/9/9/9/9/9 b G\n1 G*5b 4k4/9/4P4/9/9/9/9/9/9 b G\nend\n";

const NONE: &str =
    "certificate 1 escape 3\nproblem 4k4/9/4P4/9/9/9/9/9/9 b P\n4k4/9/4P4/9/9/9/9/9/9 b P\n9/4k4/9/9/9/9/9/9/9 b Pp\n9/9/4k4/9/9/9/9/9/9 b 2p\nend\n";

const ROOKS: &str =
    "certificate 1 mate 4\nproblem 9/4k4/8R/9/9/9/9/9/9 b R\n1 1c1a 3k5/R8/8R/9/9/9/9/9/9 b -\n1 1c1a 4k4/R8/8R/9/9/9/9/9/9 b -\n1 1c1a 5k3/R8/8R/9/9/9/9/9/9 b -\n2 R*9b 9/4k4/8R/9/9/9/9/9/9 b R\nend\n";

const TWO: &str =
    "certificate 2 mate 1\nproblem 4k4/9/4P4/9/9/9/9/9/9 b G\n1 G*5b 4k4/9/4P4/9/9/9/9/9/9 b G\nend\n";

const NONE_OF_TWO: &str =
    "certificate 2 escape 2\nproblem 4k4/9/4P4/9/9/9/9/9/9 b P\n4k4/9/4P4/9/9/9/9/9/9 b P\n9/4k4/9/9/9/9/9/9/9 b Pp\nend\n";

// Texts of certificates, and each written again, without the line in front.
#[test]
fn certificates_are_read_and_written(rt: HostRuntime) {
    let table = [
        (ONE, ONE),
        (TWO, TWO),
        (
            "checkmate G*5b\ncertificate 2 mate 1\nproblem 4k4/9/4P4/9/9/9/9/9/9 b G\n1 G*5b 4k4/9/4P4/9/9/9/9/9/9 b G\nend\n",
            TWO,
        ),
        (NONE_OF_TWO, NONE_OF_TWO),
        (
            "checkmate nomate\ncertificate 2 escape 2\nproblem 4k4/9/4P4/9/9/9/9/9/9 b P\n4k4/9/4P4/9/9/9/9/9/9 b P\n9/4k4/9/9/9/9/9/9/9 b Pp\nend\n",
            NONE_OF_TWO,
        ),
        (
            "checkmate G*5b\ncertificate 1 mate 1\nproblem 4k4/9/4P4/9/9/9/9/9/9 b G\n1 G*5b 4k4/9/4P4/9/9/9/9/9/9 b G\nend\n",
            ONE,
        ),
        (
            "checkmate 7g7f 8h2b+\ncertificate 1 mate 1\nproblem 4k4/9/4P4/9/9/9/9/9/9 b G\n1 G*5b 4k4/9/4P4/9/9/9/9/9/9 b G\nend\n",
            ONE,
        ),
        (NONE, NONE),
        (
            "checkmate nomate\ncertificate 1 escape 3\nproblem 4k4/9/4P4/9/9/9/9/9/9 b P\n4k4/9/4P4/9/9/9/9/9/9 b P\n9/4k4/9/9/9/9/9/9/9 b Pp\n9/9/4k4/9/9/9/9/9/9 b 2p\nend\n",
            NONE,
        ),
        (ROOKS, ROOKS),
    ];
    for (text, written) in table {
        let certificate = read_cert(rt.alloc(), text.as_bytes())
            .ok()
            .expect(&rt, "a certificate");
        let again = write_cert(rt.alloc(), &certificate)
            .ok()
            .expect(&rt, "memory");
        same(&rt, text, shown(&again), written);
    }
}

// What the first line says is what the certificate is: its version, its claim and its count.
#[test]
fn the_first_line_tells_the_version_and_the_claim(rt: HostRuntime) {
    for (text, version, claim) in [
        (
            "certificate 1 mate 1\nproblem 4k4/9/4P4/9/9/9/9/9/9 b G\n1 G*5b 4k4/9/4P4/9/9/9/9/9/9 b G\nend\n",
            Version::One,
            Claim::Mate,
        ),
        (
            "certificate 2 mate 1\nproblem 4k4/9/4P4/9/9/9/9/9/9 b G\n1 G*5b 4k4/9/4P4/9/9/9/9/9/9 b G\nend\n",
            Version::Two,
            Claim::Mate,
        ),
        (
            "certificate 1 escape 1\nproblem 4k4/9/4P4/9/9/9/9/9/9 b P\n4k4/9/4P4/9/9/9/9/9/9 b P\nend\n",
            Version::One,
            Claim::Escape,
        ),
        (
            "certificate 2 escape 1\nproblem 4k4/9/4P4/9/9/9/9/9/9 b P\n4k4/9/4P4/9/9/9/9/9/9 b P\nend\n",
            Version::Two,
            Claim::Escape,
        ),
    ] {
        let certificate = read_cert(rt.alloc(), text.as_bytes())
            .ok()
            .expect(&rt, "a certificate");
        same(&rt, text, certificate.version(), version);
        same(&rt, text, certificate.claim(), claim);
        same(&rt, text, certificate.count(), 1);
    }
}

// A text is written behind the line that may stand in front of it, and read with it.
#[test]
fn a_text_is_written_behind_the_line_in_front(rt: HostRuntime) {
    let text =
        "certificate 1 mate 1\nproblem 4k4/9/4P4/9/9/9/9/9/9 b G\n1 G*5b 4k4/9/4P4/9/9/9/9/9/9 b G\nend\n";
    let front = "checkmate G*5b\n";
    let certificate = read_cert(rt.alloc(), text.as_bytes())
        .ok()
        .expect(&rt, "a certificate");
    let mut whole = Vec::new(rt.alloc());
    whole
        .extend_from_slice(front.as_bytes())
        .ok()
        .expect(&rt, "memory");
    append_cert(&mut whole, &certificate)
        .ok()
        .expect(&rt, "memory");
    let begins = whole.starts_with(front.as_bytes());
    let again = read_cert(rt.alloc(), whole.as_slice())
        .ok()
        .expect(&rt, "a certificate");
    same(&rt, text, (begins, again.count()), (true, 1));
}

// A text that is no certificate's, and its first fault.
fn refused(alloc: Global, rt: &impl Abort, text: &str, wanted: &str) -> Result<(), AllocError> {
    let end = read_cert(alloc, text.as_bytes()).err();
    match end.expect(rt, "a fault") {
        CertEnd::Fault(fault) => {
            let found = format!(in alloc; "{fault}")?;
            same(rt, text, found.as_str(), wanted);
        }
        CertEnd::NoMemory => same(rt, text, "no memory", wanted),
    }
    Ok(())
}

#[test]
fn a_bad_head_is_named(rt: HostRuntime) -> Result<(), Fail> {
    for text in [
        "",
        "checkmate\ncertificate 1 mate 1\nproblem 8k/6P2/8S/9/9/9/9/9/9 b B2GPp\n1 G*1b 8k/6P2/8S/9/9/9/9/9/9 b B2GPp\nend\n",
        "checkmate nomate\ncertificate 1 mate 1\nproblem 8k/6P2/8S/9/9/9/9/9/9 b B2GPp\n1 G*1b 8k/6P2/8S/9/9/9/9/9/9 b B2GPp\nend\n",
        "checkmate 1a1a\ncertificate 1 mate 1\nproblem 8k/6P2/8S/9/9/9/9/9/9 b B2GPp\n",
        "certificate 1 mate 01\nproblem 8k/6P2/8S/9/9/9/9/9/9 b B2GPp\nend\n",
        "certificate 1 mate 0\nproblem 8k/6P2/8S/9/9/9/9/9/9 b B2GPp\nend\n",
        "certificate 1 mate 1400001\nproblem 8k/6P2/8S/9/9/9/9/9/9 b B2GPp\nend\n",
        "certificate 1 mate 1\nproblem 8k/6P2/8S/9/9/9/9/9/9 b B2GPp",
        "certificate 1 mate 1\nproblem 8k/6P2/8S/9/9/9/9/9/9 b B2GPp 1\nend\n",
        "certificate 1 mate 1\r\nproblem 8k/6P2/8S/9/9/9/9/9/9 b B2GPp\nend\n",
        "certificate 3 mate 1\nproblem 8k/6P2/8S/9/9/9/9/9/9 b B2GPp\n1 G*1b 8k/6P2/8S/9/9/9/9/9/9 b B2GPp\nend\n",
        "certificate 0 mate 1\nproblem 8k/6P2/8S/9/9/9/9/9/9 b B2GPp\n1 G*1b 8k/6P2/8S/9/9/9/9/9/9 b B2GPp\nend\n",
        "certificate 02 mate 1\nproblem 8k/6P2/8S/9/9/9/9/9/9 b B2GPp\n1 G*1b 8k/6P2/8S/9/9/9/9/9/9 b B2GPp\nend\n",
        "certificate 21 mate 1\nproblem 8k/6P2/8S/9/9/9/9/9/9 b B2GPp\n1 G*1b 8k/6P2/8S/9/9/9/9/9/9 b B2GPp\nend\n",
        "certificate 2 mate 0\nproblem 8k/6P2/8S/9/9/9/9/9/9 b B2GPp\nend\n",
        "checkmate nomate\ncertificate 2 mate 1\nproblem 8k/6P2/8S/9/9/9/9/9/9 b B2GPp\n1 G*1b 8k/6P2/8S/9/9/9/9/9/9 b B2GPp\nend\n",
        "checkmate G*1b\ncertificate 3 mate 1\nproblem 8k/6P2/8S/9/9/9/9/9/9 b B2GPp\n1 G*1b 8k/6P2/8S/9/9/9/9/9/9 b B2GPp\nend\n",
    ] {
        refused(rt.alloc(), &rt, text, "bad head")?;
    }
    Ok(())
}

#[test]
fn the_first_line_that_is_bad_or_does_not_rise_is_named(rt: HostRuntime) -> Result<(), Fail> {
    for (text, wanted) in [
        (
            "certificate 1 mate 1\nproblem 8k/6P2/8S/9/9/9/9/9/9 b B2GPp\n1 G*1b 8k/6P2/8S/9/9/9/9/9/9 b B2GPp\nen7\n",
            "bad line 2",
        ),
        (
            "certificate 1 mate 1\nproblem 8k/6P2/8S/9/9/9/9/9/9 b B2GPp\n0 G*1b 8k/6P2/8S/9/9/9/9/9/9 b B2GPp\nend\n",
            "bad line 1",
        ),
        (
            "certificate 1 mate 1\nproblem 8k/6P2/8S/9/9/9/9/9/9 b B2GPp\n1 G*1b 8k/6P2/8S/9/9/9/9/9/9 b 2GBPp\nend\n",
            "bad line 1",
        ),
        (
            "certificate 1 mate 1\nproblem 8k/6P2/8S/9/9/9/9/9/9 b B2GPp\n1 G*1b 8K/6P2/8S/9/9/9/9/9/9 w B2GPp\nend\n",
            "bad line 1",
        ),
        (
            "certificate 1 mate 2\nproblem k8/9/1p7/P8/9/9/9/9/9 b BGSNP\n2 B*1i k8/9/1p7/P8/9/9/9/9/9 b BGSNP\n2 B*1i k8/9/1p7/P8/9/9/9/9/9 b BGSNP\nend\n",
            "not rising 2",
        ),
        (
            "certificate 1 escape 2\nproblem 4k4/9/4P4/9/9/9/9/9/9 b P\n9/4k4/9/9/9/9/9/9/9 b Pp\n4k4/9/4P4/9/9/9/9/9/9 b P\nend\n",
            "not rising 2",
        ),
        (
            "certificate 2 mate 1\nproblem 8k/6P2/8S/9/9/9/9/9/9 b B2GPp\n0 G*1b 8k/6P2/8S/9/9/9/9/9/9 b B2GPp\nend\n",
            "bad line 1",
        ),
        (
            "certificate 2 escape 2\nproblem 4k4/9/4P4/9/9/9/9/9/9 b P\n9/4k4/9/9/9/9/9/9/9 b Pp\n4k4/9/4P4/9/9/9/9/9/9 b P\nend\n",
            "not rising 2",
        ),
    ] {
        refused(rt.alloc(), &rt, text, wanted)?;
    }
    Ok(())
}

#[test]
fn a_wrong_count_and_a_missing_end_are_named(rt: HostRuntime) -> Result<(), Fail> {
    for (text, wanted) in [
        (
            "certificate 1 mate 3\nproblem 8k/6P2/8S/9/9/9/9/9/9 b B2GPp\n1 G*1b 8k/6P2/8S/9/9/9/9/9/9 b B2GPp\nend\n",
            "wrong count",
        ),
        (
            "certificate 1 mate 1\nproblem 8k/6P2/8S/9/9/9/9/9/9 b B2GPp\nend\n",
            "wrong count",
        ),
        (
            "certificate 1 mate 1\nproblem 8k/6P2/8S/9/9/9/9/9/9 b B2GPp\n1 G*1b 8k/6P2/8S/9/9/9/9/9/9 b B2GPp\nend",
            "no end",
        ),
        (
            "certificate 1 mate 1\nproblem 8k/6P2/8S/9/9/9/9/9/9 b B2GPp\n1 G*1b 8k/6P2/8S/9/9/9/9/9/9 b B2GPp\nend\n\n",
            "no end",
        ),
        (
            "certificate 1 mate 3\nproblem k8/2S6/9/9/9/9/9/9/9 b 2RBNPp\nend\n1 R*9c k8/1pS6/2B6/9/9/9/9/9/9 b 2RNP\n",
            "no end",
        ),
        (
            "certificate 2 mate 1\nproblem 8k/6P2/8S/9/9/9/9/9/9 b B2GPp\nend\n",
            "wrong count",
        ),
    ] {
        refused(rt.alloc(), &rt, text, wanted)?;
    }
    Ok(())
}
