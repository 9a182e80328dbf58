// Libraries of certificates: those that are read hold the certificates that stand in them, and of
// other texts the first fault is named.

use crate::same::{same, shown};
use cert_text::append_cert;
use library_text::{LibraryEnd, read_library};
use std::alloc::{AllocError, Global};
use std::process::Abort;
use std::test::Fail;

// A certificate of the mate by a gold.
const GOLD: &str =
    "certificate 1 mate 1\nproblem 4k4/9/4P4/9/9/9/9/9/9 b G\n1 G*5b 4k4/9/4P4/9/9/9/9/9/9 b G\nend\n";

#[test]
fn libraries_are_read(rt: HostRuntime) -> Result<(), Fail> {
    for (head, body) in [
        ("library 1 0\n", ""),
        (
            "library 1 1\n",
            "certificate 1 mate 1\nproblem 4k4/9/4P4/9/9/9/9/9/9 b G\n1 G*5b 4k4/9/4P4/9/9/9/9/9/9 b G\nend\n",
        ),
        (
            "library 1 3\n",
            "certificate 1 mate 1\nproblem 4k4/9/4P4/9/9/9/9/9/9 b G\n1 G*5b 4k4/9/4P4/9/9/9/9/9/9 b G\nend\ncertificate 2 mate 1\nproblem 4k4/9/4P4/9/9/9/9/9/9 b G\n1 G*5b 4k4/9/4P4/9/9/9/9/9/9 b G\nend\ncertificate 1 escape 3\nproblem 4k4/9/4P4/9/9/9/9/9/9 b P\n4k4/9/4P4/9/9/9/9/9/9 b P\n9/4k4/9/9/9/9/9/9/9 b Pp\n9/9/4k4/9/9/9/9/9/9 b 2p\nend\n",
        ),
    ] {
        let text = format!(in rt.alloc(); "{head}{body}end library\n")?;
        let read = read_library(rt.alloc(), text.as_bytes());
        let certificates = read.ok().expect(&rt, "a library");
        let mut again = Vec::new(rt.alloc());
        for certificate in &certificates {
            append_cert(&mut again, certificate)?;
        }
        same(&rt, head, shown(&again), body);
    }
    Ok(())
}

// A text that is no library's, and its first fault.
fn refused(alloc: Global, rt: &impl Abort, text: &str, wanted: &str) -> Result<(), AllocError> {
    let end = read_library(alloc, text.as_bytes()).err();
    match end.expect(rt, "a fault") {
        LibraryEnd::Fault(fault) => {
            let found = format!(in alloc; "{fault}")?;
            same(rt, text, found.as_str(), wanted);
        }
        LibraryEnd::NoMemory => same(rt, text, "no memory", wanted),
    }
    Ok(())
}

// What is no first line, before a certificate and the last line.
#[test]
fn a_bad_first_line_is_named(rt: HostRuntime) -> Result<(), Fail> {
    refused(rt.alloc(), &rt, "", "library 0: bad head")?;
    for head in [
        "",
        "\n",
        "library 2 1\n",
        "library 1 01\n",
        "library 1 10001\n",
        "library 1 x\n",
        "library 1 1 \n",
        "library 1 1\r\n",
    ] {
        let text = format!(in rt.alloc(); "{head}{GOLD}end library\n")?;
        refused(rt.alloc(), &rt, &text, "library 0: bad head")?;
    }
    Ok(())
}

// What stands behind a first line in the place of as many certificates, and behind them.
#[test]
fn the_first_bad_certificate_is_named(rt: HostRuntime) -> Result<(), Fail> {
    for (text, wanted) in [
        (
            "library 1 1\ncertificate 3 mate 1\nproblem 4k4/9/4P4/9/9/9/9/9/9 b G\n1 G*5b 4k4/9/4P4/9/9/9/9/9/9 b G\nend\nend library\n",
            "library 1: bad head",
        ),
        (
            "library 1 1\ncheckmate G*5b\ncertificate 1 mate 1\nproblem 4k4/9/4P4/9/9/9/9/9/9 b G\n1 G*5b 4k4/9/4P4/9/9/9/9/9/9 b G\nend\nend library\n",
            "library 1: bad head",
        ),
        (
            "library 1 1\ncertificate 1 mate 1\nproblem 4k4/9/4P4/9/9/9/9/9/9 b G\n0 G*5b 4k4/9/4P4/9/9/9/9/9/9 b G\nend\nend library\n",
            "library 1: bad line 1",
        ),
        (
            "library 1 1\ncertificate 1 mate 1\nproblem 4k4/9/4P4/9/9/9/9/9/9 b G\n1 G*5b 4k4/9/4P4/9/9/9/9/9/9 b G\nend library\n",
            "library 1: bad line 2",
        ),
        (
            "library 1 1\ncertificate 1 mate 1\nproblem 4k4/9/4P4/9/9/9/9/9/9 b G\n1 G*5b 4k4/9/4P4/9/9/9/9/9/9 b G\n",
            "library 1: no end",
        ),
        (
            "library 1 1\ncertificate 1 mate 2\nproblem 4k4/9/4P4/9/9/9/9/9/9 b G\n1 G*5b 4k4/9/4P4/9/9/9/9/9/9 b G\nend\nend library\n",
            "library 1: wrong count",
        ),
        (
            "library 1 2\ncertificate 1 mate 1\nproblem 4k4/9/4P4/9/9/9/9/9/9 b G\n1 G*5b 4k4/9/4P4/9/9/9/9/9/9 b G\nend\nend library\n",
            "library 2: bad head",
        ),
        (
            "library 1 2\ncertificate 1 mate 1\nproblem 4k4/9/4P4/9/9/9/9/9/9 b G\n1 G*5b 4k4/9/4P4/9/9/9/9/9/9 b G\nend\ncertificate 1 mate 1\nproblem 4k4/9/4P4/9/9/9/9/9/9 b G\n1 G*5b 1 4k4/9/4P4/9/9/9/9/9/9 b G\nend\nend library\n",
            "library 2: bad line 1",
        ),
        (
            "library 1 3\ncertificate 1 mate 1\nproblem 4k4/9/4P4/9/9/9/9/9/9 b G\n1 G*5b 4k4/9/4P4/9/9/9/9/9/9 b G\nend\ncertificate 1 mate 1\nproblem 4k4/9/4P4/9/9/9/9/9/9 b G\n1 P*5b 4k4/9/4P4/9/9/9/9/9/9 b G\nend\nxend library\n",
            "library 3: bad head",
        ),
        (
            "library 1 3\ncertificate 1 mate 1\nproblem 4k4/9/4P4/9/9/9/9/9/9 b G\n1 G*5b 4k4/9/4P4/9/9/9/9/9/9 b G\nend\ncertificate 2 mate 1\nproblem 4k4/9/4P4/9/9/9/9/9/9 b G\n1 G*5b 4k4/9/4P4/9/9/9/9/9/9 b G\nend\ncertificate 1 mate 2\nproblem 4k4/9/4P4/9/9/9/9/9/9 b G\n1 G*5b 4k4/9/4P4/9/9/9/9/9/9 b G\nend\nend library\n",
            "library 3: wrong count",
        ),
    ] {
        refused(rt.alloc(), &rt, text, wanted)?;
    }
    Ok(())
}

// What stands where the last line has to be the last.
#[test]
fn a_missing_last_line_is_named(rt: HostRuntime) -> Result<(), Fail> {
    for end in [
        "",
        "certificate 1 mate 1\nproblem 4k4/9/4P4/9/9/9/9/9/9 b G\n1 G*5b 4k4/9/4P4/9/9/9/9/9/9 b G\nend\nend library\n",
    ] {
        let text = format!(in rt.alloc(); "library 1 0\n{end}")?;
        refused(rt.alloc(), &rt, &text, "library 1: no end")?;
    }
    for end in [
        "",
        "end library",
        "end library\n\n",
        "end  library\n",
        "certificate 1 mate 1\nproblem 4k4/9/4P4/9/9/9/9/9/9 b G\n1 G*5b 4k4/9/4P4/9/9/9/9/9/9 b G\nend\nend library\n",
    ] {
        let text = format!(in rt.alloc(); "library 1 1\n{GOLD}{end}")?;
        refused(rt.alloc(), &rt, &text, "library 2: no end")?;
    }
    Ok(())
}
