// Texts about the shortest mate: those that are read say what stands in them, and of the others the
// first fault is named.
ghost use Rattle.shortest_text.specs.Reading.{IsReadable};

use crate::same::{same, shown};
use bound_text::append_bound;
use cert_text::{append_mate_cert, append_number};
use mate_facts::Rank;
use sfen_text::append_sfen;
use shortest_text::{ShortestEnd, ShortestText, read_shortest};
use std::alloc::{AllocError, Global};
use std::process::Abort;
use std::test::Fail;

fn append_numbered(out: &mut Vec<u8>, words: &str, rank: Rank) -> Result<(), AllocError> {
    out.extend_from_slice(words.as_bytes())?;
    append_number(out, u64::from(rank.number))?;
    out.push(b'\n')?;
    Ok(())
}

// What was read as it is written again, without a front line.
fn written(alloc: Global, said: &ShortestText) -> Result<Vec<u8>, AllocError>
    requires { IsReadable said.now }
{
    let mut out = Vec::new(alloc);
    match said {
        ShortestText::Found {
            rank,
            certificate,
            bound,
        } => {
            append_numbered(&mut out, "shortest ", *rank)?;
            append_mate_cert(&mut out, certificate)?;
            append_bound(&mut out, bound)?;
        }
        ShortestText::NoneWithin { limit, bound } => {
            append_numbered(&mut out, "none within ", *limit)?;
            out.extend_from_slice(b"problem ")?;
            append_sfen(&mut out, &bound.problem().position)?;
            out.push(b'\n')?;
            append_bound(&mut out, bound)?;
        }
    }
    Ok(out)
}

#[test]
fn texts_about_the_shortest_mate_are_read(rt: HostRuntime) -> Result<(), Fail> {
    for (front, text) in [
        (
            "checkmate R*2b 5b4a 1c1a\n",
            "shortest 2\ncertificate 1 mate 4\nproblem 9/4k4/8R/9/9/9/9/9/9 b R\n1 1c1a 3k5/7R1/8R/9/9/9/9/9/9 b -\n1 1c1a 4k4/7R1/8R/9/9/9/9/9/9 b -\n1 1c1a 5k3/7R1/8R/9/9/9/9/9/9 b -\n2 R*2b 9/4k4/8R/9/9/9/9/9/9 b R\nend\nbound 1 1\n1 9/4k4/8R/9/9/9/9/9/9 b R\nend\n",
        ),
        (
            "checkmate G*5b\n",
            "shortest 2\ncertificate 1 mate 4\nproblem 9/4k4/8R/9/9/9/9/9/9 b R\n1 1c1a 3k5/7R1/8R/9/9/9/9/9/9 b -\n1 1c1a 4k4/7R1/8R/9/9/9/9/9/9 b -\n1 1c1a 5k3/7R1/8R/9/9/9/9/9/9 b -\n2 R*2b 9/4k4/8R/9/9/9/9/9/9 b R\nend\nbound 1 1\n1 9/4k4/8R/9/9/9/9/9/9 b R\nend\n",
        ),
        (
            "checkmate G*5b\n",
            "shortest 1\ncertificate 1 mate 1\nproblem 4k4/9/4P4/9/9/9/9/9/9 b G\n1 G*5b 4k4/9/4P4/9/9/9/9/9/9 b G\nend\nbound 1 0\nend\n",
        ),
        (
            "checkmate 6h8h 8c9c 6d7c 9c9b 7c8b\n",
            "shortest 3\ncertificate 1 mate 6\nproblem 9/9/1k2G3n/3+R5/9/5P3/9/3R5/9 b -\n1 5c6b 9/2k6/4G3n/3+R5/9/5P3/9/1R7/9 b -\n3 6h8h 9/9/1k2G3n/3+R5/9/5P3/9/3R5/9 b -\n1 7c8d 9/9/2+R1G3n/k8/9/5P3/9/1R7/9 b -\n2 6d7c 9/9/k3G3n/3+R5/9/5P3/9/1R7/9 b -\n1 7c8b 9/k8/2+R1G3n/9/9/5P3/9/1R7/9 b -\n1 6d9d 9/k8/4G3n/3+R5/9/5P3/9/1R7/9 b -\nend\nbound 1 7\n1 9/1k7/3+RG3n/9/9/5P3/9/3R5/9 b -\n1 9/2k6/4G3n/+R8/9/5P3/9/3R5/9 b -\n2 9/9/1k2G3n/3+R5/9/5P3/9/3R5/9 b -\n1 9/9/2k1G3n/9/9/5P3/9/3R5/9 b r\n1 9/9/4G3n/1k7/9/5P3/9/3R5/9 b r\n1 9/9/4G3n/2k6/9/5P3/9/3R5/9 b r\n1 9/9/k3G3n/3+R5/9/5P3/9/1R7/9 b -\nend\n",
        ),
        (
            "",
            "none within 3\nproblem 4k4/9/9/9/9/9/9/9/9 b -\nbound 1 1\n3 4k4/9/9/9/9/9/9/9/9 b -\nend\n",
        ),
        (
            "",
            "none within 6\nproblem 9/9/9/9/9/9/9/9/5k2K w B\nbound 1 1\n6 9/9/9/9/9/9/9/9/5k2K w B\nend\n",
        ),
        (
            "",
            "none within 3\nproblem 5k3/9/9/9/9/9/9/9/9 b -\nbound 1 1\n3 4k4/9/9/9/9/9/9/9/9 b -\nend\n",
        ),
        (
            "",
            "none within 3\nproblem 4k4/9/9/9/9/9/9/9/9 b -\nbound 1 0\nend\n",
        ),
        (
            "",
            "none within 3\nproblem 4k4/9/9/9/9/9/9/9/9 b -\nbound 1 2\n9 3k5/9/9/9/9/9/9/9/9 b -\n3 4k4/9/9/9/9/9/9/9/9 b -\nend\n",
        ),
    ] {
        let mut whole = Vec::new(rt.alloc());
        whole.extend_from_slice(front.as_bytes())?;
        whole.extend_from_slice(text.as_bytes())?;
        let said = read_shortest(rt.alloc(), &whole)
            .ok()
            .expect(&rt, "what it says");
        let again = written(rt.alloc(), &said)?;
        same(&rt, text, shown(&again), text);
    }
    Ok(())
}

// A text that has a fault, and its first one.
fn refused(alloc: Global, rt: &impl Abort, text: &str, wanted: &str) -> Result<(), AllocError> {
    let end = read_shortest(alloc, text.as_bytes()).err();
    match end.expect(rt, "a fault") {
        ShortestEnd::Fault(fault) => {
            let found = format!(in alloc; "{fault}")?;
            same(rt, text, found.as_str(), wanted);
        }
        ShortestEnd::NoMemory => same(rt, text, "no memory", wanted),
    }
    Ok(())
}

#[test]
fn a_bad_head_is_named(rt: HostRuntime) -> Result<(), Fail> {
    for text in [
        "",
        "mate R*2b 5b4a 1c1a\nshortest 2\ncertificate 1 mate 4\nproblem 9/4k4/8R/9/9/9/9/9/9 b R\n1 1c1a 3k5/7R1/8R/9/9/9/9/9/9 b -\n1 1c1a 4k4/7R1/8R/9/9/9/9/9/9 b -\n1 1c1a 5k3/7R1/8R/9/9/9/9/9/9 b -\n2 R*2b 9/4k4/8R/9/9/9/9/9/9 b R\nend\nbound 1 1\n1 9/4k4/8R/9/9/9/9/9/9 b R\nend\n",
        "shortest 2\ncertificate 1 mate 4\nproblem 9/4k4/8R/9/9/9/9/9/9 b R\n1 1c1a 3k5/7R1/8R/9/9/9/9/9/9 b -\n1 1c1a 4k4/7R1/8R/9/9/9/9/9/9 b -\n1 1c1a 5k3/7R1/8R/9/9/9/9/9/9 b -\n2 R*2b 9/4k4/8R/9/9/9/9/9/9 b R\nend\nbound 1 1\n1 9/4k4/8R/9/9/9/9/9/9 b R\nend\n",
        "checkmate\nshortest 2\ncertificate 1 mate 4\nproblem 9/4k4/8R/9/9/9/9/9/9 b R\n1 1c1a 3k5/7R1/8R/9/9/9/9/9/9 b -\n1 1c1a 4k4/7R1/8R/9/9/9/9/9/9 b -\n1 1c1a 5k3/7R1/8R/9/9/9/9/9/9 b -\n2 R*2b 9/4k4/8R/9/9/9/9/9/9 b R\nend\nbound 1 1\n1 9/4k4/8R/9/9/9/9/9/9 b R\nend\n",
        "checkmate nomate\nshortest 2\ncertificate 1 mate 4\nproblem 9/4k4/8R/9/9/9/9/9/9 b R\n1 1c1a 3k5/7R1/8R/9/9/9/9/9/9 b -\n1 1c1a 4k4/7R1/8R/9/9/9/9/9/9 b -\n1 1c1a 5k3/7R1/8R/9/9/9/9/9/9 b -\n2 R*2b 9/4k4/8R/9/9/9/9/9/9 b R\nend\nbound 1 1\n1 9/4k4/8R/9/9/9/9/9/9 b R\nend\n",
        "checkmate R*2b 5b4a 1c1a\ncertificate 1 mate 4\nproblem 9/4k4/8R/9/9/9/9/9/9 b R\n1 1c1a 3k5/7R1/8R/9/9/9/9/9/9 b -\n1 1c1a 4k4/7R1/8R/9/9/9/9/9/9 b -\n1 1c1a 5k3/7R1/8R/9/9/9/9/9/9 b -\n2 R*2b 9/4k4/8R/9/9/9/9/9/9 b R\nend\nbound 1 1\n1 9/4k4/8R/9/9/9/9/9/9 b R\nend\n",
        "checkmate R*2b 5b4a 1c1a\nshortest 02\ncertificate 1 mate 4\nproblem 9/4k4/8R/9/9/9/9/9/9 b R\n1 1c1a 3k5/7R1/8R/9/9/9/9/9/9 b -\n1 1c1a 4k4/7R1/8R/9/9/9/9/9/9 b -\n1 1c1a 5k3/7R1/8R/9/9/9/9/9/9 b -\n2 R*2b 9/4k4/8R/9/9/9/9/9/9 b R\nend\nbound 1 1\n1 9/4k4/8R/9/9/9/9/9/9 b R\nend\n",
        "checkmate R*2b 5b4a 1c1a\nshortest 1000000000\ncertificate 1 mate 4\nproblem 9/4k4/8R/9/9/9/9/9/9 b R\n1 1c1a 3k5/7R1/8R/9/9/9/9/9/9 b -\n1 1c1a 4k4/7R1/8R/9/9/9/9/9/9 b -\n1 1c1a 5k3/7R1/8R/9/9/9/9/9/9 b -\n2 R*2b 9/4k4/8R/9/9/9/9/9/9 b R\nend\nbound 1 1\n1 9/4k4/8R/9/9/9/9/9/9 b R\nend\n",
        "checkmate R*2b 5b4a 1c1a\nshortest 2\ncertificate 2 mate 4\nproblem 9/4k4/8R/9/9/9/9/9/9 b R\n1 1c1a 3k5/7R1/8R/9/9/9/9/9/9 b -\n1 1c1a 4k4/7R1/8R/9/9/9/9/9/9 b -\n1 1c1a 5k3/7R1/8R/9/9/9/9/9/9 b -\n2 R*2b 9/4k4/8R/9/9/9/9/9/9 b R\nend\nbound 1 1\n1 9/4k4/8R/9/9/9/9/9/9 b R\nend\n",
        "checkmate R*2b 5b4a 1c1a\nshortest 2\ncertificate 1 mate 4\nproblem  9/4k4/8R/9/9/9/9/9/9 b R\n1 1c1a 3k5/7R1/8R/9/9/9/9/9/9 b -\n1 1c1a 4k4/7R1/8R/9/9/9/9/9/9 b -\n1 1c1a 5k3/7R1/8R/9/9/9/9/9/9 b -\n2 R*2b 9/4k4/8R/9/9/9/9/9/9 b R\nend\nbound 1 1\n1 9/4k4/8R/9/9/9/9/9/9 b R\nend\n",
        "checkmate R*2b 5b4a 1c1a\r\nshortest 2\r\ncertificate 1 mate 4\r\nproblem 9/4k4/8R/9/9/9/9/9/9 b R\r\n1 1c1a 3k5/7R1/8R/9/9/9/9/9/9 b -\r\n1 1c1a 4k4/7R1/8R/9/9/9/9/9/9 b -\r\n1 1c1a 5k3/7R1/8R/9/9/9/9/9/9 b -\r\n2 R*2b 9/4k4/8R/9/9/9/9/9/9 b R\r\nend\r\nbound 1 1\r\n1 9/4k4/8R/9/9/9/9/9/9 b R\r\nend\r\n",
        "none within 03\nproblem 4k4/9/9/9/9/9/9/9/9 b -\nbound 1 1\n3 4k4/9/9/9/9/9/9/9/9 b -\nend\n",
        "none within 0\nproblem 4k4/9/9/9/9/9/9/9/9 b -\nbound 1 1\n3 4k4/9/9/9/9/9/9/9/9 b -\nend\n",
        "none within 3\nbound 1 1\n3 4k4/9/9/9/9/9/9/9/9 b -\nend\n",
        "none within 3\nproblem 4k4/9/9/9/9/9/9/9/9 b - 1\nbound 1 1\n3 4k4/9/9/9/9/9/9/9/9 b -\nend\n",
        "checkmate nomate\nnone within 3\nproblem 4k4/9/9/9/9/9/9/9/9 b -\nbound 1 1\n3 4k4/9/9/9/9/9/9/9/9 b -\nend\n",
        "checkmate timeout\nunknown expansions 5\n",
        "certificate 1 mate 4\nproblem 9/4k4/8R/9/9/9/9/9/9 b R\n1 1c1a 3k5/7R1/8R/9/9/9/9/9/9 b -\n1 1c1a 4k4/7R1/8R/9/9/9/9/9/9 b -\n1 1c1a 5k3/7R1/8R/9/9/9/9/9/9 b -\n2 R*2b 9/4k4/8R/9/9/9/9/9/9 b R\nend\n",
        // A certificate of version 2, in which a line is bad too.
        "checkmate G*5b\nshortest 1\ncertificate 2 mate 1\nproblem 4k4/9/4P4/9/9/9/9/9/9 b G\n0 G*5b 4k4/9/4P4/9/9/9/9/9/9 b G\nend\nbound 1 0\nend\n",
        // A second front line, and an escape.
        "checkmate R*2b 5b4a 1c1a\nshortest 2\ncheckmate G*5b\ncertificate 1 mate 4\nproblem 9/4k4/8R/9/9/9/9/9/9 b R\n1 1c1a 3k5/7R1/8R/9/9/9/9/9/9 b -\n1 1c1a 4k4/7R1/8R/9/9/9/9/9/9 b -\n1 1c1a 5k3/7R1/8R/9/9/9/9/9/9 b -\n2 R*2b 9/4k4/8R/9/9/9/9/9/9 b R\nend\nbound 1 1\n1 9/4k4/8R/9/9/9/9/9/9 b R\nend\n",
        "checkmate G*5b\nshortest 1\ncertificate 1 escape 1\nproblem 4k4/9/9/9/9/9/9/9/9 b -\n4k4/9/9/9/9/9/9/9/9 b -\nend\nbound 1 0\nend\n",
    ] {
        refused(rt.alloc(), &rt, text, "bad head")?;
    }
    Ok(())
}

#[test]
fn a_fault_of_the_certificate_comes_before_one_of_the_bound(rt: HostRuntime) -> Result<(), Fail> {
    for (text, wanted) in [
        (
            "checkmate R*2b 5b4a 1c1a\nshortest 2\ncertificate 1 mate 5\nproblem 9/4k4/8R/9/9/9/9/9/9 b R\n1 1c1a 3k5/7R1/8R/9/9/9/9/9/9 b -\n1 1c1a 4k4/7R1/8R/9/9/9/9/9/9 b -\n1 1c1a 5k3/7R1/8R/9/9/9/9/9/9 b -\n2 R*2b 9/4k4/8R/9/9/9/9/9/9 b R\nend\nbound 1 1\n1 9/4k4/8R/9/9/9/9/9/9 b R\nend\n",
            "wrong count",
        ),
        (
            "checkmate R*2b 5b4a 1c1a\nshortest 2\ncertificate 1 mate 4\nproblem 9/4k4/8R/9/9/9/9/9/9 b R\n1 1c1a 3k5/7R1/8R/9/9/9/9/9/9 b -\n1 1c1a 4k4/7R1/8R/9/9/9/9/9/9 b -\n1 1c1a 5k3/7R1/8R/9/9/9/9/9/9 b -\n02 R*2b 9/4k4/8R/9/9/9/9/9/9 b R\nend\nbound 1 1\n1 9/4k4/8R/9/9/9/9/9/9 b R\nend\n",
            "bad line 4",
        ),
        (
            "checkmate R*2b 5b4a 1c1a\nshortest 2\ncertificate 1 mate 4\nproblem 9/4k4/8R/9/9/9/9/9/9 b R\n1 1c1a 3k5/7R1/8R/9/9/9/9/9/9 b -\n1 1c1a 4k4/7R1/8R/9/9/9/9/9/9 b -\n1 1c1a 5k3/7R1/8R/9/9/9/9/9/9 b -\n2 R*2b 9/4k4/8R/9/9/9/9/9/9 w R\nend\nbound 1 1\n1 9/4k4/8R/9/9/9/9/9/9 w R\nend\n",
            "bad line 4",
        ),
        (
            "checkmate R*2b 5b4a 1c1a\nshortest 2\ncertificate 1 mate 4\nproblem 9/4k4/8R/9/9/9/9/9/9 b R\n1 1c1a 3k5/7R1/8R/9/9/9/9/9/9 b -\n1 1c1a 4k4/7R1/8R/9/9/9/9/9/9 b -\n1 1c1a 5k3/7R1/8R/9/9/9/9/9/9 b -\n2 R*2b 9/4k4/8R/9/9/9/9/9/9 b R\n",
            "no end",
        ),
        (
            "checkmate R*2b 5b4a 1c1a\nshortest 2\ncertificate 1 mate 4\nproblem 9/4k4/8R/9/9/9/9/9/9 b R\n1 1c1a 3k5/7R1/8R/9/9/9/9/9/9 b -\n1 1c1a 4k4/7R1/8R/9/9/9/9/9/9 b -\n1 1c1a 5k3/7R1/8R/9/9/9/9/9/9 b -\n2 R*2b 9/4k4/8R/9/9/9/9/9/9 b R\nend\n",
            "bad bound 0",
        ),
        (
            "checkmate R*2b 5b4a 1c1a\nshortest 2\ncertificate 1 mate 4\nproblem 9/4k4/8R/9/9/9/9/9/9 b R\n1 1c1a 3k5/7R1/8R/9/9/9/9/9/9 b -\n1 1c1a 4k4/7R1/8R/9/9/9/9/9/9 b -\n1 1c1a 5k3/7R1/8R/9/9/9/9/9/9 b -\n2 R*2b 9/4k4/8R/9/9/9/9/9/9 b R\nend\nboun",
            "bad bound 0",
        ),
        (
            "checkmate R*2b 5b4a 1c1a\nshortest 2\ncertificate 1 mate 4\nproblem 9/4k4/8R/9/9/9/9/9/9 b R\n1 1c1a 3k5/7R1/8R/9/9/9/9/9/9 b -\n1 1c1a 4k4/7R1/8R/9/9/9/9/9/9 b -\n1 1c1a 5k3/7R1/8R/9/9/9/9/9/9 b -\n2 R*2b 9/4k4/8R/9/9/9/9/9/9 b R\nend\nbound 1 01\n1 9/4k4/8R/9/9/9/9/9/9 b R\nend\n",
            "bad bound 0",
        ),
        (
            "checkmate R*2b 5b4a 1c1a\nshortest 2\ncertificate 1 mate 4\nproblem 9/4k4/8R/9/9/9/9/9/9 b R\n1 1c1a 3k5/7R1/8R/9/9/9/9/9/9 b -\n1 1c1a 4k4/7R1/8R/9/9/9/9/9/9 b -\n1 1c1a 5k3/7R1/8R/9/9/9/9/9/9 b -\n2 R*2b 9/4k4/8R/9/9/9/9/9/9 b R\nend\nbound 1 2\n1 9/4k4/8R/9/9/9/9/9/9 b R\nend\n",
            "bad bound 2",
        ),
        (
            "checkmate R*2b 5b4a 1c1a\nshortest 2\ncertificate 1 mate 4\nproblem 9/4k4/8R/9/9/9/9/9/9 b R\n1 1c1a 3k5/7R1/8R/9/9/9/9/9/9 b -\n1 1c1a 4k4/7R1/8R/9/9/9/9/9/9 b -\n1 1c1a 5k3/7R1/8R/9/9/9/9/9/9 b -\n2 R*2b 9/4k4/8R/9/9/9/9/9/9 b R\nend\nbound 1 1\n1 9/4k4/8R/9/9/9/9/9/9 b R\nend",
            "bad bound 2",
        ),
        (
            "checkmate R*2b 5b4a 1c1a\nshortest 2\ncertificate 1 mate 4\nproblem 9/4k4/8R/9/9/9/9/9/9 b R\n1 1c1a 3k5/7R1/8R/9/9/9/9/9/9 b -\n1 1c1a 4k4/7R1/8R/9/9/9/9/9/9 b -\n1 1c1a 5k3/7R1/8R/9/9/9/9/9/9 b -\n2 R*2b 9/4k4/8R/9/9/9/9/9/9 b R\nend\nbound 1 1\n1 9/4k4/8R/9/9/9/9/9/9 b R\nend\n\n",
            "bad bound 3",
        ),
        (
            "checkmate R*2b 5b4a 1c1a\nshortest 2\ncertificate 1 mate 4\nproblem 9/4k4/8R/9/9/9/9/9/9 b R\n1 1c1a 3k5/7R1/8R/9/9/9/9/9/9 b -\n1 1c1a 4k4/7R1/8R/9/9/9/9/9/9 b -\n1 1c1a 5k3/7R1/8R/9/9/9/9/9/9 b -\n2 R*2b 9/4k4/8R/9/9/9/9/9/9 b R\nend\nbound 1 1\n1 9/4k4/8R/9/9/9/9/9/9 b R\n",
            "bad bound 2",
        ),
        (
            "checkmate R*2b 5b4a 1c1a\nshortest 2\ncertificate 1 mate 4\nproblem 9/4k4/8R/9/9/9/9/9/9 b R\n1 1c1a 3k5/7R1/8R/9/9/9/9/9/9 b -\n1 1c1a 4k4/7R1/8R/9/9/9/9/9/9 b -\n1 1c1a 5k3/7R1/8R/9/9/9/9/9/9 b -\n2 R*2b 9/4k4/8R/9/9/9/9/9/9 b R\nend\nbound 1 1\n1 9/4k4/8R/9/9/9/9/9/9 b R",
            "bad bound 1",
        ),
        (
            "none within 3\nproblem 4k4/9/9/9/9/9/9/9/9 b -\nbound 1 2\n3 4k4/9/9/9/9/9/9/9/9 b -\n3 4k4/9/9/9/9/9/9/9/9 b -\nend\n",
            "bad bound 2",
        ),
        (
            "none within 3\nproblem 4k4/9/9/9/9/9/9/9/9 b -\nbound 1 2\n9 5k3/9/9/9/9/9/9/9/9 b -\n3 4k4/9/9/9/9/9/9/9/9 b -\nend\n",
            "bad bound 2",
        ),
    ] {
        refused(rt.alloc(), &rt, text, wanted)?;
    }
    Ok(())
}
