// Libraries of certificates, checked: the first that isn't valid is named, with the first reason.
use crate::letters::by;
use crate::same::same;
use cert_check::Why;
use library_check::{Refused, first_refused};
use library_text::read_library;

#[test]
fn a_library_of_valid_certificates_is_accepted(rt: HostRuntime) {
    for text in [
        "library 1 0\nend library\n",
        "library 1 1\ncertificate 1 mate 1\nproblem 4k4/9/4P4/9/9/9/9/9/9 b G\n1 G*5b 4k4/9/4P4/9/9/9/9/9/9 b G\nend\nend library\n",
        "library 1 2\ncertificate 1 escape 5\nproblem 9/4+S4/+BK2P4/N8/6n2/1p3S3/6p2/9/9 w 2RB4GS2N4L15Ps\n9/1K2+S4/+B3P4/N8/6n2/1p3S3/6p2/9/9 w 2RB4G2S2N4L15P\n9/2K1+S4/+B3P4/N8/6n2/1p3S3/6p2/9/9 w 2RB4G2S2N4L15P\n9/4+S4/+B1K1P4/N1s6/6n2/1p3S3/6p2/9/9 w 2RB4GS2N4L15P\n9/4+S4/+BK2P4/N8/6n2/1p3S3/6p2/9/9 w 2RB4GS2N4L15Ps\n9/s3+S4/+B1K1P4/N8/6n2/1p3S3/6p2/9/9 w 2RB4GS2N4L15P\nend\ncertificate 1 mate 4\nproblem 9/9/7N1/7K1/9/6+r2/9/9/9 w B3G3S2N4L18Prbgsn\n1 S*1c 9/7g1/6bN1/8K/9/6+r2/9/9/9 w B3G3S2N4L18Prsn\n1 R*1e 9/9/6bN1/8K/9/6+r2/9/9/9 w B3G3S2N4L18Prgsn\n2 G*2b 9/9/6bNK/9/9/6+r2/9/9/9 w B3G3S2N4L18Prgsn\n3 B*3c 9/9/7N1/7K1/9/6+r2/9/9/9 w B3G3S2N4L18Prbgsn\nend\nend library\n",
        "library 1 2\ncertificate 1 escape 10\nproblem 9/3k1p3/S2g5/1gl6/9/9/9/9/9 b B2rb2g3s4n3l17p\n2Bk5/5p3/S2g5/1gl6/9/9/9/9/9 b 2rb2g3s4n3l17p\n4k4/5p3/S2g5/1gl2B3/9/9/9/9/9 b 2rb2g3s4n3l17p\n4k4/5p3/S2g5/1gl6/6B2/9/9/9/9 b 2rb2g3s4n3l17p\n4k4/5p3/S2g5/1gl6/9/7B1/9/9/9 b 2rb2g3s4n3l17p\n4k4/5p3/S2g5/1gl6/9/9/8B/9/9 b 2rb2g3s4n3l17p\n4k4/5p3/S2g5/1gl6/9/9/9/9/9 b 2r2b2g3s4n3l17p\n9/3k1p3/S1g6/1gl6/9/9/9/9/9 b 2r2b2g3s4n3l17p\n9/3k1p3/S2g5/1gl6/9/9/9/9/9 b 2r2b2g3s4n3l17p\n9/3k1p3/S2g5/1gl6/9/9/9/9/9 b B2rb2g3s4n3l17p\n9/5p3/S2gk4/1gl6/9/9/9/9/9 b 2r2b2g3s4n3l17p\nend\ncertificate 1 mate 17\nproblem 9/9/9/5+r+p2/9/4+r+B3/7+P1/6K2/4s4 w 3G3S3N4L15Pbgnp\n4 5f5h 9/9/9/5+r+p2/9/4+r+B3/7+P1/6K2/4s4 w 3G3S3N4L15Pbgnp\n3 4d4f 9/9/9/5+r+p2/9/5+B3/6K+P1/4+r4/4s4 w 3G3S3N4L15Pbgnp\n1 5h4h 9/9/9/5+r+p2/9/5+B3/7+P1/4+r3g/4s1K2 w 3G3S3N4L15Pbnp\n1 G*3h 9/9/9/5+r+p2/9/5+B3/7+P1/4+r4/4s1K2 w 3G3S3N4L15Pbgnp\n2 G*1h 9/9/9/5+r+p2/9/5+B3/7+P1/4+r4/4s2K1 w 3G3S3N4L15Pbgnp\n2 5h4h 9/9/9/5+r+p2/9/5+B3/7+P1/4+rGK2/4s4 w 2G3S3N4L15Pbgnp\n2 5h4h 9/9/9/5+r+p2/9/5+B3/7+P1/4+rLK2/4s4 w 3G3S3N3L15Pbgnp\n2 5h4h 9/9/9/5+r+p2/9/5+B3/7+P1/4+rNK2/4s4 w 3G3S2N4L15Pbgnp\n2 5h4h 9/9/9/5+r+p2/9/5+B3/7+P1/4+rPK2/4s4 w 3G3S3N4L14Pbgnp\n2 5h4h 9/9/9/5+r+p2/9/5+B3/7+P1/4+rSK2/4s4 w 3G2S3N4L15Pbgnp\n1 G*1h 9/9/9/5+r+p2/9/5+B3/7+P1/5+r3/4s2K1 w 2G3S3N4L15Pb2gnp\n1 S*1h 9/9/9/5+r+p2/9/5+B3/7+P1/5+r3/4s2K1 w 3G2S3N4L15Pbgsnp\n1 G*1h 9/9/9/5+r+p2/9/5+B3/7+P1/5+r3/4s2K1 w 3G3S2N4L15Pbg2np\n1 G*1h 9/9/9/5+r+p2/9/5+B3/7+P1/5+r3/4s2K1 w 3G3S3N3L15Pbgnlp\n1 G*1h 9/9/9/5+r+p2/9/5+B3/7+P1/5+r3/4s2K1 w 3G3S3N4L14Pbgn2p\n1 5h4h 9/9/9/6+p2/6g2/9/6K+P1/4+r4/4s4 w R3G3S3N4L15P2bnp\n2 G*3e 9/9/9/6+p2/9/5K3/7+P1/4+r4/4s4 w R3G3S3N4L15P2bgnp\nend\nend library\n",
    ] {
        let certificates = read_library(rt.alloc(), text.as_bytes())
            .ok()
            .expect(&rt, "a library");
        let found = first_refused(rt.alloc(), &certificates)
            .ok()
            .expect(&rt, "memory");
        same(&rt, text, found, None);
    }
}

#[test]
fn the_first_refused_certificate_is_named(rt: HostRuntime) {
    for (text, number, entry, why) in [
        (
            "library 1 1\ncertificate 1 mate 1\nproblem 4k4/9/4P4/9/9/9/9/9/9 b G\n1 G*4b 4k4/9/4P4/9/9/9/9/9/9 b G\nend\nend library\n",
            1,
            1,
            Why::EvasionOutside(by(&rt, "5a4b")),
        ),
        (
            "library 1 2\ncertificate 1 mate 1\nproblem 4k4/9/4P4/9/9/9/9/9/9 b G\n1 G*5b 4k4/9/4P4/9/9/9/9/9/9 b G\nend\ncertificate 1 mate 1\nproblem 4k4/9/4P4/9/9/9/9/9/9 b G\n1 P*5b 4k4/9/4P4/9/9/9/9/9/9 b G\nend\nend library\n",
            2,
            1,
            Why::NotACheck(by(&rt, "P*5b")),
        ),
        (
            "library 1 2\ncertificate 2 mate 1\nproblem 4k4/9/4P4/9/9/9/9/9/9 b -\n1 G*5b 4k4/9/4P4/9/9/9/9/9/9 b G\nend\ncertificate 1 mate 1\nproblem 4k4/9/4P4/9/9/9/9/9/9 b G\n1 G*5b 4k4/9/4P4/9/9/9/9/9/9 b G\nend\nend library\n",
            1,
            0,
            Why::RootMissing,
        ),
        (
            "library 1 3\ncertificate 1 mate 1\nproblem 4k4/9/4P4/9/9/9/9/9/9 b G\n1 G*5b 4k4/9/4P4/9/9/9/9/9/9 b G\nend\ncertificate 2 mate 1\nproblem 4k4/9/4P4/9/9/9/9/9/9 b G\n1 G*5b 4k4/9/4P4/9/9/9/9/9/9 b G\nend\ncertificate 2 mate 1\nproblem 5k3/9/4P4/9/9/9/9/9/9 b G\n1 G*5b 4k4/9/4P4/9/9/9/9/9/9 b G\nend\nend library\n",
            3,
            0,
            Why::RootMissing,
        ),
        (
            "library 1 2\ncertificate 1 mate 1\nproblem 4k4/9/4P4/9/9/9/9/9/9 b G\n1 G*5b 4k4/9/4P4/9/9/9/9/9/9 b G\nend\ncertificate 1 mate 2\nproblem 9/9/8k/9/7L1/9/9/9/9 b GSLg\n2 G*2c 9/9/8k/8g/7LL/9/9/9/9 b GS\n2 L*1e 9/9/8k/9/7L1/9/9/9/9 b GSLg\nend\nend library\n",
            2,
            2,
            Why::RankNotLower(by(&rt, "G*1d")),
        ),
        (
            "library 1 2\ncertificate 1 escape 2\nproblem 9/9/5r3/7pp/9/7SP/4+PBL1N/7K1/4+pR+s1G w B3G2S3N3L13P\n9/9/5r3/7pp/9/7SP/4+PBL1N/7K1/4+pR+s1G w B3G2S3N3L13P\n9/9/5r3/7pp/9/7SP/4+PBL1N/7K1/4+pR1G1 w B3G3S3N3L13P\nend\ncertificate 1 mate 1\nproblem 4k4/9/4P4/9/9/9/9/9/9 b G\n1 G*5b 4k4/9/4P4/9/9/9/9/9/9 b G\nend\nend library\n",
            1,
            1,
            Why::CheckUnanswered(by(&rt, "3i3h")),
        ),
        (
            "library 1 4\ncertificate 1 mate 1\nproblem 4k4/9/4P4/9/9/9/9/9/9 b G\n1 G*5b 4k4/9/4P4/9/9/9/9/9/9 b G\nend\ncertificate 1 mate 1\nproblem 4k4/9/4P4/9/9/9/9/9/9 b G\n1 G*5b 4k4/9/4P4/9/9/9/9/9/9 b G\nend\ncertificate 1 mate 2\nproblem 9/9/7kg/9/9/6L2/9/9/9 b R3GS\n1 G*1a 7R1/8k/8g/9/9/6L2/9/9/9 b 3GS\n2 R*2a 9/9/7kg/9/9/6L2/9/9/9 b R3GS\nend\ncertificate 1 mate 2\nproblem 9/9/8k/9/7L1/9/9/9/9 b GSLg\n2 G*2c 9/9/8k/8g/7LL/9/9/9/9 b GS\n2 L*1e 9/9/8k/9/7L1/9/9/9/9 b GSLg\nend\nend library\n",
            3,
            2,
            Why::EvasionOutside(by(&rt, "2c1d")),
        ),
    ] {
        let certificates = read_library(rt.alloc(), text.as_bytes())
            .ok()
            .expect(&rt, "a library");
        let found = first_refused(rt.alloc(), &certificates)
            .ok()
            .expect(&rt, "memory");
        same(&rt, text, found, Some(Refused { number, entry, why }));
    }
}
