//! What a call of the program ends in and prints, over folders and sinks that may fail.
use super::{ACCESS, chip, folder_of, holds, image, push_file, words};
use crate::program::program;
use eid_base::{MemoryFolder, MemorySink};
use eid_inputs::Exit;
use std::alloc::AllocError;
use std::test::Fail;

const SHOWN: &str =
    "layout 1\nnumber 0\ntries 3\nunblocks 10\nactive yes\ndate 260101\ncurrent 44454356434141543030303031\nprevious none\ncard_access 2\ncard_security 2\ndg3 8\ndg4 5\ndg5 10\ndg8 8\ndg17 8\ndg18 7\n";

const REFUSED: &str =
    "on 0\napdu 00b0840000\n plain 00 b0 8400 - 256\n finished 0\n rule 20\n answer 6982\n sent 6982\n";

const SILENT: &str =
    "apdu 00a4040c09e80704007f00070302\n plain none\n finished 0\n rule 0\n answer none\n sent none\n";

const ONE_SESSION: &str = "sessions 1\nanswered 2\nrefused 1\ncommits 2\n";

/// A configuration of a certificate.
const VERIFIER: &str = "issuer = 'DECVCAAT00001'
holder = 'DETESTDV00001'
key = '0400000000000000000000000000000000000000000000000000000000000000550000000000000000000000000000000000000000000000000000000000000000'
template = 'BE1FFFFF37'
effective = '260101'
expiry = '261231'
signer_secret = '0000000000000000000000000000000000000000000000000000000000000007'
";

/// The texts that lie in the folder of a call, by name. Beside them lie `image`, its front `short` of 65,535 bytes,
/// the configuration `chip` of another image, `long`, which is 1,048,577 empty lines, and `text`, which a call brings.
const TEXTS: &[(&str, &str)] = &[
    ("empty", ""),
    ("script", "on\noff\n"),
    ("group", "on\napdu 00B0840000\n"),
    ("silent", "apdu 00A4040C09E80704007F00070302"),
    ("bad", "on\nof\n"),
    ("answers", "fault"),
    ("no_pin", "can = '654321'\npuk = '0123456789'\n"),
    ("layout_2", "layout = 2\ncan = '654321'\n"),
    ("pin_twice", "pin = '123456'\npin = '123456'\n"),
    ("verifier", VERIFIER),
    ("no_issuer", "holder = 'DETESTDV00001'\n"),
    ("issuer_twice", "issuer = 'A'\nissuer = 'A'\n"),
];

/// Calls: what each shows, its words, the status that it ends with, the line or key that it names, and what it prints.
#[rattlefmt::skip]
const CALLS: &[(&str, &str, u8, u32, &str)] = &[
    ("an empty script prints nothing", "run image empty 0", 0, 0, ""),
    ("a data group is refused before PACE", "run image group 0", 0, 0, REFUSED),
    ("a chip without power says nothing", "run image silent 0", 0, 0, SILENT),
    ("the greatest start", "run image script 18446744073709551615", 0, 0, "on 0\noff\n"),
    ("`replay` runs with answers", "replay image script answers", 0, 0, "on 0\noff\n"),
    ("`make` makes an image", "make chip new", 0, 0, ""),
    ("`kit` makes a certificate", "kit verifier new", 0, 0, ""),
    ("`show` prints sixteen lines", "show image", 0, 0, SHOWN),
    ("one generated session", "big 1", 0, 0, ONE_SESSION),
    ("no generated session", "big 0", 1, 0, ""),
    ("two words are no run", "run image", 1, 0, ""),
    ("one word is no `kit`", "kit verifier", 1, 0, ""),
    ("a start with a leading zero", "run image script 00", 1, 0, ""),
    ("a start of 2^64", "run image script 18446744073709551616", 1, 0, ""),
    ("an image of 65,535 bytes", "run short script 0", 4, 0, ""),
    ("an absent script", "run image absent 0", 2, 0, ""),
    ("a bad image comes before an absent script", "run short absent 0", 4, 0, ""),
    ("a bad script comes before bad answers", "replay image bad bad", 5, 2, ""),
    ("a script that is too long", "run image long 0", 5, 0, ""),
    ("answers that are too long", "replay image script long", 8, 0, ""),
    ("a configuration that is too long", "make long new", 6, 0, ""),
    ("a configuration without pin", "make no_pin new", 6, 3, ""),
    ("the first refused key decides", "make layout_2 new", 6, 1, ""),
    ("a key that stands twice", "make pin_twice new", 6, 0, ""),
    ("a certificate without configuration", "kit absent new", 2, 0, ""),
    ("a configuration of a certificate that is too long", "kit long new", 6, 0, ""),
    ("a certificate without issuer", "kit no_issuer new", 6, 1, ""),
    ("a key of a certificate that stands twice", "kit issuer_twice new", 6, 0, ""),
];

/// Calls over a folder and a sink of which one call fails, 0 for none: what each shows, its words, these two calls, the
/// status that it ends with, and what it prints.
#[rattlefmt::skip]
const FAULTS: &[(&str, &str, u32, u32, u8, &str)] = &[
    ("the image is not read", "run image script 0", 1, 0, 2, ""),
    ("the script is not read", "run image script 0", 2, 0, 2, ""),
    ("the image is not written", "run image script 0", 3, 0, 2, "on 0\noff\n"),
    ("a run has three calls of the folder, and two moments two of the sink", "run image script 0", 4, 3, 0, "on 0\noff\n"),
    ("the first moment is not printed", "run image script 0", 0, 1, 7, ""),
    ("the second moment is not printed", "run image script 0", 0, 2, 7, "on 0\n"),
    ("the image of a replay is not read", "replay image script answers", 1, 0, 2, ""),
    ("the script of a replay is not read", "replay image script answers", 2, 0, 2, ""),
    ("the answers are not read", "replay image script answers", 3, 0, 2, ""),
    ("the image of a replay is not written", "replay image script answers", 4, 0, 2, "on 0\noff\n"),
    ("a replay has four calls of the folder", "replay image script answers", 5, 0, 0, "on 0\noff\n"),
    ("the configuration is not read", "make chip image", 1, 0, 2, ""),
    ("the image of a configuration is not written", "make chip image", 2, 0, 2, ""),
    ("`make` has two calls of the folder and none of the sink", "make chip new", 3, 1, 0, ""),
    ("the configuration of a certificate is not read", "kit verifier image", 1, 0, 2, ""),
    ("the certificate is not written", "kit verifier image", 2, 0, 2, ""),
    ("`kit` has two calls of the folder and none of the sink", "kit verifier new", 3, 1, 0, ""),
    ("the numbers of generated sessions are not printed", "big 1", 0, 1, 7, ""),
    ("`big` has one call of the sink and none of the folder", "big 1", 1, 2, 0, ONE_SESSION),
    ("the image to be shown is not read", "show image", 1, 0, 2, ""),
    ("the text is not printed", "show image", 0, 1, 7, ""),
];

/// Texts that are refused: what each shows, the status, the text, and the line that is named.
#[rattlefmt::skip]
const REFUSALS: &[(&str, u8, &str, u32)] = &[
    ("script: half a byte", 5, "apdu 00B", 1),
    ("script: half a byte in the second line", 5, "on\napdu 00B\n", 2),
    ("script: a cut at write 0", 5, "on\ncut 0 old\n", 2),
    ("script: a leading zero, behind an empty line", 5, "on\n\ncut 01 old\n", 3),
    ("script: half a byte to fill with, behind a comment", 5, "# c\ncut 1 fill 5\non\n", 2),
    ("script: a write over a million", 5, "cut 1000000 half\ncut 1000001 new\n", 2),
    ("script: capital letters", 5, "ON\n", 1),
    ("script: a space at the end", 5, "on \n", 1),
    ("script: a carriage return", 5, "on\r\n", 1),
    ("script: no bytes", 5, "apdu\n", 1),
    ("script: a space and no bytes", 5, "apdu \n", 1),
    ("script: two spaces", 5, "apdu  00B0\n", 1),
    ("answers: no verdict, in the third line", 8, "verify yes\nverify no\nverify maybe\n", 3),
    ("answers: no verdict, behind empty lines", 8, "\n\nverify maybe", 3),
    ("answers: a comment", 8, "fault\n# no comment\nnonce 00\n", 2),
    ("answers: a nonce of 15 bytes", 8, "nonce 374708fff7719dd5979ec875d56cd2\n", 1),
    ("answers: a challenge of 10 bytes", 8, "challenge 374708fff7719dd5979e\nfault\n", 1),
    ("answers: a space at the end", 8, "fault \n", 1),
];

/// The keys of a certificate in the order of their numbers, from 1: each with a value, a value that is refused, and
/// whether it has to be there.
#[rattlefmt::skip]
const KIT_KEYS: &[(&str, &str, &str, bool)] = &[
    ("issuer", "'A'", "''", true),
    ("holder", "'0123456789abcdef'", "'0123456789abcdefg'", true),
    (
        "key",
        "'0400000000000000000000000000000000000000000000000000000000000000550000000000000000000000000000000000000000000000000000000000000000'",
        "'0200000000000000000000000000000000000000000000000000000000000000550000000000000000000000000000000000000000000000000000000000000000'",
        true,
    ),
    ("template", "'be1fffff37'", "'be1fffff3'", true),
    ("effective", "'260101'", "'260001'", true),
    ("expiry", "'261231'", "'261232'", true),
    ("sector1", "'000102030405060708090A0B0C0D0E0F101112131415161718191A1B1C1D1E1F'", "''", false),
    ("sector2", "'0000000000000000000000000000000000000000000000000000000000000000'", "'00'", false),
    ("signer_secret", "'0000000000000000000000000000000000000000000000000000000000000007'", "7", true),
];

/// The configuration of a certificate in which one key, by its place in the table, has its refused value or is absent.
fn kit_without(rt: &HostRuntime, place: usize, wrong: bool) -> Result<String, AllocError> {
    let mut text = String::new(rt.alloc());
    for (i, (key, value, refused, _)) in KIT_KEYS.iter().enumerate() {
        if i != place {
            text.push_str(&format!(in rt.alloc(); "{key} = {value}\n")?)?;
        } else if wrong {
            text.push_str(&format!(in rt.alloc(); "{key} = {refused}\n")?)?;
        }
    }
    Ok(text)
}

/// The folder of a call, of which one call fails.
fn folder_of_call(
    rt: &HostRuntime,
    cells: &[u8],
    text: &str,
    fail: u32,
) -> Result<MemoryFolder, AllocError> {
    let mut files = Vec::new(rt.alloc());
    for (name, content) in TEXTS {
        push_file(rt, &mut files, name, content.as_bytes())?;
    }
    push_file(
        rt,
        &mut files,
        "chip",
        chip(rt, "card_access = ''\n")?.as_bytes(),
    )?;
    push_file(rt, &mut files, "image", cells)?;
    push_file(rt, &mut files, "short", &cells[..cells.len().min(65_535)])?;
    let mut long = Vec::new(rt.alloc());
    long.resize(1_048_577, b'\n')?;
    push_file(rt, &mut files, "long", long.as_slice())?;
    push_file(rt, &mut files, "text", text.as_bytes())?;
    folder_of(rt, files, fail)
}

/// What a call came to.
#[derive(Drop)]
struct End {
    exit: Exit,
    out: MemorySink,
    /// Whether the image is as it was.
    kept: bool,
}

/// What a call with these words comes to.
fn called(rt: &HostRuntime, said: &str, text: &str, fails: (u32, u32)) -> Result<End, AllocError> {
    let cells = image(rt, ACCESS)?;
    let (folder_fail, sink_fail) = fails;
    let mut folder = folder_of_call(rt, cells.as_slice(), text, folder_fail)?;
    let mut out = MemorySink::new(rt.alloc(), Vec::from_slice(rt.alloc(), &[sink_fail])?);
    let spoken = words(rt, said)?;
    let exit = program(rt.alloc(), spoken.as_slice(), &mut folder, &mut out);
    let kept = holds(&folder, "image", cells.as_slice());
    Ok(End { exit, out, kept })
}

/// The line or the key that an exit names, else 0.
fn named(exit: Exit) -> u32 {
    match exit {
        Exit::BadScript { line } | Exit::BadAnswers { line } => line,
        Exit::BadConfig { key } => u32::from(key),
        _ => 0,
    }
}

/// Whether the call came to this, and the image is as it was.
fn is_so(end: &End, status: u8, line: u32, printed: &str) -> bool {
    end.kept
        && end.exit.status() == status
        && named(end.exit) == line
        && end.out.bytes() == printed.as_bytes()
}

#[test]
fn each_call_ends_and_prints_as_it_should(rt: HostRuntime) -> Result<(), Fail> {
    for (shows, said, status, line, printed) in CALLS {
        let end = called(&rt, said, "", (0, 0))?;
        assert!(rt; is_so(&end, *status, *line, printed), "{shows}");
    }
    Ok(())
}

#[test]
fn a_call_that_fails_ends_the_command(rt: HostRuntime) -> Result<(), Fail> {
    for (shows, said, folder_fail, sink_fail, status, printed) in FAULTS {
        let end = called(&rt, said, "", (*folder_fail, *sink_fail))?;
        assert!(rt; is_so(&end, *status, 0, printed), "{shows}");
    }
    Ok(())
}

#[test]
fn a_refused_text_is_named_by_its_first_bad_line(rt: HostRuntime) -> Result<(), Fail> {
    for (shows, status, text, line) in REFUSALS {
        let said = if *status == 5 {
            "run image text 0"
        } else {
            "replay image script text"
        };
        let end = called(&rt, said, text, (0, 0))?;
        assert!(rt; is_so(&end, *status, *line, ""), "{shows}");
    }
    Ok(())
}

#[test]
fn a_certificate_is_refused_by_the_number_of_its_key(rt: HostRuntime) -> Result<(), Fail> {
    for (place, (key, _, _, required)) in KIT_KEYS.iter().enumerate() {
        let number = place as u32 + 1;
        let wrong = called(
            &rt,
            "kit text image",
            &kit_without(&rt, place, true)?,
            (0, 0),
        )?;
        assert!(rt; is_so(&wrong, 6, number, ""), "{key} with a refused value");
        let absent = called(
            &rt,
            "kit text image",
            &kit_without(&rt, place, false)?,
            (0, 0),
        )?;
        if *required {
            assert!(rt; is_so(&absent, 6, number, ""), "without {key}");
        } else {
            assert!(rt;
                absent.exit.status() == 0 && !absent.kept,
                "{key} may be absent"
            );
        }
    }
    Ok(())
}
