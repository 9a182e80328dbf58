// What is asked for by lines of words, and what the texts of refusals and of help say.
use crate::lines::words_of;
use crate::same::same;
use cmd_check::Check;
use cmd_collection::Collection;
use cmd_cook::Cook;
use cmd_shortest::Shortest;
use cmd_solve::{Solve, SolveWords};
use cmd_survey::SurveyRange;
use program_words::{Asked, Command, read_words};
use search_limits::Settings;
use std::alloc::{AllocError, Global};
use std::test::Fail;
use tsume_words::{Format, ProblemForm, Watch, WordsEnd};

// A line, and what it asks for: the numbers in the order of the settings, whether `--rest` stands,
// `kif` where `--kif` does, `until` the deadline, and `telling` where `--progress` stands; or the
// limit and the expansions, and then the same; or the problem, and `by` the workers; and the file.
// Of the commands over many problems the seed, the count and the expansions; or the settings,
// whether `--rest` stands, `told` where `--certificates` does, `from` the first line's number where
// that isn't 1, `remarked` where `--remarks` stands, `until` the deadline, and `by` the threads.
static ASKED: [(&str, &str); 40] = [
    ("solve", "solve 1 1000000 1000000000 65536 64 false"),
    ("solve --rest", "solve 1 1000000 1000000000 65536 64 true"),
    (
        "solve --kif",
        "solve 1 1000000 1000000000 65536 64 false kif",
    ),
    (
        "solve --rest --kif a.kif",
        "solve 1 1000000 1000000000 65536 64 true kif of a.kif",
    ),
    (
        "solve --workers 64",
        "solve 64 1000000 1000000000 65536 64 false",
    ),
    (
        "solve --workers=7",
        "solve 7 1000000 1000000000 65536 64 false",
    ),
    (
        "solve --workers +5",
        "solve 5 1000000 1000000000 65536 64 false",
    ),
    (
        "solve --workers 05",
        "solve 5 1000000 1000000000 65536 64 false",
    ),
    (
        "solve --expansions 1",
        "solve 1 1 1000000000 65536 64 false",
    ),
    (
        "solve --expansions 1000000000",
        "solve 1 1000000000 1000000000 65536 64 false",
    ),
    ("solve --room 1", "solve 1 1000000 1 65536 64 false"),
    (
        "solve --room 1000000000",
        "solve 1 1000000 1000000000 65536 64 false",
    ),
    ("solve --rows 16", "solve 1 1000000 1000000000 16 16 false"),
    (
        "solve --rows 16777216",
        "solve 1 1000000 1000000000 16777216 64 false",
    ),
    (
        "solve --shards 1",
        "solve 1 1000000 1000000000 65536 1 false",
    ),
    (
        "solve --shards 256",
        "solve 1 1000000 1000000000 65536 256 false",
    ),
    (
        "solve --rest --shards 2 --rows 32 --room 3 --expansions 4 --workers 5",
        "solve 5 4 3 32 2 true",
    ),
    (
        "solve --deadline 1",
        "solve 1 1000000 1000000000 65536 64 false until 1",
    ),
    (
        "solve --progress --deadline 86400000",
        "solve 1 1000000 1000000000 65536 64 false until 86400000 telling",
    ),
    ("shortest", "shortest 50 1000000 false"),
    (
        "shortest --limit 2000 --expansions 1",
        "shortest 2000 1 false",
    ),
    (
        "shortest --rest --limit 1 --kif a.kif",
        "shortest 1 1000000 true kif of a.kif",
    ),
    (
        "shortest --progress --deadline 5 --expansions 1000000000",
        "shortest 50 1000000000 false until 5 telling",
    ),
    ("shortest --limit +7 -", "shortest 7 1000000 false"),
    ("cook", "cook 1 1000000 1000000000 65536 64 false"),
    (
        "cook --workers 2 --rest --kif --deadline 7 --progress a.kif",
        "cook 2 1000000 1000000000 65536 64 true kif until 7 telling of a.kif",
    ),
    (
        "cook --line G*5b_5a4a --rest",
        "cook 1 1000000 1000000000 65536 64 true along G*5b 5a4a",
    ),
    ("check", "check"),
    ("check --workers 3", "check by 3"),
    ("check --problem 4k4/9 --workers 2", "check 4k4/9 by 2"),
    ("check a.cert", "check of a.cert"),
    ("check ../a --workers 2", "check by 2 of ../a"),
    ("check -", "check"),
    ("check -- --help", "check of --help"),
    (
        "solve --rest a/b.sfen",
        "solve 1 1000000 1000000000 65536 64 true of a/b.sfen",
    ),
    ("solve --rows 24", "rows is no power of two"),
    ("solve --rows 1000 --shards 3", "rows is no power of two"),
    ("solve --shards 24", "shards is no power of two"),
    // Of the commands over many problems.
    ("survey", "survey 0 100 10000"),
    ("survey --seed 1000000000", "survey 1000000000 100 10000"),
];

// Further such lines.
static ASKED_TOO: [(&str, &str); 46] = [
    (
        "solve --library --rest --workers 2",
        "solve 2 1000000 1000000000 65536 64 true with library",
    ),
    ("check --collection", "check printed"),
    (
        "check --collection --workers 3 --progress told.txt",
        "check printed by 3 of told.txt",
    ),
    ("check --bound", "check bound"),
    ("survey --count 1", "survey 0 1 10000"),
    ("survey --count=10000", "survey 0 10000 10000"),
    ("survey --expansions 1", "survey 0 100 1"),
    ("survey --expansions 1000000000", "survey 0 100 1000000000"),
    ("survey --count 7 --seed 05 --expansions +9", "survey 5 7 9"),
    (
        "collection",
        "collection 1 100000 1000000000 65536 64 false",
    ),
    (
        "collection --rest",
        "collection 1 100000 1000000000 65536 64 true",
    ),
    (
        "collection --certificates",
        "collection 1 100000 1000000000 65536 64 false told",
    ),
    (
        "collection --first 1",
        "collection 1 100000 1000000000 65536 64 false",
    ),
    (
        "collection --first=1000000000",
        "collection 1 100000 1000000000 65536 64 false from 1000000000",
    ),
    (
        "collection --remarks",
        "collection 1 100000 1000000000 65536 64 false remarked",
    ),
    (
        "collection --remarks --first 2001 --certificates a.sfen",
        "collection 1 100000 1000000000 65536 64 false told from 2001 remarked of a.sfen",
    ),
    (
        "collection --threads 1",
        "collection 1 100000 1000000000 65536 64 false by 1",
    ),
    (
        "collection --threads 64",
        "collection 1 100000 1000000000 65536 64 false by 64",
    ),
    (
        "collection --deadline 1",
        "collection 1 100000 1000000000 65536 64 false until 1",
    ),
    (
        "collection --threads 2 --deadline 86400000 --progress",
        "collection 1 100000 1000000000 65536 64 false until 86400000 telling by 2",
    ),
    (
        "collection --progress",
        "collection 1 100000 1000000000 65536 64 false telling",
    ),
    (
        "collection --threads 2 --progress a.sfen",
        "collection 1 100000 1000000000 65536 64 false telling by 2 of a.sfen",
    ),
    (
        "collection --expansions 1",
        "collection 1 1 1000000000 65536 64 false",
    ),
    (
        "collection --expansions 1000000000",
        "collection 1 1000000000 1000000000 65536 64 false",
    ),
    (
        "collection --room 1",
        "collection 1 100000 1 65536 64 false",
    ),
    (
        "collection --room 1000000000",
        "collection 1 100000 1000000000 65536 64 false",
    ),
    (
        "collection --rows 16",
        "collection 1 100000 1000000000 16 16 false",
    ),
    (
        "collection --rows 16777216",
        "collection 1 100000 1000000000 16777216 64 false",
    ),
    (
        "collection --shards 256",
        "collection 1 100000 1000000000 65536 256 false",
    ),
    (
        "collection --threads 3 --shards 2 --rows 32 --room 4 --expansions 5 --certificates --rest",
        "collection 1 5 4 32 2 true told by 3",
    ),
    (
        "collection a.sfen",
        "collection 1 100000 1000000000 65536 64 false of a.sfen",
    ),
    (
        "collection -",
        "collection 1 100000 1000000000 65536 64 false",
    ),
    (
        "collection --rest - --threads 2",
        "collection 1 100000 1000000000 65536 64 true by 2",
    ),
    (
        "collection -- --rest",
        "collection 1 100000 1000000000 65536 64 false of --rest",
    ),
    ("collection --rows 24 --shards 3", "rows is no power of two"),
    ("collection --shards 24", "shards is no power of two"),
    ("collection --rows 16 --shards 32", "more shards than rows"),
    (
        "collection --rows 32 --shards 32",
        "collection 1 100000 1000000000 32 32 false",
    ),
    (
        "collection --rows 128",
        "collection 1 100000 1000000000 128 64 false",
    ),
    ("solution", "solution"),
    ("solution a.kif", "solution of a.kif"),
    ("solution -", "solution"),
    ("record", "record"),
    ("record -- -a.cert", "record of -a.cert"),
    ("upgrade a.cert", "upgrade of a.cert"),
    ("usi", "usi"),
];

// A line that is refused, and how its text begins.
static REFUSED: [(&str, &str); 56] = [
    ("solve --library --kif", "library with kif"),
    ("solve --kif --library --rows 24", "rows is no power of two"),
    ("check --collection --bound", "collection with bound"),
    ("check --problem a --collection", "collection with problem"),
    (
        "check --problem a --collection --bound",
        "collection with bound",
    ),
    (
        "cook --library",
        "error: unexpected argument '--library' found",
    ),
    ("solve --rows 16 --shards 32", "more shards than rows"),
    ("", "Solves tsume-shogi problems"),
    ("dance", "error: unrecognized subcommand 'dance'"),
    ("help dance", "error: unrecognized subcommand 'dance'"),
    (
        "solve --version",
        "error: unexpected argument '--version' found",
    ),
    (
        "check --problem",
        "error: a value is required for '--problem <SFEN>'",
    ),
    (
        "--workers 3",
        "error: unexpected argument '--workers' found",
    ),
    ("solve a b", "error: unexpected argument 'b' found"),
    ("check --kif", "error: unexpected argument '--kif' found"),
    ("record --kif", "error: unexpected argument '--kif' found"),
    ("upgrade a b", "error: unexpected argument 'b' found"),
    ("usi a", "error: unexpected argument 'a' found"),
    ("solution a b", "error: unexpected argument 'b' found"),
    (
        "check --rows 16",
        "error: unexpected argument '--rows' found",
    ),
    (
        "solve --rest=yes",
        "error: unexpected value 'yes' for '--rest' found",
    ),
    (
        "solve --workers",
        "error: a value is required for '--workers <N>'",
    ),
    (
        "solve --workers two",
        "error: invalid value 'two' for '--workers <N>'",
    ),
    (
        "solve --workers 0",
        "error: invalid value '0' for '--workers <N>': 0 is not in 1..=64",
    ),
    (
        "solve --workers 65",
        "error: invalid value '65' for '--workers <N>': 65 is not in 1..=64",
    ),
    (
        "check --workers 65",
        "error: invalid value '65' for '--workers <N>': 65 is not in 1..=64",
    ),
    (
        "solve --expansions 1000000001",
        "error: invalid value '1000000001' for '--expansions <N>'",
    ),
    (
        "solve --room 1000000001",
        "error: invalid value '1000000001' for '--room <N>'",
    ),
    (
        "solve --rows 8",
        "error: invalid value '8' for '--rows <N>': 8 is not in 16..=16777216",
    ),
    (
        "solve --rows 16777217",
        "error: invalid value '16777217' for '--rows <N>'",
    ),
    (
        "solve --shards 257",
        "error: invalid value '257' for '--shards <N>': 257 is not in 1..=256",
    ),
    (
        "solve --deadline 0",
        "error: invalid value '0' for '--deadline <MS>': 0 is not in 1..=86400000",
    ),
    (
        "solve --workers 3 --workers 4",
        "error: the argument '--workers <N>' cannot be used multiple times",
    ),
    (
        "solve --rest --rest",
        "error: the argument '--rest' cannot be used multiple times",
    ),
    (
        "shortest --limit 0",
        "error: invalid value '0' for '--limit <N>': 0 is not in 1..=2000",
    ),
    (
        "shortest --limit 2001",
        "error: invalid value '2001' for '--limit <N>': 2001 is not in 1..=2000",
    ),
    (
        "shortest --expansions 1000000001",
        "error: invalid value '1000000001' for '--expansions <N>'",
    ),
    (
        "shortest --workers 2",
        "error: unexpected argument '--workers' found",
    ),
    // Of the commands over many problems.
    (
        "survey --seed 1000000001",
        "error: invalid value '1000000001' for '--seed <N>': 1000000001 is not in 0..=1000000000",
    ),
    ("survey --seed -1", "error: unexpected argument '-1' found"),
    (
        "survey --count 0",
        "error: invalid value '0' for '--count <N>': 0 is not in 1..=10000",
    ),
    (
        "survey --count 10001",
        "error: invalid value '10001' for '--count <N>': 10001 is not in 1..=10000",
    ),
    (
        "survey --expansions 0",
        "error: invalid value '0' for '--expansions <N>'",
    ),
    ("survey a.sfen", "error: unexpected argument 'a.sfen' found"),
    ("survey --kif", "error: unexpected argument '--kif' found"),
    (
        "survey --rows 16",
        "error: unexpected argument '--rows' found",
    ),
    (
        "collection --threads 0",
        "error: invalid value '0' for '--threads <N>': 0 is not in 1..=64",
    ),
    (
        "collection --threads 65",
        "error: invalid value '65' for '--threads <N>': 65 is not in 1..=64",
    ),
    (
        "collection --first 0",
        "error: invalid value '0' for '--first <N>': 0 is not in 1..=1000000000",
    ),
    (
        "collection --first 1000000001",
        "error: invalid value '1000000001' for '--first <N>': 1000000001 is not in 1..=1000000000",
    ),
    (
        "check --remarks",
        "error: unexpected argument '--remarks' found",
    ),
    (
        "collection --workers 2",
        "error: unexpected argument '--workers' found",
    ),
    (
        "collection --kif",
        "error: unexpected argument '--kif' found",
    ),
    (
        "collection --deadline 0",
        "error: invalid value '0' for '--deadline <MS>': 0 is not in 1..=86400000",
    ),
    (
        "collection --progress=yes",
        "error: unexpected value 'yes' for '--progress' found; no more were expected",
    ),
    (
        "solve --threads 2",
        "error: unexpected argument '--threads' found",
    ),
];

// A request for help or for the version, and a part of its text.
static HELPED: [(&str, &str); 45] = [
    (
        "solve --help",
        "\n      --library         Certificates stand behind",
    ),
    ("check --help", "\n      --collection      Check"),
    ("--version", "tsume 0.1.0\n"),
    ("-V --help", "tsume 0.1.0\n"),
    ("--help", "Usage: tsume <COMMAND>\n"),
    (
        "-h",
        "\n  solve       Solves a problem (SFEN or KIF): its mate",
    ),
    (
        "help",
        "\n  check       Checks a certificate, alone or behind",
    ),
    (
        "solve --help",
        "\n      --expansions <N>  Visits of positions, of both sides, before it gives up,\n",
    ),
    (
        "solve --workers 3 -h",
        " search comes back to it [default: 1000000]\n",
    ),
    (
        "help solve",
        "\n      --deadline <MS>   Milliseconds after which it gives up",
    ),
    (
        "solve -h",
        "\n      --progress        Tell on standard error",
    ),
    (
        "solve --rows 24 -h",
        "\n      --rest            Give the defender all pieces",
    ),
    ("solve -h", " Off unless given; the search may list more\n"),
    (
        "solve -h",
        "\n      --kif             Read the board diagram of a KIF file, in UTF-8, instead\n",
    ),
    (
        "solve -h",
        "Every interposition\ncounts, also one that only delays",
    ),
    (
        "-h",
        "\n  shortest    Finds the shortest mate of a problem, and that none is shorter\n",
    ),
    ("help shortest", "Usage: tsume shortest [OPTIONS] [FILE]\n"),
    (
        "shortest --help",
        "\n      --limit <N>       Moves of the attacker up to which it looks for a mate,\n",
    ),
    (
        "shortest -h",
        " search comes back to it [default: 1000000]\n",
    ),
    ("help cook", "Usage: tsume cook [OPTIONS] [FILE]\n"),
    ("cook -h", "sound, exactly one first check mates"),
    (
        "cook --help",
        "\n      --line <MOVES>    Report at each check along these moves of a solution:\n",
    ),
    ("help check", "Usage: tsume check [OPTIONS] [FILE]\n"),
    ("help record", "Usage: tsume record [FILE]\n"),
    ("help upgrade", "Usage: tsume upgrade [FILE]\n"),
    ("help usi", "Usage: tsume usi\n"),
    ("solution -h", "Usage: tsume solution [FILE]\n"),
    (
        "check --help",
        "\n      --problem <SFEN>  Accept the certificate for this problem alone",
    ),
    ("check --help", " Default: the certificate's own problem."),
    (
        "check -h",
        "\n      --workers <N>     Threads that judge the entries side by side, 1 to 64;\n                        where nothing is said, one a processor, 32 at most.\n",
    ),
    (
        "-h",
        "\n  collection  Tells of every problem of a text, an SFEN a line",
    ),
    (
        "-h",
        "\n  survey      Solves problems that it makes by number",
    ),
    ("help survey", "Usage: tsume survey [OPTIONS]\n"),
    ("survey -h", "is one more search [default: 100]\n"),
    (
        "survey --help",
        " search comes back to it [default: 10000]\n",
    ),
    (
        "collection -h",
        "Usage: tsume collection [OPTIONS] [FILE]\n",
    ),
    (
        "collection --help",
        "\n      --certificates    Print the certificate of each mate and each no mate\n",
    ),
    (
        "collection --rows 24 -h",
        "power of two, 16 to 16777216. A row takes 1 KB when\n",
    ),
    (
        "help collection",
        "text is too long, 2 words refused, 4 reading failed, 5 writing failed, 6 out of\n",
    ),
    (
        "collection -h",
        "\n      --threads <N>     Problems that are decided side by side, 1 to 64; where\n                        nothing is said, one a processor, 32 at most. It\n",
    ),
    (
        "collection -h",
        "\n      --deadline <MS>   Milliseconds after which each search gives up, 1 to\n",
    ),
    (
        "collection --help",
        "\n      --progress        Tell on standard error, about once a second, how many\n",
    ),
    (
        "collection --help",
        "\n      --first <N>       Number of the text's first line, 1 to 1000000000: so\n",
    ),
    (
        "collection --help",
        "\n      --remarks         End each line that tells of a problem with the remark\n",
    ),
    ("check --help", "-h, --help            Print help\n"),
];

// What help shows for some commands alone: workers solve, cook and check, and parts have the tables
// of those that solve.
static HIDDEN: [&str; 2] = ["--workers", "--shards"];

fn command_text(alloc: Global, command: &Command) -> Result<String, AllocError> {
    match command {
        Command::Solve(asked) => solve_text(alloc, asked),
        Command::Cook(asked) => cook_text(alloc, asked),
        Command::Shortest(asked) => shortest_text(alloc, asked),
        Command::Check(asked) => check_text(alloc, asked),
        Command::Survey(asked) => survey_text(alloc, asked),
        Command::Collection(asked) => collection_text(alloc, asked),
        Command::Solution(_) => format!(in alloc; "solution"),
        Command::Record(_) => format!(in alloc; "record"),
        Command::Upgrade(_) => format!(in alloc; "upgrade"),
        Command::Usi(_) => format!(in alloc; "usi"),
    }
}

fn solve_text(alloc: Global, asked: &SolveWords) -> Result<String, AllocError> {
    let solve = search_text(alloc, "solve", &asked.solve)?;
    if asked.library {
        return format!(in alloc; "{solve} with library");
    }
    Ok(solve)
}

fn search_text(alloc: Global, name: &str, asked: &Solve) -> Result<String, AllocError> {
    let Settings {
        workers,
        expansions,
        room,
        rows,
        shards,
        lends: _,
    } = asked.settings;
    let form = form_text(alloc, asked.form)?;
    let search = format!(in alloc; "{name} {workers} {expansions} {room} {rows} {shards} {form}")?;
    watched_text(alloc, search, asked.watch)
}

fn cook_text(alloc: Global, asked: &Cook) -> Result<String, AllocError> {
    let cook = search_text(alloc, "cook", &asked.solve)?;
    match &asked.line {
        Some(line) => format!(in alloc; "{cook} along {line}"),
        None => Ok(cook),
    }
}

fn shortest_text(alloc: Global, asked: &Shortest) -> Result<String, AllocError> {
    let limit = asked.limit;
    let expansions = asked.expansions.count;
    let form = form_text(alloc, asked.form)?;
    let shortest = format!(in alloc; "shortest {limit} {expansions} {form}")?;
    watched_text(alloc, shortest, asked.watch)
}

fn form_text(alloc: Global, form: ProblemForm) -> Result<String, AllocError> {
    let rest = form.rest;
    let kif = match form.format {
        Format::Sfen => "",
        Format::Kif => " kif",
    };
    format!(in alloc; "{rest}{kif}")
}

fn watched_text(alloc: Global, search: String, watch: Watch) -> Result<String, AllocError> {
    let telling = if watch.progress { " telling" } else { "" };
    match watch.deadline {
        Some(end) => format!(in alloc; "{search} until {end}{telling}"),
        None => format!(in alloc; "{search}{telling}"),
    }
}

fn check_text(alloc: Global, asked: &Check) -> Result<String, AllocError> {
    let check = match &asked.problem {
        Some(problem) => format!(in alloc; "check {problem}")?,
        None => String::from_str(alloc, "check")?,
    };
    let printed = if asked.collection { " printed" } else { "" };
    let bound = if asked.bound { " bound" } else { "" };
    let check = format!(in alloc; "{check}{printed}{bound}")?;
    match asked.workers {
        Some(workers) => format!(in alloc; "{check} by {workers}"),
        None => Ok(check),
    }
}

fn survey_text(alloc: Global, asked: &SurveyRange) -> Result<String, AllocError> {
    let SurveyRange {
        seed,
        count,
        expansions,
    } = *asked;
    let expansions = expansions.count;
    format!(in alloc; "survey {seed} {count} {expansions}")
}

fn collection_text(alloc: Global, asked: &Collection) -> Result<String, AllocError> {
    let Settings {
        workers,
        expansions,
        room,
        rows,
        shards,
        lends: _,
    } = asked.settings;
    let rest = asked.form.rest;
    let told = if asked.form.certificates { " told" } else { "" };
    let telling = if asked.form.progress { " telling" } else { "" };
    let first = asked.form.first;
    let from = if first == 1 {
        String::new(alloc)
    } else {
        format!(in alloc; " from {first}")?
    };
    let remarked = if asked.form.remarks { " remarked" } else { "" };
    let until = match asked.form.deadline {
        Some(deadline) => format!(in alloc; " until {deadline}")?,
        None => String::new(alloc),
    };
    let collection = format!(in alloc;
        "collection {workers} {expansions} {room} {rows} {shards} {rest}{told}{from}{remarked}{until}{telling}"
    )?;
    match asked.form.threads {
        Some(threads) => format!(in alloc; "{collection} by {threads}"),
        None => Ok(collection),
    }
}

fn meaning(alloc: Global, line: &str) -> Result<String, AllocError> {
    match read_words(alloc, words_of(alloc, line)?.as_slice()) {
        Ok(Asked { command, file }) => {
            let text = command_text(alloc, &command)?;
            match file {
                Some(file) => format!(in alloc; "{text} of {file}"),
                None => Ok(text),
            }
        }
        Err(WordsEnd::Help(text)) => Ok(text),
        Err(WordsEnd::Fault(fault)) => format!(in alloc; "{fault}"),
        Err(WordsEnd::NoMemory) => format!(in alloc; "out of memory"),
    }
}

#[test]
fn lines_ask_for_what_they_say(rt: HostRuntime) -> Result<(), Fail> {
    for (line, asked) in ASKED {
        let text = meaning(rt.alloc(), line)?;
        same(&rt, line, text.as_str(), asked);
    }
    Ok(())
}

#[test]
fn further_lines_ask_for_what_they_say(rt: HostRuntime) -> Result<(), Fail> {
    for (line, asked) in ASKED_TOO {
        let text = meaning(rt.alloc(), line)?;
        same(&rt, line, text.as_str(), asked);
    }
    Ok(())
}

#[test]
fn refusals_say_why(rt: HostRuntime) -> Result<(), Fail> {
    for (line, beginning) in REFUSED {
        let text = meaning(rt.alloc(), line)?;
        let text = text.as_str();
        same(&rt, (line, text), text.starts_with(beginning), true);
        same(&rt, line, text.ends_with("\n"), false);
    }
    Ok(())
}

#[test]
fn help_teaches_each_option_in_narrow_lines(rt: HostRuntime) -> Result<(), Fail> {
    for (line, piece) in HELPED {
        let text = meaning(rt.alloc(), line)?;
        let text = text.as_str();
        same(&rt, (line, text), text.contains(piece), true);
        // As no refusal's.
        same(&rt, line, text.ends_with("\n"), true);
        for row in text.lines() {
            same(&rt, (line, row), row.chars().count() < 80, true);
        }
        for option in HIDDEN {
            let also = if option == "--workers" {
                "check"
            } else {
                "collection"
            };
            let shown = line.contains("solve") || line.contains("cook") || line.contains(also);
            same(&rt, (line, option), text.contains(option), shown);
        }
    }
    Ok(())
}
