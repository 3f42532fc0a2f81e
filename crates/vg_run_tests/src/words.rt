//! The words of a call, read by the product and by clap.

use clap::builder::ValueParser;
use clap::{Arg, ArgMatches, Command};
use std::alloc::{AllocError, Global};
use std::test::Fail;
use vg_run::{Command as Asked, command_of};

/// How many workers there may be, and how many clients, as they are spelled.
static WORKERS: [&str; 8] = ["1", "2", "3", "4", "5", "6", "7", "8"];

static CLIENTS: [&str; 16] = [
    "1", "2", "3", "4", "5", "6", "7", "8", "9", "10", "11", "12", "13", "14", "15", "16",
];

/// Some of the numbers that there may be, with the least and the greatest.
static NUMBERS: [u64; 6] = [0, 7, 10, 4_294_967_296, 9_223_372_036_854_775_808, u64::MAX];

/// The five commands, as clap is told of them.
fn commands<'a>(alloc: Global) -> Result<Command<'a>, AllocError> {
    let workers = Arg::new(alloc, "workers")
        .long("workers")
        .value_parser(ValueParser::Names(WORKERS.as_slice()));
    let number = Arg::new(alloc, "number")
        .long("number")
        .required(true)
        .value_parser(ValueParser::Unsigned(0, u64::MAX));
    let clients = Arg::new(alloc, "clients")
        .long("clients")
        .required(true)
        .value_parser(ValueParser::Names(CLIENTS.as_slice()));
    Command::new(alloc, "vgpu")
        .no_binary_name(true)
        .subcommand_required(true)
        .subcommand(Command::new(alloc, "run").arg(workers)?)?
        .subcommand(Command::new(alloc, "check"))?
        .subcommand(Command::new(alloc, "gen").arg(number)?.arg(clients)?)?
        .subcommand(Command::new(alloc, "origins"))?
        .subcommand(Command::new(alloc, "upgrade"))
}

/// What clap makes of the words. None where it refuses them.
fn by_clap(alloc: Global, words: &[String]) -> Result<Option<Asked>, AllocError> {
    match commands(alloc)?.try_get_matches_from(words) {
        Ok(matches) => Ok(asked(&matches)),
        Err(_) => Ok(None),
    }
}

/// What the matches say.
fn asked(matches: &ArgMatches<'_>) -> Option<Asked> {
    let (name, found) = matches.subcommand()?;
    match name {
        "check" => Some(Asked::Check),
        "origins" => Some(Asked::Origins),
        "upgrade" => Some(Asked::Upgrade),
        "run" => Some(Asked::Run {
            workers: found.get_one("workers").unwrap_or(2),
        }),
        _ => Some(Asked::Gen {
            number: found.get_one("number")?,
            clients: found.get_one("clients")?,
        }),
    }
}

/// Words as strings.
fn strings(alloc: Global, words: &[&str]) -> Result<Vec<String>, AllocError> {
    let mut all = Vec::new(alloc);
    for word in words {
        all.push(String::from_str(alloc, word)?)?;
    }
    Ok(all)
}

/// What both make of words: the product, and clap.
fn by_both(alloc: Global, words: &[&str]) -> Result<(Option<Asked>, Option<Asked>), AllocError> {
    let words = strings(alloc, words)?;
    Ok((
        command_of(words.as_slice()),
        by_clap(alloc, words.as_slice())?,
    ))
}

#[test]
fn words_of_run_and_of_what_reads_journals(rt: HostRuntime) -> Result<(), Fail> {
    let check = Some(Asked::Check);
    let two = Some(Asked::Run { workers: 2 });
    let origins = Some(Asked::Origins);
    let upgrade = Some(Asked::Upgrade);
    assert_eq!(rt; by_both(rt.alloc(), &["check"])?, (check, check));
    assert_eq!(rt; by_both(rt.alloc(), &["origins"])?, (origins, origins));
    assert_eq!(rt; by_both(rt.alloc(), &["upgrade"])?, (upgrade, upgrade));
    assert_eq!(rt; by_both(rt.alloc(), &["run"])?, (two, two));
    for (at, said) in WORKERS.iter().enumerate() {
        let workers = Some(Asked::Run {
            workers: at as u32 + 1,
        });
        let both = by_both(rt.alloc(), &["run", "--workers", said])?;
        assert_eq!(rt; both, (workers, workers));
    }
    Ok(())
}

#[test]
fn words_of_gen(rt: HostRuntime) -> Result<(), Fail> {
    for number in &NUMBERS {
        for (at, said) in CLIENTS.iter().enumerate() {
            let workload = Some(Asked::Gen {
                number: *number,
                clients: at as u32 + 1,
            });
            let text = format!(in rt.alloc(); "gen --number {number} --clients {said}")?;
            let words: Vec<&str> = text.split(' ').collect(rt.alloc())?;
            assert_eq!(rt;
                by_both(rt.alloc(), words.as_slice())?,
                (workload, workload)
            );
        }
    }
    Ok(())
}

/// Words that clap reads, with what it makes of them, and the product doesn't: options in another order or with `=`, a number with a sign
/// or with a zero in front.
static CLAPS_ALONE: [(&[&str], Asked); 6] = [
    (&["run", "--workers=3"], Asked::Run { workers: 3 }),
    (
        &["gen", "--clients", "3", "--number", "7"],
        Asked::Gen {
            number: 7,
            clients: 3,
        },
    ),
    (
        &["gen", "--number=7", "--clients", "3"],
        Asked::Gen {
            number: 7,
            clients: 3,
        },
    ),
    (
        &["gen", "--number", "7", "--clients=3"],
        Asked::Gen {
            number: 7,
            clients: 3,
        },
    ),
    (
        &["gen", "--number", "+7", "--clients", "3"],
        Asked::Gen {
            number: 7,
            clients: 3,
        },
    ),
    (
        &["gen", "--number", "07", "--clients", "3"],
        Asked::Gen {
            number: 7,
            clients: 3,
        },
    ),
];

#[test]
fn words_that_clap_alone_reads(rt: HostRuntime) -> Result<(), Fail> {
    for (words, read) in &CLAPS_ALONE {
        assert_eq!(rt;
            by_both(rt.alloc(), words)?,
            (None, Some(*read)),
            "{words:?}"
        );
    }
    Ok(())
}

/// Words that both read.
static FORMS: [&[&str]; 6] = [
    &["run"],
    &["check"],
    &["origins"],
    &["upgrade"],
    &["run", "--workers", "3"],
    &["gen", "--number", "7", "--clients", "3"],
];

/// A change of one word of a list.
enum Edit {
    LeftOut,
    Twice,
    /// It stands behind the next one.
    Later,
    /// The next one follows in the same word, behind this.
    Joined(&'static str),
    Before(&'static str),
    Behind(&'static str),
    Instead(&'static str),
}

/// What is changed of each word.
static EDITS: [Edit; 26] = [
    Edit::LeftOut,
    Edit::Twice,
    Edit::Later,
    Edit::Joined("="),
    Edit::Joined(" "),
    Edit::Before("0"),
    Edit::Before("+"),
    Edit::Before("-"),
    Edit::Before("--"),
    Edit::Before(" "),
    Edit::Before("18446744073709551616"),
    Edit::Behind(" "),
    Edit::Behind("="),
    Edit::Behind("s"),
    Edit::Behind(".0"),
    Edit::Behind("\n"),
    Edit::Instead(""),
    Edit::Instead("0"),
    Edit::Instead("-0"),
    Edit::Instead("17"),
    Edit::Instead("4294967299"),
    Edit::Instead("18446744073709551619"),
    Edit::Instead("gen"),
    Edit::Instead("--workers"),
    Edit::Instead("--help"),
    Edit::Instead("help"),
];

/// Changes the word at this place, where there is one.
fn change(
    alloc: Global,
    words: &mut Vec<String>,
    place: usize,
    edit: &Edit,
) -> Result<(), AllocError> {
    if words.len() <= place {
        return Ok(());
    }
    let word = words.remove(place);
    match edit {
        Edit::LeftOut => {}
        Edit::Twice => {
            words.insert(place, String::from_str(alloc, word.as_str())?)?;
            words.insert(place, word)?;
        }
        Edit::Later => words.insert(words.len().min(place + 1), word)?,
        Edit::Joined(between) => {
            let next = if place < words.len() {
                words.remove(place)
            } else {
                String::new(alloc)
            };
            words.insert(place, format!(in alloc; "{word}{between}{next}")?)?;
        }
        Edit::Before(front) => words.insert(place, format!(in alloc; "{front}{word}")?)?,
        Edit::Behind(end) => words.insert(place, format!(in alloc; "{word}{end}")?)?,
        Edit::Instead(other) => words.insert(place, String::from_str(alloc, other)?)?,
    }
    Ok(())
}

/// Whether clap alone reads the words.
fn are_claps_alone(words: &[String]) -> bool {
    CLAPS_ALONE.iter().any(|(list, _)| {
        list.len() == words.len()
            && words
                .iter()
                .zip(list.iter())
                .all(|(word, other)| word.as_str() == *other)
    })
}

#[test]
fn changed_words(rt: HostRuntime) -> Result<(), Fail> {
    let mut refused = 0u32;
    for form in &FORMS {
        for place in 0..form.len() {
            for edit in &EDITS {
                let mut words = strings(rt.alloc(), form)?;
                change(rt.alloc(), &mut words, place, edit)?;
                let product = command_of(words.as_slice());
                if !are_claps_alone(words.as_slice()) {
                    assert_eq!(rt;
                        product,
                        by_clap(rt.alloc(), words.as_slice())?,
                        "{words:?}"
                    );
                }
                refused = refused.saturating_add(u32::from(product.is_none()));
            }
        }
    }
    assert!(rt; refused >= 200, "{refused}");
    Ok(())
}
