//! Orders that words give.
mod contracts;

use clap::error::ErrorKind;
use ill_args::{BuildResults, FormJob, LineFault, LineResults, Order, Work, order};
use ill_tables::Profile;
use std::alloc::{AllocError, Global};
use std::test::Fail;

/// The flags of an order, in the order `--hex`, `--lines`, `--keep-going`, `--json`, `--summary`, `--whole`, `-H`.
type Flags = [bool; 7];

/// Words after the program's name, and the flags that they set.
static ROWS: [(&str, Flags); 18] = [
    ("check A", [false, false, false, false, false, false, false]),
    (
        "check --hex A",
        [true, false, false, false, false, false, false],
    ),
    (
        "check --lines A",
        [false, true, false, false, false, false, false],
    ),
    (
        "check --keep-going A",
        [false, false, true, false, false, false, false],
    ),
    (
        "show --json A",
        [false, false, false, true, false, false, false],
    ),
    (
        "check --summary A",
        [false, false, false, false, true, false, false],
    ),
    (
        "dump --hex A",
        [true, false, false, false, false, false, false],
    ),
    (
        "digest -H A",
        [false, false, false, false, false, false, true],
    ),
    (
        "show --with-filename A",
        [false, false, false, false, false, false, true],
    ),
    (
        "canonicalise --lines A B",
        [false, true, false, false, false, false, false],
    ),
    (
        "canonicalise --whole A B",
        [false, false, false, false, false, true, false],
    ),
    (
        "build --hex A B",
        [true, false, false, false, false, false, false],
    ),
    (
        "build --lines A B",
        [false, true, false, false, false, false, false],
    ),
    (
        "build --lines -o C A B",
        [false, true, false, false, false, false, false],
    ),
    (
        "build --keep-going A B",
        [false, false, true, false, false, false, false],
    ),
    (
        "build --json A B",
        [false, false, false, true, false, false, false],
    ),
    (
        "build --summary --whole A B",
        [false, false, false, false, true, true, false],
    ),
    (
        "build -H -o C A B",
        [false, false, false, false, false, false, true],
    ),
];

/// Each command, and words for its files.
static COMMANDS: [(&str, &str); 9] = [
    ("show", "A"),
    ("check", "A"),
    ("digest", "A"),
    ("dump", "A"),
    ("same", "A B"),
    ("canonicalise", "A B"),
    ("canonicalise", "-o B A"),
    ("build", "A B"),
    ("build", "-o B A"),
];

/// The program's name, and words that are parted by blanks.
fn words_of(alloc: Global, text: &str) -> Result<Vec<String>, AllocError> {
    let mut words = Vec::new(alloc);
    words.push(String::from_str(alloc, "illcanon")?)?;
    for word in text.split(' ') {
        words.push(String::from_str(alloc, word)?)?;
    }
    Ok(words)
}

fn flags_of(order: &Order<'_>) -> Flags {
    match order {
        Order::Each(work) => flags_of_work(work),
        Order::Compare { reading, .. } => [reading.hex, false, false, false, false, false, false],
    }
}

fn flags_of_work(work: &Work<'_>) -> Flags {
    match work {
        Work::Print {
            json,
            with_filename,
            messages,
            ..
        } => [
            messages.reading.hex,
            false,
            messages.keep_going.is_some(),
            *json,
            messages.summary,
            false,
            *with_filename,
        ],
        Work::Dump {
            elements,
            with_filename,
            ..
        } => [
            elements.reading.hex,
            false,
            elements.keep_going.is_some(),
            false,
            false,
            false,
            *with_filename,
        ],
        Work::Write {
            job,
            messages,
            output,
            ..
        }
        | Work::Collect {
            job,
            messages,
            output,
            ..
        } => [
            messages.reading.hex,
            has_results(*job, BuildResults::Lines),
            messages.keep_going.is_some(),
            has_results(*job, BuildResults::Json),
            messages.summary,
            output.is_whole(),
            matches!(job, FormJob::Build(building) if building.with_filename),
        ],
        Work::Lines { results, .. } => [
            false,
            true,
            false,
            false,
            false,
            replaces_whole(*results),
            false,
        ],
    }
}

/// Tells whether lines of JSON are built with these results.
fn has_results(job: FormJob, results: BuildResults) -> bool {
    matches!(job, FormJob::Build(building) if building.results == results)
}

/// Tells whether an output of lines is replaced only if every line was good.
fn replaces_whole(results: LineResults<'_>) -> bool {
    match results {
        LineResults::Report(_) => false,
        LineResults::Write(output) | LineResults::Collect(output) => output.is_whole(),
    }
}

/// Tells whether words set these flags and no others.
fn are_set(alloc: Global, words: &str, flags: Flags) -> Result<bool, AllocError> {
    let words = words_of(alloc, words)?;
    match order(alloc, &words) {
        Ok(order) => Ok(flags_of(&order) == flags),
        Err(_fault) => Ok(false),
    }
}

/// The profile of the order that words give, if they give one.
fn profile_of(alloc: Global, words: &str) -> Result<Option<Profile>, AllocError> {
    let words = words_of(alloc, words)?;
    match order(alloc, &words) {
        Ok(Order::Compare { reading, .. }) => Ok(Some(reading.profile)),
        Ok(Order::Each(work)) => Ok(Some(profile_of_work(&work))),
        Err(_fault) => Ok(None),
    }
}

fn profile_of_work(work: &Work<'_>) -> Profile {
    match work {
        Work::Print { messages, .. }
        | Work::Write { messages, .. }
        | Work::Collect { messages, .. } => messages.reading.profile,
        Work::Dump { elements, .. } => elements.reading.profile,
        Work::Lines { profile, .. } => *profile,
    }
}

/// The kind of the mistake that clap reports of words, if it reports one.
fn mistake_of(alloc: Global, words: &str) -> Result<Option<ErrorKind>, AllocError> {
    let words = words_of(alloc, words)?;
    match order(alloc, &words) {
        Err(LineFault::Line(error)) => Ok(Some(error.kind())),
        _ => Ok(None),
    }
}

#[test]
fn each_command_reads_each_profile(rt: HostRuntime) -> Result<(), Fail> {
    let options = [
        ("", Profile::Two),
        ("--profile 2 ", Profile::Two),
        ("--profile=2 ", Profile::Two),
        ("--profile module ", Profile::Module),
        ("--profile=module ", Profile::Module),
    ];
    for (command, files) in &COMMANDS {
        for (option, profile) in &options {
            let words = format!(in rt.alloc(); "{command} {option}{files}")?;
            assert!(rt;
                profile_of(rt.alloc(), &words)? == Some(*profile),
                "{words}"
            );
        }
    }
    Ok(())
}

#[test]
fn no_other_profile_is_read(rt: HostRuntime) -> Result<(), Fail> {
    let options = [
        ("--profile 3", ErrorKind::InvalidValue),
        ("--profile Module", ErrorKind::InvalidValue),
        ("--profile=", ErrorKind::InvalidValue),
        ("--profile", ErrorKind::InvalidValue),
        ("--profile --hex", ErrorKind::InvalidValue),
        ("--profile 2 --profile 2", ErrorKind::ArgumentConflict),
        ("--profile=2 --profile module", ErrorKind::ArgumentConflict),
    ];
    for (command, files) in &COMMANDS {
        for (option, mistake) in &options {
            let words = format!(in rt.alloc(); "{command} {files} {option}")?;
            assert!(rt;
                mistake_of(rt.alloc(), &words)? == Some(*mistake),
                "{words}"
            );
        }
    }
    Ok(())
}

#[test]
fn each_flag_goes_with_a_profile(rt: HostRuntime) -> Result<(), Fail> {
    for (words, flags) in &ROWS {
        let words = format!(in rt.alloc(); "{words} --profile module")?;
        assert!(rt; are_set(rt.alloc(), &words, *flags)?, "{words}");
        assert!(rt;
            profile_of(rt.alloc(), &words)? == Some(Profile::Module),
            "{words}"
        );
    }
    Ok(())
}

#[test]
fn each_flag_is_its_own(rt: HostRuntime) -> Result<(), Fail> {
    for (words, flags) in &ROWS {
        assert!(rt; are_set(rt.alloc(), words, *flags)?, "{words}");
    }
    Ok(())
}

/// Tells whether words give an order of `canonicalise` with these flags, from one word to another.
fn gives_canonicalise(
    alloc: Global,
    words: &str,
    flags: Flags,
    from: &str,
    to: &str,
) -> Result<bool, AllocError> {
    let words = words_of(alloc, words)?;
    match order(alloc, &words) {
        Ok(Order::Each(work)) => Ok(
            flags_of_work(&work) == flags
                && matches!(work, Work::Write { input, output, .. } if input == from && output.name() == to),
        ),
        _ => Ok(false),
    }
}

#[test]
fn canonicalise_has_its_flags_and_files(rt: HostRuntime) -> Result<(), Fail> {
    let hex = [true, false, false, false, false, false, false];
    assert!(rt; gives_canonicalise(rt.alloc(), "canonicalise --hex - -", hex, "-", "-")?);
    Ok(())
}

/// Tells whether words are refused for the same word.
fn is_same_word(alloc: Global, words: &str) -> Result<bool, AllocError> {
    let words = words_of(alloc, words)?;
    Ok(matches!(order(alloc, &words), Err(LineFault::SameWord)))
}

#[test]
fn only_some_commands_have_the_same_word(rt: HostRuntime) -> Result<(), Fail> {
    assert!(rt; is_same_word(rt.alloc(), "same - -")?);
    assert!(rt; is_same_word(rt.alloc(), "canonicalise A A")?);
    assert!(rt; is_same_word(rt.alloc(), "build A A")?);
    for words in ["show - -", "canonicalise - -", "canonicalise -o A A"] {
        assert!(rt; !is_same_word(rt.alloc(), words)?, "{words}");
    }
    Ok(())
}

#[test]
fn only_files_are_replaced_as_a_whole(rt: HostRuntime) -> Result<(), Fail> {
    for words in [
        "canonicalise --whole A -",
        "canonicalise --whole -o - A",
        "build --whole A -",
        "build --whole -o - A",
    ] {
        let words = words_of(rt.alloc(), words)?;
        let is_refused = matches!(order(rt.alloc(), &words), Err(LineFault::WholeNeedsFile));
        assert!(rt; is_refused, "{words:?}");
    }
    Ok(())
}
