//! The commands: the word for each, its arguments, and what its help says.
ghost use Rattle.std.specs.Prelude.{◌≡◌, codes, map};
ghost use Rattle.ill_args.specs.CommandLine.{flag_rule, rules_of, verb_name};
ghost use Rattle.ill_args.specs.code.Arguments.{rule_for};

use crate::argument::Argument;
use crate::argument::Argument::{File, Filename, Files, Flag, Number, Output, Value};
use crate::build_help;
use crate::orders::{FileJob, FormVerb, Report, Verb};

/// The end of the help of a command that can go on after refused messages: what it says of that stands between the two texts.
macro_rules! with_refusals {
    ($before:literal, $after:literal) => {
        concat!(
            $before,
            "
With --keep-going each message that is refused has its line on standard error, and the
next one is read, where the end of the refused one is known.

With --refused FILE the octets of each message that is refused, and whose end is known,
go to FILE, one message after the other. FILE is replaced as OUT of `canonicalise` is.
What begins no message isn't kept.

With --summary a line on standard error at the end says how many files, messages and
octets were read, how many messages are in normal form, are not, and are refused, and
how many files could not be opened, or were left before their end. Lines say where.
With --keep-going it also says how many refused messages are only not read, how many
are invalid, and at how many places no message begins.
On a terminal, a line says how far the work is, where it takes more than two seconds.
",
            $after
        )
    };
}

impl Verb {
    /// All commands.
    pub const ALL: [Verb; 7] = [
        Verb::Print(FileJob::Show),
        Verb::Print(FileJob::Report(Report::Check)),
        Verb::Print(FileJob::Report(Report::Digest)),
        Verb::Dump,
        Verb::Same,
        Verb::Write(FormVerb::Canonicalise),
        Verb::Write(FormVerb::Build),
    ];

    /// The word for the command.
    pub fn name<'a>(self) -> &'a str
        ensures { result.now ≡ verb_name self }
    {
        match self {
            Verb::Print(FileJob::Show) => "show",
            Verb::Print(FileJob::Report(Report::Check)) => "check",
            Verb::Print(FileJob::Report(Report::Digest)) => "digest",
            Verb::Dump => "dump",
            Verb::Same => "same",
            Verb::Write(FormVerb::Canonicalise) => "canonicalise",
            Verb::Write(FormVerb::Build) => "build",
        }
    }

    /// What the command does.
    pub fn about<'a>(self) -> &'a str {
        match self {
            Verb::Print(FileJob::Show) => "Writes the messages as text",
            Verb::Print(FileJob::Report(Report::Check)) => {
                "Reports for each message whether it is in normal form"
            }
            Verb::Print(FileJob::Report(Report::Digest)) => {
                "Writes the digest of each message, the same however it is spelled"
            }
            Verb::Dump => {
                "Writes each element of the messages as it is spelled, and why one is refused"
            }
            Verb::Same => "Reports whether two files hold the same message, however it is spelled",
            Verb::Write(FormVerb::Canonicalise) => {
                "Writes the normal form (DER) of each message in IN, or in each FILE, to OUT"
            }
            Verb::Write(FormVerb::Build) => {
                "Builds a message of each line of JSON in IN, or in each FILE, and writes it to OUT"
            }
        }
    }

    /// The end of the help of the command.
    pub fn after_help<'a>(self) -> &'a str {
        match self {
            Verb::Print(FileJob::Show) => SHOW,
            Verb::Print(FileJob::Report(Report::Check)) => CHECK,
            Verb::Print(FileJob::Report(Report::Digest)) => DIGEST,
            Verb::Dump => DUMP,
            Verb::Same => SAME,
            Verb::Write(FormVerb::Canonicalise) => CANONICALISE,
            Verb::Write(FormVerb::Build) => build_help::HELP,
        }
    }

    /// The flag `--hex` of the command.
    pub fn hex(self) -> Argument
        ensures { rule_for result ≡ flag_rule (codes "hex") }
    {
        match self {
            Verb::Write(FormVerb::Build) => Flag("hex", build_help::HEX),
            _ => Flag("hex", HEX),
        }
    }

    /// The arguments of the command besides `--hex` and `--profile`.
    pub fn arguments(self) -> &'static [Argument]
        ensures { map rule_for result.now ≡ rules_of self }
    {
        match self {
            Verb::Print(FileJob::Show) => SHOW_ARGUMENTS.as_slice(),
            Verb::Print(FileJob::Report(_)) => REPORT_ARGUMENTS.as_slice(),
            Verb::Dump => DUMP_ARGUMENTS.as_slice(),
            Verb::Same => SAME_ARGUMENTS.as_slice(),
            Verb::Write(FormVerb::Canonicalise) => CANONICALISE_ARGUMENTS.as_slice(),
            Verb::Write(FormVerb::Build) => BUILD_ARGUMENTS.as_slice(),
        }
    }
}

impl FormVerb {
    /// The two forms of the command.
    pub fn usage<'a>(self) -> &'a str {
        match self {
            FormVerb::Canonicalise => CANONICALISE_USAGE,
            FormVerb::Build => build_help::USAGE,
        }
    }
}

static SHOW_ARGUMENTS: [Argument; 8] = [
    FILES_FROM,
    Files(MESSAGES),
    Filename,
    KEEP_GOING_FLAG,
    REFUSED_FILE,
    MAX_REFUSED_NUMBER,
    SUMMARY_FLAG,
    Flag("json", JSON),
];

/// The arguments of `check` and `digest`.
static REPORT_ARGUMENTS: [Argument; 9] = [
    KEEP_GOING_FLAG,
    REFUSED_FILE,
    MAX_REFUSED_NUMBER,
    SUMMARY_FLAG,
    Flag("lines", LINES),
    FILES_FROM,
    Files(MESSAGES),
    Filename,
    Flag("json", RESULTS_AS_JSON),
];

static DUMP_ARGUMENTS: [Argument; 7] = [
    FILES_FROM,
    Files(MESSAGES),
    Filename,
    KEEP_GOING_FLAG,
    MAX_REFUSED_NUMBER,
    Number("message", MESSAGE),
    Flag("html", HTML),
];

static SAME_ARGUMENTS: [Argument; 2] = [
    File("first", "FILE", "A message; `-` is standard input"),
    File("second", "OTHER", "Another; `-` is standard input"),
];

static CANONICALISE_ARGUMENTS: [Argument; 9] = [
    KEEP_GOING_FLAG,
    REFUSED_FILE,
    MAX_REFUSED_NUMBER,
    SUMMARY_FLAG,
    Flag("lines", LINES),
    Flag("whole", WHOLE),
    Output,
    FILES_FROM,
    Files("IN and OUT; or with `-o OUT` the messages; `-` is standard input or output"),
];

static BUILD_ARGUMENTS: [Argument; 12] = [
    Flag("keep-going", build_help::KEEP_GOING),
    Value("refused", "FILE", build_help::REFUSED),
    Number("max-refused", build_help::MAX_REFUSED),
    Flag("summary", build_help::SUMMARY),
    Flag("write-defaults", build_help::WRITE_DEFAULTS),
    Flag("lines", build_help::LINES),
    Flag("json", build_help::JSON),
    Flag("whole", build_help::WHOLE),
    Output,
    FILES_FROM,
    Files("IN and OUT; or with `-o OUT` the lines of JSON; `-` is standard input or output"),
    Filename,
];

const KEEP_GOING_FLAG: Argument = Flag("keep-going", KEEP_GOING);

const REFUSED_FILE: Argument = Value("refused", "FILE", REFUSED);

const MAX_REFUSED_NUMBER: Argument = Number("max-refused", MAX_REFUSED);

const SUMMARY_FLAG: Argument = Flag("summary", SUMMARY);

const FILES_FROM: Argument = Value("files-from", "LIST", LIST);

const HEX: &str = "The input is hexadecimal text, in either case, with or without blanks";

const KEEP_GOING: &str =
    "Reports a message that is refused, and goes on with the next one, where its end is known";

const REFUSED: &str =
    "Writes the octets of refused messages to FILE, where their ends are known; needs --keep-going";

const MAX_REFUSED: &str = "Stops after N refused messages of all files; needs --keep-going";

const SUMMARY: &str =
    "Writes a line to standard error at the end: how many files, messages and octets there were";

const MESSAGE: &str = "Writes message N alone; refused ones count, too, with --keep-going";

const HTML: &str = "Writes one HTML document for all files, as a report; it needs no other file";

const JSON: &str = "Writes a line of JSON for each message";

const RESULTS_AS_JSON: &str =
    "Writes a line of JSON for each message, refused ones too, and with --summary one of the numbers";

const MESSAGES: &str = "The messages; `-` is standard input";

const WHOLE: &str =
    "Replaces OUT only if every message of every input was good, and otherwise leaves it as it was";

const LIST: &str = "Reads names of files from LIST, each ended by a NUL; `-` is standard input";

const LINES: &str =
    "Each line of the input is a message in hexadecimal, and each line of the output its result";

const SHOW: &str = with_refusals!(
    "\
Each message is a line `message 1 Expired` and then a line for each leaf, as
`service-date-time.date-time-of-this-service.date = 20240229`. Of several files, the
first line of each message begins with the name of its file and `: `.

With --json each message is one line of JSON: its number, its offset and size in octets,
its APDU, whether it is in normal form, and its value, nested by the names of the tables.
A line of the module profile says so. Of several files, the line has the name of its file
as `file`.
",
    "
Example: illcanon show messages.ber
         illcanon show --keep-going messages.ber 2> refused.txt
         illcanon show --profile module messages.ber
         illcanon show --json messages.ber | jq -r .apdu | sort | uniq -c

Status: 0 done; 1 a message is refused, or the hexadecimal text is invalid; 2 usage;
3 memory, files or pipes. Of several files: 3 if one gave 3, else 1 if one gave 1."
);

const CHECK: &str = with_refusals!(
    "\
Each message has a line, as `message 1: Expired, 33 octets, normal` or
`message 2: Expired, 47 octets, not normal, normal form 33 octets`. Of several files,
each line begins with the name of its file and `: `.

With --json each message is one line of JSON: its number, its offset and size in octets,
its APDU, and whether it is in normal form. A refused message has its line there, too,
and none on standard error: the cause, its offset in the message, and whether the message
is invalid or only `not read`: --profile module reads on there, or a limit is passed.
",
    "
With --json it is a line of JSON, the last one of the output.

Example: illcanon check messages.ber | grep 'not normal'
         illcanon check --keep-going archive/*.ber > lines.txt 2> refused.txt
         find archive -name '*.ber' -print0 | illcanon check --files-from -
         illcanon check --lines messages.txt | grep -n refused
         illcanon check --keep-going --summary archive/*.ber > lines.txt
         illcanon check --json --keep-going ./*.ber | jq -r '.refused.cause // empty'

Status: 0 all are normal; 1 one is not normal or is refused, or the hexadecimal text
is invalid; 2 usage; 3 memory, files or pipes. Of several files: 3 if one gave 3,
else 1 if one gave 1."
);

const DIGEST: &str = with_refusals!(
    "\
Each message has a line: its digest, which is SHA-256 of its normal form, in hexadecimal
digits, two blanks, the name of the file, `:` and the number of the message. Messages
that say the same have the same digest, however they are spelled.

With --json each message has the line of `check --json`, and its digest as `digest`.
",
    "
With --json it is a line of JSON, the last one of the output.

Example: illcanon digest ./*.ber | sort | uniq -w 64 -D    # copies
         illcanon digest --keep-going archive/*.ber > digests.txt 2> refused.txt
         illcanon digest --lines messages.txt | paste - messages.txt

Status: 0 done; 1 a message is refused, or the hexadecimal text is invalid; 2 usage;
3 memory, files or pipes. Of several files: 3 if one gave 3, else 1 if one gave 1."
);

const DUMP: &str = "\
Each message has the line that `check` writes, and then a line for each element as it is
spelled: its offset in the message, its identifier and length octets, its name in the
tables, and the value of a leaf; and in brackets what is not normal in its spelling, as
`indefinite`, `length in 3 octets; 1 is enough`, `segment`, `default written`,
`TRUE as 01` or `without inner SEQUENCE`. Where a message is refused, the elements
before the place have their lines, and then comes the refusal: the cause in words, the
clause that is broken, the names of the elements around the place, what was found there,
and which tags were due. If only the profile lacks the part, the message is not at
fault; a line says so. Where no message begins, a line says so, too.
The elements from the place on are listed as their identifiers and lengths give them,
each as `(not judged)`.

With --keep-going each message that is refused also has its line on standard error, and
the next one is read, where the end of the refused one is known.

With --message N only message N of each FILE is written, and nothing after it is read.
An earlier one that is refused ends the work on FILE, unless --keep-going is given.

With --html the lines are parts of one HTML document for all files, each element with
the octets of its content beside it. It loads nothing, and has no script.

Example: illcanon dump messages.ber
         illcanon dump --keep-going --message 331 messages.ber
         illcanon dump --html --keep-going messages.ber > messages.html
         echo 740430020500 | illcanon dump --hex -

`illcanon help causes` explains each cause, and `illcanon help profile` says what is
read of a message in each profile.

Status: 0 done; 1 a message is refused, there is no message N, or the hexadecimal text
is invalid; 2 usage; 3 memory, files or pipes. Of several files: 3 if one gave 3,
else 1 if one gave 1.";

const SAME: &str = "\
Writes `same` or `different`. Each file holds one message; at most one file is `-`.

`same` is never wrong. With --profile module `different` may be said of messages that
mean the same: `illcanon help profile` says where.

Example: illcanon same sent.ber received.ber

Status: 0 same; 1 different, or a file is not one message; 2 usage; 3 memory, files
or pipes.";

const CANONICALISE: &str = with_refusals!(
    "\
OUT is replaced, whatever it held. Where a message is refused, it then holds only the
messages before it: none if the first is refused, or if the hexadecimal text is invalid.
With --whole OUT is replaced only if every message of every input was good; otherwise it
stays as it was.

OUT also stays as it was if the input can't be read, if the output can't be written, if
memory runs out, or if the command is killed: where OUT is absent, or a regular file with
one name, the output is written to a new file beside it, OUT.part, which takes the name
OUT at the end. If the command is killed, OUT.part is left, and may be removed. If it is
there already, OUT.part1 to OUT.part99 are tried. All other files (devices, pipes, links,
files with several names) are written directly, and so is OUT where no new file can be
made; a line on standard error says so if a regular file is written. --whole refuses
them. Access control lists and extended attributes of OUT are not kept.

With --hex the output has a line of hexadecimal digits for each message, and otherwise
the octets. IN and OUT must be different files.

With -o OUT the normal forms of the messages of each FILE go to OUT, one file after the
other. A file that can't be opened doesn't stop the others, unless --whole is given. OUT
is as it was if none can be opened. It must not be one of the files.
",
    "
With --lines each line of OUT is the normal form of the message in this line of IN, or
why the line is not a message, as `refused at 0: Truncated` or `hex: odd number of digits`.

Example: illcanon canonicalise messages.ber messages.der
         illcanon canonicalise --whole messages.ber messages.der
         illcanon canonicalise --keep-going -o all.der archive/*.ber
         illcanon canonicalise --lines messages.txt - | sort -u

Status: 0 done; 1 a message is refused, or the hexadecimal text is invalid; 2 usage,
or IN and OUT are the same file; 3 memory, files or pipes. Of several files: 3 if one
gave 3, else 1 if one gave 1."
);

/// The two forms of `canonicalise`.
const CANONICALISE_USAGE: &str = "\
illcanon canonicalise [OPTIONS] <IN> <OUT>
       illcanon canonicalise [OPTIONS] -o <OUT> <FILE>...";
