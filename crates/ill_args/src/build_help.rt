//! The words of the help of `build`.

pub const HEX: &str = "Writes each message as a line of hexadecimal digits";

pub const KEEP_GOING: &str = "Reports a line that is refused, and goes on with the next one";

pub const REFUSED: &str =
    "Writes the lines that are refused to FILE, as they are; needs --keep-going";

pub const MAX_REFUSED: &str = "Stops after N refused lines of all files; needs --keep-going";

pub const SUMMARY: &str =
    "Writes a line to standard error at the end: how many files, lines and octets there were";

pub const WRITE_DEFAULTS: &str =
    "Writes each default, too, so that the messages are no normal forms";

pub const LINES: &str =
    "Writes a line for each line: the message in hexadecimal, or why the line is refused";

pub const JSON: &str =
    "Writes a line of JSON for each line: the message in hexadecimal, or why the line is refused";

pub const WHOLE: &str =
    "Replaces OUT only if every line of every input was good, and otherwise leaves it as it was";

/// The two forms of `build`.
pub const USAGE: &str = "\
illcanon build [OPTIONS] <IN> <OUT>
       illcanon build [OPTIONS] -o <OUT> <FILE>...";

/// The end of the help of `build`, with each cause and an example of it.
pub const HELP: &str = "\
Each line of the input is JSON, as `show --json` writes it, and says one message. What
is written is the normal form (DER) of the message, in the profile of --profile.

A line has the members `apdu` and `value`. It may have `profile`, which then has to be
the profile of --profile. `file`, `number`, `offset`, `octets` and `normal` may be there,
and are passed over. Members come in any order. A member that has a default may be left
out. A number that has a name may be given by its name, or by an object of both, as
`show --json` writes it. There is no limit on the number of lines. A line has at most
16,777,216 octets.

OUT gets the messages one after the other. It is replaced as OUT of `canonicalise` is
(`illcanon help canonicalise`). IN and OUT must be different files. With -o OUT the lines
of each FILE are built, one file after the other.

A line that is refused has a line on standard error: its number, the cause, and the place
as a JSON pointer (RFC 6901), or for text that is no JSON the column, in octets from 1.
The first line that is refused ends the work. OUT then holds the messages before it.

With --keep-going each line that is refused is reported, and the next one is built.

With --refused FILE the lines that are refused go to FILE as they are, but for a line
that is too long. FILE is replaced as OUT is.

With --summary a line on standard error at the end says how many files, lines and octets
were read, how many lines are built and refused, and how many files could not be opened,
or were left before their end. On a terminal, a line says how far the work is, where it
takes more than two seconds.

With --write-defaults a member that has its default is in the message, too, whether the
line has the member or not. Some systems refuse messages without `transaction-type` and
other defaults. The message is then no normal form: `canonicalise` makes the normal form
of it. Where the defaults have no room within 1,048,576 octets, the normal form is written.

With --lines each line of OUT is the result of the line in the input: the message in
hexadecimal digits, or why the line is refused, as `refused at /apdu: UnknownName`.

With --json each line of OUT is a line of JSON: the number of the line, and the APDU, its
number of octets and its octets in hexadecimal digits, or why the line is refused.

Why a line is refused, with an example each:

LineTooLong     the line has more than 16,777,216 octets
NotJson         it is no JSON text in UTF-8, or nests deeper than 128
    {\"apdu\":\"Expired\"
WrongType       another type of JSON is due: an object, a list, a number, a string
    {\"apdu\":1}
UnknownMember   no member of this name is due
    {\"adpu\":\"Expired\"}
RepeatedMember  a member of this name came before
    {\"apdu\":\"Expired\",\"apdu\":\"Expired\"}
OtherProfile    the line is of the other profile
    {\"profile\":\"module\"}
MissingMember   a member that has to be there is missing
    {\"apdu\":\"Expired\"}
UnknownName     no APDU, or no number of the row, has this name
    {\"apdu\":\"Expire\"}
LeftOut         this profile leaves the row out, or the APDU
    {\"apdu\":\"Forward-Notification\"}
NotWhole        the number has a point or an exponent, or is -0
    \"protocol-version-num\":1.5
NumberTooLong   the number has more than 64 bits; a number of bits is below 0
    \"protocol-version-num\":9223372036854775808
OtherName       the number has another name
    \"transaction-type\":{\"number\":1,\"name\":\"chained\"}
NotOneMember    a choice has no member, or two
    \"transaction-qualifier\":{\"general\":\"Q\",\"visible\":\"Q\"}
BadCharacter    a character is past U+00FF
    \"transaction-qualifier\":{\"general\":\"\\u0100\"}
BadText         a character is not in the alphabet of the string
    \"transaction-qualifier\":{\"general\":\"\\u000e\"}
BadDate         it is not eight digits of a day that exists
    \"date-time-of-this-service\":{\"date\":\"20230229\"}
BadTime         it is not six digits of a time of day
    \"date-time-of-this-service\":{\"date\":\"20240229\",\"time\":\"250000\"}
NormalTooLong   the message would have more than 1,048,576 octets

--profile module has rows with four causes more:

BadHexadecimal  it is not pairs of the digits 0 to 9 and a to f
    \"0F\"
BadBits         the number of bits is not that of the octets, or a bit behind them is 1
    {\"bits\":3,\"octets\":\"ff\"}
BadOid          it is no OBJECT IDENTIFIER in decimal numbers with points
    \"1.40\"
BadForeign      it is not the DER of one element of at most 20 levels, with tag numbers
                of at most four octets
    \"308000\"

A sender may want --profile module, which has the tags of the module of ISO 10161-1, and
--write-defaults.

Example: illcanon build messages.json messages.der
         illcanon show --json messages.ber | illcanon build - - | illcanon check -
         illcanon build --keep-going --refused bad.json -o all.der ./*.json
         illcanon build --lines messages.json - | paste - messages.json
         illcanon build --profile module --write-defaults request.json request.ber

Status: 0 done; 1 a line is refused; 2 usage, or IN and OUT are the same file; 3 memory,
files or pipes. Of several files: 3 if one gave 3, else 1 if one gave 1.";
