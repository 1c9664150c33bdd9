//! The topics of `help` that are no commands.

/// The causes of refusals, with an example each.
pub const CAUSES: &str = "\
Why a message is refused. Each message has at most one cause, at one offset: octets
from the first one of the message. `illcanon dump` writes what was found there, and
what was due. After each cause comes the clause that the message breaks, or `limit of
illcanon` where it breaks none, and then an example, in hexadecimal digits or as a
command that prints its octets. To see one:

    echo 7400 | illcanon dump --hex -

Truncated       the input ends inside the message
                (X.690, 8.1.1)
    7401
BadTag          no identifier begins so, or the tag number has more than four octets
                (X.690, 8.1.2, or limit of illcanon)
    7f14
BadLength       the first length octet is FF, or 80 in a primitive element
                (X.690, 8.1.3.2 and 8.1.3.5)
    74ff
TooLong         the message would have more than 1,048,576 octets
                (limit of illcanon)
    748400100000
Overrun         the element would go past the end of an element round it
                (X.690, 8.1.3.3)
    74023001
TooDeep         more than 32 elements would be open
                (limit of illcanon)
    $ printf '\\164\\200\\060\\200\\200\\001\\002\\241\\200\\241\\200\\073\\200'
    for i in $(seq 28); do printf '\\044\\200'; done
UnexpectedTag   this tag is not expected here
                (X.690, 8.9.2, 8.10.2, 8.13 and 8.14, with the types of ISO 10161-1)
    740430020500
LeftOut         this part is not read
                (limit of illcanon)
    6200
WrongForm       its form, primitive or constructed, is not the one expected here
                (X.690, 8.2.1, 8.3.1, 8.8.1, 8.9.1, 8.10.1, 8.14 and 8.19.1)
    5400
Missing         the element ends before a mandatory part
                (X.690, 8.9.3 and 8.14, with the types of ISO 10161-1)
    7400
BadEnd          the second octet of an end mark is not 00
                (X.690, 8.1.5)
    74800001
BadBoolean      the BOOLEAN does not have exactly one octet
                (X.690, 8.2.1)
    6580800102a10aa1031b0147a2031b0151a20ca00a800832303234303232399f2300
BadInteger      the number has no octet, or one more than it needs
                (X.690, 8.3.1 and 8.3.2)
    740430028000
IntegerTooLong  the number has more than eight octets
                (limit of illcanon)
    740d300b8009010000000000000000
BadText         an octet is not in the alphabet of the string
                (X.690, 8.23, and X.680, 41)
    7480800102a180a1801b010e
BadDate         it is not eight digits of a day that exists
                (ISO 10161-1: ISO-Date ::= VisibleString -- conforms to ISO 8601,
                 length = 8, fixed, YYYYMMDD)
    7480800102a10aa1031b0147a2031b0151a20ca00a80083230323430323330
BadTime         it is not six digits of a time of day
                (ISO 10161-1: ISO-Time ::= VisibleString -- conforms to ISO 8601,
                 length = 6, fixed, HHMMSS)
    7480800102a10aa1031b0147a2031b0151a214a0128008323032343032323981063235
    30303030
TrailingBytes   octets follow the message
                (limit of illcanon)
    741f301d800102a10aa1031b0147a2031b0151a20ca00a8008323032343032323900
NormalTooLong   the normal form would have more than 1,048,576 octets
                (limit of illcanon)
    $ printf '\\161\\200\\200\\001\\002\\241\\012\\241\\003\\033\\001G\\242\\003\\033\\001Q'
    printf '\\242\\014\\240\\012\\200\\01020240229\\277\\056\\200\\033\\203\\017\\377\\325'
    head -c 1048533 /dev/zero | tr '\\0' A
    printf '\\0\\0\\0\\0'

TrailingBytes is refused where an input has to be one message: by `same`, and in a
line of --lines. Where an input has any number of messages, what follows one is the
next one. So the example of TrailingBytes is seen by `illcanon check --lines -`, and by
`illcanon dump --hex -` as a message and a second one that is refused.

--profile module reads what is LeftOut in profile 2, and the EXPLICIT tags of
five rows that are WrongForm or UnexpectedTag there (`illcanon help profile`).
With it TooDeep is also an element at level 21 of a foreign tree, and there are
three more causes. `illcanon dump --profile module --hex -` shows examples:

BadNull         the NULL has octets
                (X.690, 8.8.2)
    7080800102a10aa1031b0147a2031b0151a20ca00a80083230323430323239a580810100
BadOid          the identifier has no octet, one more than it needs, or no end
                (X.690, 8.19.2)
    7080800102a10aa1031b0147a2031b0151a20ca00a80083230323430323239a580800180
BadBits         the first octet is not the number of unused bits
                (X.690, 8.6.2)
    6a80800102a10aa1031b0147a2031b0151a20ca00a80083230323430323239b1802880820108";

/// The parts of a message that each profile reads, and those that it doesn't.
pub const PROFILE: &str = "\
A profile is what is read of ISO 10161-1. `--profile NAME` names one for all
inputs of a command: `2`, which is the default, or `module`. A message that has
what its profile doesn't read is refused at that element, so that nothing of it
is lost.

Both read any BER that X.690 allows: lengths in any form, strings in segments,
any octet but 00 for TRUE, default values written or not. The wrapper round an
APDU or a result may be without its inner SEQUENCE, as some programs write it;
the normal form has it.

Profile 2 doesn't read these parts, and refuses them as LeftOut:
    Forward-Notification and Status-Or-Error-Report (APDUs 2 and 19)
    extensions ([49] of each APDU)
    EXTERNAL values ([10] of ILL-Request, [33] of ILL-Answer, [17] of five
        APDUs, [17] and [20] of Item-Id)
    electronic delivery ([50] of Delivery-Service and Shipped-Via, [4] of
        Will-Supply)
    damaged-details ([5] of Damaged)
It refuses these for other causes:
    proposed-delivery-service of Conditional without a tag of its own, as
        UnexpectedTag
    EXPLICIT tags of five rows of Units-Per-Medium and Will-Supply, which are
        IMPLICIT in it, as WrongForm or UnexpectedTag
    the octets 0E, 0F and 1B (escape sequences) in a GeneralString, as BadText

The module profile reads all of these: each row of the module of ISO 10161-1,
with the tags that it has there. So the five rows have EXPLICIT tags alone.
Where the module leaves a type open, as in an extension, the value is a foreign
tree: an element with any tag, and what is in it, on at most 20 levels. In it
only lengths are made normal.

Take `module` for messages with such parts. Take `2` where these are not to
pass, or where `different` must be certain. A message that both read has one
normal form, one digest and one text in both.

`same` is never wrong. With `module`, `different` may be said of messages that
mean the same: inside foreign trees segments, the octet of TRUE, written
defaults and the order of a SET count, and so does the spelling of a text with
escape sequences.

Neither reads numbers of more than eight octets (IntegerTooLong) or tag numbers
of more than four octets (BadTag).

Limits: a message and its normal form have at most 1,048,576 octets, and at
most 32 elements are open at once. An input has at most 1,000,000 messages, but
there is no limit on the lines of --lines. A text for --hex has at most
4,194,304 octets, and so has a line of --lines.";
