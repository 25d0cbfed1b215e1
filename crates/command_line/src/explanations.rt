//! What the numbers of refusals and faults mean, and what to do about them.

/// What is known of the numbers, in their order.
static EXPLANATIONS: [(u64, &str); 56] = [
    (
        1,
        "\
1 Empty
The name of the trust domain is empty.
What to do: Give the name, as a.example.
",
    ),
    (
        2,
        "\
2 TooLong
The name of the trust domain has over 255 bytes, or the SPIFFE ID over 2048.
What to do: Use a shorter name: the SPIFFE ID standard, section 2, has these limits.
",
    ),
    (
        3,
        "\
3 BadChar, PLACE
The name of the trust domain has a character at this place, from 0, that it may not have. It may
have lower-case letters, digits, `.`, `-` and `_`.
What to do: Write the name in lower case, without scheme, port or path.
",
    ),
    (
        4,
        "\
4 NotSpiffe
The ID of the endpoint does not begin with `spiffe://`.
What to do: Write it as spiffe://b.example/spire/server.
",
    ),
    (
        5,
        "\
5 BadPath, SEGMENT
This segment of the ID's path, from 0, is empty, or is `.` or `..`, or has a character that it
may not have.
What to do: Correct the path; it does not end with a slash.
",
    ),
    (
        10,
        "\
10 TooLong
The document, or its canonical text, has over 1048576 bytes.
What to do: Publish fewer keys; look for certificates that nobody uses any more.
",
    ),
    (
        11,
        "\
11 NotJson
The document is not JSON, not UTF-8, or nests over 127 deep.
What to do: See what was fetched: often it is a page of HTML, or half a file. Write the file
under another name and rename it.
",
    ),
    (
        12,
        "\
12 NotObject
The document is JSON, but not an object.
What to do: A bundle is an object with the member `keys`.
",
    ),
    (
        13,
        "\
13 NoKeys
The document has no member `keys`, or it is not an array.
What to do: A bundle without keys has `\"keys\": []`. A PEM file is not a bundle document.
",
    ),
    (
        14,
        "\
14 BadSequence
`spiffe_sequence` is neither absent, null, nor a whole number from 0 to 18446744073709551615.
What to do: Write it as a number, without quotes, point or exponent.
",
    ),
    (
        15,
        "\
15 BadHint
`spiffe_refresh_hint` is neither absent, null, nor a whole number from 0 to
18446744073709551615.
What to do: Write it as a number of seconds, without quotes, point or exponent.
",
    ),
    (
        16,
        "\
16 BadEntry, PLACE
The entry of `keys` at this place, from 0, is not an object.
What to do: Correct or remove the entry.
",
    ),
    (
        17,
        "\
17 BadKey, PLACE
A member of the key at this place, from 0, is missing or malformed: `crv`, `x` and `y` of an EC
key, `n` and `e` of an RSA key, in base64url without padding.
What to do: Correct the entry. An unknown `kty`, `use` or `crv` would be ignored; a known one
with a malformed key refuses the document.
",
    ),
    (
        18,
        "\
18 BadX5c, PLACE
The `x5c` of the entry at this place, from 0, is not an array of exactly one certificate in
base64 with padding.
What to do: Publish each root certificate as an entry of its own, not as a chain.
",
    ),
    (
        19,
        "\
19 BadKid, PLACE
The `kid` of the JWT entry at this place, from 0, is not a text of 1 to 255 bytes.
What to do: Give each JWT key a `kid`: tokens name their key by it.
",
    ),
    (
        20,
        "\
20 KidTwice, PLACE
The JWT entry at this place, from 0, has the `kid` of an earlier entry, with another key.
What to do: Give each key a `kid` of its own.
",
    ),
    (
        21,
        "\
21 TooMany
The document has over 1024 different authorities.
What to do: Remove authorities that nobody uses any more.
",
    ),
    (
        22,
        "\
22 Memory
There was no memory, and nothing has changed.
What to do: Ask again. If it comes again, give the process more memory.
",
    ),
    (
        23,
        "\
23 PassedOver
The JWK to append has an unknown or missing `kty` or `use`, or an unknown `crv`, so there is
nothing to append.
What to do: Append EC or RSA keys whose `use` is x509-svid or jwt-svid.
",
    ),
    (
        30,
        "\
30 NoDomain
The store has no bundle of this trust domain.
What to do: Set it first; see whether the name is spelt as it was set.
",
    ),
    (
        31,
        "\
31 Stale, SEQUENCE
The sequence of the document is lower than the stored one, which comes with the number, or than
that of the bundle that was removed last.
What to do: Nothing, if an old document was fetched. If the domain has begun its sequence anew,
set its document once without `spiffe_sequence`, and then with it.
",
    ),
    (
        32,
        "\
32 KidTaken
The bundle has the `kid` of the JWK to append already, with another key.
What to do: Append it under another `kid`.
",
    ),
    (
        33,
        "\
33 TooMany
The bundle has 1024 authorities already.
What to do: Set a bundle with fewer.
",
    ),
    (
        34,
        "\
34 TooLong
With the JWK the canonical text would have over 1048576 bytes.
What to do: Set a bundle with fewer authorities.
",
    ),
    (
        35,
        "\
35 SequenceFull
The sequence is 18446744073709551615 and cannot rise.
What to do: Set the document once without `spiffe_sequence`, and then with a lower one.
",
    ),
    (
        36,
        "\
36 NotExpected, FOUND
The stored bundle is not the expected one; what was found comes with the number.
What to do: Somebody else has written. Get the bundle, and decide again.
",
    ),
    (
        40,
        "\
40 Worn, SHARD
The shard has counted all the changes that it can, 2^62, and takes no more.
What to do: Start the server again, with a dump.
",
    ),
    (
        41,
        "\
41 Moved, SHARD, FIRST, SECOND
In each round of a fetch-all this shard was changed between two looks. Nothing has changed by
the request.
What to do: Ask again. If it comes often, raise --rounds or --retries.
",
    ),
    (
        42,
        "\
42 Held, SHARD, REVISION
At each try another worker had this shard. Nothing has changed by the request.
What to do: Ask again. If it comes often, raise --tries, --retries or --shards.
",
    ),
    (
        43,
        "\
43 HeldAtEnd, SHARD
A worker still had this shard as the store was closed.
What to do: This should not happen: please report it.
",
    ),
    (
        50,
        "\
50 BadLength
A frame has a length of 0 or of over 1049000. The session has ended.
What to do: The other end does not speak this protocol, or has lost its place in the stream:
connect again.
",
    ),
    (
        51,
        "\
51 BadRequest
The payload of the frame is malformed.
What to do: Compare it with docs/FORMATS.md. A conditional set wants version 2 of the session, and
a conditional fetch version 3.
",
    ),
    (
        52,
        "\
52 Truncated
The stream ended inside a frame.
What to do: Connect again. Whether a request whose reply was torn off took effect is not known:
get the bundle.
",
    ),
    (
        53,
        "\
53 ReadFault
The input, the list or the dump could not be read; or a client had not sent the whole of a
request --idle seconds after it began it.
What to do: See whether the file is there and may be read.
",
    ),
    (
        54,
        "\
54 WriteFault
The output could not be written, since its reader has gone or takes nothing, or the disk is
full; or a client had not read a long reply --reply-seconds after it was begun, or read one as
the oldest of more than --moments.
What to do: See where the output goes.
",
    ),
    (
        55,
        "\
55 TurnsUsed
The session has made as many reads as --turns allows; or the server was stopped while more
than 12 MiB of replies were to be sent to the client.
What to do: Connect again, or raise --turns.
",
    ),
    (
        56,
        "\
56 GateShut
The request was not asked: it would change something, and this port or socket is for reads only. (Whoever
runs the workers in a program of their own may give them a gate that shuts; then that was shut.)
What to do: Ask at the server's other port or socket.
",
    ),
    (
        57,
        "\
57 ListenFault
The server cannot listen at the port or the socket, or cannot accept a connection.
What to do: See whether another program has the port, whether a server listens at the socket's path,
and whether some other file is there: only the socket that a dead server has left is replaced.
",
    ),
    (
        58,
        "\
58 BadReply
What came is not a reply to the request.
What to do: See whether the port or the socket is that of a server of bundles.
",
    ),
    (
        59,
        "\
59 Unsaved
The file of --save cannot be written, or not renamed: at the start, and then nothing is served; or
at the end, and then the last map of the server is not in it. What was in the file before is there
still.
What to do: See its folder's permissions and the room on the disk. Take a dump before the next stop.
",
    ),
    (
        60,
        "\
60 BadUrl
The URL of the bundle endpoint is not one, has a scheme other than https, a user name or a
password, or over 2048 bytes.
What to do: Correct the line of the list.
",
    ),
    (
        61,
        "\
61 BadProfile
The profile of the endpoint is neither https_web nor https_spiffe.
What to do: Correct the line of the list.
",
    ),
    (
        62,
        "\
62 NoEndpointId
With the profile https_spiffe the line needs the SPIFFE ID of the endpoint.
What to do: Add the ID at the end of the line.
",
    ),
    (
        63,
        "\
63 BadDump, FRAME
The input is not a dump; the frame, from 0, is the first that is wrong, missing or too much.
What to do: Make the dump again: a dump is the whole reply to one fetch-all, and nothing else.
",
    ),
    (
        64,
        "\
64 BadMap
The input is not a SPIFFE bundle map: an object with the member `trust_domains`, which is an
object.
What to do: See whether the file is whole.
",
    ),
    (
        65,
        "\
65 BadMember, PLACE
The member of `trust_domains` at this place, from 0, has a name that is not that of a trust
domain or stands there twice, or its value is not a bundle.
What to do: Ask `check` about the bundle.
",
    ),
    (
        70,
        "\
70 BadLine, LINE
The line, from 1, is not what the command reads: an event, a request, or a relationship whose
domain is new.
What to do: See the help of the command.
",
    ),
    (
        71,
        "\
71 InputTooLong
The input of migrate, import, trace or check, or the list of refresh, has over 16777216 bytes.
What to do: Split it. A dump is read in any length by serve --load, digest, map, pem, diff and
ask --unless.
",
    ),
    (
        72,
        "\
72 NoClock
The clock of the machine cannot be read.
What to do: Give the time with --now.
",
    ),
    (
        73,
        "\
73 LongName, DOMAIN
The name of the domain, from 1 in order of the names, has over 250 bytes: with `.json` it is too
long for a file. `snapshot` told so up to 1.1; now it leaves out the files of this domain only.
What to do: Read the bundle in the file map, or by ask.
",
    ),
    (
        74,
        "\
74 BadFolder
The folder of snapshots cannot be read or written, or its `current` is not a link to a snapshot.
What to do: Make the folder, see its permissions and the room on the disk. With --every the next
turn tries again; without it, run again.
",
    ),
    (
        75,
        "\
75 NotInDump, NAME
The dump has no domain of this name of the command line, counted from 1.
What to do: See which domains it has: bundled decode < dump.
",
    ),
    (
        76,
        "\
76 BadFrame, FRAME
The frame of the input, from 0, is neither a request nor a reply that has a line.
What to do: Compare it with docs/FORMATS.md. The lines of the frames before it have been written.
",
    ),
    (
        77,
        "\
77 UnreadText, LINE or FILE
The file that this line of requests names, or this file of `check`, each from 1, cannot be read.
What to do: See whether the file is there and may be read.
",
    ),
    (
        78,
        "\
78 NoConnection
No server listens at the port or the socket, or the socket's rights do not let you connect.
What to do: See whether the server runs, and where.
",
    ),
    (
        79,
        "\
79 BadRelationship, LINE, NUMBER
The line of the list, from 1, is not a relationship, for the reason of this number: 1 to 5 or
60 to 62.
What to do: Ask explain about the number, and correct the line.
",
    ),
];

/// What the number means and what to do about it, if a refusal or a fault has that number.
pub fn explanation(number: u64) -> Option<&'static str> {
    let known = EXPLANATIONS.iter().find(|(it, _)| *it == number)?;
    Some(known.1)
}
