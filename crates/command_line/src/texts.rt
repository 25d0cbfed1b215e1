//! What the help of the program and of each command says at its end.

pub const STATUSES: &str = "\
The exit status:

  0  it is done
  1  after a fault, also if help or the version cannot be written (`fault 54`); `check` found a document that is not a
     bundle; `race` saw a fetch-all of a state that the store was never in
  2  the command line is refused
  3  there is something to look at: a reply to `ask` is a refusal, `refresh` could not set every bundle, `check` found
     something that is ignored, `diff` a change, or `snapshot` fewer domains than --at-least

A fault is a line `fault NUMBER` on standard error, with what it tells behind the number: `bundled explain NUMBER` says
what it means. Most commands say in a second line what they could not have, and why. The frames that `run` and `serve` answer are in bundled run --help.";

pub const FRAMES: &str = "\
A frame is a length of 4 bytes, big-endian, and a payload of that many bytes. Each request is
one frame, and so is each reply; the reply to a fetch-all is one frame and then one for each domain.
The first byte of a payload is a letter:

  S  length of the name, name, document    sets the bundle of a trust domain
  A  length of the name, name, JWK         appends an authority to its bundle
  R  length of the name, name              removes it
  G  length of the name, name              gets it
  F                                        fetches all
  V  version                               sets the version of the session: 1, 2 or 3
  C  length of the name, name,             version 2: sets it only if the stored bundle is the expected
     expectation, document                 one: 0 none, 1 and a sequence of 8 bytes, 2 without a sequence
  U  digest, of 32 bytes                   version 3: fetches all unless it is the SHA-256 of their dump
  M                                        version 3: tells what a server has counted

The first example sets the bundle of the trust domain `a` to an empty document and gets it back:

  printf '\\0\\0\\0\\16S\\1a{\"keys\":[]}\\0\\0\\0\\3G\\1a' | bundled run | xxd

  00000000: 0000 0001 7300 0000 0c66 7b22 6b65 7973  ....s....f{\"keys
  00000010: 223a 5b5d 7d                             \":[]}

`s` says that it was stored, and `f` comes before the document that was found. A reply whose first
byte is below 64 is a refusal with that number.";

pub const LINES: &str = "\
Each line of the input is a request, and becomes one frame, as soon as the line is there:

  set D DOC         sets the bundle of the trust domain D
  setif D E DOC     sets it only if the stored bundle is the expected one: E is absent, none or
                    unnumbered for a bundle without a sequence, or a sequence
  append D JWK      appends an authority to it
  remove D          removes it
  get D             gets it
  fetch             fetches all
  fetch unless HEX  fetches all unless this is the SHA-256 of their dump, in 64 lower-case digits
  stats             tells what a server has counted
  version 1|2|3     sets the version of the session

DOC and JWK are the rest of the line, or @FILE for what the file holds. A line that is empty or begins with `#` asks
nothing. Names and documents are not judged here: whoever is asked does that. A line that is something else, or that no
frame carries, is `fault 70 LINE`, and a file that cannot be read `fault 77 LINE`, status 1; what the lines before
it became has been written.

  printf 'set a {\"keys\":[]}\\nget a\\n' | bundled encode | bundled run | bundled decode

  stored
  found {\"keys\":[]}";

pub const REPLIES: &str = "\
Each frame of the input is a reply or a request, and becomes one line, as soon as the frame is there. A request becomes
the line that `encode` takes, and a reply one of these:

  stored   unchanged   removed       a bundle was stored, was stored already, or was removed
  appended N   appended -            an authority was appended; N is the sequence now
  found TEXT                         the bundle that was got
  all N                              N domains follow, each as
  bundle D TEXT                      the bundle of D, as it stood at the moment of the fetch-all
  same                               all bundles have the digest that was known
  stats NAME=N ..                    what was counted; nothing, if whoever is asked counts nothing
  version N                          the session speaks this version now
  refused N ..                       the request was refused, with the number of the refusal and what it tells
  memory   worn S   shut             not done: no memory, the shard S can count no more changes, not asked at all
  moved S A B   held S R             not done: others were in the way; ask again

A frame that is neither, or that has no line, is `fault 76 FRAME`, counted from 0, status 1: no line has a name with a
space, a name or a text with a line feed, or a document that begins with `@`. The lines of the frames before it have
been written.";

pub const ASKING: &str = "\
The requests are those of `encode`, and the replies those of `decode`: see bundled encode --help, bundled decode --help.

  bundled ask --port 8443 get a.example
  bundled ask --port 8443 set a.example @a.json
  bundled ask --port 8443 --text get a.example > a.json
  bundled ask --port 8443 --raw fetch > dump
  bundled ask --port 8443 --raw --unless dump fetch > new
  bundled ask --port 8443 < requests
  bundled ask --socket /run/bundles/all get a.example

With --text the reply to a get is the text of its bundle and a line feed. A refusal and any other reply is its line, as
without --text, so look at the status before you use the output.

With --unless only the digest of the dump is sent, so that nothing comes but `same` if the domains are those of the
dump.

Version 3 of the session is set first. Each reply is written before the next request is sent. A request that is answered
`memory`, `moved` or `held` has changed nothing, and is asked again, up to COUNT times.

If standard output is a terminal, all but printable ASCII is written escaped, except with --raw.

The status is 0 if each request was done, 3 if some reply is a refusal, and 1 after a fault: `fault 78` if no server
listens, 50, 52, 53, 54 or 58 if the exchange with it failed or took longer than --timeout: whether its request took
effect is not known. `fault 58` is also a reply that the request cannot have. A word with
a line feed is `fault 70 1`, and nothing is asked: give such a document as @FILE.";

pub const COUNTS: &str = "\
A line for each count, its name and its number, since the server began:

  seconds 3600
  connections_open 3
  requests_get 41
  refused_30 2

With --prometheus they are written for its textfile collector:

  bundled stats --port 8443 --prometheus > store.prom.new && mv store.prom.new store.prom

The status is 0, or 3 if the server refuses to tell, whose reply is written then, and 1 after a fault: `fault 78` if no server
listens, 50, 52, 53, 54 or 58 if the exchange with it failed.";

pub const REPORTS: &str =
    "  a.json: bundle of 2 authorities (1 X.509, 1 JWT), sequence 1, refresh hint 300
  a.json: keys[1] is ignored: its kty is \"OKP\", not EC or RSA
  b.json: not a bundle: keys[0] has a malformed x: it has to be 32 bytes of unpadded base64url (17)

The status is 0 if each document is a bundle and nothing is ignored, 3 if something is ignored, and 1 if a document
is not a bundle or a file cannot be read, which is `fault 77 FILE`, counted from 1.";

pub const MAPS: &str = "\
A dump is the reply to a fetch-all. The file has under each name the bundle, in order of the names, and shows one moment:

  bundled map < dump > map.json       {\"trust_domains\":{\"a.example\":{..},\"b.example\":{..}}}

gRPC reads it as spiffe_trust_bundle_map_file, and Envoy in its SPIFFECertValidatorConfig; --x509 is for readers that
refuse uses that they do not know. A NAME that the dump has not is `fault 75 NAME`, counted from 1, status 1.";

pub const IMPORTS: &str = "  bundled import < map.json | bundled run | bundled decode

An input that is not a bundle map is `fault 64`; a member of `trust_domains` whose name is not that of a trust domain or
stands twice, or whose value is not a bundle, is `fault 65 MEMBER`, counted from 0. Then nothing is written.";

pub const CHANGES: &str = "\
A line for each trust domain under which something changed, and no other line:

  ~ a.example sequence 3 to 4 x509 +1 -0
  + b.example authorities 2 sequence 4
  - c.example

The status is 0 if nothing changed, and 3 if something did. A file that is not a dump is `fault 63 FRAME`, status 1; the old
one is judged first.";

pub const EVENTS: &str = "\
Each line of the input is an event; a caller is a number from 0 to 4294967295:

  begin C set D DOC        begin C append D JWK        begin C setif D E DOC
  begin C get D            begin C remove D            begin C fetch
  step C                   end C                       quit C held S R, quit C memory

An event that does not fit, as a step of a caller that is idle, changes nothing. A line is printed for each
operation that began, and one for the order in which a single map would have given every reply.

The first example: a domain is set while a fetch-all has read its shard, and the fetch-all begins again.

  printf 'begin 1 fetch\\nstep 1\\nbegin 2 set a {\"keys\":[]}\\nstep 2\\nend 2\\nstep 1\\nstep 1\\nstep 1\\nend 1\\n' \\
    | bundled trace --shards 1 --rounds 2

  record 0 caller 1 first 0 last 8 reply all 1 a {\"keys\":[]}
  record 1 caller 2 first 2 last 4 reply stored
  order 1 0";

pub const RACE: &str = "\
Two writers set four domains each, in turn, over and over, each to the number of the round. So at any moment the
first few of four have a number, and the others have the number before it. Beside them one reader gets the domains
one by one, and another fetches all. Any other reading is a state that the store was never in: how many there were
is told of each reader, and the first. The status is 0 if a fetch-all showed none.";

pub const RELATIONSHIPS: &str = "\
Each line of the list is a relationship: a trust domain, the URL of its bundle endpoint, the profile of the
endpoint, and for https_spiffe the SPIFFE ID of the endpoint. `#` begins a comment.

  # domain    URL of the bundle endpoint         profile       SPIFFE ID of the endpoint
  a.example   https://bundles.example/a          https_web
  b.example   https://b.example:8443             https_spiffe  spiffe://b.example/spire/server

The documents are fetched by whatever you trust with that, as curl or spire-server:

  curl -fsS https://bundles.example/a -o new && mv new documents/a.example.json
  bundled refresh --relationships list --documents documents | bundled run

A line is printed for each relationship, on standard error, or with --port or --socket on standard output:

  1000 a.example sent due 1300

In place of `sent` comes, with one of these, `stored`, `unchanged`, or `refused` with the number of the refusal; and
`bad document` with its number, `no answer` if there is no file, or `given up`. `stored empty` says that the bundle
has no authorities any more.

The status is 0 if each bundle was stored, unchanged or sent, and 3 if not.";

pub const SNAPSHOTS: &str = "\
A snapshot is a folder: NAME.json is the document of the trust domain NAME, NAME.pem has its X.509 authorities, and map
is the bundle map of all. The link FOLDER/current is renamed to show it once it is written, so whoever follows the link
first, and then reads, sees one moment. If no file differs from those of the current snapshot, nothing is written.

  bundled snapshot --port 8443 --out /run/bundles --every 60

  shown snapshot-7 domains 2        with /run/bundles/current a link to snapshot-7

A line is printed for each snapshot that is shown. The two before it are kept, and older ones are removed. A domain whose
name has over 250 bytes has no files, as its name is too long for one: it is in map only, and standard error is told
`left out NAME: too long for a file`. A folder that cannot be read or written is `fault 74`.

With --at-least a server that has fewer domains, as one that was started again empty, changes nothing. That is told on
standard error, and the status is 3.

With --every no fault of the server or of the folder ends the command. It is told on standard error once, and so is that it
is over; each turn tries again. The first line is `current snapshot-N domains M` if the folder shows a snapshot already, so
that whoever acts on each line acts on it. Only if a line cannot be printed the command ends, with status 1. One command at
a time may write to a folder.";

pub const SERVING: &str = "\
With a number of --connections each worker serves so many clients one after the other, and then the server ends. Without
--connections the number is 1, and standard error is told how many clients that makes. With --connections unlimited it
lasts, and each worker serves many clients beside each other: --max-open, --read-port, --read-socket, --until-eof,
--idle, --reply-seconds and --moments belong to this form only.

Each worker is a thread. All share one store, which is empty at the start, or holds what --load gives it: a dump of any
length, judged whole and stored before anybody can connect. A connection carries the frames that `run` reads and
writes; see bundled run --help. At the port of --read-port, or the socket of --read-socket, gets and fetch-alls are
answered, and what would change a bundle is refused with 56.

With --socket the server listens at a Unix socket, a file that it makes: whoever may write to the file may connect, and
the umask of the server says who may. A socket that a dead server has left is replaced. A path at which a server listens,
or where some other file is, or of over 107 bytes, is `fault 57`. When the server ends, the file is removed, unless
another one stands there by then.

On standard output come `listening PORT` before the first connection is taken, with `read-only PORT` on the same line if
there is such a port, and at the end `served N`, how many connections were served, and `domains M`, how many domains
have a bundle. A socket is told by its path, in place of a port. Faults of connections go to standard error then, in
order of the workers. The status is 1 after a fault of the server itself, such as a port that is taken, and 0 otherwise.

With --save the map that is left at the end is written as a dump, which --load reads: to FILE.new, and that is renamed to
FILE. FILE keeps its mode; what stands at FILE.new is removed before. It is tried at the start. If it cannot be written,
that is `fault 59`, and FILE is as it was. With --until-eof a server that lasts has an end.

With --log each change of a bundle is a line on standard error, with the sequence before and after it, and so is each one
that was refused by 31, 36 or 56, and each end of a connection, with its client's port. Each line has the number of the
client, from 1 on. With --log changes the ends of connections are left out. The settings are told first:

  2026-11-30T05:23:30Z settings workers 2 shards 4 connections 1
  2026-11-30T05:23:33Z worker 0 client 1 set a.example absent to 7
  2026-11-30T05:23:33Z worker 1 client 2 appended a.example 7 to 8
  2026-11-30T05:23:34Z worker 0 client 1 refused a.example 31 8
  2026-11-30T05:23:35Z worker 1 client 2 session ended after 3 replies from 40312

  bundled serve --port 8443 --read-port 8444 --connections unlimited
  bundled serve --socket /run/bundles/all --read-socket /run/bundles/reads --connections unlimited
  bundled refresh --relationships list --documents documents --port 8443";

pub const CERTIFICATES: &str = "\
A bundle without X.509 authorities gives nothing.

  bundled pem a.example < dump > ca.pem";

pub const DIGESTS: &str = "  bundled digest < dump";

pub const MIGRATIONS: &str =
    "The requests are V 2 and then one C for each domain: bundled migrate < dump | bundled run";
