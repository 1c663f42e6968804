//! The texts of help: what a command reads and writes, its arguments, and its statuses.

/// The help of the program: the commands in the order of the work, and what holds for all of them.
pub(crate) const TTX: &str =
    "Inserter, decoder and carousel certifier for Level 1 teletext (ETSI EN 300 706)

Usage: ttx <COMMAND>

Write a service:
  compose    Turns an author's text into a service definition
  decompose  Turns a service definition into an author's text
  check      Reports what is wrong, or probably wrong, in the text of a service
  preview    Writes a page of a service as it is displayed when received whole

Plan and certify:
  plan       Lays out a service as a cycle of slots, and writes it to OUT
  find       Finds the certificate with the least deadline, and writes it to OUT
  certify    Judges a cycle and its service by a certificate, yes or no
  wait       Prints the longest wait for each page, and the item that causes it
  refute     Looks for a receiver that fails to show a page (a counter-run)
  replay     Replays a counter-run of refute, and shows where the page is wrong
  explain    Explains a reason of a verdict, by its number or its name
  report     Writes the verdict and the wait for each page to OUT, as HTML

Go on air:
  air        Keeps a service on the air from its text, and follows its changes
  send       Sends a cycle again and again, with the time, to standard output
  splice     Judges the change from an old cycle to a new one, yes or no
  monitor    Judges whether a received feed is the cycle, yes or no

Look into a packet file:
  inspect    Writes one line for each slot of a packet file to standard output
  pages      Lists the pages of a cycle, and what is sent under their headers
  show       Receives a page of a cycle, and writes it as it is displayed
  receive    Receives a page of a cycle, and writes the cells that are displayed
  book       Writes all pages of a cycle to OUT, as one HTML file
  extract    Recovers the service definition of a cycle, and writes it to OUT

About ttx:
  version    Writes the version, and the proof kit and logic that proved it
  help       Writes this help, or that of a command: ttx help plan

Options:
  -h, --help     Print help
  -V, --version  Print the version, the kit and the logic

Example:
  ttx plan service.toml cycle.t42
  ttx find cycle.t42 service.toml cycle.cert
  ttx certify cycle.t42 service.toml cycle.cert

Without arguments, ttx runs: ttx inspect -

An input named - is standard input. Only one input may be -, and not one that is
read twice (certify --twice); otherwise the answer is refused: twice. ttx opens
the inputs in the order of the arguments, then creates or empties OUT. After a
later refusal OUT is empty; if the arguments are refused or an input cannot be
opened, OUT is untouched. OUT is always the name of a file, except that - is
standard output for compose and decompose.

Arguments that do not go together are refused, as in
refused: --all with --twice

Statuses:
  0  done
  1  the answer is no; the reason is on standard output
  2  error: .. (the arguments) or refused: .. (an argument or an input) on
     standard error; also after --help
  3  fault: file (a file cannot be opened or created), fault: read,
     fault: write, fault: memory on standard error";

pub(crate) const INSPECT_MORE: &str =
    "Reads FILE to its end, then writes one line for each slot S, counted from 0:
  S empty       42 zero bytes
  S unreadable  the packet's address, or another byte that says what the packet
                is, cannot be read
  S M/P KIND    magazine M (1 to 8), packet P (0 to 31), and KIND: header, row,
                links, info or other

After header come the id MPP/SSSS and the control bits that are set, C4 to C14.
After links come six links (MPP/SSSS, or - for none) and row24 if row 24 is
shown, or unreadable. After info come the five digits of the Modified Julian
Date and the six digits of UTC, or fault N: 1 not format 1, 2 a Hamming byte,
3 a digit, 4 parity. A line ends in corrected if a receiver has to correct a
byte that says what the packet is.

Statuses:
  0  done
  2  error: .. (the arguments), refused: cycle 2 truncated REST,
     refused: cycle 3 empty, refused: cycle 4 too-long
  3  fault: file, fault: read, fault: write, fault: memory";

pub(crate) const PLAN_MORE: &str =
    "Reads SERVICE to its end. Writes the cycle to OUT, and then to standard output:
planned N slots
With --class clearing, blank rows and links are not sent.
With --late, a time-filling header of the magazine comes between two headers of
one page number. Receivers that show a page only when another page number ends
it then show every page: certify --late accepts the certificate that find makes.

The cycle has eight rounds, and a page with often N is sent in N of them.
Without --spread every page is sent in the first round, which is then the
longest. With --spread the rounds are about equally long, so a page that is sent
often comes at regular intervals; and a page with the key within and without the
key often is sent as often as within requires. If a subpage has the key stays,
each subpage of its number is sent once in a cycle, in turn, and the other pages
are repeated between them until each stays long enough. If that cannot be done,
OUT stays empty, and there is a line for each page that comes too late, or for
each number whose subpages stay too short a time:
  late PAGE F fields of G   PAGE is seen after up to F fields; its within is G
                            fields
  stays MPP F fields of G   a subpage of MPP stays F fields; stays is G fields
  unseen PAGE, never-shown PAGE SLOT   in such a cycle some receiver, or some
                                       late one, would never show PAGE

Statuses:
  0  done
  1  a page is late, or a number stays too short
  2  error: .. (the arguments), refused: service NUMBER NAME [KEY] page N,
     refused: service too-long, refused: plan 1 no-pages,
     refused: plan 2 too-long
  3  fault: file, fault: read, fault: write, fault: memory";

pub(crate) const PLANNED_LATE_OPTION: &str = "Plan also for receivers that may show a page late";

pub(crate) const SPREAD_OPTION: &str = "Space out pages that are sent more than once, and send
pages with within as often as they need";

pub(crate) const FIND_MORE: &str =
    "Reads CYCLE and SERVICE, in this order, to their ends. Writes the certificate to
OUT, and then to standard output: found deadline D
If there is no certificate, OUT stays empty, and the first reason is written to
standard output: no NUMBER NAME ..
With --deadline or --within the certificate has this deadline instead. Use it to
give two cycles the same deadline, as splice requires. If the least deadline is
greater, no certificate is written, and the reason is printed as by certify
(no 10 late ..).

Statuses:
  0  found
  1  there is no certificate
  2  error: .. (the arguments), refused: seconds, refused: deadlines (both
     options), refused: twice, refused: cycle NUMBER NAME [REST],
     refused: service NUMBER NAME [KEY] page N, refused: service too-long
  3  fault: file, fault: read, fault: write, fault: memory

What found means: certify says yes to CYCLE, SERVICE and OUT. Without --deadline
and --within, certify accepts no certificate with a smaller deadline for these
receivers and this K.
What it does not mean: that D fields are short enough for viewers (wait has the
time for each page), or that receivers that show a page late show it in time
(certify --late). What a yes means is at the end of ttx certify --help.";

pub(crate) const CERTIFY_MORE: &str =
    "Reads CYCLE, SERVICE and CERT, in this order, to their ends. With --twice it
reads SERVICE, CERT, CYCLE and CYCLE again; memory then does not grow with the
cycle, and CYCLE cannot be -. With --late it reads CYCLE once all the same, and
memory grows with it. Writes the verdict to standard output, one of
  yes lines L repeat K deadline D pages N
                     with class clearing at its end for a certificate of that
                     class
  no NUMBER NAME ..  the first reason that is true, with its page, item, and
                     slot or start
With --late, receivers may show a page only when another page number ends it. A
yes then has late G at its end: they show each page G slots after the deadline.
If after a header of a page the next header in its magazine has the same page
number, the verdict is, if there is no other reason,
  no 13 never-shown PAGE SLOT
                     the first such header
--numbers requires --late. A yes then also means: if several pages have one page
number, viewers who key only this number see each of these pages in turn, whole,
as long as their receivers show a page only when another page number ends it and
all text is received right. A line follows for each such number:
  number MPP pages N every E slots stays S
                     each of the N pages is shown within E slots after tuning,
                     and again within E slots, for at least S slots each time
Otherwise the verdict is, if there is no other reason, one of
  no 14 unwhole PAGE ITEM SLOT
                     after the header in slot SLOT, ITEM of PAGE does not come
                     before the page may end
  no 15 unlisted MPP SLOT
                     the header in slot SLOT has the number, but belongs to no
                     page of SERVICE
--within cannot be combined with --late or --twice. With it, a yes also means
that pages are seen within SECONDS. Otherwise the answer is, if there is no
other reason, one of
  no lines L of M
                     CERT has L lines in a field, and SERVICE has M
  no deadline D of E
                     CERT promises D fields, and SECONDS are E fields
With --all, a line follows the verdict for each page that has a reason, with the
first one, in the order of SERVICE; the last line counts them:
  reasons M pages N

Statuses:
  0  yes
  1  no
  2  error: .. (the arguments), refused: seconds,
     refused: within (with --late or --twice),
     refused: numbers (without --late, or with --within or --twice),
     refused: --all with .. (--late, --numbers, --twice or --within),
     refused: twice, refused: cycle NUMBER NAME [REST],
     refused: service NUMBER NAME [KEY] page N, refused: service too-long,
     refused: certificate NUMBER NAME [line N], refused: certificate too-long
  3  fault: file, fault: read, fault: write, fault: memory

What a yes means: while CYCLE is repeated, every receiver that keeps the rules
of the standard shows each page of SERVICE as it is written, with its links, at
most D fields after it is set to the page, and from then on. Each byte may come
with one wrong bit, but no slot may be lost, and of K successive transmissions
of a character at least one comes right. Columns 0 to 7 and 32 to 39 of row 0
may show anything.
What it does not mean: that all sets keep the rules, or that reception is so
good. It promises nothing for pages that SERVICE lacks, nor once another cycle
is sent (see splice).
A no does not prove that any viewer sees a wrong page; refute looks for one who
does.";

pub(crate) const LATE_OPTION: &str = "Judge also for receivers that may show a page late";

pub(crate) const NUMBERS_OPTION: &str = "With --late: judge also for viewers who key a number
that several pages have";

pub(crate) const REFUTE_MORE: &str =
    "Reads CYCLE, SERVICE and CERT, in this order, to their ends. CERT must
be of class any; only its lines, repeat and deadline count. Writes one of
  none
  counter PAGE start S slots N hits H choices C
The second line means: a receiver set to PAGE that receives N slots from slot S
on, round the cycle, with H wrong bits (within the error rule) and C choices,
ends with something other than the page. With --save OUT the counter-run is
written to OUT; OUT stays empty if there is none.

Statuses:
  0  none
  1  a counter-run
  2  error: .. (the arguments), refused: twice,
     refused: cycle NUMBER NAME [REST],
     refused: service NUMBER NAME [KEY] page N, refused: service too-long,
     refused: certificate NUMBER NAME [line N], refused: certificate too-long,
     refused: class (the certificate is for receivers that surely clear)
  3  fault: file, fault: read, fault: write, fault: memory

What a counter-run means: the rules of the standard allow this receiver and this
reception, and the page that it shows is wrong. So no certificate of class any
with these numbers is accepted. It does not mean that such a set exists, nor
does it say how often reception is like that.
What none means: if all pages are sent unchanged in clean slots, certify says
yes to some certificate of class any with these numbers; find writes one. It
does not mean that certify says yes to CERT. If a page is not sent unchanged, or
a slot is not clean, none does not tell whether any viewer sees a wrong page.";

pub(crate) const REPLAY_MORE: &str =
    "Reads CYCLE, SERVICE and COUNTER, in this order, to their ends. If COUNTER is a
counter-run of CYCLE and SERVICE, writes the line of refute
  counter PAGE start S slots N hits H choices C
and then two lines for each row that is shown differently from the page,
ignoring columns 0 to 7 and 32 to 39 of row 0:
  shown row R ..  what the receiver shows at the end: a word for each of 40
                  cells, as receive writes them
  page row R ..   the row of the page
and two lines for the links if they differ: shown links .. and page links ..
Otherwise writes: not a counter-run

FORM is how a counter-run is shown:
  words  as above
  text   what happened, in sentences, and then the page as authored beside what
         the receiver shows, with a mark at each row that differs
  html   the same, as an HTML page

Statuses:
  0  a counter-run
  1  not a counter-run
  2  error: .. (the arguments), refused: twice,
     refused: cycle NUMBER NAME [REST],
     refused: service NUMBER NAME [KEY] page N, refused: service too-long,
     refused: counter NUMBER NAME [line N], refused: counter too-long
  3  fault: file, fault: read, fault: write, fault: memory";

pub(crate) const RECEIVE_MORE: &str =
    "Reads CYCLE to its end. A receiver with an empty memory is set to PAGE and
receives N slots from slot S on, round the cycle. Writes 25 lines, row 0 to
row 24, each with a word of eight hexadecimal digits for each of 40 cells; then
links, and six links (MPP/SSSS, or - for none). From its lowest bit, a word has
21 bits for the character or mosaic, 3 for its colour, 3 for the background,
then flash, concealed and picture, and 2 bits for double height.

A receiver may miss a packet up to L slots after its page's header, stop at a
serial header of another magazine, and erase the page when it is set to it.
KIND eager does none of this, careful does all of it, cleared surely erases.

Statuses:
  0  done
  2  error: .. (the arguments), refused: page,
     refused: cycle 2 truncated REST,
     refused: cycle 3 empty, refused: cycle 4 too-long
  3  fault: file, fault: read, fault: write, fault: memory";

pub(crate) const SHOW_MORE: &str =
    "Reads CYCLE to its end. A receiver with an empty memory is set to PAGE and
receives N slots from slot S on, round the cycle. Then the page is written in
the form FORM:
  text    25 lines of characters, and a line with the six links (MPP, MPP/SSSS,
          or - for none)
  ansi    the same, with terminal codes for colours and flashing
  blocks  the same for terminals without sextants: half blocks and quadrants
  svg     a picture of 40 by 25 cells
  html    a page with the picture, its links, and its text
In text and ansi, contiguous mosaics are sextants, separated ones are Braille
patterns, and double height takes two lines. Concealed characters are spaces
without --reveal. If no header of the page comes, writes: no page PAGE

A receiver may miss a packet up to L slots after its page's header, stop at a
serial header of another magazine, and erase the page when it is set to it.
KIND eager does none of this, careful does all of it, cleared surely erases.

Statuses:
  0  done
  1  no header of the page came
  2  error: .. (the arguments), refused: page,
     refused: cycle 2 truncated REST,
     refused: cycle 3 empty, refused: cycle 4 too-long
  3  fault: file, fault: read, fault: write, fault: memory";

pub(crate) const PREVIEW_MORE: &str =
    "Reads SERVICE to its end. Then the first page that PAGE names is written in the
form FORM:
  text    25 lines of characters, and a line with the six links (MPP, MPP/SSSS,
          or - for none)
  ansi    the same, with terminal codes for colours and flashing
  blocks  the same for terminals without sextants: half blocks and quadrants
  svg     a picture of 40 by 25 cells
  html    a page with the picture, its links, and its text
The header clock and columns 0 to 7 of row 0 are spaces. Concealed characters
are spaces without --reveal. If the service has no such page, writes:
no page PAGE
With --all, each page is written in the form text, ansi or blocks, behind a line
with its id (MPP/SSSS).
SERVICE may be an author's text (see compose), if its first key is author = 1.
If the text is refused, writes the line of check, or for an author's text those
of compose.

Statuses:
  0  done
  1  the service has no such page
  2  the text is refused; also error: .. (the arguments), refused: page,
     refused: --all with PAGE, refused: forms (--all with --as svg or html) and
     refused: service too-long on standard error
  3  fault: file, fault: read, fault: write, fault: memory";

/// The whole help of `splice`.
pub(crate) const SPLICE: &str = "Judges the change from an old cycle to a new one, yes or no

Usage: ttx splice [OPTIONS] <OLD> <NEW> <OLDSERVICE> <NEWSERVICE>
                  <OLDCERT> <NEWCERT>

Arguments:
  <OLD>         Packet file sent before the change: 1 to 65536 slots of 42
                bytes; - is standard input
  <NEW>         Packet file sent after the change: 1 to 65536 slots of 42
                bytes; - is standard input
  <OLDSERVICE>  Service definition of OLD: a TOML text of at most 4194304
                bytes; - is standard input
  <NEWSERVICE>  Service definition of NEW: a TOML text of at most 4194304
                bytes; - is standard input
  <OLDCERT>     Certificate of OLD: a text of at most 4194304 bytes;
                - is standard input
  <NEWCERT>     Certificate of NEW: a text of at most 4194304 bytes;
                - is standard input

Options:
      --sent <PERIODS>  Whole periods for which OLD has been on the air, 0 to
                        4294967295; without it, OLD counts as sent for ever
      --late            Judge also for receivers that show a page only where it
                        ends
  -h, --help            Print help

OLD is sent again and again; then, at the end of a period, NEW is sent again and
again, from its slot 0 on. Reads OLD, NEW, OLDSERVICE, NEWSERVICE, OLDCERT and
NEWCERT, in this order, to their ends. Writes the verdict to standard output:
  yes                       each page that is the same in both services is seen
                            right from D fields after tuning, through the change
                            and ever after; each other new page from D fields
                            after tuning or the change
  no 1 old NUMBER NAME ..   OLD is not accepted; the reason is that of certify
  no 2 new NUMBER NAME ..   NEW is not accepted
  no 3 numbers              lines, repeat or deadline of the certificates
                            differ, or one is of class clearing
  no 4 seam PAGE SLOT       slot SLOT of NEW would still be stored in PAGE, and
                            differs from it
  no 5 seam-late PAGE ITEM  through the change, ITEM of PAGE does not come in
                            time
  no 6 too-soon SLOTS       with --sent: OLD has been sent for SLOTS slots fewer
                            than D fields
  no 7 amid PAGE SLOT       with --late: when OLD ends, not all of PAGE has come
                            under its last header, in slot SLOT of OLD
  no 8 stored PAGE SLOT     with --late: slot SLOT of NEW would still be stored
                            in PAGE of OLD, and differs from it
  no 9 unfollowed PAGE      with --late: the first header of NEW that could end
                            PAGE of OLD is missing, or has its page number

With --late, receivers may show a page only where another page number ends it.
A yes then also means, for each page number that both cycles send whole, as plan
does and as certify --late --numbers requires: such a receiver always shows a
page of OLDSERVICE or of NEWSERVICE, whole, once a page that began after tuning
has ended, if all text is received right.

With --sent, OLD may itself have begun with a change. If the answer to each
change of a service is yes, each page is seen right from D fields after tuning,
or after the change that brought it, until a change alters it.

Statuses:
  0  yes
  1  no
  2  error: .. (the arguments), refused: twice,
     refused: cycle NUMBER NAME [REST],
     refused: service NUMBER NAME [KEY] page N, refused: service too-long,
     refused: certificate NUMBER NAME [line N], refused: certificate too-long
  3  fault: file, fault: read, fault: write, fault: memory

A yes holds for the receivers and the reception that certify assumes (see the
end of ttx certify --help), if slot 0 of NEW follows the last slot of a period
of OLD.
What it does not mean: that a page that the change alters or adds is seen before
D fields have passed, that a page that it drops is still seen, or that the
change may be made in another slot.";

pub(crate) const WAIT_MORE: &str =
    "Reads CYCLE and SERVICE, in this order, to their ends. Writes a line for each
page, in the order of SERVICE, one of
  PAGE F fields S s ITEM
      F is the least deadline with which this page alone is certified, if no
      slot is bad; ITEM is the first item that needs so many fields; S is F in
      seconds of 50 fields
  PAGE never ITEM sent N near A cut B
      no deadline is enough: of the N packets of ITEM in a period, A come at
      most as many slots after their header as a field has lines, and B come
      later, but after a header of another magazine that may end the page
  PAGE never REASON [SLOT]
      the page is not sent unchanged: no-header, other-subpage, erased,
      head-differs, row-differs or links-differ, at the first such slot
With --items, the line of a page that is sent unchanged is followed by a line
for each item that a viewer sees, one of
  PAGE ITEM F fields S s
      F is the least deadline with which this item alone is certified, if no
      slot is bad
  PAGE ITEM never sent N near A cut B
      no deadline is enough for it
The last line is one of
  all F fields S s         the deadline for all pages
  all never                some page has no deadline
  all never bad-slot SLOT  the first slot that is not clean: no page is
                           certified

If pages have within in SERVICE, and without --items, the line of such a page is
one of
  PAGE F fields S s of G       in time: within is G fields
  PAGE F fields S s late: P s  too late: within is P seconds
  PAGE never .. late: P s      never seen, so also too late
and after the line of all pages comes, if CYCLE has pages that SERVICE lacks,
  not in the service: PAGE ..

With --numbers, a line for each page number with several pages comes last, in
the order of their first pages, each one of
  MPP N subpages, each at least S s, again within T s
      a receiver that shows a page where it ends, and is set to the number,
      shows each of its N pages for at least S seconds each time, and begins to
      show it again at most T seconds after it last began
  MPP N subpages, not all sent
      CYCLE has no header of one of them

Statuses:
  0  there is a deadline for all pages, and no page is too late
  1  there is none, or a page is too late
  2  error: .. (the arguments),
     refused: twice, refused: cycle NUMBER NAME [REST],
     refused: service NUMBER NAME [KEY] page N, refused: service too-long
  3  fault: file, fault: read, fault: write, fault: memory";

pub(crate) const ITEMS_OPTION: &str = "Write a line for each item of each page, too";

pub(crate) const WAIT_NUMBERS_OPTION: &str =
    "Write a line for each page number with several pages, too";

pub(crate) const SPLICED_LATE_OPTION: &str =
    "Judge also for receivers that show a page only where it ends";

pub(crate) const SEND_MORE: &str =
    "Reads CYCLE to its end. Writes N fields of L slots of 42 bytes each: the cycle
again and again, from its field F on. The first field is sent at TIME, and each
second has 50 fields. Each page header shows the clock, and each packet 8/30
format 1 has the date and time in UTC and, with --zone, the offset of the zone.
Everything else is sent as it is in CYCLE. An empty slot is written as 42 zero
bytes; the sender must leave that line without a packet.

TIME is one of
  now                        when ttx is started, by the clock of the machine
  MJD/HHMMSS                 in UTC: five digits of the Modified Julian Date,
                             and six of the time
  2026-11-25T12:00:00        by the clock in page headers: that of --zone or
                             --offset, or UTC
  2026-11-25T12:00:00Z       in UTC
  2026-11-25T12:00:00+01:00  by a clock that is so many hours and minutes ahead
                             of UTC

The clock in page headers is UTC, unless there is --zone or --offset. With
--zone it keeps the rules of the time zone, summer time included, as they stand
in the files below /usr/share/zoneinfo, or below TZDIR if that is set. If the
clock shows a TIME twice, the earlier moment is meant; if it skips TIME, the
offset before the change counts.

A yes of certify also holds for what send writes, if L is the number of lines in
the certificate.

Statuses:
  0  done
  2  error: .. (the arguments), refused: time, refused: clocks (--zone and
     --offset), refused: zone (there is no such time zone),
     refused: terminal (packets would go to a terminal, without --force),
     refused: cycle 2 truncated REST,
     refused: cycle 3 empty, refused: cycle 4 too-long
  3  fault: file, fault: read, fault: write (also if the reader of a pipe has
     gone), fault: memory";

pub(crate) const MONITOR_MORE: &str =
    "Reads CYCLE, SERVICE and CERT, in this order, to their ends, and then FEED slot
by slot; memory does not grow with FEED. FEED is what a receiver got while CYCLE
was sent again and again: slots of 42 bytes from any slot of CYCLE on, an empty
line as 42 zero bytes. Reads to the end of FEED, or to the first slot that
breaks the error rule. Writes the verdict to standard output, one of
  yes start S slots N wrong B streak W
      FEED begins with slot S of CYCLE and has N slots; B bytes were wrong, and
      no text byte in more than W successive transmissions
  no slot I byte X start S
      byte X of slot I of FEED has two wrong bits or more
  no slot I lost start S
      a packet was sent, and an empty line received
  no slot I unlike start S
      an empty line was sent, and something else received
  no repeat PAGE ITEM byte X slot I start S
      this text byte was wrong in K successive transmissions, at last in slot I
  no slot I shifted by J start S
      slot I and most slots of the next period do not fit, but J slots further
      on in CYCLE most do: a recorder lost J slots, or inserted -J
  no slots: WORDS
      FEED is no sequence of slots; WORDS say what it seems to be
A yes is followed by the line
  rest R bytes
      if R bytes, fewer than a slot has, come after the last slot

The error rule is that of CERT: a slot is received as it was sent, with one
wrong bit in a byte at most, and of K successive transmissions of a text byte at
least one is right, where K is repeat in CERT. Clocks in page headers and
packets 8/30 may be anything. If certify says yes to CYCLE, SERVICE and CERT,
a yes means that every permitted receiver that got FEED shows each page from the
deadline on.

Without --start, S is the slot with which the fewest slots of the first period
of FEED differ from CYCLE, the first of several.

With --all, FEED is judged to its end, and each breach of the rule has a line as
above, without start S. The last lines are then yes .. or
  no start S slots N wrong B streak W breaches X
      at X slots the rule was broken, or the feed shifted
then rest if there is one, and
  total lost L bits E minute lost M bits F
      L packets were lost and E bits wrong in all, M and F in 3,000 fields on
      average
With --every, there is a line of state after every FIELDS fields, for logs:
  slots N wrong B streak W lost L
With --json these are objects too, and rest is a member of the verdict.

With --rows, the error rule by rows is judged, for receivers that refuse a row
with a wrong byte. A packet may be lost, except page headers and X/27/0 of a
magazine of SERVICE. Of K successive transmissions of a row that a viewer sees,
at least one is received whole. A yes means that each such receiver shows each
page, and the text of its header too if its latest header came right. The lines
are then
  yes start S slots N lost L
      L packets were lost
  no repeat PAGE row R slot I start S
      K successive transmissions of this row did not come whole, at last slot I

Statuses:
  0  yes
  1  no
  2  error: .. (the arguments), refused: twice,
     refused: --rows with .. (--all or --every),
     refused: cycle NUMBER NAME [REST],
     refused: service NUMBER NAME [KEY] page N, refused: service too-long,
     refused: certificate NUMBER NAME [line N], refused: certificate too-long
  3  fault: file, fault: read, fault: write, fault: memory";

pub(crate) const FEED_OPERAND: &str =
    "Packet file of any number of slots of 42 bytes, also 0, from a
receiver; - is standard input";

pub(crate) const FEED_START_OPTION: &str = "Slot of CYCLE with which FEED begins, 0 to 65535, round
the cycle; without it, it is found from FEED";

pub(crate) const PAGES_MORE: &str =
    "Reads CYCLE to its end, then writes a line for each page that has a header, in
ascending order of page number:
  MPP/SSSS sent N rows R ..    how often its header is sent, and how many rows
                               under it
The line goes on with links if X/27/0 is sent, then with the control bits, C4 to
C14, and the quoted characters of its first header: a quotation mark and a
backslash have a backslash before them, \\xHH is a code that is no character,
and \\? is a byte of even parity. Rows and links belong to the latest header of
their magazine, round the cycle. The last line is
  rest rows R links K info I other O empty E unreadable U corrected C
It counts the rows and links of magazines without a header, packets 8/30, other
packets, empty and unreadable slots, and packets that a receiver has to correct.
With --json, each line is a JSON object with the same values.

Statuses:
  0  done
  2  error: .. (the arguments), refused: cycle 2 truncated REST,
     refused: cycle 3 empty, refused: cycle 4 too-long
  3  fault: file, fault: read, fault: write, fault: memory";

pub(crate) const BOOK_MORE: &str =
    "Reads CYCLE to its end. OUT has an index, and each page as a picture with its
links and its text; it needs no other file and no network. Typing three digits,
or following a link, leads to a page. A page is shown as by a receiver that has
received the packets of the page twice and missed none; concealed characters
are not shown. A time-filling header is not a page.

Statuses:
  0  done
  2  error: .. (the arguments), refused: same (OUT is CYCLE),
     refused: cycle 2 truncated REST,
     refused: cycle 3 empty, refused: cycle 4 too-long
  3  fault: file, fault: read, fault: write, fault: memory";

pub(crate) const EXTRACT_MORE: &str =
    "Reads CYCLE to its end. Writes the service to OUT, and then to standard output:
extracted N pages
With --partial this line stands among
  left out MPP WORDS           a page number that is left out; WORDS as below
  left out M other packets     packets that no service text has, such as X/26
Without L, OUT is not written, and standard output gets one of
  lines A to B give a deadline     with these L, find has a deadline
  no lines give a deadline
Its pages are those that have a header, except time-filling ones, in the order
of their first headers, each with what its first transmissions send; often is
the number of its headers, rounded down to 1, 2, 4 or 8, serial is C11, and the
packet 8/30 is the first one. What is not sent is blank. Before anything is
written, the text is read back: it must give exactly this service.

Statuses:
  0  done
  1  without L
  2  error: .. (the arguments), refused: same (OUT is CYCLE),
     refused: cycle 2 truncated REST,
     refused: cycle 3 empty, refused: cycle 4 too-long,
     refused: conflict PAGE ITEM SLOT SLOT (two slots send an item with
     different contents),
     refused: reason NUMBER NAME .. (certify's reason, as in 4 erased PAGE SLOT:
     no service has a page with C4),
     refused: info SLOT (a packet 8/30 with an offset of minus zero),
     refused: service NUMBER NAME [KEY] page N (what is sent is not a service; N
     counts its pages in order),
     refused: service too-long,
     refused: unsaid (the text, read back, is not what is sent)
  3  fault: file, fault: read, fault: write, fault: memory";

pub(crate) const CHECK_MORE: &str =
    "Reads SERVICE to its end. If the text is refused, writes one line to standard
output that says where the mistake is, and what it is:
  line L column C PLACE: WORDS
Otherwise writes a line for each probable mistake or, if there is none, the line
ok:
  warning PLACE: WORDS    unknown keys first, then page after page, then the
                          magazines
  ok pages N
PLACE is service, info, magazine M, or page MPP/SSSS and its key; a page without
an id is named by its position.

With --long or to a terminal, writes all mistakes, at most 100, each followed by
its line of SERVICE and a caret below the character that is meant; then how many
there are:
  FILE:L:C: error: PLACE: WORDS
  FILE:L:C: warning: PLACE: WORDS
  M errors, N warnings
SERVICE may be an author's text (see compose), if its first key is author = 1:
all its mistakes have such lines, without --long not followed by others.

Statuses:
  0  the text is accepted
  1  with --strict: the text is accepted, with a warning
  2  the text is refused; also error: .. (the arguments),
     refused: --json with --long and
     refused: service too-long on standard error
  3  fault: file, fault: read, fault: write, fault: memory";

pub(crate) const VERSION_MORE: &str =
    "Writes three lines to standard output: ttx, kit and logic, each with its name.

Statuses:
  0  done
  2  error: .. (the arguments)
  3  fault: write";

pub(crate) const CYCLE_OPERAND: &str =
    "Packet file: 1 to 65536 slots of 42 bytes; - is standard input";

pub(crate) const SERVICE_OPERAND: &str = "Service definition: a TOML text of at most 4194304 bytes;
- is standard input";

pub(crate) const CERTIFICATE_OPERAND: &str =
    "Certificate: a text of at most 4194304 bytes; - is standard input";

pub(crate) const COUNTER_OPERAND: &str =
    "Counter-run: a text of at most 4194304 bytes; - is standard input";

pub(crate) const OLD_OPERAND: &str = "Packet file sent before the change: 1 to 65536 slots of 42
bytes; - is standard input";

pub(crate) const NEW_OPERAND: &str = "Packet file sent after the change: 1 to 65536 slots of 42
bytes; - is standard input";

pub(crate) const OLD_SERVICE_OPERAND: &str =
    "Service definition of OLD: a TOML text of at most 4194304
bytes; - is standard input";

pub(crate) const NEW_SERVICE_OPERAND: &str =
    "Service definition of NEW: a TOML text of at most 4194304
bytes; - is standard input";

pub(crate) const OLD_CERTIFICATE_OPERAND: &str =
    "Certificate of OLD: a text of at most 4194304 bytes;
- is standard input";

pub(crate) const NEW_CERTIFICATE_OPERAND: &str =
    "Certificate of NEW: a text of at most 4194304 bytes;
- is standard input";

pub(crate) const PLANNED_OPERAND: &str =
    "Packet file to write, 42 bytes a slot; created or emptied";

pub(crate) const BOOK_OPERAND: &str = "HTML file to write; created or emptied";

pub(crate) const EXTRACTED_OPERAND: &str =
    "Service definition to write, a TOML text; created or emptied";

pub(crate) const FOUND_OPERAND: &str =
    "Certificate to write, a text; created or emptied, and left empty
if there is none";

pub(crate) const PAGE_OPERAND: &str = "Page: MPP for any subpage, or MPP/SSSS for one; M is 1 to 8,
other digits are 0 to 9 and A to F, PP is not FF, SSSS is 0000
to 3F7E, its third digit at most 7";

pub(crate) const SOME_PAGE_OPERAND: &str =
    "Page: MPP for any subpage, or MPP/SSSS for one; M is 1 to 8,
other digits are 0 to 9 and A to F, PP is not FF, SSSS is 0000
to 3F7E, its third digit at most 7; not with --all";

pub(crate) const PREVIEW_ALL_OPTION: &str = "Write each page of the service, in its order";

pub(crate) const LONG_OPTION: &str = "Write all mistakes, each with the line that it is in; so it
is also if standard output is a terminal";

pub(crate) const STRICT_OPTION: &str = "End with status 1 if there is a warning";

pub(crate) const CLASS_OPTION: &str = "Receivers to serve: any, or those that surely clear a
page when they are set to it
[default: any]";

pub(crate) const REPEAT_OPTION: &str = "Of K successive transmissions of a character at least
one is received right, 1 to 8 [default: 1]";

pub(crate) const LINES_OPTION: &str = "Lines of a field that carry teletext, 1 to 32
[default: 16]";

pub(crate) const NEEDED_LINES_OPTION: &str = "Lines of a field that carry teletext, 1 to 32";

pub(crate) const GIVEN_LINES_OPTION: &str = "Lines of a field that carry teletext, 1 to 32; without
it, writes no OUT, but the lines with which the pages
have a deadline";

pub(crate) const PARTIAL_OPTION: &str = "Leave out pages that no service text can have, each with
a line that says why";

pub(crate) const START_OPTION: &str = "Slot to begin at, 0 to 65535, round the cycle [default: 0]";

pub(crate) const SLOTS_OPTION: &str = "How many slots to receive, 0 to 1000000; 0 shows a blank
page [default: 5000]";

pub(crate) const KIND_OPTION: &str = "Receiver: which of its choices it takes, see below
[default: eager]";

pub(crate) const FORM_OPTION: &str = "How the page is written, see below; without it, ansi if
standard output is a terminal and NO_COLOR isn't set, else
text";

pub(crate) const REPLAY_FORM_OPTION: &str = "How a counter-run is shown, see below
[default: words]";

pub(crate) const REVEAL_OPTION: &str = "Show concealed characters";

pub(crate) const TWICE_OPTION: &str = "Read CYCLE twice instead of keeping it in memory
(with --late it is kept)";

pub(crate) const DEADLINE_OPTION: &str = "Fields of 0.02 s within which pages are to be seen,
1 to 1000000";

pub(crate) const WITHIN_OPTION: &str = "Seconds within which pages are to be seen, 0.02 to
20000, with at most two decimals, rounded down to
fields of 0.02 s";

pub(crate) const SENT_OPTION: &str = "Whole periods for which OLD has been on the air, 0 to
4294967295; without it, OLD counts as sent for ever";

pub(crate) const SAVE_OPTION: &str = "Counter-run to write, a text; created or emptied, and left
empty if there is none";

pub(crate) const AT_OPTION: &str = "When the first field is sent, see below";

pub(crate) const FIELDS_OPTION: &str = "How many fields to send, 0 to 4294967295";

pub(crate) const PHASE_OPTION: &str = "Field of the repeated cycle to begin at,
0 to 4294967295 [default: 0]";

pub(crate) const OFFSET_OPTION: &str = "Clock in page headers, in half hours ahead of UTC,
-24 to 47; below 0 with =, as in --offset=-2
[default: 0]";

pub(crate) const ZONE_OPTION: &str = "Clock in page headers, by its time zone, such as
Europe/Berlin; not with --offset";

pub(crate) const FORCE_OPTION: &str = "Write packets also to a terminal";

pub(crate) const AIR_MORE: &str =
    "Plans SERVICE and certifies its cycle, then writes the cycle again and again, in
slots of 42 bytes, with the time, as send does. The reader of standard output
sets the pace. SECONDS are W fields: the deadline D of all certificates, and for
late receivers the gap after it, in the proportion that the first text needs;
all later texts get the same. If the first one needs more, nothing is sent, and
the refusal names the pages that are too slow.

At the end of a period, once the pages have been sent for D fields, and at most
once a second, ttx looks whether SERVICE has another text. It plans and
certifies a new text, and judges the change as splice does. If the answer is
yes, the new cycle follows at once. Otherwise the old pages stay, for whatever
reason, and the same text is not tried again.

The log goes to standard error and to FILE. SHA is the SHA-256 of the text, TIME
what the clock shows:
  air within W repeat K late|at-once plain|spread lines L fields N
      at MJD/HHMMSS zone ZONE|ahead SECONDS
      what was asked for, in one line; the moment is in UTC
  field 0 TIME on air SHA: P pages, deadline D fields (S s), C slots
      the first cycle has P pages and C slots
  field F TIME changed SHA: P pages new, Q gone, deadline D
      from field F on, the pages are those of this text
  field F TIME kept SHA: WORDS
      the old pages stay; WORDS are a line of check, plan or splice, or
      late PAGE F fields of D, ..  these pages would come too late
      no 8 too-far SLOTS           the next page header would come too late
      no 7 amid PAGE SLOT, no 8 stored PAGE SLOT, no 9 unfollowed PAGE
                                   as with splice --late
      out of memory
  field F TIME kept: the text cannot be read
      or it is too long; the line comes once, until the text can be read again
  field N TIME end
      all fields were sent

TIME, --offset and --zone are as those of send. Without --at it is now.

With --replay, writes the packets that LOG is about once more, from the texts
that it names. Standard error gets yes, or no 1 log if the log of this is not
LOG.

Statuses:
  0  N fields are sent; with --replay, yes
  1  with --replay: no 1 log
  2  error: .. (the arguments), refused: within (neither it nor --replay),
     refused: seconds, refused: time, refused: clocks (--zone and --offset),
     refused: zone (there is no such time zone),
     refused: --late with --at-once, refused: same (FILE is SERVICE),
     refused: terminal (packets would go to a terminal, without --force),
     refused: line .. (as ttx check says it), refused: service too-long,
     refused: plan 1 no-pages, refused: plan 2 too-long,
     refused: late PAGE F fields of D, .. (pages that are too slow),
     refused: log line N, refused: text SHA (LOG, or the folder lacks a text)
  3  fault: file, fault: read, fault: write (also if the reader of a pipe has
     gone), fault: memory";

pub(crate) const WATCHED_OPERAND: &str =
    "Service definition, or an author's text: a file with a TOML
text of at most 4194304 bytes, in which changes are looked for";

pub(crate) const AIR_WITHIN_OPTION: &str = "Seconds within which each page is seen, also after a
change, 0.02 to 20000, with at most two decimals,
rounded down to fields of 0.02 s";

pub(crate) const AIR_AT_OPTION: &str = "When the first field is sent, see ttx send --help
[default: now]";

pub(crate) const AIR_FIELDS_OPTION: &str = "How many fields to send, 0 to 4294967295
[default: 4294967295, which takes 2.7 years]";

pub(crate) const AIR_LATE_OPTION: &str = "Plan and judge also for receivers that may show a page
late; so it is without --at-once";

pub(crate) const AT_ONCE_OPTION: &str = "Plan and judge only for receivers that show a page at
once";

pub(crate) const AIR_LOG_OPTION: &str = "File to write the log to, too; created or emptied";

pub(crate) const AIR_REPLAY_OPTION: &str = "Send again what was on the air by this log; SERVICE is
then a folder with the texts that it names";

pub(crate) const COMPOSE_MORE: &str =
    "Reads AUTHOR to its end. Writes the service definition that it stands for to
OUT, and then to standard output (to standard error if OUT is -):
composed N pages
An author's text is a service definition in which each character stands for what
the viewer sees, and names in braces are control codes, as in {red}. OUT begins
with a comment that names AUTHOR; comments before a page are kept. If the text
has mistakes, OUT stays empty, and each of the first 100 has a line in place of
the one above, with lines and columns from 1; then comes their number:
FILE:LINE:COLUMN: error: ..
N mistakes
If there are none but it is no service, the lines are those of check.

Statuses:
  0  composed
  1  the text has mistakes, or is no service
  2  error: .. (the arguments), refused: same (OUT is AUTHOR),
     refused: service too-long
  3  fault: file, fault: read, fault: write, fault: memory";

pub(crate) const AUTHOR_OPERAND: &str = "Author's text: a TOML text of at most 4194304 bytes;
- is standard input";

pub(crate) const COMPOSED_OPERAND: &str =
    "Service definition to write, a TOML text; created or emptied;
- is standard output";

pub(crate) const DECOMPOSE_MORE: &str =
    "Reads SERVICE to its end. Writes the author's text that stands for it to OUT,
and then to standard output (to standard error if OUT is -):
decomposed N pages
compose makes the same service of it again. Comments are left out.

Statuses:
  0  done
  1  there is no author's text, for example if SERVICE has the key author
  2  error: .. (the arguments), refused: same (OUT is SERVICE),
     refused: service NUMBER NAME [KEY] page N, refused: service too-long
  3  fault: file, fault: read, fault: write, fault: memory";

pub(crate) const DECOMPOSED_OPERAND: &str =
    "Author's text to write, a TOML text; created or emptied;
- is standard output";

pub(crate) const REPORT_MORE: &str =
    "Reads CYCLE, SERVICE and CERT, in this order, to their ends. Writes an HTML page
to OUT, to be printed and filed: the verdict of certify, in words and seconds,
what it promises and to which receivers, for each page how long its viewers wait
and what is promised, pages that SERVICE lacks, and the SHA-256 of each input.
Without --date it has no date; nothing in it depends on the machine's clock.

Statuses:
  0  the verdict is yes
  1  the verdict is no
  2  error: .. (the arguments), refused: twice, refused: date,
     refused: same (OUT is an input), refused: cycle NUMBER NAME [REST],
     refused: service NUMBER NAME [KEY] page N, refused: service too-long,
     refused: certificate NUMBER NAME [line N], refused: certificate too-long
  3  fault: file, fault: read, fault: write, fault: memory";

pub(crate) const REPORTED_OPERAND: &str = "HTML file to write; created or emptied";

pub(crate) const DATE_OPTION: &str = "Date of the report, as in 2026-11-25";

pub(crate) const ROWS_OPTION: &str = "Judge by whole rows, some of which may be lost";

pub(crate) const EXPLAIN_MORE: &str =
    "Writes what a reason of certify or splice means, and what to do about it.
REASON is its number or its name, as in 10 or late; splice-4 is one of splice.

Statuses:
  0  done
  2  error: .. (the arguments), refused: reason: is it NAME? (the nearest one)
  3  fault: write, fault: memory";

pub(crate) const REASON_OPERAND: &str = "Number or name of a reason";

pub(crate) const CERTIFY_ALL_OPTION: &str = "Write the first reason of each page, too";

pub(crate) const MONITOR_ALL_OPTION: &str = "Judge FEED to its end, and write each breach";

pub(crate) const EVERY_OPTION: &str = "Write a line of state after every FIELDS fields,
1 to 1000000";

pub(crate) const JSON_OPTION: &str = "Write each line as a JSON object with the same values";
