//! The table of reasons.

use crate::entry::Entry;

/// All reasons of rejections: those of `certify` in the order of their numbers, then those of `splice`.
#[rattlefmt::skip]
pub static REASONS: [Entry; 26] = [
    Entry {
        key: "1",
        name: "bad-slot",
        line: "no 1 bad-slot SLOT",
        meaning: "A byte of this slot that says what the packet is (its address, the page
number, subcode and control bits of a header, or the designation of a packet
X/27) is not a code word of Hamming 8/4. A receiver may correct it, ignore the
packet, or take it for another one. Nothing is promised for any page.",
        remedy: "Look at the line of the slot in `ttx inspect`: it ends in corrected, or says
unreadable. Encode the packet anew.",
    },
    Entry {
        key: "2",
        name: "no-header",
        line: "no 2 no-header PAGE",
        meaning: "The cycle has no header of the page, so no receiver ever begins to store it.",
        remedy: "Send the page, or take it out of the service. `ttx pages` lists what the cycle
has.",
    },
    Entry {
        key: "3",
        name: "other-subpage",
        line: "no 3 other-subpage PAGE SLOT",
        meaning: "The page is the only one of its number in the service, but the header in this
slot has that number with another subcode. A receiver that is set to the
number alone shows what follows that header.",
        remedy: "List the other subpage in the service too, or take its packets out of the
cycle.",
    },
    Entry {
        key: "4",
        name: "erased",
        line: "no 4 erased PAGE SLOT",
        meaning: "The header of the page in this slot has control bit C4, which erases the page.
A receiver that shows the page shows blank rows until they have come again.",
        remedy: "Clear C4 in the headers of the page. `ttx inspect` lists the control bits that
are set.",
    },
    Entry {
        key: "5",
        name: "head-differs",
        line: "no 5 head-differs PAGE SLOT",
        meaning: "The header of the page in this slot has other control bits C5 to C14, or other
characters in bytes 10 to 33, than the page in the service, or a character of
even parity.",
        remedy: "Compare the slot in `ttx inspect` and `ttx pages` with the page in the
service, and correct the one that is wrong. A cycle that `ttx plan` lays out
sends what the service says.",
    },
    Entry {
        key: "6",
        name: "row-differs",
        line: "no 6 row-differs PAGE SLOT",
        meaning: "This slot sends a row of the page with other characters than the page in the
service, or with a character of even parity. Only rows that a viewer sees
count.",
        remedy: "Compare `ttx show` of the cycle with `ttx preview` of the service, and correct
the one that is wrong. If the page was edited, lay out the cycle anew.",
    },
    Entry {
        key: "7",
        name: "links-differ",
        line: "no 7 links-differ PAGE SLOT",
        meaning: "The packet X/27/0 of the page in this slot has other links than the page in
the service, another flag for row 24, or a byte among 3 to 39 that is not a
code word of Hamming 8/4.",
        remedy: "Compare the slot in `ttx inspect` with links and row24 of the page in the
service, and correct the one that is wrong.",
    },
    Entry {
        key: "8",
        name: "no-witness",
        line: "no 8 no-witness PAGE ITEM",
        meaning: "A viewer needs this item of the page, and the certificate names no start for
it.",
        remedy: "Make the certificate with `ttx find` from this cycle and this service. If find
says the same, no transmission of the item is sure: `ttx wait` says how many
are near the header or cut off.",
    },
    Entry {
        key: "9",
        name: "witness-bad",
        line: "no 9 witness-bad PAGE ITEM START",
        meaning: "The certificate names this start for the item, but no sure run begins there:
the slot does not send the item, or a receiver may miss one of the K
transmissions that begin with it, because it comes at most L slots behind its
header, or behind a header of another magazine with C11.",
        remedy: "Make the certificate with `ttx find` from this very cycle. In a cycle that you
laid out yourself, send rows more than a field after their header.",
    },
    Entry {
        key: "10",
        name: "late",
        line: "no 10 late PAGE ITEM START",
        meaning: "After the header of the run at this start it takes more than D fields until
the run of the next named start has ended. A viewer who tunes just behind that
header waits longer for the item than the certificate promises.",
        remedy: "Make a certificate with a larger deadline: `ttx find` gives the least one. Or
send the page more often: `often` in the service, or `ttx plan --spread`.",
    },
    Entry {
        key: "11",
        name: "unsteady",
        line: "no 11 unsteady",
        meaning: "With --twice: the second reading of the cycle has no slot or more than 65,536,
or ends with other headers than the first. The file changed while it was read.",
        remedy: "Read a file that is not being written, or leave out --twice.",
    },
    Entry {
        key: "12",
        name: "late-blank",
        line: "no 12 late-blank PAGE ITEM HEADER",
        meaning: "For receivers that surely clear: the item is blank and has no start in the
certificate, so the header of the page has to come in time, and after the
header in this slot the next one takes more than D fields.",
        remedy: "Send the page more often, or make a certificate with a larger deadline by `ttx
find --class clearing`.",
    },
    Entry {
        key: "13",
        name: "never-shown",
        line: "no 13 never-shown PAGE SLOT",
        meaning: "With --late: after this header of the page the next header of its magazine has
the same page number. A receiver that shows a page only when another page
number ends it does not show it then.",
        remedy: "Lay out the cycle with `ttx plan --late`, which sends a time-filling header
between two headers of one page number.",
    },
    Entry {
        key: "14",
        name: "unwhole",
        line: "no 14 unwhole PAGE ITEM SLOT",
        meaning: "With --numbers: several pages have the number of this page, and not every
receiver gets the item between the header in this slot and the next header of
its magazine. A viewer who keys the number alone may see the page without it.",
        remedy: "Send all rows of a page between its header and the next one of its magazine,
and more than a field behind its header.",
    },
    Entry {
        key: "15",
        name: "unlisted",
        line: "no 15 unlisted MPP SLOT",
        meaning: "With --numbers: the header in this slot has a page number of the service, and
is of no page of the service. A viewer who keys the number alone may see that
page.",
        remedy: "List that subpage in the service too, or take its packets out of the cycle.",
    },
    Entry {
        key: "lines",
        name: "lines",
        line: "no lines L of M",
        meaning: "With --within: the certificate counts fields of L lines, and the service sends
M lines in a field, so its deadline in fields is not one in seconds.",
        remedy: "Make the certificate with `ttx find`, which takes the lines of the service.",
    },
    Entry {
        key: "deadline",
        name: "deadline",
        line: "no deadline D of E",
        meaning: "With --within: the certificate promises the pages within D fields, and SECONDS
are only E fields.",
        remedy: "Make the certificate with `ttx find --within SECONDS`. If no page can be that
quick, send less, send more lines in a field, or promise less.",
    },
    Entry {
        key: "splice-1",
        name: "old",
        line: "no 1 old NUMBER NAME ..",
        meaning: "The old cycle is not accepted with its certificate; the reason follows.",
        remedy: "Ask `ttx certify` of the old cycle, service and certificate, and explain that
reason.",
    },
    Entry {
        key: "splice-2",
        name: "new",
        line: "no 2 new NUMBER NAME ..",
        meaning: "The new cycle is not accepted with its certificate; the reason follows.",
        remedy: "Ask `ttx certify` of the new cycle, service and certificate, and explain that
reason.",
    },
    Entry {
        key: "splice-3",
        name: "numbers",
        line: "no 3 numbers",
        meaning: "The two certificates differ in lines, repeat or deadline, or one of them is of
class clearing.",
        remedy: "Make both certificates with `ttx find --deadline FIELDS` and the same
--repeat, from services with the same lines.",
    },
    Entry {
        key: "splice-4",
        name: "seam",
        line: "no 4 seam PAGE SLOT",
        meaning: "When the new cycle begins, a receiver still stores the packet in this slot of
it in a page that stays, because that page had the last header of its magazine
in the old cycle; and the packet is not what the page has there.",
        remedy: "Let each magazine of the new cycle begin with a header, as cycles of `ttx
plan` do, or turn the new cycle.",
    },
    Entry {
        key: "splice-5",
        name: "seam-late",
        line: "no 5 seam-late PAGE ITEM",
        meaning: "Across the change, a viewer may wait for this item of a page that stays longer
than D fields: it comes early in the old period and late in the new one.",
        remedy: "Make both certificates with a larger deadline, keep the pages that stay in the
same place, or turn the new cycle.",
    },
    Entry {
        key: "splice-6",
        name: "too-soon",
        line: "no 6 too-soon SLOTS",
        meaning: "With --sent: the change is right, but PERIODS periods of the old cycle are so
many slots fewer than its deadline. Another change before that is not covered.",
        remedy: "Keep the old cycle on the air until then.",
    },
    Entry {
        key: "splice-7",
        name: "amid",
        line: "no 7 amid PAGE SLOT",
        meaning: "With --late: the old cycle ends before all of the page has come under its last
header, which is in this slot. A receiver that shows a page only where it ends
could show a mixture.",
        remedy: "End the old cycle behind a whole page, or begin the new one with a header of
each magazine and plan both with `ttx plan --late`.",
    },
    Entry {
        key: "splice-8",
        name: "stored",
        line: "no 8 stored PAGE SLOT",
        meaning: "With --late: a receiver still stores the packet in this slot of the new cycle
in a page of the old one, and it is not what that page has there.",
        remedy: "Let each magazine of the new cycle begin with a header.",
    },
    Entry {
        key: "splice-9",
        name: "unfollowed",
        line: "no 9 unfollowed PAGE",
        meaning: "With --late: the first header of the new cycle that could end this page of the
old one is missing, or has its page number.",
        remedy: "Let the new cycle begin with a header of another page number in that magazine.",
    },
];
