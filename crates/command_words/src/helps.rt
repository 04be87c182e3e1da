//! The texts of the helps below their options.

// A help whose example is a network of two routers: what is said of the input, and all from the network's lines on.
macro_rules! two_routers {
    ($said:literal, $($behind:literal),*) => {
        concat!("The input is a network", $said, ":

    router 1 10.0.0.1
    router 2 10.0.0.2
    link 1 2
    origin 1 10.1.0.0/16
", $($behind),*, "

Status 0: done. 1: a refused input. 2: other words than these. 3: memory was refused ('memory').
4: a read or a write failed.")
    };
}

// One whose network then plays: what stands behind its rounds.
macro_rules! two_routers_play {
    ($said:literal, $behind:literal) => {
        two_routers!($said, "    schedule
    start 1 2
    start 2 1
    originate 1 10.1.0.0/16
    rounds 40
", $behind)
    };
}

// A help whose example is a network of three routers, the second of which would rather go through the third.
macro_rules! three_routers {
    ($said:literal, $behind:literal) => {
        concat!("The input is a network", $said, ":

    router 1 10.0.0.1
    router 2 10.0.0.2
    router 3 10.0.0.3
    link 1 2
    link 1 3
    link 2 3
    origin 1 10.1.0.0/16
    rank 2 10.1.0.0/16 2-3-1 2-1
", $behind)
    };
}

/// The help of the program below its words: the lines of a network, their limits, the codes of
/// refusals, and the statuses.
pub const TOP_HELP: &str = "\
The input is the standard input: 'bgpnet play < schedule.txt'. 'bgpnet WORD --help' has an example.

The lines of a network, with words between blanks; a line '#' and a remark is skipped, and a name
stands before its use:

  asn 4                   AS numbers are 1 to 4294967295 from here on, without it 1 to 65535
  router AS IDENTIFIER    a router; the identifier is A.B.C.D, with 1 to 223 in front
  link AS AS              the two routers are peers
  origin AS PREFIX        the router originates A.B.C.D/L
  rank AS PREFIX PATH ..  the router's paths for prefixes inside PREFIX, best first; a path is 3-2-1
  hold N                  the hold time in seconds: 0 (none) or 3 to 65535; 90 without it
  restart N               seconds to the next start of a closed session: 0 (none) to 65535; 0 without it
  cut N                   the most octets of a piece: 1 to 4096; 4096 without it
  pipe N                  the most items in a pipe of 'run': 1 to 1024; 64 without it

A network has 1 to 64 routers, at most 16 links a router, 256 prefixes, 64 rules a router, 32 paths a
rule and 16 routers a path; an input has at most 16777216 octets.

'refused LINE CODE' names the first line that is refused, 0 where it is none, and why:

  N1  an unknown first word, a wrong number of words, or an octet past ASCII
  N2  a number, an address or a path that can't be read
  N3  a router that no earlier line names
  N4  what came before
  N5  the network isn't connected
  N6  a number or a count outside its limit
  N7  a path of a rule that isn't simple, or doesn't begin with its router
  N8  a prefix that can't be read, or that no router originates
  S1  a path of an assignment that its router doesn't permit
  E1  an order whose two routers are no peers
  E2  an order whose router is not the prefix's origin
  E3  a snapshot whose number is not above the router's last
  E6  an order whose router has no stamp left
  E8  an order whose link has no incarnation left
  V2  an order whose two routers have no link
  G2  a run in which a router had no stamp or no incarnation left
  G3  chores of 'run' that leave no room for its snapshots, or are not 1 to 1000000
  G4  a run whose offers are not those that its workers wrote down: no input is known to lead to it

Status 0: done. 1: a fault, a truncated end, or a refused input. 2: other words than these. 3: memory
was refused ('memory'). 4: a read or a write failed. 5: a limit of 'stable' or 'safe' was met.";

/// The help of `decode` below its options: an example, and the statuses.
pub const DECODE_HELP: &str = "\
The input is octets in hex, of one direction of one session. Blanks and line ends are skipped:

    ffffffffffffffff ffffffffffffffff 001d 01 04 0001 005a 0a000001 00
    ffffffffffffffff ffffffffffffffff 0013 04
    ffffffffffffffff ffffffffffffffff 0013 05

An OPEN, a KEEPALIVE, and a message of a type that there is not, so the output is

    open as 1 hold 90 id 10.0.0.1
    keepalive
    fault 1 3
    ffffffffffffffffffffffffffffffff001603010305

Each message is a line, up to the first fault: its code and subcode (RFC 4271 section 6), and in hex
the NOTIFICATION that tells of it. 'truncated N': the stream ends with N octets of a message. Alone
stand 'bad hex', where the input has more than digits and blanks or half an octet, and 'refused 0 N6',
where it has more than 16777216 octets. An UPDATE's other attributes than AS_PATH and NEXT_HOP are
checked, and not printed. AS numbers have two octets. Where the OPENs of both speakers print 'cap 65'
they have four: an UPDATE with a path then mostly reads as 'fault 3 11', and is read by --asn 4.

With --peer the number that an OPEN says, and the first one in the path of an UPDATE that announces,
have to be AS, else they read as 'fault 2 2' and 'fault 3 11'. With --asn 4 an OPEN says its number by
capability 65, where it has one.

Status 0: all was read. 1: a fault, a truncated end, or a refused input. 2: other words than these.
3: memory was refused ('memory'). 4: a read or a write failed.";

/// The help of `check` below its options: an example, and the statuses.
pub const CHECK_HELP: &str = three_routers!(
    ", a line 'assignment', and the path of each router and prefix",
    "    assignment
    path 1 10.1.0.0/16 1
    path 2 10.1.0.0/16 2-1
    path 3 10.1.0.0/16 3-1

Router 2 would rather go through 3, whose path is there, so the output is

    unstable 2 has 2-1 best 2-3-1

A path is its routers, the router itself first and the origin last, or 'none'. A router without a
'rank' line prefers the shortest path, then the smaller numbers. Where no router would move the
output is 'stable'. With --all it has a line for each prefix, 'prefix Q stable' or 'prefix Q unstable
N', and behind this one N lines as above, one for each router that would move. 'bgpnet --help' has the
lines of a network and the codes of refusals.

Status 0: it is judged. 1: a refused input. 2: other words than these. 3: memory was refused ('memory').
4: a read or a write failed."
);

/// The help of `stable` below its options: an example, and the statuses.
pub const STABLE_HELP: &str = three_routers!(
    "; what stands behind a line 'assignment' or 'schedule' is left out",
    "    rank 3 10.1.0.0/16 3-2-1 3-1

Each of 2 and 3 would rather go through the other, so two assignments of paths are stable, and the
output is

    prefix 10.1.0.0/16 stable 2
    route 1 10.1.0.0/16 1
    dispute 1 10.1.0.0/16 stable 2 routers 2 3
    choice 2-3-1 3-1
    choice 2-1 3-2-1

'stable K': so many assignments are stable for the prefix, and no other ('many' where they are more
than 18446744073709551615). 'route': the router has this path in all of them. 'dispute': routers whose
paths depend on each other; 'choice' has a path for each of them, in their order. 'follow U PREFIX PATH
..': which of these paths router U has, the choices decide. A stable assignment has the paths of the
routes, and of each dispute one of its choices; to each way to take one of each belongs exactly one. A
dispute with 'stable 0' has no choice, and then no assignment is stable.

'prefix PREFIX unknown WHY': a limit was met, and nothing is said of the prefix. 'paths U': router U has
no 'rank' line for it, and may have too many paths. 'choices U V ..': these routers have together more
than N choices (--most). 'steps U V ..': their search would take more than N steps (--steps).
'refused LINE CODE' names the first line that can't be read; 'bgpnet --help' has the codes, and the
lines of a network.

Status 0: done. 1: a refused input. 2: other words than these. 3: memory was refused ('memory').
4: a read or a write failed. 5: done, and a prefix is unknown."
);

/// The help of `safe` below its options: an example, the lines, and the statuses.
pub const SAFE_HELP: &str = three_routers!(
    "; what stands behind a line 'assignment' or 'schedule' is left out",
    "    rank 3 10.1.0.0/16 3-2-1 3-1

Each of 2 and 3 would rather go through the other: a dispute wheel (Griffin, Shepherd and Wilfong 2002).
The output is

    prefix 10.1.0.0/16 wheel 2
    rim 2-1 over 2-3-1
    rim 3-1 over 3-2-1

'safe': the prefix has no dispute wheel. One assignment of paths is stable, whichever links are up, and
the routers settle in no other. 'wheel K': it has one of K rims. 'rim': a router that has the first path
likes the second better, which goes on by the first path of the next rim, the last by that of the first.
A wheel does not say that the network never settles; 'bgpnet stable' lists in which routes it can.

'prefix PREFIX unknown paths U': nothing is said of the prefix. Another router has a 'rank' line for it,
router U has none, and more than N paths (--paths). 'refused LINE CODE' names the first line that can't
be read; 'bgpnet --help' has the codes, and the lines of a network.

Status 0: done. 1: a refused input. 2: other words than these. 3: memory was refused ('memory').
4: a read or a write failed. 5: done, and a prefix is unknown."
);

/// The help of `play` below its options: an example, the orders, and the statuses.
pub const PLAY_HELP: &str = two_routers_play!(
    ", a line 'schedule', and the orders of the schedule",
    "
Both routers start their session and router 1 originates the prefix, so the output is

    now
    route 1 10.1.0.0/16 1
    route 2 10.1.0.0/16 2-1

An order is 'start U V', 'stop U V' or 'reset U V' for U's session with V, 'originate U PREFIX',
'withdraw U PREFIX', 'snapshot U S', 'restart U'; one step of U: 'tick U', 'put U V', 'take U V',
'handle U V', 'decide U', 'advertise U', 'offer U'; or 'rounds N', N turns of each router, or
'ticks N', N seconds. 'refused LINE CODE' names the first line that can't be read, else the first
order that is refused; 'bgpnet --help' has the codes, and the lines of a network."
);

/// The help of `trace` below its options: an example, and the statuses.
pub const TRACE_HELP: &str = two_routers!(
    ", a line 'schedule', and the orders of the schedule, as 'play --help' says",
    "    schedule
    originate 1 10.1.0.0/16
    rounds 2

The output is the network's lines, the line 'schedule', and each event that was done as an order, so
that it is an input for 'play' again, and 'play' prints the same for both; comments say what an event
did, what stood for many events, how many of them were done, also in each round, and behind which round
the network was at rest:

    originate 1 10.1.0.0/16
    # line 7: rounds 2
    decide 1
    # keeps 10.1.0.0/16 1, kept none
    # round 1: 1 events
    # line 7: 1 events, rest behind round 1

Behind 'put' it says what that sends, with --octets also in hex, behind 'take' what it takes, behind
'handle' what it hears, behind 'decide' what it keeps, behind 'advertise' whom it tells, behind
'offer' which snapshot it offers; then which session came to another state, and which snapshot the
router records.

A 'rounds' line ends as soon as a round does nothing. 'no rest by round N': each of them did
something. 'nothing to do': the order of that line found nothing to do. Where an order is refused the
last line is '# refused LINE CODE', and where a line can't be read 'refused LINE CODE' stands alone."
);

/// The help of `cut` below its options: an example, and the statuses.
pub const CUT_HELP: &str = two_routers_play!(
    ", a line 'schedule', and the orders of the schedule, as 'play --help' says",
    "    withdraw 1 10.1.0.0/16
    decide 1
    advertise 1
    snapshot 1 1
    snapshot 2 1
    rounds 10

Both routers record snapshot 1 while the withdrawal is on its way, so 'cut 1' prints

    cut 1 after 34 of 48
    route 1 10.1.0.0/16 none
    route 2 10.1.0.0/16 2-1
    flight 1 2 update withdraw 10.1.0.0/16

The schedule did 48 events, 34 of them up to each router's recording of the snapshot, itself
included. The routes are those that the routers recorded. 'flight V U' and a message, as 'decode'
prints it, is an UPDATE that was on its way from V to U: by U, then V, in the order in which U acted
on them. Some order of the same events passes through just this state. 'cut S none': snapshot S is
not decided at the end, or it was abandoned. 'refused LINE CODE' is as for 'play'."
);

/// The help of `why` below its options: an example, and the statuses.
pub const WHY_HELP: &str = two_routers_play!(
    ", a line 'schedule', and the orders of the schedule, as 'play --help' says",
    "
Router 2 keeps the path that router 1 told it, and tells it so, so 'why 2' prints

    router 2
    peer 1 Established incarnation 1
      timers HoldTimer 90 KeepaliveTimer 30
    prefix 10.1.0.0/16 keeps 2-1
      from 1 1: 2-1, kept
      told 1

'peer V STATE' is the session with V, and the number of the link that it stands on; 'outbox N': N
octets wait to be put towards V; 'on its way': something of V was not taken or not handled yet.
'timers': of the session each timer that runs, and the seconds that are left of it.
'keeps PATH' is the path that the router keeps for the prefix, or 'none'. 'from V PATH: WHAT' is what
V said last, and what the router makes of it: 'loop', the router stands in it; 'not permitted', its
policy has not the path along it; or that path, its place in the 'rank' line, and whether it is kept.
'told V W': these were told what it keeps. 'refused 0 N3': the network has no such router. 'refused
LINE CODE' is as for 'play'."
);

/// The help of `run` below its options: an example, and the statuses.
pub const RUN_HELP: &str = two_routers!(
    "",
    "
Each router runs in a thread of its own: it starts its sessions, originates its prefixes, and then
takes turns, N chores in all. The least router takes the snapshots 1 to K, evenly spaced, until one of
them finds the network at rest, every prefix originated. The output is the routes of the first that did

    route 1 10.1.0.0/16 1
    route 2 10.1.0.0/16 2-1

and 'unsettled' where none did, which says nothing about the network. 'refused LINE CODE' names the
first line that can't be read; 'refused 0 G3' says that N leaves no room for the snapshots, or is not 1
to 1000000. 'bgpnet --help' has the codes, and the lines of a network."
);

/// The help of `record` below its options: an example, and the statuses.
pub const RECORD_HELP: &str = two_routers!(
    "",
    "
Each router runs in a thread of its own, as 'run --help' says, and all K snapshots are taken. The output
is the network's lines, the line 'schedule', each event that the threads did as an order, and as
comments what they ended in, so that it is an input for 'play', 'trace' and 'cut'. It begins so:

    router 1 10.0.0.1
    router 2 10.0.0.2
    link 1 2
    origin 1 10.1.0.0/16
    schedule
    start 1 2

What comes behind differs from run to run; it ends with '# snapshot S ..', how each snapshot came out,
'# now', and '# route U Q PATH', the paths that the routers keep. 'play' leads there each time, and says
the same; with '--turns 2000' and '--snapshots 4' the output is short. 'refused LINE CODE' is as for
'run'. An output of more than 16777216 octets is no input: its last line says so."
);
