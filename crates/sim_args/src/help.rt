//! What help and faults say.

pub(crate) const VERSION: &str = "0.1.0";

pub(crate) const SCENARIO: &str = "The scenario's file, '-' for the standard input";

pub(crate) const SHORT: &str = "The short scenario's file, '-' for the standard input";

pub(crate) const TRANSCRIPT: &str = "The transcript's file, '-' for the standard input";

pub(crate) const ABOUT: &str =
    "Plays scenarios on a group of replicated servers, every step of which is proved";

pub(crate) const ENDS: &str = "\
Examples:
  nomadsim run data/first-election.json
  nomadsim run data/first-election.json --out election.txt
  nomadsim threads data/first-election.json --workers 4
  nomadsim replay election.txt
  nomadsim draw election.txt > election.svg
  nomadsim tell election.txt
  nomadsim inspect election.txt --at 12
  nomadsim recover election.txt --every 1
  nomadsim check data/first-election.json
  nomadsim expand data/bad-net.short > bad-net.json
  nomadsim sweep data/bad-net.json --keys 0..99 --drop 40

'-' for FILE, and for the transcript that 'replay', 'draw', 'tell', 'inspect'
and 'recover' take, is the standard input. 'nomadsim run --help' says what a
scenario's file holds, and 'nomadsim check FILE' what is wrong with one.

Exit status:
  0  every step was taken, or whatever else was asked for was done
  1  a step was refused
  2  the command line or a file is bad, or the output failed
  3  there was no memory

A refused step is told by its number and its line:
  1  no memory               8  unknown job         15  frame or line at fault
  2  not the leader          9  unknown node        16  down
  3  desk not open          10  node differs        17  queue full
  4  not outstanding        11  bad name            18  job stopped
  5  another token          12  out of range        19  stale expiry
  6  snapshot too old       13  table full          20  node not draining
  7  job changed            14  exhausted           21  unknown allocation

An actor that finds no memory goes down as in a crash, and the run goes on.

With --out T the file T is written before the last lines are printed. Where it
cannot be written, only the lines of refused steps were printed. Where the
standard output fails, the exit status is 2 and nothing more is said.";

pub(crate) const STEPS: &str = "\
The file is a JSON object with exactly these keys:
  \"servers\"  3 or 5
  \"nodes\"    a list of at most 64 objects of exactly the keys \"class\", \"cpu\"
             (MHz) and \"mem\" (MB), each number from 1 to 1000000, and \"disk\"
             (MB), from 0 to 1000000, which may be left out where it is 0;
             client C is the agent of the C-th node, the first being 1
  \"key\"      0 to 18446744073709551615
  \"drop\"     0 to 100, the percentage of messages that are lost
  \"repeat\"   0 to 100, the percentage of messages that are delivered and put in
             flight again; \"drop\" and \"repeat\" together are at most 100
  \"order\"    which message in flight comes next: \"sent\" for the one sent first,
             \"any\" for one drawn by the key
  \"steps\"    a list of texts, each one of these steps, with one space between
             words, and numbers with no sign and no zero in front; S and T are
             servers, 1 to 5, C is a client, 1 to 64:
    timeout S   server S has heard of no leader for too long
    beat S      server S, if it leads, sends the others what they may lack
    deliver K   the K-th message ever sent comes, the first being 1
    crash S, crash cC
                server S or client C stops, and keeps what it stored
    restart S, restart cC
                server S or client C begins again from what it stored
    compact S   server S makes a snapshot of all that it has applied, in place of
                these entries
    flow        messages in flight come, in the order that \"order\" says, until
                none is left or 10000 were taken; \"drop\" and \"repeat\" say
                how many are lost or come again
    flow N      the same, for up to N of them, N from 0 to 18446744073709551615
    register C S
                client C tells server S of its node
    ping C S    client C sends server S a heartbeat
    pull C S    client C asks server S for its list
    end C ID complete, end C ID failed
                allocation ID, INDEX.SLOT, which runs at client C, ends; INDEX
                is from 1 to 1099511627775, SLOT from 0 to 63
    request S put NAME PRIORITY GROUPS
                a job is put to server S; its priority is from 1 to 100; GROUPS
                are 1 to 8 of GROUP:COUNT:CLASS:CPU:MEMORY:DISK, joined by
                commas, each GROUP once, with a COUNT from 0 to 64, CPU in MHz
                and MEMORY in MB, both from 1 to 1000000, DISK in MB, from 0 to
                1000000; names of jobs, groups and classes are 1 to 32 of
                a-z0-9-
    request S stop NAME
                nothing of the job is to run any more
    request S eval NAME
                the job is looked at once more
    request S drain NODE slow
                node NODE, 1 to 64, takes no more, and what it runs moves away;
                with 'force' in place of 'slow', all at once
    take S T    server S asks server T for an evaluation for its workers
    work S      a worker of server S takes up the oldest answer that came
    submit S T E TOKEN NAME VERSION SNAPSHOT STOPS PLACES
                server S hands server T a plan for evaluation E, INDEX.SLOT
                with SLOT from 0 to 255, under TOKEN, TERM.SERIAL; STOPS are at
                most 64 ids of allocations, INDEX.SLOT with SLOT from 0 to 63,
                and PLACES at most 64 of GROUP:PLACE:NODE, PLACE from 0 to 63
                and NODE from 1 to 64; both are joined by commas, with '-' for
                none; INDEX, TERM and SERIAL are from 1 to 1099511627775,
                VERSION and SNAPSHOT from 0 to that
    finish S T E TOKEN STATUS SNAPSHOT
                the work on E is over; STATUS is 'blocked', 'complete' or
                'failed', with SNAPSHOT 0 unless blocked
    nack S T E TOKEN
                the work on E is given back
    plan S      server S, if it leads, weighs the first plan that waits
    lapse S E   at server S, if it leads, the work on E has lasted too long
    expire S NODE BEAT
                at server S, if it leads, node NODE, 1 to 64, was heard of BEAT
                times, 0 to 1099511627775, and not heard of since for too long:
                a ready node is disconnected, a disconnected one goes down
    drain S NODE
                at server S, if it leads, a turn of the drain of node NODE, 1 to
                64: its next allocations are marked to move, or its drain ends
                where nothing lives there
    free S      server S, if it leads, makes a blocked evaluation pending that
                has room now
    reap S      server S, if it leads, gives up an evaluation that was given
                out three times

Example:
  {\"servers\": 3, \"nodes\": [], \"key\": 0, \"drop\": 0, \"repeat\": 0,
   \"order\": \"sent\", \"steps\": [\"timeout 1\", \"flow\"]}

For each step that is refused a line says so, with the number of the refusal,
which 'nomadsim --help' explains, and the exit status is 1. Then there is a line
for each server, for each allocation that is to run, and for each client, and
one with the number of events and of messages.

With --out T the file T gets a transcript of what happened, before the last
lines are printed; 'nomadsim replay T' and 'nomadsim draw T' take it.

'nomadsim check FILE' says what is wrong with a file, and of each step that is
none which part of it is.";

pub(crate) const THREADS: &str = "\
The file is one of 'nomadsim run --help'. Each server and each client has a
thread of its own, which takes the messages that come for it, and each server
has N workers, each on its own thread, which take up what comes for them. Steps
'work' and 'deliver' are passed over, and a 'flow' waits until nothing is in
flight. It does not wait for workers, so a 'plan' behind it may come before what
they plan: a file that is to place something repeats 'plan S', 'beat S' and
'flow'.

What is printed, the exit status and the transcript are those of 'nomadsim run',
but the order in which messages come is that of the threads, and so may differ
from run to run.

Example:
  nomadsim threads data/first-election.json --workers 4";

pub(crate) const NO_COUNT: &str = "the number of workers is one digit, from 1 to 8";

pub(crate) const NO_KEYS: &str =
    "the keys are A..B, numbers from 0 to 18446744073709551615, A at most B, and \
                       B at most 999999 more";

pub(crate) const NO_NUMBER: &str = "a number has no sign and no zero in front";

pub(crate) const REPLAYS: &str = "\
T, '-' for the standard input, is a transcript, as 'nomadsim run FILE --out T'
writes it: a line 'servers N', a line 'node C CLASS CPU MEM DISK' for each client
C, and a line for each event: one of the steps of 'nomadsim run --help' other
than 'flow' and 'work'.

The events are taken once more, and the lines are printed with which a run ends.
For each event that is refused a line says so, and the exit status is 1. Where T
is no transcript, the exit status is 2, and the place of the first line at fault
is said, as the number of bytes before it.

Example:
  nomadsim replay election.txt";

pub(crate) const DRAWS: &str = "\
T, '-' for the standard input, is a transcript, as 'nomadsim run FILE --out T'
writes it; 'nomadsim replay --help' says what it holds. The picture is an SVG,
and goes to the standard output. Where a pointer rests on the row of an event a
browser shows the line that 'nomadsim tell' has of it. With --html a page is
printed: the picture, and beside it how the group stands behind the event that
the pointer is on, as 'nomadsim inspect' tells it. It needs no other file.

Examples:
  nomadsim draw election.txt > election.svg
  nomadsim draw election.txt --html > election.html";

pub(crate) const TELLS: &str = "\
T, '-' for the standard input, is a transcript, as 'nomadsim run FILE --out T'
writes it; 'nomadsim replay --help' says what it holds. A line of heads is
printed, and then a line for each event:
  event    its number, from 1
  who      the server or client that it came to, S1 or c1
  took     the message that came, as '#7' the number of the message, what it says
           and who sent it; or an input of its own, in the words of a step; or
           'refused N' and what was refused
  changed  what that changed: of a server its role, its term, the last entry of
           its log and the last entry that it has applied; of a client whether
           it is up and the last list that it took; and the rows that entries
           changed, where no server had applied them before
  sent     the messages that were sent, with their numbers and receivers
The words are those of 'nomadsim draw'.

Example:
  nomadsim tell election.txt";

pub(crate) const INSPECTS: &str = "\
T, '-' for the standard input, is a transcript, as 'nomadsim run FILE --out T'
writes it; 'nomadsim replay --help' says what it holds. The first K events are
taken, all without --at, and then it is printed how the group stands:
  the servers, with their roles, terms, votes, the last entries of their logs, and
  how many entries their snapshots cover and they have applied;
  the entries of their logs, and which servers have them;
  the desk of each server that leads: whether it is open, which pending evaluations
  it gave out, to whose workers, under which token, and what became of them, which
  plans wait for a turn, which evaluations are blocked, and since when, and how
  often each node was heard of that is not down;
  the clients, with what they run and what they ever started;
  each state that is applied: jobs, nodes with what is in use of them,
  evaluations and allocations.
For each evaluation that is pending or blocked a line for each group of its job
says how many allocations are missing, how many of these a plan places now, and
how many nodes there are of another class, not ready, drained, short of cpu,
short of memory, short of disk, and with room: each node is counted once, under
the first of these. One that is disconnected or down is not ready.
'fits on none' says that a plan places none of the missing ones.

With --json all of it is one JSON object in one line, the form of which is in
docs/inspect.schema.json. Where K is no number of events from 0 to that of T, the
exit status is 2.

Example:
  nomadsim inspect election.txt --at 12";

pub(crate) const RECOVERS: &str = "\
T, '-' for the standard input, is a transcript, as 'nomadsim run FILE --out T'
writes it; 'nomadsim replay --help' says what it holds. The first K events are
taken, all without --at, and then the group is brought back: each server that is
down restarts; the server with the best log stands, where it does not lead; and
it beats until every server has applied its whole log. What it sends meanwhile
comes, and what is answered; no message that was sent before does. It is proved
that this is always enough: at most two timeouts, and 1 + N (2 L + 4) beats, N
being the number of servers, and L that of the entries of that server's log.

What is printed says which server leads then; how many restarts, timeouts, beats
and messages that took, and how many events together; and then these events, a
line each, as steps that can be put behind those of a scenario.

With --every N it is told of the group after 0, N, 2N, .. and K events, a line
each, and then which of these moments is the farthest: the one from which it
takes the most events, of several the first. Each is played from the beginning,
so there are at most 1000 of them.

The exit status is 2 where K is no number of events from 0 to that of T, where N
is no number or makes more than 1000 lines, and where a server has no room for
two more terms or two more entries. It is 3 where there was no memory, for an
actor of the group too. Nothing is printed then but what is wrong.

Examples:
  nomadsim recover election.txt --at 12
  nomadsim recover election.txt --every 1";

pub(crate) const CHECKS: &str = "\
The file and each of its steps are read, and no step is taken. What is wrong is
printed: the first thing in a file that holds no scenario, else of each step
that is none its number, its line, and the first part of it that is wrong. The
exit status is 0 where nothing is wrong, and 2 where something is. 'nomadsim run
--help' says what a scenario's file holds.

With --short the file is one in short form, as 'nomadsim expand --help' says. In
a list that is repeated a step has more than one number: 3.2 is the second step
of the list that stands third.

Examples:
  nomadsim check data/first-election.json
  nomadsim check data/bad-net.short --short";

pub(crate) const EXPANDS: &str = "\
The file is one of 'nomadsim run --help', in whose list of steps there may stand
also
    settle      what is left to do is done: the first of these that is of use,
                and so on until none is, or 1000 times, or until 20 in a row
                changed nothing, as where messages are lost
                  flow        where messages are in flight
                  work S      of each server S, where what waits for its workers
                              asks for no later state of S
                  plan S      at the leader, the one of the greatest term, where
                              a plan waits
                  beat S      where not all of its log is applied there, and
                              more than half of the servers are up, or one that
                              is up has a shorter log
                  take S S    where it has an evaluation to give out
                  pull C S    of all clients C that start, stop or report
                              something by the leader's list
                  beat S      where others that are up have applied less
                with a 'flow' behind it where messages are in flight then
    settle N    the same, up to N times, N from 0 to 18446744073709551615
    settle elect
                one server comes to lead: of those that are up the one with the
                best log stands, where it does not lead, and beats until all of
                them have applied its whole log; each message that it sends
                meanwhile comes by a 'deliver', and so does each answer; nothing
                is done where no quorum is up, nor past the first 10000 steps
and objects of exactly the keys \"repeat\", a number, and \"steps\", a list of the
same kind, whose steps are taken so many times; there are at most 1000000 steps
in the end, and the lines of those that stand in the lists have at most 33554432
bytes together, as often as they are taken.

The steps are played, as 'nomadsim run' plays them, and those that were taken
are printed as a scenario, which 'nomadsim run' plays to the same end. Refused
steps stand in it too.

Example:
  nomadsim expand data/bad-net.short > bad-net.json";

pub(crate) const SWEEPS: &str = "\
The file is one of 'nomadsim run --help'. It is played once under each key from
A to B, A and B among them, in place of its own; and with P of a hundred
messages lost or repeated in place of its own, where --drop or --repeat says so.
N threads play, one for each processor where --jobs is left out; what is printed
is the same whatever N is.

What is printed says how many runs there were; in how many of them in the end a
server leads in the greatest term of all; in how many each allocation of the
newest state runs, and there is one; and in how many a step was refused. Of the
greatest terms, of the messages and of the events it says the least, the median
and the greatest; and the key of the worst run, which 'nomadsim run' shows under
that key: the first of those without a leader, else of those in which not each
allocation runs, else of those with a refused step; of more than one the first
of those with most events.

With --csv there is a line for each key instead, behind one of their names: the
key, the leader, the greatest term, how many steps were refused, how many
allocations live, how many of them run, events and messages. Lines are printed
in the order of their keys while later keys are played; where the output fails,
those that were printed stand.

The exit status is 0, whether steps were refused or not.

Example:
  nomadsim sweep data/bad-net.json --keys 0..99 --drop 40";
