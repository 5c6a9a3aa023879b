//! What the program says of scenarios that it plays on threads.
use crate::folder::Folder;
use crate::said::{Printed, behind_refusals, file_of, run_alone, run_words};
use std::alloc::AllocError;
use std::rt::Files;
use std::sync::Wait;
use std::thread::Threads;
use std::{fs, io};

// The text of a folder is played on threads, with two workers a server, or eight; or so that its
// transcript is written, which is then played again.
const THREADS: &[&str] = &["nomadsim", "threads", "text.json"];

const OF_EIGHT: &[&str] = &["nomadsim", "threads", "text.json", "--workers", "8"];

const WRITTEN: &[&str] = &["nomadsim", "threads", "text.json", "--out", "transcript"];

const REPLAY: &[&str] = &["nomadsim", "replay", "transcript"];

// Raft's first election: each of three servers answers, and nothing else is sent.
const ELECTION: &[u8] = b"{ \"servers\": 3, \"nodes\": [], \"key\": 0, \"drop\": 0, \"repeat\": 0,
  \"order\": \"sent\", \"steps\": [\"timeout 1\", \"flow\"] }";

const ELECTED: &[u8] = b"server 1 leader term 1 last 1 applied 0
server 2 follower term 1 last 0 applied 0
server 3 follower term 1 last 0 applied 0
events 5 messages 4
";

// A job of two, on two nodes; server 2 takes its evaluation, and its workers go on by themselves.
const PLACED: &[u8] = b"{ \"servers\": 3, \"nodes\": [
    {\"class\": \"linux\", \"cpu\": 1000, \"mem\": 1000},
    {\"class\": \"linux\", \"cpu\": 1000, \"mem\": 1000}],
  \"key\": 0, \"drop\": 0, \"repeat\": 0, \"order\": \"sent\", \"steps\": [
    \"timeout 1\", \"flow\", \"beat 1\", \"flow\", \"register 1 1\", \"register 2 1\", \"flow\",
    \"request 1 put web 50 main:2:linux:600:300:0\", \"beat 1\", \"flow\", \"take 2 1\", \"flow\"";

const ROUND: &[u8] = b",
    \"beat 1\", \"flow\", \"plan 1\", \"flow\", \"pull 1 1\", \"flow\", \"pull 2 1\", \"flow\"";

const ROUNDS: u32 = 1_000;

// A group whose nodes differ.
const DIFFERENT: &[u8] = b"{ \"servers\": 3, \"nodes\": [
    {\"class\": \"linux\", \"cpu\": 1000, \"mem\": 2000},
    {\"class\": \"linux\", \"cpu\": 3000, \"mem\": 4000},
    {\"class\": \"metal\", \"cpu\": 1000, \"mem\": 4000, \"disk\": 500}],
  \"key\": 0, \"drop\": 0, \"repeat\": 0, \"order\": \"sent\",
  \"steps\": [\"timeout 1\", \"flow\"] }";

const NODE_LINES: &[u8] = b"servers 3
node 1 linux 1000 2000 0
node 2 linux 3000 4000 0
node 3 metal 1000 4000 500
timeout 1
";

const LEADER: &[u8] = b"server 1 leader term 1 last 8 applied 8";

const FIRST: &[u8] = b"alloc web.main[0] id 5.0 node 1 running";

const SECOND: &[u8] = b"alloc web.main[1] id 5.1 node 2 running";

// A group that has no leader, and one client.
const CROWDED: &[u8] = b"{ \"servers\": 3, \"nodes\": [
    {\"class\": \"linux\", \"cpu\": 1000, \"mem\": 1000}],
  \"key\": 0, \"drop\": 0, \"repeat\": 0, \"order\": \"sent\", \"steps\": [
    \"timeout 1\"";

const HEARTBEATS: u32 = 20_000;
// Steps that no follower takes, before and after the election.
const REFUSED: &[u8] = b"{ \"servers\": 3, \"nodes\": [], \"key\": 0, \"drop\": 0, \"repeat\": 0,
  \"order\": \"sent\", \"steps\": [\"request 1 stop web\", \"timeout 1\", \"flow\",
    \"request 2 stop web\"] }";

const REFUSALS: &[u8] = b"refused 2 request 1 stop web
refused 2 request 2 stop web
";

// Server 3 is away while the first entry is committed and covered, and gets a snapshot; the leader
// begins again with what its own snapshot covers.
const COVERED: &[u8] = b"{ \"servers\": 3, \"nodes\": [], \"key\": 0, \"drop\": 0, \"repeat\": 0,
  \"order\": \"sent\", \"steps\": [\"timeout 1\", \"flow\", \"crash 3\", \"beat 1\", \"flow\",
    \"beat 1\", \"flow\", \"compact 1\", \"restart 3\", \"beat 1\", \"flow\", \"compact 2\",
    \"crash 1\", \"restart 1\"] }";

const ALL_APPLIED: &[u8] = b"server 1 follower term 1 last 1 applied 1
server 2 follower term 1 last 1 applied 1
server 3 follower term 1 last 1 applied 1
events 22 messages 14
";

// How many times each is played; each time the threads may meet in another order.
const TIMES: u32 = 20;

fn is_elected<R: Threads + Wait + Copy + Send + Sync + 'static>(
    rt: &HostRuntime,
    on: R,
    words: &[&str],
) -> bool {
    is_said(&run_alone(rt, on, ELECTION, words), ELECTED)
}

/// Plays the first election, and says how often it came to the lines that it has to come to.
pub(crate) fn elections<R: Threads + Wait + Copy + Send + Sync + 'static>(
    rt: &HostRuntime,
    on: R,
) -> io::Result<()> {
    let mut of_two: u32 = 0;
    let mut of_eight: u32 = 0;
    for _ in 0..TIMES {
        of_two = of_two.saturating_add(u32::from(is_elected(rt, on, THREADS)));
        of_eight = of_eight.saturating_add(u32::from(is_elected(rt, on, OF_EIGHT)));
    }
    println!(rt; "threads of an election: as foreseen {of_two} and {of_eight} times")
}

/// Plays an election with two refused steps, and says how often it named them at once and answered
/// that a step was refused.
pub(crate) fn refusals<R: Threads + Wait + Copy + Send + Sync + 'static>(
    rt: &HostRuntime,
    on: R,
) -> io::Result<()> {
    let mut count: u32 = 0;
    for _ in 0..TIMES {
        if is_refused(&run_alone(rt, on, REFUSED, THREADS)) {
            count = count.saturating_add(1);
        }
    }
    println!(rt; "threads of refused steps: as foreseen {count} times")
}

// Whether the two refused steps were named, and the election ended as it has to.
fn is_refused(printed: &Printed) -> bool {
    let ended = printed.out.strip_prefix(REFUSALS) == Some(ELECTED);
    printed.status == 1 && printed.err.is_empty() && ended
}

// Whether this was said, with status 0 and nothing on the standard error.
fn is_said(printed: &Printed, wanted: &[u8]) -> bool {
    printed.status == 0 && printed.err.is_empty() && printed.out.as_slice() == wanted
}

/// Plays compactions, a snapshot that is sent and a restart, and says how often they came to the
/// lines that they have to come to, and how often the transcript, played again, did.
pub(crate) fn compactions<R: Threads + Wait + Copy + Send + Sync + 'static>(
    rt: &HostRuntime,
    on: R,
) -> io::Result<()> {
    let mut played: u32 = 0;
    let mut again: u32 = 0;
    for _ in 0..TIMES {
        let (is_played, is_again) = compacted(rt, on);
        played = played.saturating_add(u32::from(is_played));
        again = again.saturating_add(u32::from(is_again));
    }
    println!(rt; "threads of compactions: as foreseen {played} times, again {again} times")
}

// Whether they came to these lines, and whether the transcript, played again, did.
fn compacted<R: Threads + Wait + Copy + Send + Sync + 'static>(
    rt: &HostRuntime,
    on: R,
) -> (bool, bool) {
    let mut folder = Folder::new(rt, COVERED);
    let is_played = is_said(&run_words(rt, on, &mut folder, WRITTEN), ALL_APPLIED);
    let is_again = is_said(&run_words(rt, on, &mut folder, REPLAY), ALL_APPLIED);
    (is_played, is_again)
}

fn placing(rt: &HostRuntime) -> Result<Vec<u8>, AllocError> {
    let mut text = PLACED.to_vec(rt.alloc())?;
    for _ in 0..ROUNDS {
        text.extend_from_slice(ROUND)?;
    }
    text.extend_from_slice(b"] }")?;
    Ok(text)
}

fn says(out: &[u8], line: &[u8]) -> bool {
    out.split(|byte| *byte == b'\n').any(|l| l == line)
}

// Whether the leader and the allocations stand as they have to.
fn is_placed(printed: &Printed) -> bool {
    let out = printed.out.as_slice();
    printed.status == 0 && out.starts_with(LEADER) && says(out, FIRST) && says(out, SECOND)
}

/// Plays a job's way to its nodes, of which the workers go theirs by themselves, and says how often
/// the leader and the allocations stood as they have to.
pub(crate) fn placements<R: Threads + Wait + Copy + Send + Sync + 'static>(
    rt: &HostRuntime,
    on: R,
) -> io::Result<()> {
    let text = placing(rt)?;
    let mut count: u32 = 0;
    for _ in 0..TIMES {
        if is_placed(&run_alone(rt, on, &text, THREADS)) {
            count = count.saturating_add(1);
        }
    }
    println!(rt; "threads of a placement: as foreseen {count} times")
}

// More heartbeats than wait in a queue, none of which is waited for.
fn crowding(rt: &HostRuntime) -> Result<Vec<u8>, AllocError> {
    let mut text = CROWDED.to_vec(rt.alloc())?;
    for _ in 0..HEARTBEATS {
        text.extend_from_slice(b", \"ping 1 1\"")?;
    }
    text.extend_from_slice(b"] }")?;
    Ok(text)
}

/// Plays heartbeats until some find no room, and says whether the standard error was told of that
/// in one line, with status 0.
pub(crate) fn losses<R: Threads + Wait + Copy + Send + Sync + 'static>(
    rt: &HostRuntime,
    on: R,
) -> io::Result<()> {
    let text = crowding(rt)?;
    let mut is_told = false;
    for _ in 0..TIMES {
        let printed = run_alone(rt, on, &text, THREADS);
        if !printed.err.is_empty() {
            is_told = printed.status == 0 && is_loss(&printed.err);
            break;
        }
    }
    println!(rt; "threads without room: told {is_told}")
}

// Whether this is the one line of lost messages.
fn is_loss(text: &[u8]) -> bool {
    let (head, tail) = (b"nomadsim: lost ", b" messages\n");
    let Some(rest) = text.strip_prefix(head) else {
        return false;
    };
    match rest.strip_suffix(tail) {
        Some(number) => !number.is_empty()
            && number[0] != b'0'
            && number.iter().all(|byte| byte.is_ascii_digit()),
        None => false,
    }
}

// The scenario of a file, on a net that loses 20 of a hundred messages and repeats 20.
fn on_a_bad_net(rt: &HostRuntime, name: &str) -> io::Result<Vec<u8>> {
    let text = file_of(rt, name, "json")?;
    let mut bad = Vec::new(rt.alloc());
    for line in text.split(|byte| *byte == b'\n') {
        bad.extend_from_slice(of_a_bad_net(line))?;
        bad.push(b'\n')?;
    }
    Ok(bad)
}

// The line of a scenario with those numbers, where it says how many are lost or come again.
fn of_a_bad_net(line: &[u8]) -> &[u8] {
    if line.starts_with(b"  \"drop\"") {
        b"  \"drop\": 20,"
    } else if line.starts_with(b"  \"repeat\"") {
        b"  \"repeat\": 20,"
    } else {
        line
    }
}

/// Plays the scenario of each line of `lessons` on a bad net; its transcript, played again, has to
/// print the same but for the refused steps.
pub(crate) fn replayed<R: Threads + Wait + Copy + Send + Sync + 'static>(
    rt: &HostRuntime,
    on: R,
) -> io::Result<()> {
    let names = fs::read_to_string(rt, "lessons")?;
    for name in names.lines() {
        let is_same = is_played_again(rt, on, &on_a_bad_net(rt, name)?);
        println!(rt; "threads of {name}, again: {is_same}")?;
    }
    Ok(())
}

// Whether the transcript of a scenario, played again, prints the same but for the refused steps.
fn is_played_again<R: Threads + Wait + Copy + Send + Sync + 'static>(
    rt: &HostRuntime,
    on: R,
    text: &[u8],
) -> bool {
    let mut folder = Folder::new(rt, text);
    let played = run_words(rt, on, &mut folder, WRITTEN);
    let again = run_words(rt, on, &mut folder, REPLAY);
    again.status == 0
        && !again.out.is_empty()
        && again.out.as_slice() == behind_refusals(&played.out)
}

/// Plays a group whose nodes differ, and says whether its transcript has them, each under its own
/// number.
pub(crate) fn nodes<R: Threads + Wait + Copy + Send + Sync + 'static>(
    rt: &HostRuntime,
    on: R,
) -> io::Result<()> {
    let mut folder = Folder::new(rt, DIFFERENT);
    let played = run_words(rt, on, &mut folder, WRITTEN);
    let has_them = folder
        .transcript()
        .is_some_and(|text| text.starts_with(NODE_LINES));
    let is_so = played.status == 0 && has_them;
    println!(rt; "threads of nodes that differ: {is_so}")
}
