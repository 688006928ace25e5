// Replays recorded answers: reads sections from standard input and compares each answer with this
// repository's own. Prints the counts; at most ten differing cases are named, counted from 1.
#![tactic(auto)]

mod answers;
mod header;
mod state;
mod window;

ghost use Rattle.std.specs.Prelude.{◌≡◌, ◌≤◌, length};
ghost use Rattle.replay.specs.State.{Placed};
ghost use Rattle.replay.specs.Window.{Within};
ghost use Rattle.replay.specs.Turn.{taken, list_after, compared, begun, sought, Stepped};

use crate::answers::is_right;
use crate::header::{Header, Section, Topic, read_header, topic_name};
use crate::state::{Counts, State, counted, passed, start};
use crate::window::{Window, advanced, ready};
use output::put::copy_bytes;
use output::writer::Writer;
use program::STDOUT;

// What follows a turn: the next one, or the end of the input, which has counts to print too and is no None.
#[derive(Clone, Copy)]
pub enum Turn {
    On(State),
    Done(State),
}

// What a header asks for: nothing more, a list, or an answer, of so many bytes.
#[derive(Clone, Copy)]
pub enum Next {
    Over(Turn),
    Take(State, usize),
    Compare(State, Topic, usize),
}

// So many bytes are asked for before a header is read.
const HEADER: usize = 64;

// Takes the list of a new case; None where it is too long, or not all there.
fn take_list(buf: &[u8], list: &mut [u8], s: State, size: usize) -> Option<State>
    requires { Placed (length buf.now) (length list.old) s }
    ensures value { result ≡ taken (length list.old) s size }
    ensures list_after { list.new ≡ list_after buf.now list.old s size }
{
    let unread = &buf[s.at.from..s.at.to];
    if list.len() < size || unread.len() < size {
        return None;
    }
    copy_bytes(list, 0, &unread[..size]);
    Some(State {
        at: advanced(s.at, size),
        list: size,
        cases: s.cases.saturating_add(1),
        ..s
    })
}

fn name_difference(case: usize, topic: Topic) {
    let mut out = [0; 64];
    let mut w = Writer::new(&mut out);
    w.bytes(b"differs case ");
    w.number(case);
    w.bytes(b" section ");
    w.bytes(topic_name(topic));
    w.byte(b'\n');
    let end = w.at;
    io::write_all(STDOUT, &out[..end]);
}

// Compares an answer of the case at hand, and names it for the first ten differences; None where there is no case yet,
// or the answer is not all there.
fn compare(buf: &[u8], list: &[u8], s: State, topic: Topic, size: usize) -> Option<State>
    requires { Placed (length buf.now) (length list.now) s }
    ensures { result ≡ compared buf.now list.now s topic size }
{
    let unread = &buf[s.at.from..s.at.to];
    if s.cases == 0 || unread.len() < size {
        return None;
    }
    let right = is_right(topic, &list[..s.list], &unread[..size]);
    if !right && s.counts.differences < 10 {
        name_difference(s.cases, topic);
    }
    Some(State {
        at: advanced(s.at, size),
        counts: counted(s.counts, topic, right),
        ..s
    })
}

// What a header asks for; its section starts where the header ends.
fn begin(s: State, header: Header) -> Next
    ensures { result ≡ begun s header }
{
    let at = Window {
        from: header.start,
        to: s.at.to,
    };
    let next = State { at, ..s };
    match header.section {
        Section::List => Next::Take(next, header.size),
        Section::Answer(topic) => Next::Compare(next, topic, header.size),
        Section::Other => Next::Over(Turn::On(State {
            skip: header.size,
            ..next
        })),
    }
}

// Goes on with what is passed over, or reads a header; None where there is none, or the input ends within a section.
fn seek(buf: &[u8], s: State) -> Option<Next>
    requires { Within (length buf.now) s.at }
    ensures { result ≡ sought buf.now s }
{
    if s.at.from == s.at.to {
        return if 0 < s.skip {
            None
        } else {
            Some(Next::Over(Turn::Done(s)))
        };
    }
    if 0 < s.skip {
        return Some(Next::Over(Turn::On(passed(s))));
    }
    let header = read_header(&buf[s.at.from..s.at.to], s.at.from)?;
    Some(begin(s, header))
}

// One section, or a part of one that is passed over; None where the input is no section.
fn step(buf: &mut [u8], list: &mut [u8], s: State) -> Option<Turn>
    requires { Placed (length buf.old) (length list.old) s }
    ensures { Stepped buf.old buf.new list.old list.new s result }
{
    let at = ready(buf, s.at, HEADER);
    match seek(buf, State { at, ..s })? {
        Next::Over(turn) => Some(turn),
        Next::Take(next, size) => {
            let at = ready(buf, next.at, size);
            take_list(buf, list, State { at, ..next }, size).map(Turn::On)
        }
        Next::Compare(next, topic, size) => {
            let at = ready(buf, next.at, size);
            compare(buf, list, State { at, ..next }, topic, size).map(Turn::On)
        }
    }
}

// A line with a name, which ends in a space, and a count.
fn print_count(name: &[u8], count: usize)
    requires { length name.now ≤ 16 }
{
    let mut out = [0; 64];
    let mut w = Writer::new(&mut out);
    w.bytes(name);
    w.number(count);
    w.byte(b'\n');
    let end = w.at;
    io::write_all(STDOUT, &out[..end]);
}

fn print_counts(counts: Counts) {
    print_count(b"check ", counts.checks);
    print_count(b"roles ", counts.roles);
    print_count(b"every ", counts.everys);
    print_count(b"listing ", counts.listings);
    print_count(b"generics ", counts.generics);
    print_count(b"tagged ", counts.taggeds);
    print_count(b"differences ", counts.differences);
}

// Turns to the end of the input, counted since nothing says that it ends.
fn replay(buf: &mut [u8], list: &mut [u8]) {
    let mut s = start();
    for _ in 0..u64::MAX {
        match step(buf, list, s) {
            Some(Turn::On(next)) => s = next,
            Some(Turn::Done(last)) => {
                print_counts(last.counts);
                return;
            }
            None => {
                io::write_all(STDOUT, b"malformed\n");
                return;
            }
        }
    }
}

// The bytes of the input that are kept, and more than a list has.
const BUFFER: usize = 262144;

const LIST: usize = 70000;

fn main() {
    let mut buf = [0; BUFFER];
    let mut list = [0; LIST];
    prove!(buf.len() == 262144 && list.len() == 70000);
    replay(&mut buf, &mut list);
}
