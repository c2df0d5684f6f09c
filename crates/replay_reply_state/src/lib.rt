// The line that shows a station's state. Where more follows a part of it, the part's contract bounds the place behind it.
#![tactic(auto)]

ghost use Rattle.std.specs.Prelude.{◌≡◌, ◌+◌, ◌≤◌};
ghost use Rattle.laws.specs.Usual.{length};
ghost use Rattle.copying.specs.Pasted.{pasted};
ghost use Rattle.replay_reply_state.specs.State.{phase_word, view_shown, head_text, pair_text, listed_text, entry_text, entries_from, state_text};

use members::{Entry, Members};
use replay_reply_parts::{put_mark, put_number, put_word};
use station::{Phase, Station};

fn put_phase(phase: Phase, output: &mut [u8], at: usize) -> usize
    requires { at + 13 ≤ length output.old }
    ensures value { result ≡ at + length (phase_word phase) }
    ensures output_after { output.new ≡ pasted output.old at (phase_word phase) }
{
    match phase {
        Phase::Off => put_word(b"off", output, at),
        Phase::Listening => put_word(b"listening", output, at),
        Phase::Startup => put_word(b"startup", output, at),
        Phase::Joining => put_word(b"joining", output, at),
        Phase::Participating => put_word(b"participating", output, at),
    }
}

fn view_shown(phase: Phase, view: u8) -> u8
    ensures { result ≡ view_shown phase view }
{
    if phase == Phase::Participating {
        view
    } else {
        0
    }
}

fn put_head(phase: Phase, number: u8, view: u8, output: &mut [u8], at: usize) -> usize
    requires { at + 35 ≤ length output.old }
    ensures upper_bound { result ≤ at + 35 }
    ensures value { result ≡ at + length (head_text phase number view) }
    ensures output_after { output.new ≡ pasted output.old at (head_text phase number view) }
{
    let shown = view_shown(phase, view);
    let word = put_phase(phase, output, at);
    let named = put_number(b' ', number as u32, output, word);
    put_number(b' ', shown as u32, output, named)
}

// Two numbers with a comma between them, and a mark in front.
fn put_pair(mark: u8, first: u32, second: u32, output: &mut [u8], at: usize) -> usize
    requires { at + 22 ≤ length output.old }
    ensures upper_bound { result ≤ at + 22 }
    ensures value { result ≡ at + length (pair_text mark first second) }
    ensures output_after { output.new ≡ pasted output.old at (pair_text mark first second) }
{
    let next = put_number(mark, first, output, at);
    put_number(b',', second, output, next)
}

fn put_listed(number: u32, entry: Entry, output: &mut [u8], at: usize) -> usize
    requires { at + 77 ≤ length output.old }
    ensures value { result ≡ at + length (listed_text number entry) }
    ensures output_after { output.new ≡ pasted output.old at (listed_text number entry) }
{
    let one = entry.areas.one;
    let two = entry.areas.two;
    let watch = entry.watch;
    let listed = put_number(b' ', number, output, at);
    let first = put_pair(b':', one.address as u32, one.size as u32, output, listed);
    let second = put_pair(b',', two.address as u32, two.size as u32, output, first);
    put_pair(b',', watch.0 as u32, entry.misses as u32, output, second)
}

// An entry that is not listed is left out.
fn put_entry(number: u32, entry: Entry, output: &mut [u8], at: usize) -> usize
    requires { at + 77 ≤ length output.old }
    ensures value { result ≡ at + length (entry_text number entry) }
    ensures output_after { output.new ≡ pasted output.old at (entry_text number entry) }
{
    if entry.listed {
        put_listed(number, entry, output, at)
    } else {
        at
    }
}

// An entry takes at most 77 octets, seven numbers with a mark in front of each.
fn put_entries(members: Members, output: &mut [u8], at: usize) -> usize
    requires { at + 19712 ≤ length output.old }
    ensures upper_bound { result ≤ at + 19712 }
    ensures value { result ≡ at + length (entries_from 0 members.entries) }
    ensures output_after { output.new ≡ pasted output.old at (entries_from 0 members.entries) }
{
    let mut end = at;
    for (number, entry) in members.entries.iter().enumerate() {
        end = put_entry(number as u32, *entry, output, end);
    }
    end
}

// Writes the line in front of the output, and answers its length.
pub fn put_state(station: Station, output: &mut [u8]) -> usize
    requires { 20000 ≤ length output.old }
    ensures value { result ≡ length (state_text station) }
    ensures output_after { output.new ≡ pasted output.old 0 (state_text station) }
{
    let phase = station.phase;
    let own = station.own;
    let members = station.members;
    let head = put_head(phase, own.number, station.view, output, 0);
    let end = put_entries(members, output, head);
    put_mark(b'\n', output, end)
}
