// The line that the program `extract` prints of an answer.
#![tactic(auto)]

ghost use Rattle.std.specs.Prelude.{◌+◌, ◌≤◌, ◌++◌, length, Some, Ok, Err};
ghost use Rattle.std.specs.Fmt.{decimal};
ghost use Rattle.format.specs.Put.{Wrote};
ghost use Rattle.format.specs.Names.{route_name, pack_name};
ghost use Rattle.report.specs.Report.{line_of, most_digits, longest_name, line_room};

use format::{Answer, Done, Pack, Refused, Route};
use std::fmt;

// An answer as its line, with the newline at its end.
#[derive(Clone, Copy, Debug, PartialEq, Eq)]
pub struct Line(pub Answer);

impl fmt::Display for Line {
    ghost output = { λ line. Some (line_of line.0) };

    fn fmt<W: fmt::Write>(&self, f: &mut fmt::Formatter<W>) -> fmt::Result {
        match self.0 {
            Ok(done) => writeln!(f, "{done}"),
            Err(refused) => writeln!(f, "{refused}"),
        }
    }
}

// A text at a place.
fn put_text(out: &mut [u8], at: usize, text: &[u8]) -> usize
    requires { at + length text.now ≤ length out.old }
    ensures { Wrote out.old at text.now out.new result }
{
    copies::copy(out, at, text, 0, text.len())
}

// A number in decimal at a place: the digits before the last, if there are any, and the last.
fn put_decimal(out: &mut [u8], at: usize, x: u64) -> usize
    requires { at + length (decimal x) ≤ length out.old }
    ensures { Wrote out.old at (decimal x) out.new result }
{
    if x < 10 {
        out[at] = b'0' + x as u8;
        return at + 1;
    }
    let last = put_decimal(out, at, x / 10);
    out[last] = b'0' + (x % 10) as u8;
    last + 1
}

// A text and a number.
fn put_count(out: &mut [u8], at: usize, text: &[u8], x: u64) -> usize
    requires { at + length text.now + most_digits ≤ length out.old }
    ensures wrote { Wrote out.old at (text.now ++ decimal x) out.new result }
    ensures upper_bound { result ≤ at + length text.now + most_digits }
{
    let next = put_text(out, at, text);
    put_decimal(out, next, x)
}

// A route's name.
fn put_route(out: &mut [u8], at: usize, route: Route) -> usize
    requires { at + longest_name ≤ length out.old }
    ensures wrote { Wrote out.old at (route_name route) out.new result }
    ensures upper_bound { result ≤ at + longest_name }
{
    match route {
        Route::None => put_text(out, at, b"none"),
        Route::All => put_text(out, at, b"all"),
        Route::Slices => put_text(out, at, b"slices"),
        Route::Indices => put_text(out, at, b"indices"),
    }
}

// A pack's name.
fn put_pack(out: &mut [u8], at: usize, pack: Pack) -> usize
    requires { at + longest_name ≤ length out.old }
    ensures wrote { Wrote out.old at (pack_name pack) out.new result }
    ensures upper_bound { result ≤ at + longest_name }
{
    match pack {
        Pack::Mask => put_text(out, at, b"mask"),
        Pack::Journal => put_text(out, at, b"journal"),
    }
}

// The line of a call that was not refused.
fn put_done(out: &mut [u8], done: Done) -> usize
    requires { line_room ≤ length out.old }
    ensures wrote { Wrote out.old 0 (line_of (Ok done)) out.new result }
    ensures upper_bound { result ≤ line_room }
{
    let next = put_count(out, 0, b"rows ", done.kept);
    let next = put_count(out, next, b" of ", done.slots);
    let next = put_text(out, next, b" route ");
    let next = put_route(out, next, done.route);
    let next = put_count(out, next, b" bytes ", done.bytes);
    put_text(out, next, b"\n")
}

// The line of a refusal.
fn put_refused(out: &mut [u8], refused: Refused) -> usize
    requires { line_room ≤ length out.old }
    ensures wrote { Wrote out.old 0 (line_of (Err refused)) out.new result }
    ensures upper_bound { result ≤ line_room }
{
    let next = put_count(out, 0, b"refused ", u64::from(refused.reason));
    let next = put_text(out, next, b" ");
    let end = put_pack(out, next, refused.pack);
    put_text(out, end, b"\n")
}

// The line of an answer, at the front of `out`; gives its length. No call of it fails, where a writer that `Line` is printed to may.
pub fn line_of(answer: Answer, out: &mut [u8]) -> usize
    requires { line_room ≤ length out.old }
    ensures wrote { Wrote out.old 0 (line_of answer) out.new result }
    ensures upper_bound { result ≤ line_room }
{
    match answer {
        Ok(done) => put_done(out, done),
        Err(refused) => put_refused(out, refused),
    }
}
