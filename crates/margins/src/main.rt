// margins PLAN: prints the admission report of a plan file, a line a row, or the refusal of a plan that has no margins.
// What cannot be opened or read is named on standard error, and then nothing is printed.
#![tactic(auto)]

ghost use Rattle.std.specs.Prelude.{◌≡◌, ◌≤◌, length, take};
ghost use Rattle.std.specs.Counts.{IsPrefixLen};
ghost use Rattle.line.specs.Report.{report};

use files::{argument, argument_count, open_file, read_file, write_out};
use run::fill_of;
use run::report::report;
use std::fs::File;

// "Admission": the report of a text at the start of the buffer, and its length. Any report has room there.
fn report_of(text: &[u8], out: &mut [u8]) -> usize
    requires { 1024 ≤ length out.old }
    ensures prefix_len { IsPrefixLen result out.new }
    ensures out_after { take result out.new ≡ report text.now }
{
    fill_of(report(text, out, 0))
}

fn print_report(rt: &HostRuntime, text: &[u8]) {
    let mut out = [0u8; 1024];
    let n = report_of(text, &mut out);
    let _ = write_out(rt, &out[..n]);
}

// "Admission", 20: a longer file is refused for its length, so no more than 16,385 bytes are read.
fn print_file(rt: &HostRuntime, file: &mut File, path: &[u8]) {
    let mut buf = [0u8; 16385];
    let Ok(n) = read_file(rt, file, path, &mut buf) else {
        return;
    };
    print_report(rt, &buf[..n]);
}

fn main(rt: HostRuntime) {
    if argument_count(&rt) != 2 {
        let _ = eprintln!(rt; "usage: margins PLAN");
        return;
    }
    let mut path = [0u8; 4096];
    let Some(length) = argument(&rt, 1, b"margins: PLAN", &mut path) else {
        return;
    };
    let Some(mut file) = open_file(&rt, &path[..length]) else {
        return;
    };
    print_file(&rt, &mut file, &path[..length]);
}
