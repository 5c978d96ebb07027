// The program `retro`: rates the group file on standard input and prints document 01's lines, or `refused` and the number. It
// reads one byte more than the largest file has: of a longer input the header is the same, and question 8 is answered No for
// the part read as for the whole. An input that cannot be read, output that cannot be written and an argument are no refusals:
// each is told on standard error, but where nobody reads the output any more.
#![tactic(auto)]

ghost use Rattle.std.specs.Prelude.{◌≡◌, ◌+◌, length};
ghost use Rattle.plan.specs.Sizes.{largest_file};
ghost use Rattle.retro.specs.Input.{Within, ReadsAll};

use group::{LARGEST_FILE, MOST_RISKS};
use rating::details::{Details, details_of};
use rating::rates::{GroupFigures, rate};
use std::env::{Env, FillError};
use std::io::{Cursor, ErrorKind, Read, Write};
use std::process::ExitCode;
use std::{io, str};

// The signal that ends a program whose output nobody reads.
const SIGPIPE: u8 = 13;

// Reads until the input ends or the buffer is full; how many bytes there are. Each read gives as many as it likes, so no range or
// iterator steps as this loop does.
fn read_input<R: Read>(reader: &mut R, input: &mut [u8]) -> io::Result<usize>
    ensures within { Within result input.new }
    ensures all { ReadsAll result (R.remaining reader.old) (R.remaining reader.new) input.new }
{
    let mut done: usize = 0;
    while done < input.len() {
        let more = reader.read(&mut input[done..])?;
        if more == 0 {
            return Ok(done);
        }
        done += more;
    }
    Ok(done)
}

// The word, n, M, Q and the sum billed.
fn print_group(rt: &impl Print, figures: GroupFigures) -> io::Result<()> {
    println!(rt; "group {figures}")
}

// A line for each risk: its number, L, A, K and its premium, which lies in four bytes.
fn print_risks(rt: &impl Print, details: &Details, premiums: &[u8]) -> io::Result<()> {
    let (bills, _) = premiums.as_chunks::<4>();
    let risks = details
        .losses
        .lent()
        .each
        .iter()
        .zip(&details.ratables)
        .zip(bills);
    for (number, ((risk, ratable), bill)) in (1..=MOST_RISKS).zip(risks) {
        let premium = u32::from_be_bytes(*bill);
        println!(rt;
            "{number} {} {} {ratable} {premium}",
            risk.total, risk.limited
        )?;
    }
    Ok(())
}

// Rates a file and prints what comes of it; the buffer has room for 255 premiums.
fn report(rt: &impl Print, file: &[u8], premiums: &mut [u8]) -> io::Result<()> {
    match rate(file, premiums) {
        Err(refusal) => println!(rt; "refused {refusal}"),
        Ok(figures) => {
            print_group(rt, figures)?;
            print_risks(rt, &details_of(file), premiums)
        }
    }
}

// Tells on standard error what failed, and why: the system's words, without the number that an error shows after them.
fn tell(rt: &impl Eprint, what: &str, error: io::Error) {
    let mut shown = Cursor::new([0u8; 256]);
    let _ = write!(shown, "{error}");
    let n = shown.position() as usize;
    let bytes = shown.into_inner();
    let text = str::from_utf8(bytes.get(..n).unwrap_or(&[])).unwrap_or("");
    let words = text.split_once(" (os error ").map_or(text, |parts| parts.0);
    let _ = eprintln!(rt; "retro: {what}: {words}");
}

// The exit status where the output cannot be written. Where nobody reads it any more nothing is told, and the status is
// the one that a shell gives a program that SIGPIPE ended.
fn unwritten(rt: &impl Eprint, error: io::Error) -> ExitCode {
    if error.kind() == ErrorKind::BrokenPipe {
        return ExitCode::from(128 + SIGPIPE);
    }
    tell(rt, "standard output", error);
    ExitCode::FAILURE
}

// Room for the largest file and for one byte more, by which a longer one is refused.
fn room_for_input() -> [u8; LARGEST_FILE + 1]
    ensures { length result ≡ largest_file + 1 }
{
    [0; LARGEST_FILE + 1]
}

// Whether the program was started with an argument.
fn has_argument(rt: &impl Env) -> bool {
    !matches!(rt.arg(1, &mut []), Err(FillError::NotPresent))
}

fn main(rt: HostRuntime) -> ExitCode {
    if has_argument(&rt) {
        let _ = eprintln!(rt; "usage: retro < FILE");
        return ExitCode::SUCCESS;
    }
    let mut input = room_for_input();
    let mut premiums = [0u8; 4 * MOST_RISKS];
    let n = match read_input(&mut rt.stdin(), &mut input) {
        Ok(n) => n,
        Err(error) => {
            tell(&rt, "standard input", error);
            return ExitCode::FAILURE;
        }
    };
    match report(&rt, &input[..n], &mut premiums) {
        Ok(()) => ExitCode::SUCCESS,
        Err(error) => unwritten(&rt, error),
    }
}
