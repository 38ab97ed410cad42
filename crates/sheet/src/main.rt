// Prints the sheet of the taps on standard input. Reading and writing are all that is not proved.
#![tactic(auto)]

ghost use Rattle.std.specs.Prelude.{IfSome, ◌≤◌, length};

use std::env::{Env, FillError};
use std::io::Read;
use std::process::ExitCode;

// The first argument, which stands at the start of the area, or none. One that is longer than the
// area is empty here.
fn first_argument<'a, R: Env>(rt: &R, area: &'a mut [u8]) -> Option<&'a [u8]>
    ensures { IfSome result (λ bytes. length bytes.now ≤ length area.old) }
{
    match rt.arg(1, area) {
        Ok(n) => Some(&area[..n]),
        Err(FillError::TooLong) => Some(&[]),
        Err(FillError::NotPresent) => None,
    }
}

// The input, which stands at the start of the area: until the area is full, the input ends or a read
// fails.
fn read_input<'a, R: Read>(input: &mut R, area: &'a mut [u8]) -> &'a [u8]
    ensures { length result.now ≤ length area.old }
{
    let mut done = 0;
    while done < area.len() {
        match input.read(&mut area[done..]) {
            Ok(0) | Err(_) => break,
            Ok(n) => done += n,
        }
    }
    &area[..done]
}

fn main(rt: HostRuntime) -> ExitCode {
    // On x86-64 Linux passes no argument of 131,072 bytes or more.
    let mut area = [0u8; 131072];
    let argument = first_argument(&rt, &mut area);
    // 257 taps: whatever follows them, the sheet is the same.
    let mut area_of_input = [0u8; 2056];
    let input = read_input(&mut rt.stdin(), &mut area_of_input);
    let mut out = [0u8; sheet_text::AREA];
    let size = sheet_text::sheet(&mut out, input, argument);
    match rt.stdout().write_all(&out[..size]) {
        Ok(()) => ExitCode::SUCCESS,
        Err(error) => {
            let _ = eprintln!(rt; "sheet: standard output: {error}");
            ExitCode::FAILURE
        }
    }
}
