// wall: prepares 65,536 bytes with the tariff 3 1 2, 1 4 4, 3 2 and runs standard input as one batch. Prints each answer as lower-case
// hexadecimal on a line, then `charge` and the sum of the panels' charges; or only `refused` and the number.
#![tactic(auto)]

ghost use Rattle.std.specs.Prelude.{◌≡◌, ◌<◌, ◌≤◌, ◌^◌, IfOk, length};
ghost use Rattle.laws.specs.Update.{sum};
ghost use Rattle.layout.specs.Layout.{panels};

use layout::{BLOCK_BYTES, FEWEST_BLOCKS, MOST_BATCH_BYTES, PANELS, TABLE_BYTES};
use std::io;
use std::io::Read;
use wall_book::{wall_book_batch, wall_book_prepare};
use wire::number::read16;

// So much of standard input is read: a byte more than a batch may have, so that one that is too long is refused.
const MOST_INPUT: usize = MOST_BATCH_BYTES + 1;

// Prints bytes as one line.
fn print_line(rt: &impl Print, bytes: &[u8]) -> io::Result<()> {
    for byte in bytes {
        print!(rt; "{byte:02x}")?;
    }
    println!(rt; "")
}

// Prints answers one by one: each is a tag, a length of two bytes, and so many bytes.
fn print_answers(rt: &impl Print, answers: &[u8]) -> io::Result<()> {
    let mut rest = answers;
    while rest.len() >= 3 {
        let size = 3 + read16(rest, 1) as usize;
        let Some((answer, behind)) = rest.split_at_checked(size) else {
            return Ok(());
        };
        print_line(rt, answer)?;
        rest = behind;
    }
    Ok(())
}

// Prints a word and a number on a line.
fn print_number(rt: &impl Print, word: &str, number: u64) -> io::Result<()> {
    println!(rt; "{word} {number}")
}

// What all panels are charged together.
fn total(charges: &[u64; PANELS]) -> u64
    requires { (length charges.now ≡ panels) × (sum charges.now < 2 ^ 44) }
    ensures { result ≡ sum charges.now }
{
    charges.iter().sum()
}

// Runs a batch and prints what it answers.
fn run(
    rt: &impl Print,
    pool: &mut [u8],
    table: &mut [u8],
    commands: &[u8],
    answers: &mut [u8],
) -> io::Result<()> {
    let mut length: usize = 0;
    let mut charges = [0u64; PANELS];
    let refused = wall_book_batch(pool, table, commands, answers, &mut length, &mut charges);
    if refused != 0 {
        return print_number(rt, "refused", u64::from(refused));
    }
    let charge = total(&charges);
    if let Some(laid) = answers.get(..length) {
        print_answers(rt, laid)?;
    }
    print_number(rt, "charge", charge)
}

// Reads until the buffer is full or the input ends, and says how many bytes came.
fn read_full(input: &mut impl Read, buffer: &mut [u8]) -> io::Result<usize>
    ensures { IfOk result (λ size. size ≤ length buffer.new) }
{
    let mut size: usize = 0;
    while size < buffer.len() {
        let got = input.read(&mut buffer[size..])?;
        if got == 0 {
            break;
        }
        size += got;
    }
    Ok(size)
}

fn main(rt: HostRuntime) -> io::Result<()> {
    let mut pool = [0u8; FEWEST_BLOCKS * BLOCK_BYTES];
    let mut table = [0u8; FEWEST_BLOCKS * TABLE_BYTES];
    let mut input = [0u8; MOST_INPUT];
    let mut answers = [0u8; 65536];
    wall_book_prepare(&mut pool, 3, 1, 2, 1, 4, 4, 3, 2);
    let size = read_full(&mut rt.stdin(), &mut input)?;
    run(&rt, &mut pool, &mut table, &input[..size], &mut answers)
}
