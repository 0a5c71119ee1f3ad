// worked: the cases of document 01, section "Worked", that a program executes, the pools of two small runs, and of document 02 panels (P2), the
// next route up (P3) and the desk (P5), through the calls that C makes.
// It prints a line for each; its file `stdout` has what must come out.
#![tactic(auto)]

ghost use Rattle.std.specs.Prelude.{◌≡◌, ◌+◌, ◌≤◌, length};
ghost use Rattle.layout.specs.Layout.{panels};

pub mod hash;

use hash::hash;
use layout::{BLOCK_BYTES, FEWEST_BLOCKS, LAST_KEY, PANELS, TABLE_BYTES};
use std::io;
use wall_book::{wall_book_batch, wall_book_desk, wall_book_prepare};
use wire::field::lay_head;
use wire::number::write32;

// The smallest pool.
const POOL_BYTES: usize = FEWEST_BLOCKS * BLOCK_BYTES;

// Prints what a case is, and the number that it ended with.
fn print_number(rt: &impl Print, case: &str, number: u32) -> io::Result<()> {
    println!(rt; "{case}{number}")
}

// Prints the charges of all panels, with commas between them.
fn print_charges(rt: &impl Print, charges: &[u64; PANELS]) -> io::Result<()>
    requires { length charges.now ≡ panels }
{
    for (panel, charge) in charges.iter().enumerate() {
        if 0 < panel {
            print!(rt; ",")?;
        }
        print!(rt; "{charge}")?;
    }
    Ok(())
}

// Prints what a case is, and the hash of the pool that it left.
fn print_pool(rt: &impl Print, case: &str, pool: &[u8]) -> io::Result<()> {
    println!(rt; "{case}pool {:016x}", hash(pool))
}

// Prepares a pool with document 01's tariff.
fn prepare(pool: &mut [u8]) -> u32 {
    wall_book_prepare(pool, 3, 1, 2, 1, 4, 4, 3, 2)
}

// Runs a batch with a table and answers that are long enough, and gives its number.
fn run(pool: &mut [u8], commands: &[u8], charges: &mut [u64; PANELS]) -> u32
    ensures { length charges.new ≡ panels }
{
    let mut table = [0u8; FEWEST_BLOCKS * TABLE_BYTES];
    let mut answers = [0u8; 1024];
    let mut length: usize = 0;
    wall_book_batch(
        pool,
        &mut table,
        commands,
        &mut answers,
        &mut length,
        charges,
    )
}

// Runs a batch that is refused, and prints the number.
fn refused(rt: &impl Print, case: &str, pool: &mut [u8], commands: &[u8]) -> io::Result<()> {
    let mut charges = [0u64; PANELS];
    let number = run(pool, commands, &mut charges);
    print_number(rt, case, number)
}

// Runs a batch, and prints what each panel is charged and the pool that is left.
fn done(rt: &impl Print, case: &str, pool: &mut [u8], commands: &[u8]) -> io::Result<()> {
    let mut charges = [0u64; PANELS];
    run(pool, commands, &mut charges);
    print!(rt; "{case}")?;
    print_left(rt, &charges, pool)
}

// Prints what each panel was charged, and the pool that is left.
fn print_left(rt: &impl Print, charges: &[u64; PANELS], pool: &[u8]) -> io::Result<()>
    requires { length charges.now ≡ panels }
{
    print_charges(rt, charges)?;
    print_pool(rt, ", ", pool)
}

// Serves queues with a table and answers that are long enough; prints the number, and where it is 0 what each panel is charged and the pool.
fn served(
    rt: &impl Print,
    case: &str,
    pool: &mut [u8],
    lengths: &[u8],
    queues: &[u8],
) -> io::Result<()> {
    let mut table = [0u8; FEWEST_BLOCKS * TABLE_BYTES];
    let mut answers = [0u8; 1024];
    let mut length: usize = 0;
    let mut charges = [0u64; PANELS];
    let number = wall_book_desk(
        pool,
        &mut table,
        lengths,
        queues,
        &mut answers,
        &mut length,
        &mut charges,
    );
    if number != 0 {
        return print_number(rt, case, number);
    }
    print!(rt; "{case}")?;
    print_left(rt, &charges, pool)
}

// "Pool of 49,152 bytes: 1; 65,536: accepted. Switch cost 0: 10."
fn prepares(rt: &impl Print) -> io::Result<()> {
    let mut short = [0u8; 49152];
    print_number(rt, "prepare 49152 bytes: ", prepare(&mut short))?;
    let mut pool = [0u8; POOL_BYTES];
    print_number(rt, "prepare 65536 bytes: ", prepare(&mut pool))?;
    let free = wall_book_prepare(&mut pool, 3, 1, 2, 1, 4, 4, 0, 2);
    print_number(rt, "prepare with a switch that costs 0: ", free)
}

// "Sweep of 0 or 33: 3."
fn scans(rt: &impl Print) -> io::Result<()> {
    let mut pool = [0u8; POOL_BYTES];
    prepare(&mut pool);
    let none = [4u8, 0, 10, 0, 0, 0, 3, 0, 0, 0, 9, 0, 0];
    refused(rt, "scan for 0 pairs: ", &mut pool, &none)?;
    let many = [4u8, 0, 10, 0, 0, 0, 3, 0, 0, 0, 9, 0, 33];
    refused(rt, "scan for 33 pairs: ", &mut pool, &many)
}

// The batch of the program `wall`: put 7 with 100, get 7, delete 7, get 7.
fn first_run(rt: &impl Print) -> io::Result<()> {
    let mut pool = [0u8; POOL_BYTES];
    prepare(&mut pool);
    print_pool(rt, "prepared: ", &pool)?;
    let commands = [
        2u8, 0, 8, 0, 0, 0, 7, 0, 0, 0, 100, 1, 0, 4, 0, 0, 0, 7, 3, 0, 4, 0, 0, 0, 7, 1, 0, 4, 0,
        0, 0, 7,
    ];
    done(rt, "put 7, get 7, delete 7, get 7: ", &mut pool, &commands)
}

// One put, eleven bytes.
fn lay_put(commands: &mut [u8], at: usize, key: u32, value: u32)
    requires { at + 11 ≤ length commands.old }
    ensures { length commands.new ≡ length commands.old }
{
    lay_head(commands, at, 2, 8);
    write32(commands, at + 3, key);
    write32(commands, at + 7, value);
}

// One command of a key alone, seven bytes: a get, a delete or a ceiling, by its tag.
fn lay_key(commands: &mut [u8], at: usize, tag: u8, key: u32)
    requires { at + 7 ≤ length commands.old }
    ensures { length commands.new ≡ length commands.old }
{
    lay_head(commands, at, tag, 4);
    write32(commands, at + 3, key);
}

// Puts of the keys 0 to 24 with the values 100 to 124.
fn lay_puts(commands: &mut [u8])
    requires { length commands.old ≡ 275 }
{
    for key in 0..25u32 {
        lay_put(commands, 11 * key as usize, key, 100 + key);
    }
}

// A root that splits, under a tariff that moves nothing.
fn second_run(rt: &impl Print) -> io::Result<()> {
    let mut pool = [0u8; POOL_BYTES];
    wall_book_prepare(&mut pool, 0, 0, 0, 0, 0, 0, 1, 1);
    print_pool(rt, "prepared, all free: ", &pool)?;
    let mut commands = [0u8; 275];
    lay_puts(&mut commands);
    done(rt, "25 puts, all free: ", &mut pool, &commands)
}

// "Command 05, length 1, names the panel (0 to 15) for the commands after it; a batch begins at panel 0." Three panels share the batch of `wall`; a
// panel named and nothing more; "a panel above 15 gives 3".
fn panels(rt: &impl Print) -> io::Result<()> {
    let mut pool = [0u8; POOL_BYTES];
    prepare(&mut pool);
    let shared = [
        5u8, 0, 1, 3, 2, 0, 8, 0, 0, 0, 7, 0, 0, 0, 100, 5, 0, 1, 15, 1, 0, 4, 0, 0, 0, 7, 3, 0, 4,
        0, 0, 0, 7, 5, 0, 1, 0, 1, 0, 4, 0, 0, 0, 7,
    ];
    done(
        rt,
        "panel 3 put 7, panel 15 get 7 and delete 7, panel 0 get 7: ",
        &mut pool,
        &shared,
    )?;
    prepare(&mut pool);
    done(rt, "panel 7: ", &mut pool, &[5u8, 0, 1, 7])?;
    refused(rt, "panel 16: ", &mut pool, &[5u8, 0, 1, 16])
}

// "That route or the nearest above": below the first key, at it, between two and above both.
fn ceilings(rt: &impl Print) -> io::Result<()> {
    let mut pool = [0u8; POOL_BYTES];
    prepare(&mut pool);
    let mut commands = [0u8; 50];
    lay_put(&mut commands, 0, 7, 100);
    lay_put(&mut commands, 11, 9, 200);
    lay_key(&mut commands, 22, 7, 0);
    lay_key(&mut commands, 29, 7, 7);
    lay_key(&mut commands, 36, 7, 8);
    lay_key(&mut commands, 43, 7, 10);
    done(
        rt,
        "put 7 and 9, ceilings of 0, 7, 8 and 10: ",
        &mut pool,
        &commands,
    )
}

// The greatest key can be asked for, and be found; a ceiling with a byte too many gives 3.
fn greatest_key(rt: &impl Print) -> io::Result<()> {
    let mut pool = [0u8; POOL_BYTES];
    prepare(&mut pool);
    let mut commands = [0u8; 32];
    lay_put(&mut commands, 0, LAST_KEY, 1);
    lay_key(&mut commands, 11, 7, LAST_KEY);
    lay_key(&mut commands, 18, 7, 8);
    lay_key(&mut commands, 25, 7, 0);
    done(
        rt,
        "put ffffffff, ceilings of it, 8 and 0: ",
        &mut pool,
        &commands,
    )?;
    refused(
        rt,
        "ceiling of five bytes: ",
        &mut pool,
        &[7u8, 0, 5, 0, 0, 0, 0, 0],
    )
}

// "Serves one command from each queue that still has any, in panel order, round and round": panel 0 puts and gets, panel 1 gets and deletes, by
// turns; three gets of panel 0 and one of panel 2; no queue at all.
fn desks(rt: &impl Print) -> io::Result<()> {
    let mut pool = [0u8; POOL_BYTES];
    prepare(&mut pool);
    let mut queues = [0u8; 32];
    lay_put(&mut queues, 0, 7, 100);
    lay_key(&mut queues, 11, 1, 7);
    lay_key(&mut queues, 18, 1, 7);
    lay_key(&mut queues, 25, 3, 7);
    let two = [0u8, 0, 0, 18, 0, 0, 0, 14];
    served(
        rt,
        "panel 0 put 7, get 7; panel 1 get 7, delete 7: ",
        &mut pool,
        &two,
        &queues,
    )?;
    prepare(&mut pool);
    lay_key(&mut queues, 0, 1, 7);
    lay_key(&mut queues, 7, 1, 7);
    lay_key(&mut queues, 14, 1, 7);
    lay_key(&mut queues, 21, 1, 7);
    let three = [0u8, 0, 0, 21, 0, 0, 0, 0, 0, 0, 0, 7];
    served(
        rt,
        "panel 0 three gets, panel 2 one: ",
        &mut pool,
        &three,
        &queues[0..28],
    )?;
    prepare(&mut pool);
    served(rt, "no queue: ", &mut pool, &[], &[])
}

// "More than 16 lengths, part of one, or lengths that don't fill the queue buffer exactly, gives 11"; a queue that holds an 05 gives 3.
fn desks_refused(rt: &impl Print) -> io::Result<()> {
    let mut pool = [0u8; POOL_BYTES];
    prepare(&mut pool);
    let mut get = [0u8; 7];
    lay_key(&mut get, 0, 1, 7);
    served(rt, "seventeen queues: ", &mut pool, &[0u8; 68], &[])?;
    served(
        rt,
        "part of a length: ",
        &mut pool,
        &[0u8, 0, 0, 7, 0],
        &get,
    )?;
    let wrapped = [255u8, 255, 255, 255, 0, 0, 0, 8];
    served(
        rt,
        "lengths of 2^32 and 7 bytes: ",
        &mut pool,
        &wrapped,
        &get,
    )?;
    served(
        rt,
        "an 05 in a queue: ",
        &mut pool,
        &[0u8, 0, 0, 4],
        &[5u8, 0, 1, 0],
    )?;
    let border = [0u8, 0, 0, 3, 0, 0, 0, 4];
    served(rt, "a get over a border: ", &mut pool, &border, &get)
}

fn main(rt: HostRuntime) -> io::Result<()> {
    prepares(&rt)?;
    scans(&rt)?;
    first_run(&rt)?;
    second_run(&rt)?;
    panels(&rt)?;
    ceilings(&rt)?;
    greatest_key(&rt)?;
    desks(&rt)?;
    desks_refused(&rt)
}
