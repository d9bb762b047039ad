// Replays the Rust's cache steps (oracle/lists/cache.numbers, on standard input) on the proved cache and counts where the two differ.
//
// A line is `OP ARG ANSWER o0 .. o29`: OP 1 get, 2 release, 3 pin, 4 unpin; ARG the block of a get, the buffer of the others; ANSWER the buffer,
// 255 where the Rust panics; then the order after the step. Byte i of the image is i / 1024, so that a buffer's bytes tell its block: after a get
// they are compared too. A read that fails ends the list, and what can't be written is passed over.
#![tactic(auto)]

ghost use Rattle.std.specs.Prelude.{◌≤◌, length};

use base::Refusal;
use bio::Table;
use cache::After;
use std::io::Read;

// The numbers of a text, one after the other. What is no digit stands between them.
#[derive(Drop)]
struct Numbers<'a> {
    rest: &'a [u8],
}

impl Numbers<'_> {
    // The next number, of as many digits as fit; 0 at the text's end.
    fn take(&mut self) -> u32 {
        let start = self
            .rest
            .iter()
            .position(|c| b'0' <= *c)
            .unwrap_or(self.rest.len());
        let digits = &self.rest[start..];
        let mut value: u32 = 0;
        let mut end = digits.len();
        for i in 0..digits.len() {
            if !digits[i].is_ascii_digit() {
                end = i;
                break;
            }
            if value < 1000000 {
                value = 10 * value + (digits[i] - b'0') as u32;
            }
        }
        self.rest = &digits[end..];
        value
    }
}

#[derive(Clone, Copy, PartialEq, Eq)]
enum Op {
    Get,
    Release,
    Pin,
    Unpin,
}

// A line of the list.
#[derive(Clone, Copy)]
struct Step {
    op: Op,
    arg: u32,
    answer: u32,
    order: [u32; 30],
}

#[derive(Clone, Copy)]
struct Tally {
    steps: u32,
    differences: u32,
}

// What is to be done; None at the list's end.
fn op_of(number: u32) -> Option<Op> {
    match number {
        0 => None,
        1 => Some(Op::Get),
        2 => Some(Op::Release),
        3 => Some(Op::Pin),
        _ => Some(Op::Unpin),
    }
}

fn next_step(numbers: &mut Numbers<'_>) -> Option<Step> {
    let op = op_of(numbers.take())?;
    let arg = numbers.take();
    let answer = numbers.take();
    let mut order = [0; 30];
    for number in &mut order {
        *number = numbers.take();
    }
    Some(Step {
        op,
        arg,
        answer,
        order,
    })
}

// The step on the cache. A release, a pin or an unpin answers the buffer that it is of.
fn take(table: Table, memory: &mut [u8], image: &[u8], step: &Step) -> After<usize> {
    let index = step.arg as usize;
    let after = match step.op {
        Op::Get => return cache::get(table, memory, image, step.arg),
        Op::Release => cache::release(table, index),
        Op::Pin => cache::pin(table, index),
        Op::Unpin => cache::unpin(table, index),
    };
    After {
        table: after.table,
        answer: after.answer.map(|()| index),
    }
}

// Whether buffer j has the bytes of block b.
fn has_block(memory: &[u8], j: usize, b: u32) -> bool {
    j < 30 && bio::part(memory, j * 1024).iter().all(|x| *x as u32 == b)
}

// Whether a step went as the list says: the answer, where the Rust panics a get without a free buffer and any other bad call (256 stands for what
// it never answers); after a get the bytes; and the order.
fn as_listed(step: &Step, after: &After<usize>, memory: &[u8]) -> bool {
    let answered = match after.answer {
        Ok(j) => {
            j == step.answer as usize && (step.op != Op::Get || has_block(memory, j, step.arg))
        }
        Err(Refusal::NoBuffer) => step.answer == if step.op == Op::Get { 255 } else { 256 },
        Err(Refusal::BadCall) => step.answer == if step.op == Op::Get { 256 } else { 255 },
        Err(_) => step.answer == 256,
    };
    answered && after.table.order == step.order
}

// The first 1,000 steps of the list.
fn replay(text: &[u8], memory: &mut [u8], image: &[u8]) -> Tally {
    let mut numbers = Numbers { rest: text };
    let mut table = Table::fresh();
    let mut differences: u32 = 0;
    for steps in 0..1000 {
        let Some(step) = next_step(&mut numbers) else {
            return Tally { steps, differences };
        };
        let after = take(table, memory, image, &step);
        if !as_listed(&step, &after, memory) {
            differences = differences.saturating_add(1);
        }
        table = after.table;
    }
    Tally {
        steps: 1000,
        differences,
    }
}

// Reads until the input ends, a read fails or the buffer is full; how many bytes came.
fn read_all(input: &mut impl Read, buffer: &mut [u8]) -> usize
    ensures { result ≤ length buffer.old }
{
    let mut n = 0;
    for _ in 0..buffer.len() {
        let got = input.read(&mut buffer[n..]).unwrap_or(0);
        if got == 0 {
            break;
        }
        n += got;
    }
    n
}

fn main(rt: HostRuntime) {
    let mut buffer = [0; 65536];
    let n = read_all(&mut rt.reader(), &mut buffer);
    let mut image = [0; 65536];
    for i in 0..65536 {
        image[i] = (i / 1024) as u8;
    }
    let mut memory = [0; 30720];
    let tally = replay(&buffer[..n], &mut memory, &image);
    let _ = println!(rt; "{} steps, {} differences", tally.steps, tally.differences);
}
