// Runs the figures of the scope that are not proved of the definitions, and prints a line for each: what is asked, the code,
// the count of buckets, and the answered buckets; answers into a part of a table, with the whole table; and servers joined. The file
// stdout beside src/ has what the scope says.
#![tactic(auto)]

ghost use Rattle.std.specs.Prelude.{◌≤◌};

use checks::Refusal;
use operations::curves::{lower, normalise, shape, sum};
use operations::hops::behind;
use profiles::{Held, Profile, read};
use servers::{Server, ServerAnswer};
use settle::Part;
use std::{array, io};

// The part of a table that answers go into: the numbers from 3 on, of which there are five.
const MIDDLE: Part = Part { at: 3, room: 5 };

// The words, and the code and the count of an answer, each put out by itself.
fn show_told(rt: &impl Print, words: &str, answer: Result<usize, Refusal>) -> io::Result<()> {
    let code = match answer {
        Ok(_) => 0,
        Err(refusal) => u64::from(refusal),
    };
    let count = answer.unwrap_or(0);
    print!(rt; "{words}")?;
    print!(rt; " {code}")?;
    print!(rt; " {count}")
}

// A line: the words, the code, the count, and that many buckets of the list.
fn show(
    rt: &impl Print,
    words: &str,
    answer: Result<usize, Refusal>,
    list: &[u64],
) -> io::Result<()> {
    show_told(rt, words, answer)?;
    show_buckets(rt, answer.unwrap_or(0), list)?;
    println!(rt)
}

// Short answers are shown in full; of a long one the count says enough.
fn show_buckets(rt: &impl Print, count: usize, list: &[u64]) -> io::Result<()> {
    if 5 < count {
        return Ok(());
    }
    for number in list.iter().take(2 * count) {
        print!(rt; " {number}")?;
    }
    Ok(())
}

// A line for an answer in a part of a table: the words, the code, the count, and the whole table.
fn show_table(
    rt: &impl Print,
    words: &str,
    answer: Result<usize, Refusal>,
    table: &[u64],
) -> io::Result<()> {
    show_told(rt, words, answer)?;
    show_buckets(rt, 5, table)?;
    println!(rt)
}

// Normalises the five raw buckets of P1 into a part of a table, the numbers from 3 on, and shows the whole table.
fn show_in_part(rt: &impl Print, words: &str, room: usize) -> io::Result<()> {
    let mut table = [9u64; 10];
    let raw = [3, 20, 10, 2, 10, 2, 5, 15, 3, 25];
    let answer = normalise(&raw, &mut table, Part { at: 3, room });
    show_table(rt, words, answer, &table)
}

// Curves that other questions answer into a part of a table.
fn show_curves_in_parts(rt: &impl Print) -> io::Result<()> {
    let mut table = [9u64; 10];
    let lowered = lower(&[10, 2], &[3, 20], &mut table, MIDDLE);
    show_table(
        rt,
        "lower {(10,2)} and {(3,20)} into a part:",
        lowered,
        &table,
    )?;

    let mut table = [9u64; 10];
    let added = sum(&[10, 2], &[3, 20], &mut table, MIDDLE);
    show_table(rt, "sum {(10,2)} and {(3,20)} into a part:", added, &table)?;

    let mut table = [9u64; 10];
    let shaped = shape(&[3, 20], 10, 2, &mut table, MIDDLE);
    show_table(
        rt,
        "shape {(3,20)} by 10 with frames of 2, into a part:",
        shaped,
        &table,
    )
}

// How many buckets a profile has.
fn buckets(profile: Profile) -> usize {
    match profile.held {
        Held::Curve(count) => count,
        Held::Server(_) => 0,
    }
}

// The same at a server, and from a file.
fn show_ports_in_parts(rt: &impl Print) -> io::Result<()> {
    let curve = [10, 2, 3, 20];
    let mut table = [9u64; 10];
    let passed = behind(&curve, servers::rated(6, 1), &mut table, MIDDLE);
    show_table(rt, "P5's curve behind (6,1) into a part:", passed, &table)?;

    let mut table = [9u64; 10];
    let late = behind(&curve, servers::pure_delay(4), &mut table, MIDDLE);
    show_table(
        rt,
        "that curve behind a delay of 4 into a part:",
        late,
        &table,
    )?;

    let mut table = [9u64; 10];
    let file = [0x11, 0x00, 0x00, 0x02, 0x80, 0x00, 0x00, 0x00, 0x00, 0x80];
    let held = read(&file, &mut table, MIDDLE).map(buckets);
    show_table(rt, "P11's curve read into a part:", held, &table)
}

// Buckets (200 - i, i * i): rates fall and crossings rise, so each is useful.
fn spread<const N: usize>() -> [[u64; 2]; N]
    requires { N ≤ 200 }
{
    array::from_fn(|i| [200 - i as u64, (i * i) as u64])
}

// Normalises a raw list, and shows what is answered.
fn show_normalised(rt: &impl Print, words: &str, raw: &[u64]) -> io::Result<()> {
    let mut out = [0u64; 128];
    let answer = normalise(raw, &mut out, Part { at: 0, room: 128 });
    show(rt, words, answer, &out)
}

// Joins a server of rate 1 and the longest latency with another one, and shows what is answered.
fn show_joined(rt: &impl Print, words: &str, next: Server) -> io::Result<()> {
    let longest = servers::rated(1, 1_048_575);
    let answer = ServerAnswer::from(longest.join(next));
    let joined = answer.server.numbers();
    print!(rt; "{words}")?;
    for number in [answer.code, joined.kind, joined.rate, joined.latency] {
        print!(rt; " {number}")?;
    }
    println!(rt)
}

// {(3,20)} shaped by a link of rate 10 with frames of up to so many bits.
fn show_shaped(rt: &impl Print, words: &str, frame: u64) -> io::Result<()> {
    let mut out = [0u64; 4];
    let shaped = shape(&[3, 20], 10, frame, &mut out, Part { at: 0, room: 4 });
    show(rt, words, shaped, &out)
}

fn main(rt: HostRuntime) -> io::Result<()> {
    show_shaped(&rt, "shape {(3,20)} by 10:", 0)?;
    show_shaped(&rt, "shape {(3,20)} by 10 with frames of 2:", 2)?;

    show_normalised(
        &rt,
        "normalise 64 raw buckets:",
        spread::<64>().as_flattened(),
    )?;
    show_normalised(
        &rt,
        "normalise 65 raw buckets:",
        spread::<65>().as_flattened(),
    )?;
    show_normalised(&rt, "normalise burst 2^40-1:", &[0, 1_099_511_627_775])?;
    show_normalised(&rt, "normalise burst 2^40:", &[0, 1_099_511_627_776])?;

    show_in_part(&rt, "normalise P1 into a part of 4 numbers:", 4)?;
    show_in_part(&rt, "normalise P1 into a part of 3 numbers:", 3)?;
    show_curves_in_parts(&rt)?;
    show_ports_in_parts(&rt)?;

    show_joined(&rt, "join (1,2^20-1) with (1,0):", servers::rated(1, 0))?;
    show_joined(&rt, "join (1,2^20-1) with (1,1):", servers::rated(1, 1))?;
    show_joined(
        &rt,
        "join (1,2^20-1) with a delay of 0:",
        servers::pure_delay(0),
    )?;
    show_joined(
        &rt,
        "join (1,2^20-1) with a delay of 1:",
        servers::pure_delay(1),
    )
}
