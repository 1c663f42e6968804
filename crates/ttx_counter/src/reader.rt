//! Reads the text of a counter-run.

ghost use Rattle.std.specs.Prelude.{◌≡◌, ◌<◌, ◌≤◌, ◌∷◌, [], ◌++◌, ◌+◌, ◌-◌, ◌^◌, ◌==◌, if◌then◌else◌, true, length, map, take, slice_index, IfOk};
ghost use Rattle.std.specs.Prelude.{OnOk};
ghost use Rattle.ttx_header.specs.Ids.{id_at};
ghost use Rattle.ttx_page.specs.Memories.{memory_at};
ghost use Rattle.ttx_page.specs.Views.{memory_of};
ghost use Rattle.ttx_counter.specs.Counters.{counter_run_of};
ghost use Rattle.ttx_counter.specs.CounterReading.{at_most, characters_in, read_rows, is_target, read_link, read_links, is_one, hit_of, hits_in};
ghost use Rattle.ttx_counter.specs.CounterReading.{memory_in, choices_in, hits_after, counter_in, line_of, fault_in_line, read_counter_text};
ghost use Rattle.ttx_counter.specs.CounterReading as rule;
ghost use Rattle.ttx_counter.specs.ReadingAnswers.{counter_outcome, IsCounterUnlessMemory};

use crate::counter::{Counter, Hit};
use crate::counter_faults::CounterFault;
use crate::numbers::{after_first, first_of, is_one, line_numbers, number_at};
use crate::writer::write_counter;
use std::alloc::Global;
use ttx_header::Control;
use ttx_links::Target;
use ttx_page::PageMemory;
use ttx_witness::NoMemory;

// A number, limited to `most`.
fn small(number: u32, most: u8) -> u8
    ensures value { result ≡ at_most most number }
    ensures small { result ≤ most }
{
    if number < u32::from(most) {
        number as u8
    } else {
        most
    }
}

// The first 40 numbers as the characters of a row.
fn row_in(numbers: &[u32]) -> [u8; 40]
    ensures { result ≡ characters_in 40 numbers.now }
{
    let mut row = [0; 40];
    for c in 0..40 {
        row[c] = small(number_at(numbers, c), 127);
    }
    row
}

// The first 1,000 numbers as 25 rows.
fn read_rows(numbers: &[u32]) -> [[u8; 40]; 25]
    ensures { result ≡ read_rows 25 numbers.now }
{
    let mut rows = [[0; 40]; 25];
    for r in 0..25 {
        rows[r] = row_in(after_first(numbers, 40 * r));
    }
    rows
}

// Whether these are the numbers of a link.
fn is_target(mag: u32, page: u32, sub: u32) -> bool
    ensures { result ≡ is_target mag page sub }
{
    1 <= mag
        && mag <= 8
        && page < 256
        && sub < 16384
        && sub / 128 % 2 == 0
        && !(page == 255 && sub == 16255)
}

fn read_link(mag: u32, page: u32, sub: u32) -> Option<Target>
    ensures { result ≡ read_link mag page sub }
{
    if is_target(mag, page, sub) {
        Target::new(mag as u8, page as u8, sub as u16)
    } else {
        None
    }
}

// The link that the first three numbers describe.
fn first_link(numbers: &[u32]) -> Option<Target>
    ensures { result ≡ read_link (slice_index numbers.now 0) (slice_index numbers.now 1) (slice_index numbers.now 2) }
{
    read_link(
        number_at(numbers, 0),
        number_at(numbers, 1),
        number_at(numbers, 2),
    )
}

// The six links that the first 18 numbers describe.
#[tactic(auto, unfolding(crate::specs::CounterReading::read_links))]
fn read_links(numbers: &[u32]) -> [Option<Target>; 6]
    ensures { result ≡ read_links 6 numbers.now }
{
    let second = after_first(numbers, 3);
    let third = after_first(second, 3);
    let fourth = after_first(third, 3);
    let fifth = after_first(fourth, 3);
    [
        first_link(numbers),
        first_link(second),
        first_link(third),
        first_link(fourth),
        first_link(fifth),
        first_link(after_first(fifth, 3)),
    ]
}

// Control bits from a number, limited to all eleven of them.
fn control_of(number: u32) -> Control
    ensures { result.0 ≡ at_most 2047 number }
{
    if number < 2047 {
        Control(number as u16)
    } else {
        Control(2047)
    }
}

// The memory that the numbers of a text describe.
fn memory_in(numbers: &[u32]) -> PageMemory
    ensures { memory_of result ≡ memory_in numbers.now }
{
    let links = after_first(numbers, 14);
    let rows = read_rows(after_first(links, 18));
    let control = control_of(number_at(numbers, 8));
    let storing = is_one(number_at(numbers, 9));
    let age = small(number_at(numbers, 10), 64);
    let fresh = is_one(number_at(numbers, 11));
    let show24 = is_one(number_at(numbers, 13));
    match PageMemory::new(
        rows,
        control,
        read_links(links),
        show24,
        storing,
        age,
        fresh,
    ) {
        Some(memory) => memory,
        None => PageMemory::blank(),
    }
}

// A bit for each number: whether it is not 0.
fn bits_of(alloc: Global, numbers: &[u32]) -> Result<Vec<bool>, NoMemory>
    ensures { IfOk result (λ v. v.items ≡ map is_one numbers.now) }
{
    let mut bits = Vec::new(alloc);
    for number in numbers {
        if bits.push(is_one(*number)).is_err() {
            return Err(NoMemory);
        }
    }
    Ok(bits)
}

fn hit_of(numbers: &[u32]) -> Hit
    ensures { result ≡ hit_of (slice_index numbers.now 0) (slice_index numbers.now 1) (slice_index numbers.now 2) }
{
    Hit {
        index: number_at(numbers, 0),
        byte: small(number_at(numbers, 1), 255),
        bit: small(number_at(numbers, 2), 255),
    }
}

// Adds a hit.
fn push_hit(hits: &mut Vec<Hit>, hit: Hit) -> Result<(), NoMemory>
    ensures { OnOk result (hits.new.items ≡ hits.old.items ++ hit ∷ []) }
{
    if hits.push(hit).is_err() {
        return Err(NoMemory);
    }
    Ok(())
}

// The first `count` hits, or fewer if the numbers end before.
fn hits_in(alloc: Global, numbers: &[u32], count: u32) -> Result<Vec<Hit>, NoMemory>
    ensures { IfOk result (λ v. v.items ≡ hits_in count numbers.now) }
{
    let mut hits = Vec::new(alloc);
    for i in 0..count {
        let rest = after_first(numbers, 3 * i as usize);
        if rest.len() < 3 {
            return Ok(hits);
        }
        push_hit(&mut hits, hit_of(rest))?;
    }
    Ok(hits)
}

// The counter-run that the numbers of a text describe.
fn counter_in(alloc: Global, numbers: &[u32]) -> Result<Counter, NoMemory>
    ensures { IfOk result (λ c. counter_run_of c ≡ counter_in numbers.now) }
{
    let behind = after_first(after_first(after_first(numbers, 14), 18), 1000);
    let count = number_at(behind, 0);
    let after_count = after_first(behind, 1);
    let choices = bits_of(alloc, first_of(after_count, count as usize))?;
    let rest = after_first(after_count, count as usize);
    let hits = hits_in(alloc, after_first(rest, 1), number_at(rest, 0))?;
    Ok(Counter {
        page: number_at(numbers, 4),
        any_sub: is_one(number_at(numbers, 5)),
        start: number_at(numbers, 6),
        slots: number_at(numbers, 7),
        former: memory_in(numbers),
        choices,
        hits,
        lines: small(number_at(numbers, 1), 255),
        repeat: small(number_at(numbers, 2), 255),
        deadline: number_at(numbers, 3),
    })
}

// The number of the line of the next byte: one more after 0A.
fn line_after(line: usize, byte: u8) -> usize
    requires { line < 2 ^ 64 - 1 }
    ensures value { result ≡ (if byte == 10 then line + 1 else line) }
    ensures next { result ≤ line + 1 }
{
    if byte == b'\n' { line + 1 } else { line }
}

// The line, counted from 1, in which two texts first differ.
#[tactic(auto, using(crate::proofs::LineOf::ended, crate::proofs::LineOf::differs, crate::proofs::LineOf::same, crate::proofs::LineOf::done))]
fn line_of(text: &[u8], own: &[u8]) -> usize
    ensures { result ≡ line_of 1 text.now own.now }
{
    let mut line = 1;
    for i in 0..text.len() {
        if i >= own.len() {
            return line;
        }
        if text[i] != own[i] {
            return line;
        }
        line = line_after(line, text[i]);
    }
    line
}

fn fault_in_line(line: usize) -> CounterFault
    ensures { result ≡ fault_in_line line }
{
    if line == 1 {
        CounterFault::Title
    } else {
        CounterFault::Line { line }
    }
}

// The counter-run, if the text is that of this counter-run.
fn judged(alloc: Global, bytes: &[u8], counter: Counter) -> Result<Counter, CounterFault>
    ensures { IsCounterUnlessMemory result (counter_outcome counter_run_of result ≡ rule.judged bytes.now (counter_run_of counter)) }
{
    match write_counter(alloc, &counter) {
        Ok(text) => {
            if text.as_slice() == bytes {
                Ok(counter)
            } else {
                Err(fault_in_line(line_of(bytes, text.as_slice())))
            }
        }
        Err(_) => Err(CounterFault::NoMemory),
    }
}

/// Reads a counter-run. The numbers in the text describe a counter-run, and the text is accepted only if it is the text of that
/// counter-run, byte for byte. Otherwise the fault names the first line that differs. Allocates memory for the numbers and for that text.
pub fn read_counter(alloc: Global, bytes: &[u8]) -> Result<Counter, CounterFault>
    ensures { IsCounterUnlessMemory result (counter_outcome counter_run_of result ≡ read_counter_text bytes.now) }
{
    let Ok(numbers) = line_numbers(alloc, bytes) else {
        return Err(CounterFault::NoMemory);
    };
    match counter_in(alloc, &numbers) {
        Ok(counter) => judged(alloc, bytes, counter),
        Err(_) => Err(CounterFault::NoMemory),
    }
}
