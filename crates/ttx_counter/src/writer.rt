//! Writes the text of a counter-run.

ghost use Rattle.std.specs.Prelude.{◌≡◌, ◌∷◌, ◌++◌, [], OnOk, IfOk, string_bytes, codes, length};
ghost use Rattle.ttx_page.specs.Views.{memory_of};
ghost use Rattle.ttx_counter.specs.Counters.{counter_run_of};
ghost use Rattle.ttx_counter.specs.CounterTexts.{numbers_text, line_text, yes_as_one, bits, target_numbers, links_numbers, hits_numbers, row_lines};
ghost use Rattle.ttx_counter.specs.CounterTexts.{state_text, links_lines, memory_text, choices_text, hits_text, title, head_lines, tuning_text};
ghost use Rattle.ttx_counter.specs.CounterTexts.{counter_text};

use crate::counter::{Counter, Hit};
use std::alloc::{AllocError, Global};
use ttx_links::Target;
use ttx_page::PageMemory;
use ttx_witness::NoMemory;

// Adds a line of one number.
fn push_number(text: &mut String, word: &str, number: u32) -> Result<(), AllocError>
    ensures { OnOk result (string_bytes text.new ≡ string_bytes text.old ++ line_text word.now (number ∷ [])) }
{
    text.push_str(word)?;
    write!(text, " {number}\n")
}

// 1 for true, 0 for false.
fn yes_as_one(yes: bool) -> u32
    ensures { result ≡ yes_as_one yes }
{
    if yes { 1 } else { 0 }
}

// Adds a number after a space.
fn push_next(text: &mut String, number: u32) -> Result<(), AllocError>
    ensures { OnOk result (string_bytes text.new ≡ string_bytes text.old ++ numbers_text (number ∷ [])) }
{
    write!(text, " {number}")
}

// Adds the numbers of a link.
fn push_link(text: &mut String, link: Option<Target>) -> Result<(), AllocError>
    ensures { OnOk result (string_bytes text.new ≡ string_bytes text.old ++ numbers_text (target_numbers link)) }
{
    match link {
        Some(target) => {
            push_next(text, u32::from(target.mag()))?;
            push_next(text, u32::from(target.page()))?;
            push_next(text, u32::from(target.sub()))
        }
        None => {
            push_next(text, 0)?;
            push_next(text, 0)?;
            push_next(text, 0)
        }
    }
}

// Adds the numbers of links.
fn push_links(text: &mut String, links: &[Option<Target>]) -> Result<(), AllocError>
    ensures { OnOk result (string_bytes text.new ≡ string_bytes text.old ++ numbers_text (links_numbers links.now)) }
{
    for link in links {
        push_link(text, *link)?;
    }
    Ok(())
}

// Adds the codes of characters.
fn push_characters(text: &mut String, row: &[u8]) -> Result<(), AllocError>
    ensures { OnOk result (string_bytes text.new ≡ string_bytes text.old ++ numbers_text row.now) }
{
    for character in row {
        push_next(text, u32::from(*character))?;
    }
    Ok(())
}

// Adds the line of a row.
fn push_row(text: &mut String, row: &[u8; 40]) -> Result<(), AllocError>
    ensures { OnOk result (string_bytes text.new ≡ string_bytes text.old ++ line_text (codes "row") row.now) }
{
    text.push_str("row")?;
    push_characters(text, row)?;
    text.push('\n')
}

// Adds the lines of rows.
fn push_rows(text: &mut String, rows: &[[u8; 40]]) -> Result<(), AllocError>
    ensures { OnOk result (string_bytes text.new ≡ string_bytes text.old ++ row_lines rows.now) }
{
    for row in rows {
        push_row(text, row)?;
    }
    Ok(())
}

// Adds the lines of a memory before its links.
#[tactic(auto, unfolding(crate::specs::CounterTexts::state_text))]
fn push_state(text: &mut String, memory: &PageMemory) -> Result<(), AllocError>
    ensures { OnOk result (string_bytes text.new ≡ string_bytes text.old ++ state_text (memory_of memory.now)) }
{
    push_number(text, "control", u32::from(memory.control().0))?;
    push_number(text, "storing", yes_as_one(memory.storing()))?;
    push_number(text, "age", u32::from(memory.age()))?;
    push_number(text, "fresh", yes_as_one(memory.fresh()))
}

// Adds the lines of the links of a memory.
#[tactic(auto, unfolding(crate::specs::CounterTexts::links_lines))]
fn push_link_lines(text: &mut String, memory: &PageMemory) -> Result<(), AllocError>
    ensures { OnOk result (string_bytes text.new ≡ string_bytes text.old ++ links_lines (memory_of memory.now)) }
{
    push_number(text, "row-24", yes_as_one(memory.show24()))?;
    text.push_str("links")?;
    push_links(text, memory.links())?;
    text.push('\n')
}

// Adds all lines of a memory.
fn push_memory(text: &mut String, memory: &PageMemory) -> Result<(), AllocError>
    ensures { OnOk result (string_bytes text.new ≡ string_bytes text.old ++ memory_text (memory_of memory.now)) }
{
    push_state(text, memory)?;
    push_link_lines(text, memory)?;
    push_rows(text, memory.rows())
}

// Adds a bit for each choice.
fn push_bits(text: &mut String, choices: &[bool]) -> Result<(), AllocError>
    ensures { OnOk result (string_bytes text.new ≡ string_bytes text.old ++ numbers_text (bits choices.now)) }
{
    for choice in choices {
        push_next(text, yes_as_one(*choice))?;
    }
    Ok(())
}

// Adds the line of choices.
fn push_choices(text: &mut String, choices: &[bool]) -> Result<(), AllocError>
    ensures { OnOk result (string_bytes text.new ≡ string_bytes text.old ++ choices_text choices.now) }
{
    let count = choices.len();
    write!(text, "choices {count}")?;
    push_bits(text, choices)?;
    text.push('\n')
}

// Adds slot, byte and bit of a hit.
fn push_hit(text: &mut String, hit: Hit) -> Result<(), AllocError>
    ensures { OnOk result (string_bytes text.new ≡ string_bytes text.old ++ numbers_text (hits_numbers (hit ∷ []))) }
{
    push_next(text, hit.index)?;
    push_next(text, u32::from(hit.byte))?;
    push_next(text, u32::from(hit.bit))
}

// Adds the numbers of hits.
fn push_places(text: &mut String, hits: &[Hit]) -> Result<(), AllocError>
    ensures { OnOk result (string_bytes text.new ≡ string_bytes text.old ++ numbers_text (hits_numbers hits.now)) }
{
    for hit in hits {
        push_hit(text, *hit)?;
    }
    Ok(())
}

// Adds the line of hits.
fn push_hits(text: &mut String, hits: &[Hit]) -> Result<(), AllocError>
    ensures { OnOk result (string_bytes text.new ≡ string_bytes text.old ++ hits_text hits.now) }
{
    let count = hits.len();
    write!(text, "hits {count}")?;
    push_places(text, hits)?;
    text.push('\n')
}

// Adds the first line.
fn push_title(text: &mut String) -> Result<(), AllocError>
    ensures { OnOk result (string_bytes text.new ≡ string_bytes text.old ++ title) }
{
    text.push_str("ttx counter 1\n")
}

// Adds the title, and the lines of the certificate's numbers.
#[tactic(auto, unfolding(crate::specs::CounterTexts::head_lines))]
fn push_head(text: &mut String, counter: &Counter) -> Result<(), AllocError>
    ensures { OnOk result (string_bytes text.new ≡ string_bytes text.old ++ head_lines (counter_run_of counter.now)) }
{
    push_title(text)?;
    push_number(text, "lines", u32::from(counter.lines))?;
    push_number(text, "repeat", u32::from(counter.repeat))?;
    push_number(text, "deadline", counter.deadline)
}

// Adds the lines of the page, the selection and the slots.
#[tactic(auto, unfolding(crate::specs::CounterTexts::tuning_text))]
fn push_tuning(text: &mut String, counter: &Counter) -> Result<(), AllocError>
    ensures { OnOk result (string_bytes text.new ≡ string_bytes text.old ++ tuning_text (counter_run_of counter.now)) }
{
    push_number(text, "page", counter.page)?;
    push_number(text, "any-subpage", yes_as_one(counter.any_sub))?;
    push_number(text, "start", counter.start)?;
    push_number(text, "slots", counter.slots)
}

// The whole text.
fn text_of(alloc: Global, counter: &Counter) -> Result<String, AllocError>
    ensures { IfOk result (λ text. string_bytes text ≡ counter_text (counter_run_of counter.now)) }
{
    let mut text = String::new(alloc);
    push_head(&mut text, counter)?;
    push_tuning(&mut text, counter)?;
    push_memory(&mut text, &counter.former)?;
    push_choices(&mut text, &counter.choices)?;
    push_hits(&mut text, &counter.hits)?;
    Ok(text)
}

/// The text of a counter-run. `Err` if memory runs out.
pub fn write_counter(alloc: Global, counter: &Counter) -> Result<Vec<u8>, NoMemory>
    ensures { IfOk result (λ text. text.items ≡ counter_text (counter_run_of counter.now)) }
{
    match text_of(alloc, counter) {
        Ok(text) => Ok(text.into_bytes()),
        Err(_) => Err(NoMemory),
    }
}
