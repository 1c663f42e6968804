//! Worked texts: what an author writes, the service text that is made of it, and the lines of mistakes.

use std::alloc::Global;
use std::process::Abort;
use std::test::Fail;
use ttx_desk::{ComposeFault, Mistake, compose, decompose, push_mistakes};

const SETTINGS: &str = "author = 1\nlines = 12\nserial = true\n[[page]]\nnumber = \"100\"\n";

// The text of a page below the settings.
fn with_settings(alloc: Global, page: &str) -> Result<String, Fail> {
    let mut text = String::new(alloc);
    text.push_str(SETTINGS)?;
    text.push_str(page)?;
    Ok(text)
}

// The service text of an author's text.
fn service_text(rt: &impl Abort, alloc: Global, author: &str) -> Result<String, Fail> {
    match compose(alloc, author.as_bytes(), "desk.toml") {
        Ok(composed) => Ok(composed.text),
        Err(_) => {
            assert!(rt; false, "refused: {author}");
            Ok(String::new(alloc))
        }
    }
}

// The mistakes of an author's text; none if it is composed.
fn found_in(alloc: Global, author: &[u8]) -> Vec<Mistake> {
    match compose(alloc, author, "desk.toml") {
        Err(ComposeFault::Mistakes(found)) => found,
        _ => Vec::new(alloc),
    }
}

// The mistakes of the page give these lines.
fn mistakes(rt: &impl Abort, alloc: Global, page: &str, lines: &str) -> Result<(), Fail> {
    let author = with_settings(alloc, page)?;
    let found = found_in(alloc, author.as_bytes());
    let mut text = String::new(alloc);
    push_mistakes(
        alloc,
        &mut text,
        "desk.toml",
        author.as_bytes(),
        found.as_slice(),
    )?;
    assert_eq!(rt; text.as_str(), lines);
    Ok(())
}

#[test]
fn a_page_is_composed(rt: HostRuntime) -> Result<(), Fail> {
    let author =
        "author = 1\nlines = 12\nserial = true\n\n# The café.\n[[page]]\nnumber = \"100\"\noption = \"french\"\nhead = 'Café'\n\
        [page.rows]\ntext = \"\"\"\n{red}Crêpe\n\n{mosaic blue}🬀█\"\"\"\n5 = \"à\"\n";
    let service =
        "# Composed from desk.toml by ttx compose: change that text, and compose it again.\n\
        lines = 12\nserial = true\n\n# The café.\n[[page]]\nnumber = \"100\"\nhead = \"Caf#\"\noption = 4\n\n[page.rows]\n\
        1 = \"\\u0001Cr\\\\pe\"\n3 = \"\\u0014!\\u007F\"\n5 = \"@\"\n";
    assert_eq!(&rt; service_text(&rt, rt.alloc(), author)?.as_str(), service);
    Ok(())
}

#[test]
fn a_page_is_decomposed(rt: HostRuntime) -> Result<(), Fail> {
    let service =
        "lines = 12\nserial = true\n[[page]]\nnumber = \"100\"\noption = 4\nhead = \"Caf#\"\n[page.rows]\n1 = \"\\u0001Cr\\\\pe  \"\n";
    let author =
        "# Decomposed from news.toml by ttx decompose.\nauthor = 1\nlines = 12\nserial = true\n\n[[page]]\nnumber = \"100\"\n\
        head = \"Café\"\noption = \"french\"\n\n[page.rows]\n1 = \"{red}Crêpe  \"\n";
    match decompose(rt.alloc(), service.as_bytes(), "news.toml") {
        Ok(text) => assert_eq!(&rt; text.as_str(), author),
        Err(_) => assert!(&rt; false, "no author's text"),
    }
    Ok(())
}

#[test]
fn characters_are_missing(rt: HostRuntime) -> Result<(), Fail> {
    mistakes(
        &rt,
        rt.alloc(),
        "[page.rows]\n1 = \"Caf\\u00E9 é\"\n2 = '☃'\n3 = \"a\\tb\"\n",
        "desk.toml:7:9: error: english has no é; these have it: swedish, italian, french, spanish, czech\n\
        desk.toml:8:6: error: english has no ☃; no national option has it\n\
        desk.toml:9:7: error: english has no character 9; control codes are written by names, as {red}\n3 mistakes\n",
    )
}

#[test]
fn modes_are_missing(rt: HostRuntime) -> Result<(), Fail> {
    mistakes(
        &rt,
        rt.alloc(),
        "[page.rows]\ntext = \"\"\"\nab🬀\n{mosaic red}█x\"\"\"\n",
        "desk.toml:8:3: error: cell 3 stands outside mosaic mode, where 🬀 is not shown; a tag such as {mosaic white} is missing before it\n\
        desk.toml:9:14: error: cell 3 stands in mosaic mode, where x is not shown; a tag such as {white} is missing before it\n2 mistakes\n",
    )
}

#[test]
fn names_are_wrong(rt: HostRuntime) -> Result<(), Fail> {
    mistakes(
        &rt,
        rt.alloc(),
        "head = \"{rde}\"\n[page.rows]\n1 = \"a{red\"\n",
        "desk.toml:6:9: error: there is no {rde}; the nearest is {red}\n\
        desk.toml:8:7: error: no } ends this name; a brace that is to be seen is written {{\n2 mistakes\n",
    )?;
    mistakes(
        &rt,
        rt.alloc(),
        "option = \"frensh\"\nhead = \"☃\"\n",
        "desk.toml:6:10: error: no national option is called frensh; the names are english, german, swedish, italian, french, spanish, czech\n\
        1 mistake\n",
    )
}

#[test]
fn rows_are_too_many(rt: HostRuntime) -> Result<(), Fail> {
    mistakes(
        &rt,
        rt.alloc(),
        "head = \"0123456789012345678901234\"\n[page.rows]\n1 = \"a\"\ntext = \"\"\"\nb\n\n\n\n\n\n\n\n\n\n\n\n\n\n\n\n\n\n\n\n\n\n\n\nc\"\"\"\n",
        "desk.toml:6:33: error: no cell is left; there are 24\n\
        desk.toml:8:6: error: this row stands in `text` too; leave one of them out\n\
        desk.toml:34:1: error: `text` has more than 24 lines; a page has rows 1 to 24\n3 mistakes\n",
    )
}
