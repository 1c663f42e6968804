//! Worked rows: what an author writes, and the codes that are sent.

use std::alloc::Global;
use std::process::Abort;
use std::test::Fail;
use ttx_author::{Lack, NationalOption, Why, head_of, nearest_tag, options_with, row_of, text_of};

// The characters of a text.
fn characters(alloc: Global, text: &str) -> Result<Vec<char>, Fail> {
    let mut characters = Vec::new(alloc);
    for c in text.chars() {
        characters.push(c)?;
    }
    Ok(characters)
}

// The text means these codes, followed by spaces; and it is the text that is written for the row.
fn means(
    rt: &impl Abort,
    alloc: Global,
    option: NationalOption,
    text: &str,
    codes: &[u8],
) -> Result<(), Fail> {
    let written = characters(alloc, text)?;
    match row_of(written.as_slice(), option) {
        Err(_) => assert!(rt; false, "{text} has no meaning"),
        Ok(row) => {
            let back = text_of(alloc, &row, option)?;
            assert_eq!(rt; back.as_slice(), written.as_slice());
            assert!(rt; codes.len() <= 40);
            assert_eq!(rt; &row[..codes.len()], codes);
            assert!(rt; row[codes.len()..].iter().all(|code| *code == b' '));
        }
    }
    Ok(())
}

// The text is refused there.
fn lacks(
    rt: &impl Abort,
    alloc: Global,
    option: NationalOption,
    text: &str,
    place: usize,
    why: Why,
) -> Result<(), Fail> {
    let written = characters(alloc, text)?;
    assert!(rt; row_of(written.as_slice(), option) == Err(Lack { place, why }));
    Ok(())
}

#[test]
fn characters_by_option(rt: HostRuntime) -> Result<(), Fail> {
    means(&rt, rt.alloc(), NationalOption::French, "Café", b"Caf#")?;
    means(
        &rt,
        rt.alloc(),
        NationalOption::Italian,
        "Café £5",
        b"Caf@ #5",
    )?;
    means(
        &rt,
        rt.alloc(),
        NationalOption::English,
        "#1 ← £½",
        &[0x5f, b'1', b' ', 0x5b, b' ', 0x23, 0x5c],
    )?;
    means(
        &rt,
        rt.alloc(),
        NationalOption::German,
        "Zürich ■",
        b"Z}rich \x7f",
    )
}

#[test]
fn tags(rt: HostRuntime) -> Result<(), Fail> {
    means(
        &rt,
        rt.alloc(),
        NationalOption::English,
        "{red}Hi{white}",
        &[1, b'H', b'i', 7],
    )?;
    means(
        &rt,
        rt.alloc(),
        NationalOption::English,
        "{box}{box}On{/box}",
        &[0x0b, 0x0b, 0x0b, 0x0b, b'O', b'n', 0x0a, 0x0a],
    )?;
    means(
        &rt,
        rt.alloc(),
        NationalOption::English,
        "{0B}{0A}{1B}{new background}",
        &[0x0b, 0x0a, 0x1b, 0x1d],
    )
}

#[test]
fn masthead(rt: HostRuntime) -> Result<(), Fail> {
    means(
        &rt,
        rt.alloc(),
        NationalOption::English,
        "{mosaic cyan}🬂▌█ A{cyan}b",
        &[0x16, 0x23, 0x35, 0x7f, b' ', b'A', 6, b'b'],
    )
}

#[test]
fn first_lacks(rt: HostRuntime) -> Result<(), Fail> {
    let alloc = rt.alloc();
    lacks(
        &rt,
        alloc,
        NationalOption::English,
        "Café",
        3,
        Why::Character,
    )?;
    lacks(
        &rt,
        alloc,
        NationalOption::English,
        "a{{b",
        1,
        Why::Character,
    )?;
    lacks(
        &rt,
        alloc,
        NationalOption::English,
        "{red}a{rde}é",
        6,
        Why::Tag,
    )?;
    lacks(&rt, alloc, NationalOption::English, "{red", 0, Why::Tag)?;
    lacks(&rt, alloc, NationalOption::English, "a█", 1, Why::Mosaic)?;
    lacks(
        &rt,
        alloc,
        NationalOption::English,
        "{mosaic red}a",
        12,
        Why::Letter,
    )?;
    lacks(
        &rt,
        alloc,
        NationalOption::English,
        "1234567890123456789012345678901234567890{red}é",
        40,
        Why::Room,
    )?;
    lacks(
        &rt,
        alloc,
        NationalOption::English,
        "123456789012345678901234567890123456789{box}",
        39,
        Why::Room,
    )
}

#[test]
fn header(rt: HostRuntime) -> Result<(), Fail> {
    let written = characters(rt.alloc(), "{yellow}Été")?;
    match head_of(written.as_slice(), NationalOption::Swedish) {
        Err(_) => assert!(&rt; false),
        Ok(head) => assert_eq!(&rt; head, *b"\x03@t`                    "),
    }
    Ok(())
}

#[test]
fn remedies(rt: HostRuntime) -> Result<(), Fail> {
    // Swedish, Italian, French, Spanish and Czech have é.
    assert!(&rt; options_with('é') == [false, false, true, true, true, true, true, false]);
    assert!(&rt; options_with('{') == [false; 8]);
    assert!(&rt; nearest_tag(rt.alloc(), &['r', 'd', 'e'])? == "red");
    assert!(&rt;
        nearest_tag(
            rt.alloc(),
            &['m', 'o', 's', 'a', 'i', 'c', ' ', 'b', 'l', 'u']
        )? == "mosaic blue"
    );
    Ok(())
}

#[test]
fn national_options(rt: HostRuntime) -> Result<(), Fail> {
    assert!(&rt; NationalOption::named("french") == NationalOption::numbered(4));
    assert!(&rt; NationalOption::numbered(4) == Some(NationalOption::French));
    assert!(&rt; NationalOption::named("French") == None);
    assert!(&rt; NationalOption::numbered(8) == None);
    Ok(())
}
