//! Rows on the display, by worked examples.

use ttx_header::Control;
use ttx_page::PageMemory;
use ttx_render::{View, cell_word, render};

// Control bits, the number of a row, its codes before spaces, and the code of all columns of the next row; the words that are shown of
// the row, of which the last one is also in all columns to the right, and those of columns 0, 1 and 2 to 39 of the next row, or 0 for any.
#[rattlefmt::skip]
static SHOWN: [(u16, usize, [u8; 8], u8, [u32; 9], [u32; 3]); 12] = [
    // held mosaics last until the mode changes
    (0, 1, [0x11, 0x1e, 0x7f, 0x13, 0x7f, 0x07, 0x41, 0x17], 0x20,
        [0x00e00020, 0x00200020, 0x0031003f, 0x0031003f, 0x0071003f, 0x0071003f, 0x00e00041, 0x00e00020, 0x00f10000], [0x00e00020; 3]),
    // double height that is undone keeps the held mosaic
    (0, 1, [0x11, 0x1e, 0x7f, 0x0d, 0x0c, 0x12, 0x20, 0x20], 0x20,
        [0x00e00020, 0x00200020, 0x0031003f, 0x0031003f, 0x0031003f, 0x0031003f, 0x00510000, 0x00510000, 0x00510000], [0; 3]),
    // double height hides the next row, but not from row 23 on
    (0, 5, [0x0d, 0x41, 0x20, 0x20, 0x20, 0x20, 0x20, 0x20], 0x41,
        [0x00e00020, 0x40e00041, 0x40e00020, 0x40e00020, 0x40e00020, 0x40e00020, 0x40e00020, 0x40e00020, 0x40e00020], [0x00e00020, 0x80e00041, 0x80e00020]),
    (0, 22, [0x0d, 0x20, 0x20, 0x20, 0x20, 0x20, 0x20, 0x20], 0x41,
        [0x00e00020, 0x40e00020, 0x40e00020, 0x40e00020, 0x40e00020, 0x40e00020, 0x40e00020, 0x40e00020, 0x40e00020], [0x00e00020, 0x80e00020, 0x80e00020]),
    (0, 23, [0x0d, 0x41, 0x20, 0x20, 0x20, 0x20, 0x20, 0x20], 0x20,
        [0x00e00020, 0x00e00041, 0x00e00020, 0x00e00020, 0x00e00020, 0x00e00020, 0x00e00020, 0x00e00020, 0x00e00020], [0x00e00020; 3]),
    // a subtitle shows the picture outside its box
    (0x04, 1, [0x0b, 0x0b, 0x41, 0x0a, 0x0a, 0x20, 0x20, 0x20], 0x20,
        [0x20e00020, 0x00e00020, 0x00e00041, 0x00e00020, 0x20e00020, 0x20e00020, 0x20e00020, 0x20e00020, 0x20e00020], [0x20e00020; 3]),
    // a new background takes the foreground
    (0, 1, [0x01, 0x1d, 0x07, 0x42, 0x20, 0x20, 0x20, 0x20], 0x20,
        [0x00e00020, 0x01200020, 0x01200020, 0x01e00042, 0x01e00020, 0x01e00020, 0x01e00020, 0x01e00020, 0x01e00020], [0x00e00020; 3]),
    // conceal ends after a colour
    (0, 1, [0x18, 0x41, 0x01, 0x42, 0x20, 0x20, 0x20, 0x20], 0x20,
        [0x10e00020, 0x10e00041, 0x10e00020, 0x00200042, 0x00200020, 0x00200020, 0x00200020, 0x00200020, 0x00200020], [0x00e00020; 3]),
    // flash acts after its column, steady at it
    (0, 1, [0x08, 0x41, 0x09, 0x42, 0x20, 0x20, 0x20, 0x20], 0x20,
        [0x00e00020, 0x08e00041, 0x00e00020, 0x00e00042, 0x00e00020, 0x00e00020, 0x00e00020, 0x00e00020, 0x00e00020], [0x00e00020; 3]),
    // the national option is in the control bits: C14 for 1, C13 for 2, C12 for 4
    (0x480, 1, [0x5b, 0x20, 0x20, 0x20, 0x20, 0x20, 0x20, 0x20], 0x20,
        [0x00e000c4, 0x00e00020, 0x00e00020, 0x00e00020, 0x00e00020, 0x00e00020, 0x00e00020, 0x00e00020, 0x00e00020], [0x00e00020; 3]),
    (0x280, 1, [0x5d, 0x20, 0x20, 0x20, 0x20, 0x20, 0x20, 0x20], 0x20,
        [0x00e000c5, 0x00e00020, 0x00e00020, 0x00e00020, 0x00e00020, 0x00e00020, 0x00e00020, 0x00e00020, 0x00e00020], [0x00e00020; 3]),
    (0x180, 1, [0x5b, 0x20, 0x20, 0x20, 0x20, 0x20, 0x20, 0x20], 0x20,
        [0x00e000eb, 0x00e00020, 0x00e00020, 0x00e00020, 0x00e00020, 0x00e00020, 0x00e00020, 0x00e00020, 0x00e00020], [0x00e00020; 3]),
];

// A memory with these control bits, blank except for a row and the next one.
fn memory_of(control: u16, number: usize, codes: &[u8; 8], next: u8) -> Option<PageMemory> {
    let mut rows = [[b' '; 40]; 25];
    if number < 24 {
        rows[number][..8].copy_from_slice(codes);
        rows[number + 1] = [next; 40];
    }
    PageMemory::new(rows, Control(control), [None; 6], false, false, 64, false)
}

// Whether row `number` has these words, and the last one in all columns to the right of them, and so the next row these, or any where
// the word is 0.
fn has_words(view: &View, number: usize, words: &[u32; 9], next: &[u32; 3]) -> bool {
    if number >= 24 {
        return false;
    }
    for c in 0..40usize {
        if cell_word(&view.cells[number][c]) != words[c.min(8)] {
            return false;
        }
        let word = next[c.min(2)];
        if word != 0 && cell_word(&view.cells[number + 1][c]) != word {
            return false;
        }
    }
    true
}

#[test]
fn rows_on_the_display(rt: HostRuntime) {
    for (control, number, codes, below, words, next) in &SHOWN {
        let Some(memory) = memory_of(*control, *number, codes, *below) else {
            panic!(rt; "there is no memory");
        };
        assert!(rt;
            has_words(&render(&memory), *number, words, next),
            "{number} {control}"
        );
    }
}
