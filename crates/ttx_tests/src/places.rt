//! Places of values in a TOML text.

use std::alloc::Global;
use std::test::Fail;
use ttx_places::{place_of, position_of};

const TEXT: &str =
    "lines = 2\n\"ü\" = [1, \"b\"]\n[[page]]\n# 100\n[[page]]\nnumber = \"200\"\n[page.rows]\n  1 = \"A\"\n";

// At bytes 8, 16 and 27 the values of `a/b`, of `b` in `a`, and of `a~1b`.
const SLASH_FIRST: &str = "\"a/b\" = 1\na.b = 2\n\"a~1b\" = 3\n";

// The same at bytes 27, 6 and 17.
const SLASH_LAST: &str = "a.b = 2\n\"a~1b\" = 3\n\"a/b\" = 1\n";

// At byte 11 the value of `~`, at 13 the table `a/b`, and in it at 27 the value of `/`, and at 42 that of `b/` in `a`.
const MARKS: &str = "# ü\n\"~\" = 1\n[\"a/b\"]\n\"/\" = 2\na = { \"b/\" = 3 }\n";

// The line and the column of the value at a path, both from 1, or 0 if there is none.
fn position(alloc: Global, path: &str) -> Option<(usize, usize)> {
    match place_of(alloc, TEXT, path) {
        Ok(Some(place)) => {
            let position = position_of(TEXT.as_bytes(), place);
            Some((position.line, position.column))
        }
        Ok(None) => Some((0, 0)),
        Err(_) => None,
    }
}

#[test]
fn values_by_their_paths(rt: HostRuntime) -> Result<(), Fail> {
    assert!(rt; position(rt.alloc(), "/lines") == Some((1, 9)));
    assert!(rt; position(rt.alloc(), "/ü/2") == Some((2, 11)));
    assert!(rt; position(rt.alloc(), "/page/2") == Some((5, 1)));
    assert!(rt; position(rt.alloc(), "/page/2/number") == Some((6, 10)));
    assert!(rt; position(rt.alloc(), "/page/2/rows/1") == Some((8, 7)));
    assert!(rt; position(rt.alloc(), "/page/1/number") == Some((0, 0)));
    Ok(())
}

fn place(alloc: Global, text: &str, path: &str) -> Option<usize> {
    match place_of(alloc, text, path) {
        Ok(place) => place,
        Err(_) => None,
    }
}

#[test]
fn keys_with_slashes(rt: HostRuntime) -> Result<(), Fail> {
    assert!(rt; place(rt.alloc(), SLASH_FIRST, "/a~1b") == Some(8));
    assert!(rt; place(rt.alloc(), SLASH_FIRST, "/a/b") == Some(16));
    assert!(rt; place(rt.alloc(), SLASH_FIRST, "/a~01b") == Some(27));
    assert!(rt; place(rt.alloc(), SLASH_LAST, "/a~1b") == Some(27));
    assert!(rt; place(rt.alloc(), SLASH_LAST, "/a/b") == Some(6));
    assert!(rt; place(rt.alloc(), SLASH_LAST, "/a~01b") == Some(17));
    Ok(())
}

#[test]
fn keys_of_marks(rt: HostRuntime) -> Result<(), Fail> {
    assert!(rt; place(rt.alloc(), MARKS, "/~0") == Some(11));
    assert!(rt; place(rt.alloc(), MARKS, "/a~1b") == Some(13));
    assert!(rt; place(rt.alloc(), MARKS, "/a~1b/~1") == Some(27));
    assert!(rt; place(rt.alloc(), MARKS, "/a~1b/a/b~1") == Some(42));
    assert!(rt; place(rt.alloc(), MARKS, "/a/b/a/b/") == None);
    Ok(())
}
