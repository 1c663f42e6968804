//! Ids of pages.

ghost use Rattle.std.specs.Prelude.{◌≡◌};
ghost use Rattle.ttx_header.specs.Ids.{same_id};

use ttx_header::PageId;

/// Whether two ids are equal.
pub fn same_id(a: PageId, b: PageId) -> bool
    ensures { result ≡ same_id a b }
{
    a.mag() == b.mag() && a.page() == b.page() && a.sub() == b.sub()
}
