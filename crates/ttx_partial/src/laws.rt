//! Laws of cycles without some page numbers.

ghost use Rattle.ttx_partial.specs.Laws.{KeptPagesAreSteady};

/// A page that the cycle without another number sends unchanged is sent unchanged by the cycle itself.
pub fn kept_pages_are_steady()
    ensures { KeptPagesAreSteady }
{
    ttx_header::laws::headers_have_fields();
    ttx_header::laws::headers_are_headers();
}
