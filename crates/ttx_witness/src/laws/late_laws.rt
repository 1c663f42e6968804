//! Laws of late starts and late headers.

ghost use Rattle.ttx_witness.specs.laws.LateLaws.{LateBlankIsUnserved, LateIsUnserved};

/// If every named start of an item is sure: some start is late if and only if there is a tuning slot that none of their runs serves.
pub fn late_is_unserved()
    ensures { LateIsUnserved }
{
    crate::laws::judging_laws::items_are_judged();
    ttx_page::laws::owners_are_unique();
    ttx_page::laws::owners_dont_fall();
    ttx_page::laws::runs_rise();
    ttx_page::laws::cycles_repeat();
    ttx_page::laws::streams_move();
}

/// For receivers that surely clear: some header is late if and only if, after some tuning slot, no header of the page comes in time.
pub fn late_blank_is_unserved()
    ensures { LateBlankIsUnserved }
{
    crate::laws::judging_laws::headers_are_judged();
}
