//! The two sides of a splice: the old cycle, and the new one that follows it.

ghost use Rattle.std.specs.Prelude.{◌≢◌};
ghost use Rattle.std.specs.List.{AllPairs};
ghost use Rattle.ttx_page.specs.Views.{ids_of};

use ttx_cycle::Cycle;
use ttx_page::Page;
use ttx_witness::Certificate;

/// A cycle with its pages, whose ids are distinct, and its certificate.
#[derive(Clone, Copy)]
pub struct Side<'a> {
    pub cycle: &'a Cycle,
    pub pages: &'a [Page],
    pub certificate: &'a Certificate,
    ghost distinct: { AllPairs (λ a b. a ≢ b) (ids_of pages.now) },
}

/// An old cycle, and the new one that replaces it.
#[derive(Clone, Copy)]
pub struct Sides<'a> {
    pub old: Side<'a>,
    pub new: Side<'a>,
}
