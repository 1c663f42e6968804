//! A walk takes the slots of two packet files, one by one.

ghost use Rattle.std.specs.Prelude.{refl};
ghost use Rattle.ttx_certify.specs.Walking.{TookFirst, TookSecond};

use crate::walks::passes::{Second, Walk};
use ttx_files::SlotTaker;

impl SlotTaker for Walk<'_> {
    ghost took = { TookFirst };

    fn take(&mut self, slot: &[u8; 42]) {
        let _ = self.first(slot);
    }

    ghost none = { λ start. ((λ h. h), refl, refl) };
}

impl SlotTaker for Second<'_> {
    ghost took = { TookSecond };

    fn take(&mut self, slot: &[u8; 42]) {
        self.second(slot);
    }

    ghost none = { λ start. ((λ x h. h), refl, refl) };
}
