//! By which clock an airing runs, how long it lasts, and whom it serves.

/// The receivers that have to be served.
#[derive(Clone, Copy)]
pub enum Receivers {
    /// Those that show rows as they come.
    AtOnce,
    /// Those that show a page late, too. At most `gap` slots after each header of a page the next header of its magazine must come, with
    /// another page number.
    Late { gap: usize },
}

/// The clock of an airing, how many fields it sends, and for which receivers.
#[derive(Clone, Copy)]
pub struct Airtime<C> {
    pub clock: C,
    pub fields: u32,
    pub receivers: Receivers,
}
